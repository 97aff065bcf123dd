// The policy that options name.
ghost use Rattle.std.specs.Prelude.{IfOk};
ghost use Rattle.dispatch_loop.specs.Accepted.{IsAccepted};
ghost use Rattle.dispatch_loop.specs.Fit.{IsPolicyOf};

use crate::Options;
use balancer::{Balancer, Policy, PolicyName};
use rss_base::NoMemory;
use std::alloc::Global;

/// The policy that the options name, for their cores and buckets.
pub fn policy_of(alloc: Global, options: &Options) -> Result<Balancer, NoMemory>
    requires { IsAccepted options.now }
    ensures { IfOk result (λ b. IsPolicyOf options.now (⟦<Balancer as Policy>⟧.stated b) ⟦<Balancer as Policy>⟧.proposals) }
{
    match options.policy {
        PolicyName::Greedy => {
            Balancer::new(alloc, options.start.cores(), options.start.buckets())
        }
    }
}
