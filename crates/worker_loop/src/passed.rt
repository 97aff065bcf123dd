// That a gate let a worker pass.
ghost use Rattle.std.specs.Prelude.{◌≡◌};
ghost use Rattle.worker_loop.specs.Counts.{more};

use rss_base::Gate;

/// A worker passed the gate once, and may work one packet. No other code makes this value.
#[derive(Drop)]
pub(crate) struct Passed {
    core: u8,
    /// How many packets it had worked before.
    worked: u64,
}

impl Passed {
    /// Waits at the gate.
    pub(crate) fn at<G: Gate>(gate: &G, core: u8, worked: u64) -> Passed
        ensures { result ≡ record { core = core; worked = worked } }
    {
        gate.pass(core, worked);
        Passed { core, worked }
    }

    /// The packets worked, with the one that it passed for.
    pub(crate) fn counted(self) -> u64
        ensures { result ≡ more self.worked 1 }
    {
        self.worked.saturating_add(1)
    }
}
