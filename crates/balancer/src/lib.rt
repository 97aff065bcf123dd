//! Rounds of moves that lower the imbalance of the measured loads, and the plan of one round.
//!
//! [`Balancer::propose`] is proved equal to the greedy round (`specs/Greedy.antt`), which looks at
//! all pairs of a bucket and a core each time. It ranks the buckets once a round and finds each
//! proposal by search; [`propose_plain`] looks at all pairs, with the same contract.
//! [`rounds_lower`] is the law behind it: each proposal lowers the imbalance by twice the square
//! of the number of cores times its gain.
//!
//! A [`Policy`] is what makes the proposals of a round; a [`Balancer`] is one, and [`PolicyName`]
//! names those that the options of a run can ask for.
//!
//! [`plan_text`] reads one instance and writes its round. It is proved against the instance that
//! the lines of the whole text spell, or the first bad line among them (`specs/PlanForm.antt`);
//! [`plans_have_lines`] says the same line by line.
//!
//! Read `specs/Imbalance.antt` and `specs/Greedy.antt`, then `balancer.rt`, `policy.rt` and
//! `laws.rt`; for the plan `specs/PlanForm.antt`, `specs/PlanText.antt` and
//! `specs/PlanAnswer.antt`, then `plan.rt`. The other files search for proposals and read lines.
#![tactic(auto)]

mod balancer;
mod choice;
mod free;
mod laws;
mod limit_laws;
mod limits;
mod line;
mod nearest;
mod number;
mod place;
mod plan;
mod plan_fault;
mod plan_line;
mod plan_reader;
mod policy;
mod policy_name;
mod ranked;
mod ranking;
mod round;
mod round_text;
mod standing;
#[cfg(test)]
mod tests;
mod weigh;
mod window;

pub use balancer::Balancer;
pub use laws::{plans_have_lines, propose_plain, rounds_lower};
pub use limit_laws::{limits_are_stated, plan_texts_are_stated};
pub use limits::{MOST_LOAD, MOST_PROPOSALS};
pub use plan::plan_text;
pub use plan_fault::PlanFault;
pub use policy::Policy;
pub use policy_name::PolicyName;
