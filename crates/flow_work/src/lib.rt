//! What is worked out of a flow's packets, taken one by one in their order.
//!
//! A [`FlowWork`] is a fold: a state for no packets, a step for one packet more, and the line that
//! a state prints. What it answers depends on its type alone, so a table of flows stands for a
//! list of packets by the type of its work. There are four, which [`WorkName`] names, and for
//! each a law says in words on the whole list what its fold comes to.
//!
//! Read `work.rt`, the trait, then one work with its definition, as `specs/Count.antt` and
//! `count.rt`: the other three are like it. `laws.rt` has the law of each, and `specs/Flow.antt`
//! and `specs/Costs.antt` are for the layers above.
#![tactic(auto)]

mod count;
mod gaps;
mod laws;
mod limit_laws;
mod order_fold;
mod tcp_flags;
#[cfg(test)]
mod tests;
mod work;
mod work_name;

pub use count::{Count, Counted};
pub use gaps::{Gaps, SeenGaps};
pub use laws::{count_law, flags_law, gap_law, order_law};
pub use limit_laws::limits_are_stated;
pub use order_fold::{FACTOR, OrderFold};
pub use tcp_flags::{FIN, RST, SYN, SeenFlags, TcpFlags};
pub use work::{FlowWork, MOST_COST, MOST_PACKETS};
pub use work_name::WorkName;
