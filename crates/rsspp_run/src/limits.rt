/// More sweeps than any run has: each sweep does a step of the handover machine, a round or a try,
/// of which there are fewer for the most packets, orders and rounds.
pub(crate) const MOST_SWEEPS: u64 = 1_099_511_627_776;
