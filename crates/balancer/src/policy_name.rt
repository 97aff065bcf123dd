/// The policies by name.
#[derive(Clone, Copy, Debug, PartialEq, Eq)]
pub enum PolicyName {
    /// The greedy round, which a [`Balancer`](crate::Balancer) makes.
    Greedy,
}
