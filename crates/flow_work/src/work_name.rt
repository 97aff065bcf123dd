/// The works by name.
#[derive(Clone, Copy, Debug, PartialEq, Eq)]
pub enum WorkName {
    /// [`Count`](crate::Count).
    Count,
    /// [`TcpFlags`](crate::TcpFlags).
    TcpFlags,
    /// [`Gaps`](crate::Gaps).
    Gaps,
    /// [`OrderFold`](crate::OrderFold).
    OrderFold,
}
