/// What is known at first, from the value that is told then.
pub trait Start<V, K> {
    /// What is known at first, of what it is told then.
    ghost first: { K → V };
}

/// What is known after a change, from the value that it is told and what was known before.
pub trait Change<T, V> {
    /// What is known after a change, of the value that the change is told and of what was known.
    ghost after: { T → V → V };
}
