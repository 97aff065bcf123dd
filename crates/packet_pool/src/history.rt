/// What an end of a pool knows: counts of its calls by what they answered, which never fall. It
/// exists in proofs alone, where its numbers have no greatest value.
pub struct PoolHistory {
    /// How many cells it took.
    pub taken: u64,
    /// How many cells it gave.
    pub given: u64,
    /// How often it met the pool empty.
    pub empties: u64,
    /// How often it met the pool with all its cells.
    pub fulls: u64,
}
