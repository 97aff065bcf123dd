use indirection::{Loads, Proposal};

/// A round under way: what was measured, the owners so far, what the cores carry so far, and what
/// was proposed.
#[derive(Clone, Copy)]
pub struct Standing<'a> {
    pub loads: &'a Loads,
    pub owners: &'a [u8],
    pub carried: &'a [u64],
    pub proposals: &'a [Proposal],
}
