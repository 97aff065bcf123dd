/// Which kind of block a block is (draft-ietf-opsawg-pcapng, "Block Types").
#[derive(Clone, Copy, Debug, PartialEq, Eq)]
pub enum BlockKind {
    /// Section Header Block.
    Section,
    /// Interface Description Block.
    Description,
    /// Simple Packet Block.
    Simple,
    /// Enhanced Packet Block.
    Enhanced,
    /// Any other block, which is stepped over.
    Other,
}
