/// The fewest cells that a machine may have.
pub const FEWEST_CELLS: u32 = 2;

/// The most cells that a machine may have.
pub const MOST_CELLS: u32 = 4096;

/// The most packets that a machine may send.
pub const MOST_PACKETS: usize = 4_294_967_295;
