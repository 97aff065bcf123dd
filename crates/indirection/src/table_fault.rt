/// Why a list was refused as a table.
#[derive(Clone, Copy, Debug, PartialEq, Eq)]
pub enum TableFault {
    /// Memory was refused.
    NoMemory,
    /// The list has another number of entries than there are buckets. A length above the greatest
    /// `u32` counts as that number.
    BadCount { have: u32, want: u32 },
    /// The first entry that isn't below the number of cores, and its place in the list, from 0.
    BadCore { place: u32, core: u8 },
}
