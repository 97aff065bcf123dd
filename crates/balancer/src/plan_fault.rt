/// Why no plan was written, or not the whole of it.
#[derive(Clone, Copy, Debug, PartialEq, Eq)]
pub enum PlanFault {
    /// A read failed, and the source has counted that.
    ReadFault,
    /// A write failed, and the sink has counted that.
    WriteFault,
    /// This line, counted from 1, is the first that breaks the form. A line that is missing counts
    /// as the next one.
    BadLine { line: u32 },
    /// Memory was refused.
    NoMemory,
}
