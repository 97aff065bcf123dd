/// Why a report wasn't written whole.
#[derive(Clone, Copy, Debug, PartialEq, Eq)]
pub enum ReportFault {
    /// Memory was refused.
    NoMemory,
    /// A write failed, and the sink has counted that.
    WriteFault,
}
