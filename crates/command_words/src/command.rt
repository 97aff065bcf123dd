use crate::Mode;
use dispatch_loop::Options;

/// What the words ask for.
#[derive(Drop)]
pub struct Command {
    /// What is to be done.
    pub mode: Mode,
    /// The packets of a generated capture; 0 in a mode without values.
    pub count: u32,
    /// The number of the traffic of a generated capture; 0 in a mode without values.
    pub number: u32,
    /// The options of a run, given or by default.
    pub options: Options,
    /// The number of the schedule, where the run is to be serial.
    pub serial: Option<u32>,
    /// Whether the journal is to be written behind the report.
    pub journal: bool,
}
