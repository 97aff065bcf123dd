use crate::OptionName;

/// Why words are refused. The checks come in this order, want of memory at any point.
#[derive(Clone, Copy, Debug, PartialEq, Eq)]
pub enum WordFault {
    /// Memory was refused.
    NoMemory,
    /// An option or the flag is unknown or stands twice, an option lacks its value, the flag has
    /// one, or there are no positional words or too many.
    Words,
    /// The first positional word is no mode.
    Mode,
    /// The mode has other values than it takes.
    Values,
    /// The value of this option is none that it takes.
    Option { which: OptionName },
}
