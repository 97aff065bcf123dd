ghost use Rattle.std.specs.Prelude.{◌≡◌};
ghost use Rattle.command_words.specs.Words.{dashed, option_text};

/// The options that take a value, in the order in which they are checked.
#[derive(Clone, Copy, Debug, PartialEq, Eq)]
pub enum OptionName {
    /// The number of cores.
    Cores,
    /// The number of buckets, a power of two.
    Buckets,
    /// The key of the hash, in hexadecimal digits.
    Key,
    /// The starting table, as its owners with commas between.
    Table,
    /// The work, by its name.
    Work,
    /// Ordered moves, each `AT:BUCKET:CORE`, with commas between.
    Moves,
    /// Packets from one round to the next.
    Round,
    /// The most moves of a round.
    Limit,
    /// Cells of the packet pool.
    Pool,
    /// The most packets of the capture.
    Packets,
    /// The number of the schedule of a serial run.
    Serial,
}

impl OptionName {
    /// Each option once.
    pub const ALL: [OptionName; 11] = [
        OptionName::Cores,
        OptionName::Buckets,
        OptionName::Key,
        OptionName::Table,
        OptionName::Work,
        OptionName::Moves,
        OptionName::Round,
        OptionName::Limit,
        OptionName::Pool,
        OptionName::Packets,
        OptionName::Serial,
    ];

    /// The name without its dashes, as clap takes it.
    pub fn text(self) -> &'static str
        ensures { result.now ≡ option_text self }
    {
        match self {
            OptionName::Cores => "cores",
            OptionName::Buckets => "buckets",
            OptionName::Key => "key",
            OptionName::Table => "table",
            OptionName::Work => "work",
            OptionName::Moves => "moves",
            OptionName::Round => "round",
            OptionName::Limit => "limit",
            OptionName::Pool => "pool",
            OptionName::Packets => "packets",
            OptionName::Serial => "serial",
        }
    }

    /// The name as it stands in a word.
    pub fn word(self) -> &'static str
        ensures { result.now ≡ dashed (option_text self) }
    {
        match self {
            OptionName::Cores => "--cores",
            OptionName::Buckets => "--buckets",
            OptionName::Key => "--key",
            OptionName::Table => "--table",
            OptionName::Work => "--work",
            OptionName::Moves => "--moves",
            OptionName::Round => "--round",
            OptionName::Limit => "--limit",
            OptionName::Pool => "--pool",
            OptionName::Packets => "--packets",
            OptionName::Serial => "--serial",
        }
    }
}
