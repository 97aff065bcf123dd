ghost use Rattle.std.specs.Prelude.{◌≡◌};
ghost use Rattle.command_words.specs.Values.{mode_in};

/// What is to be done.
#[derive(Clone, Copy, Debug, PartialEq, Eq)]
pub enum Mode {
    /// `report`: the flows of a capture.
    Report,
    /// `hash`: the hash, the bucket and the core of each packet of a capture.
    Hash,
    /// `plan`: the moves that are proposed for given loads.
    Plan,
    /// `make COUNT NUMBER`: a generated capture.
    Make,
    /// `demo COUNT NUMBER`: the report of a generated capture, in brief.
    Demo,
}

/// The mode of this name.
pub fn mode_named(name: &str) -> Option<Mode>
    ensures { result ≡ mode_in name.now }
{
    if name == "report" {
        Some(Mode::Report)
    } else if name == "hash" {
        Some(Mode::Hash)
    } else if name == "plan" {
        Some(Mode::Plan)
    } else if name == "make" {
        Some(Mode::Make)
    } else if name == "demo" {
        Some(Mode::Demo)
    } else {
        None
    }
}
