ghost use Rattle.std.specs.Prelude.{◌≡◌, Some, None};
ghost use Rattle.std.specs.List.{list_any};
ghost use Rattle.std.specs.Str.{bytes_eq};
ghost use Rattle.command_words.specs.Look.{shown};
ghost use Rattle.command_words.specs.Words.{dashed, is_option_word, kind_of, named_kind, option_text, options};

use crate::OptionName;

/// What a word is by itself.
#[derive(Clone, Copy, Debug, PartialEq, Eq)]
pub enum Kind {
    /// No option word.
    Plain,
    /// An option whose value is the next word.
    Opens,
    /// An option with its value, or the flag.
    Complete,
    /// An option word that may not stand.
    Refused,
}

/// Whether the word begins with a dash.
pub fn is_option_word(word: &str) -> bool
    ensures { result ≡ is_option_word word.now }
{
    word.starts_with('-')
}

// Whether the name is that of an option that takes a value.
fn is_option(name: &str) -> bool
    ensures { result ≡ list_any (λ o. bytes_eq (dashed (option_text o)) name.now) options }
{
    OptionName::ALL.iter().any(|option| option.word() == name)
}

fn kind_without_value(name: &str) -> Kind
    ensures { result ≡ shown (named_kind name.now None) }
{
    if name == "--journal" {
        Kind::Complete
    } else if is_option(name) {
        Kind::Opens
    } else {
        Kind::Refused
    }
}

fn kind_with_value(name: &str, value: &str) -> Kind
    ensures { result ≡ shown (named_kind name.now (Some value.now)) }
{
    if name == "--journal" {
        return Kind::Refused;
    }
    if value.is_empty() {
        return Kind::Refused;
    }
    if is_option(name) {
        Kind::Complete
    } else {
        Kind::Refused
    }
}

impl Kind {
    /// The kind of a word.
    pub fn of(word: &str) -> Kind
        ensures { result ≡ shown (kind_of word.now) }
    {
        if !is_option_word(word) {
            return Kind::Plain;
        }
        match word.split_once('=') {
            None => kind_without_value(word),
            Some((name, value)) => kind_with_value(name, value),
        }
    }
}
