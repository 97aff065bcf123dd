ghost use Rattle.std.specs.Prelude.{◌≡◌, map, is_some, not, None};
ghost use Rattle.std.specs.String.{string_bytes};
ghost use Rattle.command_words.specs.Look.{step};
ghost use Rattle.command_words.specs.Refusals.{is_refused};
ghost use Rattle.command_words.specs.Words.{counted, parts_after, parts_of};

use crate::MOST_PLACES;
use crate::kind::{Kind, is_option_word};
use crate::names::has_distinct_names;

/// Where the look over the words stands between two of them.
#[derive(Clone, Copy, Debug, PartialEq, Eq)]
pub struct Look {
    // Whether an option waits for its value.
    opened: bool,
    // The positional words so far.
    places: u8,
}

impl Look {
    // Where it stands after one more word, if that word may stand there.
    fn after(self, word: &str) -> Option<Look>
        ensures { result ≡ step self word.now }
    {
        let Look { opened, places } = self;
        if opened {
            return if is_option_word(word) {
                None
            } else {
                Some(Look {
                    opened: false,
                    places,
                })
            };
        }
        match Kind::of(word) {
            Kind::Plain => {
                if places < MOST_PLACES {
                    Some(Look {
                        opened,
                        places: places + 1,
                    })
                } else {
                    None
                }
            }
            Kind::Opens => Some(Look {
                opened: true,
                places,
            }),
            Kind::Complete => Some(self),
            Kind::Refused => None,
        }
    }
}

// Whether each option has its value, and there are one to three positional words.
fn has_parts(words: &[String]) -> bool
    ensures { result ≡ is_some (counted (parts_after None (map string_bytes words.now))) }
{
    let mut look = Look {
        opened: false,
        places: 0,
    };
    for word in words {
        match look.after(word.as_str()) {
            None => return false,
            Some(next) => look = next,
        }
    }
    !look.opened && look.places > 0
}

fn has_fitting_parts(words: &[String]) -> bool
    ensures { result ≡ is_some (parts_of (map string_bytes words.now)) }
{
    has_parts(words) && has_distinct_names(words)
}

/// Whether clap is to read the words. The rest are refused as words.
pub fn passes(words: &[String]) -> bool
    ensures parts { result ≡ is_some (parts_of (map string_bytes words.now)) }
    ensures refusals { result ≡ not (is_refused (map string_bytes words.now)) }
{
    has_fitting_parts(words)
}
