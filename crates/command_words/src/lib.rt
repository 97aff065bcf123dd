//! The command words.
//!
//! [`read_words`] is proved equal to a definition that computes (`specs/Reading.antt`) and knows
//! nothing of clap: the command, or the first fault in the order of the checks. First comes a
//! look over the words, which alone decides whether they are refused as words
//! (`specs/Words.antt`, and each refusal by itself in `specs/Refusals.antt`). What passes it, clap
//! reads as one simple command and refuses for want of memory alone. Then each value is checked
//! in the order of the table of options (`specs/Values.antt`). Every field of a command is in its
//! range (`specs/Ranges.antt`).
//!
//! Read `specs/Words.antt`, `specs/Values.antt` and `specs/Reading.antt`, then `command.rt`,
//! `word_fault.rt` and `reading.rt`. `specs/Refusals.antt` and `specs/Ranges.antt` stand by
//! themselves. The other files are the look, the parse and the values.
#![tactic(auto)]

mod command;
mod given;
mod key_text;
mod kind;
mod limit_laws;
mod limits;
mod look;
mod mode;
mod names;
mod numbers;
mod option_name;
mod orders;
mod owners;
mod parse;
mod pieces;
mod reading;
mod run_options;
#[cfg(test)]
mod tests;
mod values;
mod word_fault;
mod work_text;

pub use command::Command;
pub use limit_laws::limits_are_stated;
pub use limits::{MOST_COUNT, MOST_DIGITS, MOST_NUMBER, MOST_PLACES};
pub use mode::Mode;
pub use option_name::OptionName;
pub use reading::read_words;
pub use word_fault::WordFault;
