ghost use Rattle.std.specs.Prelude.{◌≡◌, ◌↔◌, IsTrue, IfOk, Err, map};
ghost use Rattle.std.specs.String.{string_bytes};
ghost use Rattle.command_words.specs.Ranges.{IsAcceptedCommand};
ghost use Rattle.command_words.specs.Reading.{Answers, command_of, read_command};
ghost use Rattle.command_words.specs.Refusals.{is_refused};
ghost use Rattle.command_words.specs.Taken.{given_in};

use crate::given::{journal, mode, serial, values};
use crate::look::passes;
use crate::parse::parse;
use crate::run_options::run_options;
use crate::{Command, WordFault};
use clap::ArgMatches;
use std::alloc::Global;

// The command that clap's matches give.
fn command(alloc: Global, matches: &ArgMatches<'_>) -> Result<Command, WordFault>
    ensures { Answers (read_command (given_in matches.now)) result }
{
    let mode = mode(matches)?;
    let values = values(mode, matches)?;
    let options = run_options(alloc, matches)?;
    let serial = serial(matches)?;
    let journal = journal(matches);
    Ok(Command {
        mode,
        count: values.count,
        number: values.number,
        options,
        serial,
        journal,
    })
}

/// The command that the words after the program's name ask for, or their first fault. Words that
/// the look refuses take no memory.
pub fn read_words(alloc: Global, words: &[String]) -> Result<Command, WordFault>
    ensures answers { Answers (command_of (map string_bytes words.now)) result }
    ensures words { (result ≡ Err WordFault.Words) ↔ IsTrue (is_refused (map string_bytes words.now)) }
    ensures accepted { IfOk result IsAcceptedCommand }
{
    if !passes(words) {
        return Err(WordFault::Words);
    }
    match parse(alloc, words) {
        Err(_) => Err(WordFault::NoMemory),
        Ok(matches) => command(alloc, &matches),
    }
}
