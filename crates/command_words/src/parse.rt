ghost use Rattle.std.specs.Prelude.{◌≡◌, IfOk, List, map, true, is_some, Some};
ghost use Rattle.clap.specs.Words.{app_of};
ghost use Rattle.std.specs.String.{string_bytes};
ghost use Rattle.command_words.specs.Made.{made_app, places_app};
ghost use Rattle.command_words.specs.Parsed.{GivesParts};
ghost use Rattle.command_words.specs.Words.{Part, parts_of};

use crate::OptionName;
use clap::error::ErrorKind;
use clap::{Arg, ArgAction, ArgMatches, Command};
use rss_base::NoMemory;
use std::alloc::{AllocError, Global};

fn with_places<'a>(alloc: Global) -> Result<Command<'a>, AllocError>
    ensures { IfOk result (λ c. app_of c ≡ places_app) }
{
    let mode = Arg::new(alloc, "MODE")
        .required(true)
        .action(ArgAction::Set);
    let count = Arg::new(alloc, "COUNT").action(ArgAction::Set);
    let number = Arg::new(alloc, "NUMBER").action(ArgAction::Set);
    let journal = Arg::new(alloc, "journal")
        .long("journal")
        .action(ArgAction::SetTrue);
    Command::new(alloc, "rsspp")
        .no_binary_name(true)
        .disable_help_flag(true)
        .arg(mode)?
        .arg(count)?
        .arg(number)?
        .arg(journal)
}

fn command<'a>(alloc: Global) -> Result<Command<'a>, AllocError>
    ensures { IfOk result (λ c. app_of c ≡ made_app) }
{
    let mut command = with_places(alloc)?;
    for option in OptionName::ALL {
        let name: &'a str = option.text();
        let arg = Arg::new(alloc, name).long(name).action(ArgAction::Set);
        command = command.arg(arg)?;
    }
    Ok(command)
}

/// What clap makes of words that pass the look. It refuses them for want of memory alone.
pub fn parse<'a>(alloc: Global, words: &'a [String]) -> Result<ArgMatches<'a>, NoMemory>
    requires { is_some (parts_of (map string_bytes words.now)) ≡ true }
    ensures { IfOk result (λ m. (ps : List Part) → parts_of (map string_bytes words.now) ≡ Some ps
        → GivesParts ps m) }
{
    let command = match command(alloc) {
        Ok(command) => command,
        Err(_) => return Err(NoMemory),
    };
    match command.try_get_matches_from(words) {
        Ok(matches) => Ok(matches),
        Err(error) => match error.kind() {
            ErrorKind::OutOfMemory => Err(NoMemory),
            _ => unreachable!(),
        },
    }
}
