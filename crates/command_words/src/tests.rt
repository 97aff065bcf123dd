mod lines;

use super::*;
use flow_work::WorkName;
use indirection::MoveOrder;
use lines::*;
use std::alloc::{AllocError, Global};
use std::test::Fail;

// The words of a line, with one space between: two spaces have an empty word between them.
fn words_in(alloc: Global, line: &str) -> Result<Vec<String>, AllocError> {
    let mut words = Vec::new(alloc);
    for word in line.split(' ') {
        words.push(String::from_str(alloc, word)?)?;
    }
    Ok(words)
}

fn read(alloc: Global, line: &str) -> Result<Command, WordFault> {
    match words_in(alloc, line) {
        Ok(words) => read_words(alloc, words.as_slice()),
        Err(_) => Err(WordFault::NoMemory),
    }
}

fn fault(alloc: Global, line: &str) -> Option<WordFault> {
    match read(alloc, line) {
        Ok(_) => None,
        Err(fault) => Some(fault),
    }
}

// How many lines from the front on give this answer.
fn agree(alloc: Global, lines: &[&str], wanted: Option<WordFault>) -> usize {
    for (i, line) in lines.iter().enumerate() {
        if fault(alloc, line) != wanted {
            return i;
        }
    }
    lines.len()
}

fn option(which: OptionName) -> Option<WordFault> {
    Some(WordFault::Option { which })
}

#[test]
fn the_look_refuses_words(rt: HostRuntime) {
    let alloc = rt.alloc();
    let refused = Some(WordFault::Words);
    assert_eq!(rt; agree(alloc, &UNKNOWN, refused), UNKNOWN.len());
    assert_eq!(rt; agree(alloc, &TWICE, refused), TWICE.len());
    assert_eq!(rt; agree(alloc, &WITHOUT_VALUE, refused), WITHOUT_VALUE.len());
    assert_eq!(rt; agree(alloc, &OTHER_COUNT, refused), OTHER_COUNT.len());
}

#[test]
fn no_words_are_refused(rt: HostRuntime) {
    let read = read_words(rt.alloc(), &[]);
    assert!(rt; matches!(read, Err(WordFault::Words)));
}

#[test]
fn a_mode_has_its_values(rt: HostRuntime) {
    let alloc = rt.alloc();
    assert_eq!(rt;
        agree(alloc, &BAD_MODES, Some(WordFault::Mode)),
        BAD_MODES.len()
    );
    assert_eq!(rt;
        agree(alloc, &BAD_VALUES, Some(WordFault::Values)),
        BAD_VALUES.len()
    );
    assert_eq!(rt; agree(alloc, &GOOD_VALUES, None), GOOD_VALUES.len());
}

#[test]
fn bad_numbers_of_cores_and_buckets(rt: HostRuntime) {
    let alloc = rt.alloc();
    assert_eq!(rt;
        agree(alloc, &BAD_CORES, option(OptionName::Cores)),
        BAD_CORES.len()
    );
    assert_eq!(rt;
        agree(alloc, &BAD_BUCKETS, option(OptionName::Buckets)),
        BAD_BUCKETS.len()
    );
}

#[test]
fn bad_keys_and_tables(rt: HostRuntime) {
    let alloc = rt.alloc();
    assert_eq!(rt;
        agree(alloc, &BAD_KEYS, option(OptionName::Key)),
        BAD_KEYS.len()
    );
    assert_eq!(rt;
        agree(alloc, &BAD_TABLES, option(OptionName::Table)),
        BAD_TABLES.len()
    );
}

#[test]
fn bad_works_and_moves(rt: HostRuntime) {
    let alloc = rt.alloc();
    assert_eq!(rt;
        agree(alloc, &BAD_WORKS, option(OptionName::Work)),
        BAD_WORKS.len()
    );
    assert_eq!(rt;
        agree(alloc, &BAD_MOVES, option(OptionName::Moves)),
        BAD_MOVES.len()
    );
}

#[test]
fn bad_numbers_of_a_run(rt: HostRuntime) {
    let alloc = rt.alloc();
    assert_eq!(rt;
        agree(alloc, &BAD_ROUNDS, option(OptionName::Round)),
        BAD_ROUNDS.len()
    );
    assert_eq!(rt;
        agree(alloc, &BAD_LIMITS, option(OptionName::Limit)),
        BAD_LIMITS.len()
    );
    assert_eq!(rt;
        agree(alloc, &BAD_POOLS, option(OptionName::Pool)),
        BAD_POOLS.len()
    );
    assert_eq!(rt;
        agree(alloc, &BAD_PACKETS, option(OptionName::Packets)),
        BAD_PACKETS.len()
    );
    assert_eq!(rt;
        agree(alloc, &BAD_SERIALS, option(OptionName::Serial)),
        BAD_SERIALS.len()
    );
}

// The first bad option in the order of the table is answered.
#[test]
fn options_are_checked_in_order(rt: HostRuntime) {
    let alloc = rt.alloc();
    let key = "report --moves 2:0:1,1:0:0 --work x --table 9 --key 00";
    assert!(rt; fault(alloc, key) == option(OptionName::Key));
    let table = "report --serial x --moves 2 --work x --table 9";
    assert!(rt; fault(alloc, table) == option(OptionName::Table));
    let work = "report --journal --round 0 --moves 2 --work x";
    assert!(rt; fault(alloc, work) == option(OptionName::Work));
    let limit = "demo 1 1 --packets 0 --pool 1 --limit 17";
    assert!(rt; fault(alloc, limit) == option(OptionName::Limit));
}

#[test]
fn words_at_their_bounds_are_accepted(rt: HostRuntime) {
    let alloc = rt.alloc();
    assert_eq!(rt; agree(alloc, &SCHEDULES, None), SCHEDULES.len());
    assert_eq!(rt; agree(alloc, &BOUNDS, None), BOUNDS.len());
}

#[test]
fn a_schedule_and_a_journal_are_read(rt: HostRuntime) -> Result<(), Fail> {
    let alloc = rt.alloc();
    let command = read(alloc, "demo 007 1 --serial 3 --journal")?;
    assert!(rt; command.mode == Mode::Demo && command.count == 7 && command.number == 1);
    assert!(rt; command.serial == Some(3) && command.journal);
    let plain = read(alloc, "report")?;
    assert!(rt; plain.serial.is_none() && !plain.journal);
    Ok(())
}

#[test]
fn options_are_read(rt: HostRuntime) -> Result<(), Fail> {
    let alloc = rt.alloc();
    let line = "--work order report --cores=02 --buckets 1 --moves 2:0:1,5:0:0 --round 7";
    let command = read(alloc, line)?;
    let options = &command.options;
    let orders = [
        MoveOrder {
            at: 2,
            bucket: 0,
            to: 1,
        },
        MoveOrder {
            at: 5,
            bucket: 0,
            to: 0,
        },
    ];
    assert!(rt; command.mode == Mode::Report && options.work == WorkName::OrderFold);
    assert!(rt; options.cores == 2 && options.round == 7);
    assert!(rt; options.start.owners() == [0].as_slice());
    assert!(rt; options.moves.as_slice() == orders.as_slice());
    Ok(())
}

#[test]
fn a_key_and_a_table_are_read(rt: HostRuntime) -> Result<(), Fail> {
    let alloc = rt.alloc();
    let line = "hash --cores 3 --buckets 4 --table 2,1,0,2 --key \
        6d5A00000000000000000000000000000000000000000000000000000000000000000000000000fE";
    let command = read(alloc, line)?;
    let options = &command.options;
    assert!(rt; options.key.0[0] == 0x6d && options.key.0[1] == 0x5a && options.key.0[39] == 0xfe);
    assert!(rt; options.start.owners() == [2, 1, 0, 2].as_slice());
    assert!(rt; options.work == WorkName::Count && options.moves.is_empty());
    Ok(())
}

#[test]
fn what_is_not_given_has_its_default(rt: HostRuntime) -> Result<(), Fail> {
    let command = read(rt.alloc(), "make 500 1")?;
    let options = &command.options;
    assert!(rt; command.mode == Mode::Make && command.count == 500 && command.number == 1);
    assert!(rt; options.cores == 4 && options.start.buckets() == 128);
    assert!(rt; options.start.owner(6) == 2);
    assert!(rt; options.round == 1_000 && options.limit == 4 && options.pool == 1_024);
    assert!(rt; options.packets == 100_000_000);
    Ok(())
}

// Words with so many orders.
fn with_orders(alloc: Global, count: u16) -> Result<String, AllocError> {
    let mut line = String::from_str(alloc, "report --moves 0:0:0")?;
    for _ in 1..count {
        line.push_str(",0:0:0")?;
    }
    Ok(line)
}

#[test]
fn there_are_at_most_4096_orders(rt: HostRuntime) -> Result<(), Fail> {
    let alloc = rt.alloc();
    let most = with_orders(alloc, 4_096)?;
    assert!(rt; fault(alloc, most.as_str()).is_none());
    let more = with_orders(alloc, 4_097)?;
    assert!(rt; fault(alloc, more.as_str()) == option(OptionName::Moves));
    Ok(())
}

#[test]
fn each_kind_of_fault_is_answered(rt: HostRuntime) {
    let alloc = rt.alloc();
    assert!(rt; fault(alloc, "other") == Some(WordFault::Mode));
    assert!(rt; fault(alloc, "hash 5") == Some(WordFault::Values));
    assert!(rt; fault(alloc, "report --cores 2 --cores 2") == Some(WordFault::Words));
    assert!(rt; fault(alloc, "report --cores 65") == option(OptionName::Cores));
    assert!(rt; fault(alloc, "report --buckets 3") == option(OptionName::Buckets));
    assert!(rt; fault(alloc, "report --serial 4294967296") == option(OptionName::Serial));
    let table = "report --cores 2 --buckets 2 --table 0,2";
    assert!(rt; fault(alloc, table) == option(OptionName::Table));
}
