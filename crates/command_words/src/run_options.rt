ghost use Rattle.std.specs.Prelude.{◌≡◌, ◌≤◌, ◌⊎◌, IfOk, Ok, Err, MatchResult};
ghost use Rattle.command_words.specs.Reading.{Answers, read_buckets, read_cores, read_key, read_limit, read_options};
ghost use Rattle.command_words.specs.Reading.{read_orders, read_packets, read_pool, read_round, read_start, read_work};
ghost use Rattle.command_words.specs.Taken.{given_in};

use crate::given::{option_number, value};
use crate::key_text::key_of;
use crate::numbers::bucket_count;
use crate::orders::orders_in;
use crate::owners::table_in;
use crate::work_text::work_named;
use crate::{OptionName, WordFault};
use balancer::PolicyName;
use clap::ArgMatches;
use dispatch_loop::{
    DEFAULT_BUCKETS, DEFAULT_CORES, DEFAULT_LIMIT, DEFAULT_PACKETS, DEFAULT_POOL, DEFAULT_ROUND,
    LEAST_PACKETS, LEAST_POOL, LEAST_ROUND, MOST_LIMIT, MOST_POOL, MOST_ROUND, Options,
};
use flow_work::{MOST_PACKETS, WorkName};
use indirection::{MOST_BUCKETS, MOST_CORES, MoveOrder, Table};
use std::alloc::Global;
use toeplitz::{DEFAULT_KEY, Key};

fn cores(matches: &ArgMatches<'_>) -> Result<u8, WordFault>
    ensures value { result ≡ read_cores (given_in matches.now) }
    ensures bounds { IfOk result (λ n. (1 ≤ n) × (n ≤ MOST_CORES)) }
{
    let default = u64::from(DEFAULT_CORES);
    let most = u64::from(MOST_CORES);
    let cores = option_number(matches, OptionName::Cores, default, 1, most)?;
    Ok(cores as u8)
}

fn buckets(matches: &ArgMatches<'_>) -> Result<u16, WordFault>
    ensures value { result ≡ read_buckets (given_in matches.now) }
    ensures bounds { IfOk result (λ n. (1 ≤ n) × (n ≤ MOST_BUCKETS)) }
{
    match value(matches, OptionName::Buckets) {
        None => Ok(DEFAULT_BUCKETS),
        Some(text) => bucket_count(text).ok_or(WordFault::Option {
            which: OptionName::Buckets,
        }),
    }
}

fn key(matches: &ArgMatches<'_>) -> Result<Key, WordFault>
    ensures { result ≡ read_key (given_in matches.now) }
{
    match value(matches, OptionName::Key) {
        None => Ok(DEFAULT_KEY),
        Some(text) => key_of(text).ok_or(WordFault::Option {
            which: OptionName::Key,
        }),
    }
}

fn start(
    alloc: Global,
    cores: u8,
    buckets: u16,
    matches: &ArgMatches<'_>,
) -> Result<Table, WordFault>
    requires low { (1 ≤ cores) × (1 ≤ buckets) }
    requires high { (cores ≤ MOST_CORES) × (buckets ≤ MOST_BUCKETS) }
    ensures { Answers (read_start cores buckets (given_in matches.now)) result }
{
    match value(matches, OptionName::Table) {
        None => match Table::new(alloc, cores, buckets) {
            Err(_) => Err(WordFault::NoMemory),
            Ok(table) => Ok(table),
        },
        Some(text) => match table_in(alloc, cores, buckets, text) {
            Err(_) => Err(WordFault::NoMemory),
            Ok(None) => Err(WordFault::Option {
                which: OptionName::Table,
            }),
            Ok(Some(table)) => Ok(table),
        },
    }
}

fn work(matches: &ArgMatches<'_>) -> Result<WorkName, WordFault>
    ensures { result ≡ read_work (given_in matches.now) }
{
    match value(matches, OptionName::Work) {
        None => Ok(WorkName::Count),
        Some(text) => work_named(text).ok_or(WordFault::Option {
            which: OptionName::Work,
        }),
    }
}

fn orders(
    alloc: Global,
    cores: u8,
    buckets: u16,
    matches: &ArgMatches<'_>,
) -> Result<Vec<MoveOrder>, WordFault>
    requires low { (1 ≤ cores) × (1 ≤ buckets) }
    requires high { (cores ≤ MOST_CORES) × (buckets ≤ MOST_BUCKETS) }
    ensures { MatchResult result
        (λ orders. read_orders cores buckets (given_in matches.now) ≡ Ok orders.items)
        (λ e. (e ≡ WordFault.NoMemory) ⊎ (read_orders cores buckets (given_in matches.now) ≡ Err e)) }
{
    match value(matches, OptionName::Moves) {
        None => Ok(Vec::new(alloc)),
        Some(text) => match orders_in(alloc, cores, buckets, text) {
            Err(_) => Err(WordFault::NoMemory),
            Ok(None) => Err(WordFault::Option {
                which: OptionName::Moves,
            }),
            Ok(Some(orders)) => Ok(orders),
        },
    }
}

fn round(matches: &ArgMatches<'_>) -> Result<u32, WordFault>
    ensures { result ≡ read_round (given_in matches.now) }
{
    let default = u64::from(DEFAULT_ROUND);
    let least = u64::from(LEAST_ROUND);
    let most = u64::from(MOST_ROUND);
    let round = option_number(matches, OptionName::Round, default, least, most)?;
    Ok(round as u32)
}

fn limit(matches: &ArgMatches<'_>) -> Result<u8, WordFault>
    ensures { result ≡ read_limit (given_in matches.now) }
{
    let default = u64::from(DEFAULT_LIMIT);
    let most = u64::from(MOST_LIMIT);
    let limit = option_number(matches, OptionName::Limit, default, 0, most)?;
    Ok(limit as u8)
}

fn pool(matches: &ArgMatches<'_>) -> Result<u32, WordFault>
    ensures { result ≡ read_pool (given_in matches.now) }
{
    let default = u64::from(DEFAULT_POOL);
    let least = u64::from(LEAST_POOL);
    let most = u64::from(MOST_POOL);
    let pool = option_number(matches, OptionName::Pool, default, least, most)?;
    Ok(pool as u32)
}

fn packets(matches: &ArgMatches<'_>) -> Result<u32, WordFault>
    ensures { result ≡ read_packets (given_in matches.now) }
{
    let default = u64::from(DEFAULT_PACKETS);
    let least = u64::from(LEAST_PACKETS);
    let most = u64::from(MOST_PACKETS);
    let packets = option_number(matches, OptionName::Packets, default, least, most)?;
    Ok(packets as u32)
}

/// The options of a run, each as it is given or by default.
pub fn run_options(alloc: Global, matches: &ArgMatches<'_>) -> Result<Options, WordFault>
    ensures { Answers (read_options (given_in matches.now)) result }
{
    let cores = cores(matches)?;
    let buckets = buckets(matches)?;
    let key = key(matches)?;
    let start = start(alloc, cores, buckets, matches)?;
    let work = work(matches)?;
    let moves = orders(alloc, cores, buckets, matches)?;
    let round = round(matches)?;
    let limit = limit(matches)?;
    let pool = pool(matches)?;
    let packets = packets(matches)?;
    Ok(Options {
        key,
        cores,
        start,
        work,
        moves,
        round,
        limit,
        policy: PolicyName::Greedy,
        pool,
        packets,
    })
}
