ghost use Rattle.std.specs.Prelude.{◌≡◌, ◌≤◌, ◌-◌, ◌<◌, IfOk, IfSome, All, map, option_map};
ghost use Rattle.command_words.specs.Values.{each_in, if_length, number_within, table_in};

use crate::numbers::number_between;
use crate::pieces::comma_pieces;
use indirection::{MOST_BUCKETS, MOST_CORES, Table, TableFault};
use rss_base::NoMemory;
use std::alloc::{AllocError, Global};

// The cores that the texts spell, each below the number of cores.
fn owners_of(alloc: Global, cores: u8, texts: &[&str]) -> Result<Option<Vec<u8>>, AllocError>
    requires { 1 ≤ cores }
    ensures { IfOk result (λ o. option_map (λ v. v.items) o
        ≡ each_in (number_within 0 (cores - 1)) (map (λ s. s.now) texts.now)) }
{
    let mut owners = Vec::new(alloc);
    for text in texts {
        match number_between(0, u64::from(cores - 1), text) {
            None => return Ok(None),
            Some(core) => owners.push(core as u8)?,
        }
    }
    Ok(Some(owners))
}

// The table of these owners, where there are as many as buckets.
fn table_of(
    alloc: Global,
    cores: u8,
    buckets: u16,
    owners: &[u8],
) -> Result<Option<Table>, NoMemory>
    requires low { (1 ≤ cores) × (1 ≤ buckets) }
    requires high { (cores ≤ MOST_CORES) × (buckets ≤ MOST_BUCKETS) }
    requires owners { All (λ owner. owner < cores) owners.now }
    ensures { IfOk result (λ o. o ≡ option_map (λ list. record { cores = cores; owners = list }) (if_length buckets owners.now)) }
{
    match Table::of_list(alloc, cores, buckets, owners) {
        Ok(table) => Ok(Some(table)),
        Err(TableFault::NoMemory) => Err(NoMemory),
        Err(TableFault::BadCount { have: _, want: _ }) => Ok(None),
        Err(TableFault::BadCore { place: _, core: _ }) => Ok(None),
    }
}

/// The table that the text spells: as many cores as there are buckets, with commas between.
pub fn table_in(
    alloc: Global,
    cores: u8,
    buckets: u16,
    text: &str,
) -> Result<Option<Table>, NoMemory>
    requires low { (1 ≤ cores) × (1 ≤ buckets) }
    requires high { (cores ≤ MOST_CORES) × (buckets ≤ MOST_BUCKETS) }
    ensures { IfOk result (λ o. o ≡ table_in cores buckets text.now) }
{
    let texts = match comma_pieces(alloc, text) {
        Ok(texts) => texts,
        Err(_) => return Err(NoMemory),
    };
    match owners_of(alloc, cores, texts.as_slice()) {
        Err(_) => Err(NoMemory),
        Ok(None) => Ok(None),
        Ok(Some(owners)) => table_of(alloc, cores, buckets, owners.as_slice()),
    }
}
