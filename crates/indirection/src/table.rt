ghost use Rattle.std.specs.Prelude.{◌≡◌, ◌≤◌, ◌<◌, length, slice_index, slice_set, IfOk, IfErr, IfNone, All};
ghost use Rattle.indirection.specs.Buckets.{bucket_of_hash};
ghost use Rattle.indirection.specs.Tables.{IsTable, owners_in_turn, first_bad, IsRefusedBy};

use crate::{MOST_BUCKETS, MOST_CORES, TableFault};
use rss_base::NoMemory;
use std::alloc::Global;
use std::marker::Model;

/// The indirection table: the core that owns each bucket. It has 1 to [`MOST_CORES`] cores and 1
/// to [`MOST_BUCKETS`] buckets, and each owner is below the number of cores.
#[derive(Drop)]
pub struct Table {
    cores: u8,
    owners: Vec<u8>,
}

impl Model for Table {
    ghost use Rattle.indirection.specs.Views.{TableView};
    ghost use Rattle.indirection.specs.Tables.{IsTable};

    ghost Value = { TableView };

    ghost view = { λ t. record { cores = t.cores; owners = t.owners.items } };

    ghost invariant = { λ t. IsTable (record { cores = t.cores; owners = t.owners.items }) };
}

impl Table {
    /// A table in which bucket b is of core b modulo the number of cores.
    pub fn new(alloc: Global, cores: u8, buckets: u16) -> Result<Table, NoMemory>
        requires some_core { 1 ≤ cores }
        requires cores { cores ≤ MOST_CORES }
        requires some_bucket { 1 ≤ buckets }
        requires buckets { buckets ≤ MOST_BUCKETS }
        ensures ok { IfOk result (λ t. t ≡ record { cores = cores; owners = owners_in_turn cores buckets }) }
        ensures table { IfOk result IsTable }
    {
        match owners_in_turn(alloc, cores, buckets) {
            Ok(owners) => Ok(Table { cores, owners }),
            Err(no_memory) => Err(no_memory),
        }
    }

    /// A table with these owners. A list of another length is refused for that, else one with an
    /// entry that is no core for the first of them; a list that is a table is refused only for want
    /// of memory.
    pub fn of_list(alloc: Global, cores: u8, buckets: u16, list: &[u8]) -> Result<Table, TableFault>
        requires some_core { 1 ≤ cores }
        requires cores { cores ≤ MOST_CORES }
        requires some_bucket { 1 ≤ buckets }
        requires buckets { buckets ≤ MOST_BUCKETS }
        ensures count { IfOk result (λ t. length list.now ≡ buckets) }
        ensures ok { IfOk result (λ t. t ≡ record { cores = cores; owners = list.now }) }
        ensures table { IfOk result IsTable }
        ensures err { IfErr result (IsRefusedBy cores buckets list.now) }
    {
        if list.len() != buckets as usize {
            return Err(TableFault::BadCount {
                have: u32::try_from(list.len()).unwrap_or(u32::MAX),
                want: u32::from(buckets),
            });
        }
        if let Some(place) = first_bad(cores, list) {
            return Err(TableFault::BadCore {
                place: place as u32,
                core: list[place],
            });
        }
        match list.to_vec(alloc) {
            Ok(owners) => Ok(Table { cores, owners }),
            Err(_) => Err(TableFault::NoMemory),
        }
    }

    /// Another table with the same owners.
    pub fn copy(&self, alloc: Global) -> Result<Table, NoMemory>
        ensures { IfOk result (λ t. t ≡ self.now) }
    {
        match self.owners.to_vec(alloc) {
            Ok(owners) => Ok(Table {
                cores: self.cores,
                owners,
            }),
            Err(_) => Err(NoMemory),
        }
    }

    /// The number of cores that the table was made for.
    pub fn cores(&self) -> u8
        ensures value { result ≡ self.now.cores }
        ensures table { IsTable self.now }
    {
        self.cores
    }

    /// The number of buckets that the table was made for.
    pub fn buckets(&self) -> u16
        ensures value { result ≡ length self.now.owners }
        ensures table { IsTable self.now }
    {
        self.owners.len() as u16
    }

    /// The bucket of a hash, which is the hash modulo the number of buckets.
    pub fn bucket(&self, hash: u32) -> u16
        ensures value { result ≡ bucket_of_hash (length self.now.owners) hash }
        ensures below { result < length self.now.owners }
    {
        (hash % self.owners.len() as u32) as u16
    }

    /// The core that owns a bucket.
    pub fn owner(&self, bucket: u16) -> u8
        requires { bucket < length self.now.owners }
        ensures value { result ≡ slice_index self.now.owners bucket }
        ensures below { result < self.now.cores }
    {
        self.owners[bucket as usize]
    }

    /// The owners of all buckets.
    pub fn owners(&self) -> &[u8]
        ensures value { result.now ≡ self.now.owners }
        ensures table { IsTable self.now }
    {
        &self.owners
    }

    /// Gives a bucket to a core.
    pub fn set(&mut self, bucket: u16, core: u8)
        requires bucket { bucket < length self.old.owners }
        requires core { core < self.old.cores }
        ensures { self.new ≡ record self.old { owners = slice_set self.old.owners bucket core } }
    {
        self.owners[bucket as usize] = core;
    }
}

// The place of the first entry that is no core.
fn first_bad(cores: u8, list: &[u8]) -> Option<usize>
    ensures value { result ≡ first_bad cores list.now }
    ensures none { IfNone result (All (λ core. core < cores) list.now) }
{
    list.iter().position(|core| cores <= *core)
}

// The owners of a new table.
fn owners_in_turn(alloc: Global, cores: u8, buckets: u16) -> Result<Vec<u8>, NoMemory>
    requires { 1 ≤ cores }
    ensures { IfOk result (λ owners. owners.items ≡ owners_in_turn cores buckets) }
{
    let mut owners = Vec::new(alloc);
    for bucket in 0..buckets {
        match owners.push((bucket % u16::from(cores)) as u8) {
            Ok(()) => {}
            Err(_) => return Err(NoMemory),
        }
    }
    Ok(owners)
}

#[cfg(test)]
mod tests;
