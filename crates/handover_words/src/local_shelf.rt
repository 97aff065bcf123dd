ghost use Rattle.std.specs.Prelude.{◌≡◌, ◌≢◌, ◌+◌, ◌<◌, ◌≤◌, ℕ, Some, None, IfOk, length, map, replicate, slice_get, slice_index_or, vec_len, vec_capacity};
ghost use Rattle.std.specs.List.{range_with_len};
ghost use Rattle.bucket_table.specs.Table.{empty_table};
ghost use Rattle.handover_words.specs.ShelfHistory.{fresh};
ghost use Rattle.handover_words.specs.LocalShelf.{Closes};

use crate::told::{Done, Told};
use crate::word::home_word;
use crate::{NotYet, Shelf, ShelfHistory, Shelved};
use bucket_table::{BucketTable, FlowHashKey};
use flow_work::FlowWork;
use known::Known;
use packet_fields::RunName;
use rss_base::NoMemory;
use std::alloc::Global;
use std::marker::{Model, PhantomData};
use std::mem;
use toeplitz::{BucketHash, Key};

/// A shelf for one thread, which is its own end. Contracts see its words, what lies there, and what
/// the end knows.
#[derive(Drop)]
pub struct LocalShelf<T: Shelved<N>, N: RunName> {
    words: Vec<u64>,
    homes: Vec<Option<T>>,
    known: Known<Done, ShelfHistory, BucketHash, Told>,
    name: PhantomData<N>,
}

impl<T: Shelved<N>, N: RunName> Model for LocalShelf<T, N> {
    ghost use Rattle.handover_words.specs.LocalShelf.{LocalView};

    ghost Value = { LocalView T };

    ghost use Rattle.handover_words.specs.Kept.{IsSoundShelf};

    ghost view = { λ s. record { words = s.words.items; homes = s.homes.items; history = s.known.seat.me.0 } };

    ghost invariant = { λ s. IsSoundShelf T.lies s.words.items s.homes.items s.known.seat.me.0 };
}

// One empty table of each bucket, in the order of the buckets.
pub(crate) fn first_tables<W: FlowWork>(
    alloc: Global,
    buckets: u16,
    hashing: &FlowHashKey,
) -> Result<Vec<Option<BucketTable<W>>>, NoMemory>
    ensures { IfOk result (λ homes. homes.items ≡ map (λ b. Some (empty_table b)) (range_with_len 0 buckets)) }
{
    let Ok(mut homes) = Vec::with_capacity(alloc, buckets as usize) else {
        return Err(NoMemory);
    };
    for bucket in 0..buckets {
        homes.push_reserved(Some(BucketTable::new(alloc, bucket, hashing)?));
    }
    Ok(homes)
}

impl<W: FlowWork, N: RunName> LocalShelf<BucketTable<W>, N> {
    /// A shelf on which an empty table of each bucket lies, which hashes by the numbers handed in. No
    /// later call takes memory.
    pub fn new(
        alloc: Global,
        key: &Key,
        buckets: u16,
        hashing: &FlowHashKey,
    ) -> Result<LocalShelf<BucketTable<W>, N>, NoMemory>
        ensures history { IfOk result (λ s. s.history ≡ fresh key.now buckets 1) }
        ensures words { IfOk result (λ s. s.words ≡ replicate buckets 1) }
        ensures homes { IfOk result (λ s. s.homes ≡ map (λ b. Some (empty_table b)) (range_with_len 0 buckets)) }
    {
        let homes = first_tables(alloc, buckets, hashing)?;
        LocalShelf::of(alloc, key, buckets, homes)
    }
}

impl<T: Shelved<N> + Drop, N: RunName> LocalShelf<T, N> {
    // A shelf with these tables, none of which has packets done.
    fn of(
        alloc: Global,
        key: &Key,
        buckets: u16,
        homes: Vec<Option<T>>,
    ) -> Result<LocalShelf<T, N>, NoMemory>
        requires count { length homes.items ≡ buckets }
        requires lying { (b : ℕ) → b < buckets → (t : T) × (slice_get homes.items b ≡ Some (Some t)) × T.lies key.now buckets b 0 t }
        ensures { IfOk result (λ s. s ≡ record { words = replicate buckets 1; homes = homes.items; history = fresh key.now buckets 1 }) }
    {
        let Ok(words) = Vec::from_elem(alloc, home_word(0), buckets as usize) else {
            return Err(NoMemory);
        };
        let Ok(known) = Known::new(alloc, &BucketHash { key: *key, buckets }) else {
            return Err(NoMemory);
        };
        Ok(LocalShelf {
            words,
            homes,
            known,
            name: PhantomData,
        })
    }

    /// Appends the tables to a list that has room for them, in the order of the buckets, while none
    /// of them is out.
    pub fn close(self, into: &mut Vec<T>)
        requires home { (b : ℕ) → b < length self.homes → slice_index_or self.homes b None ≢ None }
        requires room { vec_len into.old + self.history.buckets ≤ vec_capacity into.old }
        ensures tables { Closes T.lies self into.old.items into.new.items }
        ensures room { vec_capacity into.new ≡ vec_capacity into.old }
    {
        let LocalShelf {
            words: _,
            homes,
            known: _,
            name: _,
        } = self;
        for home in homes {
            match home {
                Some(table) => into.push_reserved(table),
                None => unreachable!(),
            }
        }
    }
}

impl<T: Shelved<N>, N: RunName> Shelf<T, N> for LocalShelf<T, N> {
    ghost use Rattle.std.specs.Prelude.{Some, None};
    ghost use Rattle.handover_words.specs.Stock.{stock};

    ghost home = { λ _. None };

    ghost history = { λ s. s.history };

    ghost now = { λ s. Some (stock s.words s.homes) };

    fn claim(&mut self, bucket: u16, place: u32) -> Result<T, NotYet> {
        let met = self.words[bucket as usize];
        if met != home_word(place) {
            self.known.change::<Told>(&Done::Saw { bucket, word: met });
            return Err(NotYet { word: met });
        }
        let home = mem::replace(&mut self.homes[bucket as usize], None);
        self.words[bucket as usize] = met + 1;
        self.known.change::<Told>(&Done::Claimed { bucket, place });
        Ok(home.unwrap())
    }

    fn release(&mut self, bucket: u16, done: u32, table: T) {
        self.words[bucket as usize] = home_word(done);
        match mem::replace(&mut self.homes[bucket as usize], Some(table)) {
            None => {}
            Some(_) => unreachable!(),
        }
        self.known.change::<Told>(&Done::Released { bucket, done });
    }

    fn look(&mut self, bucket: u16) -> u64 {
        let word = self.words[bucket as usize];
        self.known.change::<Told>(&Done::Saw { bucket, word });
        word
    }
}
