ghost use Rattle.std.specs.Prelude.{◌≡◌, ◌<◌, length, slice_set, replicate, IfOk};

use rss_base::NoMemory;
use std::alloc::Global;
use std::marker::Model;

/// What a round of balancing weighs: the load of each bucket since the last round, and the base of
/// each core, which is what it has still to work. Both are counted in the costs of packets.
#[derive(Drop)]
pub struct Loads {
    bucket: Vec<u64>,
    base: Vec<u64>,
}

impl Model for Loads {
    ghost use Rattle.indirection.specs.Views.{LoadsView};

    ghost Value = { LoadsView };

    ghost view = { λ l. record { bucket = l.bucket.items; base = l.base.items } };
}

impl Loads {
    /// No load on any bucket or core.
    pub fn new(alloc: Global, buckets: u16, cores: u8) -> Result<Loads, NoMemory>
        ensures { IfOk result (λ l. l ≡ record { bucket = replicate buckets 0; base = replicate cores 0 }) }
    {
        let Ok(bucket) = vec![in alloc; 0; buckets as usize] else {
            return Err(NoMemory);
        };
        let Ok(base) = vec![in alloc; 0; cores as usize] else {
            return Err(NoMemory);
        };
        Ok(Loads { bucket, base })
    }

    /// These loads of buckets and bases of cores.
    pub fn of_lists(bucket: Vec<u64>, base: Vec<u64>) -> Loads
        ensures { result ≡ record { bucket = bucket.items; base = base.items } }
    {
        Loads { bucket, base }
    }

    /// Other loads with the same numbers.
    pub fn copy(&self, alloc: Global) -> Result<Loads, NoMemory>
        ensures { IfOk result (λ l. l ≡ self.now) }
    {
        let Ok(bucket) = self.bucket.to_vec(alloc) else {
            return Err(NoMemory);
        };
        let Ok(base) = self.base.to_vec(alloc) else {
            return Err(NoMemory);
        };
        Ok(Loads { bucket, base })
    }

    /// The load of each bucket.
    pub fn bucket(&self) -> &[u64]
        ensures { result.now ≡ self.now.bucket }
    {
        &self.bucket
    }

    /// The base of each core.
    pub fn base(&self) -> &[u64]
        ensures { result.now ≡ self.now.base }
    {
        &self.base
    }

    /// Changes the load of a bucket.
    pub fn set_bucket(&mut self, bucket: u16, load: u64)
        requires { bucket < length self.old.bucket }
        ensures { self.new ≡ record self.old { bucket = slice_set self.old.bucket bucket load } }
    {
        self.bucket[bucket as usize] = load;
    }

    /// Changes the base of a core.
    pub fn set_base(&mut self, core: u8, base: u64)
        requires { core < length self.old.base }
        ensures { self.new ≡ record self.old { base = slice_set self.old.base core base } }
    {
        self.base[core as usize] = base;
    }

    /// Takes the load off every bucket.
    pub fn clear_buckets(&mut self)
        ensures { self.new ≡ record self.old { bucket = replicate (length self.old.bucket) 0 } }
    {
        self.bucket.fill(0);
    }
}
