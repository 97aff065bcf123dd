ghost use Rattle.std.specs.Prelude.{◌≡◌, ◌≤◌, ◌<◌, length, take, IfOk, IfErr, OnOk};
ghost use Rattle.std.specs.Io.KnownBytes.{Consumes, IsAtEnd};
ghost use Rattle.rss_base.specs.Faults.{HasCause};
ghost use Rattle.pcapng_reader.specs.Lent.{HasBegun, LeavesOnError, TakesUpToFour};

use crate::NgError;
use crate::reading::Reading;
use rss_base::{Failed, Source, read_at};
use std::alloc::Global;
use std::marker::Model;
use std::snapshot::Snapshot;

/// The beginning of an input, of which up to four bytes were read. Contracts see it as an `Opening`
/// (`specs/Lent.antt`).
#[derive(Drop)]
pub struct NgOpening<S> {
    reading: Reading,
    begun: Snapshot<S>,
}

impl<S> Model for NgOpening<S> {
    ghost use Rattle.pcapng_reader.specs.Lent.{Opening};

    ghost Value = { Opening S };

    ghost view = { λ o. record { progress = o.reading; begun = o.begun.value } };
}

// Reads the first four bytes, or all where there are fewer.
fn read_first<S: Source>(source: &mut S, first: &mut [u8]) -> Result<usize, Failed>
    requires { length first.old ≤ 4 }
    ensures within { IfOk result (λ n. n ≤ length first.new) }
    ensures bytes { IfOk result (λ n. Consumes (S.left source.old) (S.left source.new) (take n first.new)) }
    ensures end { IfOk result (λ n. n < length first.new → IsAtEnd (S.left source.new)) }
    ensures few { TakesUpToFour (S.left source.old) (S.left source.new) }
    ensures cause { HasCause (S.faults source.old) (S.faults source.new) result }
    ensures origin { S.origin source.new ≡ S.origin source.old }
{
    let mut have = 0;
    'reading: while have < first.len() {
        let count = read_at(first, have, source)?;
        if count == 0 {
            return Ok(have);
        }
        have += count;
    }
    Ok(have)
}

// Takes all memory, and then reads the first four bytes.
fn start_reading<S: Source>(alloc: Global, source: &mut S) -> Result<Reading, NgError>
    ensures started { IfOk result (λ reading. HasBegun reading (S.left source.old) (S.left source.new)) }
    ensures few { TakesUpToFour (S.left source.old) (S.left source.new) }
    ensures quiet { OnOk result (S.faults source.new ≡ S.faults source.old) }
    ensures refused { IfErr result (λ error. LeavesOnError S.faults S.origin source.old source.new error) }
    ensures origin { S.origin source.new ≡ S.origin source.old }
{
    let mut reading = match Reading::new(alloc) {
        Ok(reading) => reading,
        Err(_) => return Err(NgError::NoMemory),
    };
    let mut first = [0; 4];
    match read_first(source, &mut first) {
        Ok(count) => {
            reading.begin(&first[..count]);
            Ok(reading)
        }
        Err(_) => Err(NgError::ReadFault),
    }
}

impl<S: Source> NgOpening<S> {
    /// Takes all the memory of a reading, and then reads up to four bytes of the source. `NoMemory`
    /// comes before any read, and `ReadFault` where a read failed.
    pub fn read(alloc: Global, source: &mut S) -> Result<NgOpening<S>, NgError>
        ensures started { IfOk result (λ opening. HasBegun opening.progress (S.left opening.begun) (S.left source.new)) }
        ensures begun { IfOk result (λ opening. opening.begun ≡ source.old) }
        ensures few { TakesUpToFour (S.left source.old) (S.left source.new) }
        ensures quiet { OnOk result (S.faults source.new ≡ S.faults source.old) }
        ensures refused { IfErr result (λ error. LeavesOnError S.faults S.origin source.old source.new error) }
        ensures origin { S.origin source.new ≡ S.origin source.old }
    {
        let begun = Snapshot::of(source);
        match start_reading(alloc, source) {
            Ok(reading) => Ok(NgOpening { reading, begun }),
            Err(error) => Err(error),
        }
    }

    // The reading that goes on from here.
    pub(crate) fn into_reading(self) -> (Reading, Snapshot<S>)
        ensures reading { result.0 ≡ self.progress }
        ensures begun { result.1.value ≡ self.begun }
    {
        let NgOpening { reading, begun } = self;
        (reading, begun)
    }
}
