ghost use Rattle.std.specs.Prelude.{◌≡◌, ◌≤◌, ◌<◌, List, ℕ, length, take, true, false, None, Some, IfOk, OnErr, OnOk};
ghost use Rattle.std.specs.Io.KnownBytes.{Keeps, IsAtEnd};
ghost use Rattle.rss_base.specs.Faults.{HasCause};
ghost use Rattle.pcapng_reader.specs.Progress.{known, text_known, StaysTold, GivesTold, awaits_block, left_to_do};
ghost use Rattle.pcapng_reader.specs.Lent.{Begun, classic_known, HasBegun, TakesUpToFour};
ghost use Rattle.pcapng_reader.specs.Classic.{is_pcapng, break_of};
ghost use Rattle.pcapng_reader.specs.Stages.{break_at};

use crate::opening::NgOpening;
use crate::reading::Reading;
use crate::stage::Stage;
use crate::{NgBreak, NgError};
use rss_base::{Failed, Source};
use std::alloc::Global;
use std::marker::Model;
use std::snapshot::Snapshot;

/// The classic bytes of a capture that a source gives: of a pcapng capture, those of its packets
/// before the first break (`specs/Classic.antt`). Another input is handed on as it is.
#[derive(Drop)]
pub struct NgSource<'a, S: Source> {
    source: &'a mut S,
    reading: Reading,
    begun: Snapshot<S>,
}

impl<'a, S: Source> Model for NgSource<'a, S> {
    ghost use Rattle.pcapng_reader.specs.Lent.{Lent, ReadsOn};

    ghost Value = { Lent S };

    ghost view = { λ n. record { source = n.source; progress = n.reading; begun = n.begun.value } };

    ghost invariant = { λ n. ReadsOn n.reading (S.left n.begun.value) (S.left n.source.now) };
}

// Goes on by one step, with one read where that needs more bytes. Whether the source has no more.
fn go_on<S: Source>(reading: &mut Reading, source: &mut S, ended: bool) -> Result<bool, Failed>
    requires awaits_block { awaits_block reading.old ≡ true }
    requires end { ended ≡ true → IsAtEnd (S.left source.old) }
    ensures told { StaysTold (known reading.old (S.left source.old)) (known reading.new (S.left source.new)) }
    ensures over { reading.new.stage ≡ Stage.Ended → IsAtEnd (S.left source.new) }
    ensures end { IfOk result (λ end. end ≡ true → IsAtEnd (S.left source.new)) }
    ensures nearer { IfOk result (λ end. left_to_do reading.new end < left_to_do reading.old ended) }
    ensures cause { HasCause (S.faults source.old) (S.faults source.new) result }
    ensures origin { S.origin source.new ≡ S.origin source.old }
{
    if !reading.step(ended) {
        return Ok(ended);
    }
    match reading.pull(source) {
        Ok(count) => Ok(count == 0),
        Err(failed) => Err(failed),
    }
}

// Goes on until bytes may be given, or nothing is left.
fn advance<S: Source>(reading: &mut Reading, source: &mut S) -> Result<(), Failed>
    requires { reading.old.stage ≡ Stage.Ended → IsAtEnd (S.left source.old) }
    ensures told { StaysTold (known reading.old (S.left source.old)) (known reading.new (S.left source.new)) }
    ensures over { reading.new.stage ≡ Stage.Ended → IsAtEnd (S.left source.new) }
    ensures ready { OnOk result (awaits_block reading.new ≡ false) }
    ensures still { awaits_block reading.old ≡ false → (reading.new ≡ reading.old) × (source.new ≡ source.old) }
    ensures cause { HasCause (S.faults source.old) (S.faults source.new) result }
    ensures origin { S.origin source.new ≡ S.origin source.old }
{
    let mut ended = false;
    'advancing: while reading.awaits_block() {
        ended = go_on(reading, source, ended)?;
    }
    Ok(())
}

// The next bytes, from what is ready or as the source gives them.
fn read_on<S: Source>(
    reading: &mut Reading,
    source: &mut S,
    into: &mut [u8],
) -> Result<usize, Failed>
    requires over { reading.old.stage ≡ Stage.Ended → IsAtEnd (S.left source.old) }
    ensures within { IfOk result (λ n. n ≤ length into.new) }
    ensures given { IfOk result (λ n. GivesTold (known reading.old (S.left source.old)) (known reading.new (S.left source.new)) (take n into.new)) }
    ensures none { IfOk result (λ n. n ≡ 0 → 0 < length into.new → IsAtEnd (text_known (known reading.new (S.left source.new)))) }
    ensures kept { OnErr result (StaysTold (known reading.old (S.left source.old)) (known reading.new (S.left source.new))) }
    ensures over { reading.new.stage ≡ Stage.Ended → IsAtEnd (S.left source.new) }
    ensures plain { reading.old.stage ≡ Stage.Plain → (reading.new.stage ≡ Stage.Plain) × (length reading.new.ready ≤ length reading.old.ready) }
    ensures cause { HasCause (S.faults source.old) (S.faults source.new) result }
    ensures origin { S.origin source.new ≡ S.origin source.old }
{
    advance(reading, source)?;
    if reading.hands_on() {
        return source.read(into);
    }
    Ok(reading.give(into))
}

impl<'a, S: Source> NgSource<'a, S> {
    /// Takes all its memory, and then reads up to four bytes of the source: [`NgOpening::read`], whose
    /// clauses say which error comes and what the source is then. Those of this call say nothing of an
    /// error.
    pub fn start(alloc: Global, source: &'a mut S) -> Result<NgSource<'a, S>, NgError>
        ensures left { IfOk result (λ ng. Keeps (classic_known (S.left source.old)) (⟦<NgSource<'a, S> as Source>⟧.left ng)) }
        ensures faults { IfOk result (λ ng. ⟦<NgSource<'a, S> as Source>⟧.faults ng ≡ S.faults source.old) }
        ensures origin { IfOk result (λ ng. ⟦<NgSource<'a, S> as Source>⟧.origin ng ≡ record { bytes = S.left source.old; under = S.origin source.old; lent = source.entry.ghost_name }) }
        ensures same_reference { IfOk result (λ ng. ng.source.ghost_name ≡ source.entry.ghost_name) }
        ensures whole { IfOk result (λ ng. break_at ng.progress.stage ≡ None) }
        ensures few { IfOk result (λ ng. TakesUpToFour (S.left source.old) (S.left ng.source.now)) }
    {
        match NgOpening::read(alloc, source) {
            Ok(opening) => Ok(NgSource::over(opening, source)),
            Err(error) => Err(error),
        }
    }

    /// What an opening goes on with, over the source that it read. `start` is both calls in one.
    pub fn over(opening: NgOpening<S>, source: &'a mut S) -> NgSource<'a, S>
        requires started { HasBegun opening.progress (S.left opening.begun) (S.left source.old) }
        ensures left { Keeps (classic_known (S.left opening.begun)) (⟦<NgSource<'a, S> as Source>⟧.left result) }
        ensures faults { ⟦<NgSource<'a, S> as Source>⟧.faults result ≡ S.faults source.old }
        ensures origin { ⟦<NgSource<'a, S> as Source>⟧.origin result ≡ record { bytes = S.left opening.begun; under = S.origin source.old; lent = source.entry.ghost_name } }
        ensures same_reference { result.source.ghost_name ≡ source.entry.ghost_name }
        ensures whole { break_at result.progress.stage ≡ None }
        ensures now { result.source.now ≡ source.old }
    {
        let (reading, begun) = opening.into_reading();
        NgSource {
            source,
            reading,
            begun,
        }
    }

    /// The lent source, whose caller may use it again.
    pub fn into_inner(self) -> &'a mut S
        ensures same_reference { result.ghost_name ≡ self.entry.source.ghost_name }
        ensures now { result.now ≡ self.entry.source.now }
    {
        let NgSource {
            source,
            reading: _,
            begun: _,
        } = self;
        source
    }

    /// The first break of the input, once it was found, and at the latest when nothing is left to be
    /// given. An input that isn't pcapng has none: what is left of it is what its source has left,
    /// behind at most four bytes.
    pub fn broken(&self) -> Option<NgBreak>
        ensures value { result ≡ break_at self.now.progress.stage }
        ensures found { (bytes : List ℕ) (e : NgBreak) → S.left self.now.begun ≡ Some bytes → result ≡ Some e → break_of bytes ≡ Some e }
        ensures broken { (bytes : List ℕ) → S.left self.now.begun ≡ Some bytes → IsAtEnd (⟦<NgSource<'a, S> as Source>⟧.left self.now) → result ≡ break_of bytes }
        ensures none { IsAtEnd (⟦<NgSource<'a, S> as Source>⟧.left self.now) → result ≡ None → IsAtEnd (S.left self.now.source.now) }
        ensures plain { (bytes : List ℕ) → S.left self.now.begun ≡ Some bytes → is_pcapng bytes ≡ false → TakesUpToFour (⟦<NgSource<'a, S> as Source>⟧.left self.now) (S.left self.now.source.now) }
    {
        self.reading.broken()
    }
}

impl<'a, S: Source> Source for NgSource<'a, S> {
    ghost left = { λ ng. text_known (known ng.progress (S.left ng.source.now)) };

    ghost faults = { λ ng. S.faults ng.source.now };

    ghost Origin = { Begun S.Origin };

    ghost origin = { λ ng. record { bytes = S.left ng.begun; under = S.origin ng.source.now; lent = ng.source.ghost_name } };

    fn read(&mut self, into: &mut [u8]) -> Result<usize, Failed> {
        read_on(&mut self.reading, self.source, into)
    }
}
