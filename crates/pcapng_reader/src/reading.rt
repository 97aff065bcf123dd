ghost use Rattle.std.specs.Prelude.{◌≡◌, ◌≤◌, ◌<◌, ◌⊎◌, ◌+◌, ◌++◌, [], List, ℕ, length, take, true, false, IfOk, OnErr, None};
ghost use Rattle.std.specs.Io.KnownBytes.{Consumes, Keeps, IsAtEnd};
ghost use Rattle.rss_base.specs.Faults.{HasCause};
ghost use Rattle.pcapng_reader.specs.Stages.{kept_back, break_at};

use crate::NgBreak;
use crate::adding::{add, put_last_header};
use crate::format::LONGEST;
use crate::front::begins_section;
use crate::look::{Look, look_at};
use crate::ready::Ready;
use crate::scope::Scope;
use crate::stage::{Adds, Block, Stage};
use crate::turn::{Turn, next_turn};
use crate::window::{ROOM, Window};
use rss_base::{Failed, NoMemory, Source};
use std::alloc::Global;
use std::marker::Model;

/// The reading of a capture from the bytes that were read ahead. Contracts see it as a `Progress`
/// (`specs/Progress.antt`).
#[derive(Drop)]
pub struct Reading {
    window: Window,
    ready: Ready,
    scope: Scope,
    stage: Stage,
    // The number of the next block, or of the one that is read.
    number: u32,
    // How many bytes at the front of the window are a record's captured bytes.
    held: usize,
}

impl Model for Reading {
    ghost use Rattle.std.specs.Prelude.{length, take, drop};
    ghost use Rattle.pcapng_reader.specs.Progress.{Progress};

    ghost Value = { Progress };

    ghost use Rattle.pcapng_reader.specs.Progress.{Suits};

    ghost view = { λ r. record { ready = r.ready; held = take r.held r.window; ahead = drop r.held r.window; stage = r.stage; scope = r.scope; number = r.number } };

    ghost invariant = { λ r. Suits r.stage r.scope r.number (length r.ready) r.held (length r.window) };
}

// Puts one piece behind the other.
fn copy_both(first: &[u8], second: &[u8], into: &mut [u8])
    requires { length first.now + length second.now ≤ length into.old }
    ensures { take (length first.now + length second.now) into.new ≡ first.now ++ second.now }
{
    into[..first.len()].copy_from_slice(first);
    into[first.len()..first.len() + second.len()].copy_from_slice(second);
}

// How many bytes are kept back at a stage: one while blocks may follow.
fn kept_back(stage: Stage) -> usize
    ensures { result ≡ kept_back stage }
{
    match stage {
        Stage::Between { .. } | Stage::Inside(_) => 1,
        Stage::Plain | Stage::Broken(_) | Stage::Ended => 0,
    }
}

impl Reading {
    ghost use Rattle.pcapng_reader.specs.Classic.{is_pcapng};
    ghost use Rattle.pcapng_reader.specs.Progress.{tells, told_of, behind, awaits_block, BlockFits, AddsFit};
    ghost use Rattle.pcapng_reader.specs.Looks.{IsSettled};
    ghost use Rattle.pcapng_reader.specs.Steps.{fresh, hands_on, settled, IsOver, finished, opened_at, passed_over, closed, Stands};

    /// A reading that has read nothing. It takes all its memory now, and none later.
    pub fn new(alloc: Global) -> Result<Reading, NoMemory>
        ensures { IfOk result (λ reading. reading ≡ fresh) }
    {
        let window = Window::new(alloc)?;
        let ready = Ready::new(alloc)?;
        let scope = Scope::new(alloc)?;
        Ok(Reading {
            window,
            ready,
            scope,
            stage: Stage::Plain,
            number: 0,
            held: 0,
        })
    }

    /// These are the first four bytes of the input, or all that it has.
    pub fn begin(&mut self, first: &[u8])
        requires fresh { self.old ≡ fresh }
        requires four { length first.now ≤ 4 }
        ensures told { (rest : List ℕ) → (length first.now < 4 → rest ≡ []) → tells self.new rest ≡ told_of (first.now ++ rest) }
        ensures going { self.new.stage ≡ Stage.Ended → ⊥ }
        ensures whole { break_at self.new.stage ≡ None }
        ensures plain { (rest : List ℕ) → (length first.now < 4 → rest ≡ []) → is_pcapng (first.now ++ rest) ≡ false → (self.new.stage ≡ Stage.Plain) × (length self.new.ready ≤ 4) }
    {
        if first.len() == 4 && begins_section(first) {
            self.window.put(first);
            self.stage = Stage::Between { skip: 0 };
        } else {
            self.ready.put(first);
        }
    }

    /// Whether what is left of the input is handed on as it is.
    pub fn hands_on(&self) -> bool
        ensures value { result ≡ hands_on self.now }
        ensures all { result ≡ true → (self.now.held ≡ []) × (self.now.ahead ≡ []) }
    {
        match self.stage {
            Stage::Plain => self.ready.bytes().is_empty(),
            _ => false,
        }
    }

    /// Whether the next block is read before more is given.
    pub fn awaits_block(&self) -> bool
        ensures { result ≡ awaits_block self.now }
    {
        match self.stage {
            Stage::Between { .. } => self.ready.bytes().len() + self.held < 2,
            Stage::Inside(_) => true,
            Stage::Plain | Stage::Broken(_) | Stage::Ended => false,
        }
    }

    /// Reads ahead, with one read.
    pub fn pull<S: Source>(&mut self, source: &mut S) -> Result<usize, Failed>
        requires room { length self.old.held + length self.old.ahead < ROOM }
        requires going { self.old.stage ≡ Stage.Plain → ⊥ }
        ensures bytes { IfOk result (λ n. (piece : List ℕ) × (length piece ≡ n) × (self.new ≡ record self.old { ahead = self.old.ahead ++ piece }) × Consumes (S.left source.old) (S.left source.new) piece) }
        ensures end { IfOk result (λ n. n ≡ 0 → IsAtEnd (S.left source.new)) }
        ensures err { OnErr result (Keeps (S.left source.old) (S.left source.new) × (self.new ≡ self.old)) }
        ensures cause { HasCause (S.faults source.old) (S.faults source.new) result }
        ensures origin { S.origin source.new ≡ S.origin source.old }
    {
        self.window.pull(source)
    }

    // Lets go of the block before, and keeps back what is still to be given of it.
    fn settle(&mut self, skip: usize)
        requires stage { self.old.stage ≡ Stage.Between skip }
        requires awaits_block { awaits_block self.old ≡ true }
        ensures value { self.new ≡ settled skip self.old }
        ensures skip { skip ≤ length self.old.ahead }
        ensures none { skip ≡ 0 → self.old.held ≡ [] }
    {
        self.ready.put(&self.window.bytes()[..self.held]);
        self.window.consume(self.held + skip);
        self.held = 0;
        self.stage = Stage::Between { skip: 0 };
    }

    // Nothing is read any more. Where no record was given, the header of the capture still is.
    fn finish(&mut self, ending: Stage)
        requires few { length self.old.ready ≤ 1 }
        requires ending { IsOver ending }
        ensures { self.new ≡ finished ending self.old }
    {
        put_last_header(&mut self.ready, self.scope.link());
        self.window.consume(self.held);
        self.held = 0;
        self.stage = ending;
    }

    // The front of the next block was read, and its captured bytes are there.
    fn open(&mut self, front: usize, held: u32, block: Block)
        requires between { self.old.stage ≡ Stage.Between 0 }
        requires few { length self.old.ready ≤ 1 }
        requires none { self.old.held ≡ [] }
        requires there { front + held ≤ length self.old.ahead }
        requires limit { held ≤ LONGEST }
        requires fits { BlockFits block (length self.old.scope.interfaces) held self.old.number }
        ensures value { self.new ≡ opened_at front held block self.old }
        ensures small { block.rest < 4_294_967_296 }
    {
        let _rest = block.rest;
        self.window.consume(front);
        self.held = held as usize;
        self.stage = Stage::Inside(block);
    }

    // Looks at the next block. Whether more bytes are needed for that.
    fn look_on(&mut self, ended: bool) -> bool
        requires between { self.old.stage ≡ Stage.Between 0 }
        requires few { length self.old.ready ≤ 1 }
        requires none { self.old.held ≡ [] }
        ensures { Stands self.old self.new ended result }
    {
        match look_at(&self.scope, self.number, self.window.bytes(), ended) {
            Look::More => true,
            Look::End => {
                self.finish(Stage::Ended);
                false
            }
            Look::Breaks(broken) => {
                self.finish(Stage::Broken(broken));
                false
            }
            Look::Opens { front, held, block } => {
                self.open(front, held, block);
                false
            }
        }
    }

    // Lets go of bytes of a block.
    fn pass(&mut self, block: Block, count: usize, adds: Adds)
        requires inside { self.old.stage ≡ Stage.Inside block }
        requires there { count ≤ length self.old.ahead }
        requires tail { count + 4 ≤ block.rest }
        requires fits { (others held : ℕ) → AddsFit block.adds others held → AddsFit adds others held }
        ensures { self.new ≡ passed_over block count adds self.old }
    {
        // Where no packet's bytes are held, none has to be moved.
        if self.held == 0 {
            self.window.consume(count);
        } else {
            self.window.cut(self.held, count);
        }
        self.stage = Stage::Inside(Block {
            order: block.order,
            total: block.total,
            rest: block.rest - count as u32,
            adds,
        });
    }

    // The block is whole and adds what it adds.
    fn close(&mut self, block: Block)
        requires inside { self.old.stage ≡ Stage.Inside block }
        requires there { block.rest ≤ length self.old.ahead }
        requires settled { IsSettled block.adds }
        ensures { self.new ≡ closed block self.old }
    {
        add(&mut self.ready, &mut self.scope, block, self.held as u32);
        self.number += 1;
        self.stage = Stage::Between {
            skip: block.rest as usize,
        };
    }

    // Goes on inside a block. Whether more bytes are needed for that.
    fn turn_on(&mut self, block: Block, ended: bool) -> bool
        requires inside { self.old.stage ≡ Stage.Inside block }
        ensures { Stands self.old self.new ended result }
    {
        match next_turn(self.number, block, &self.window.bytes()[self.held..], ended) {
            Turn::More => true,
            Turn::Breaks(broken) => {
                self.finish(Stage::Broken(broken));
                false
            }
            Turn::Passes { count, adds } => {
                self.pass(block, count, adds);
                false
            }
            Turn::Whole => {
                self.close(block);
                false
            }
        }
    }

    /// Goes on by one step, where the input ends behind what was read ahead or may go on. Whether
    /// more bytes are needed for that.
    pub fn step(&mut self, ended: bool) -> bool
        requires { awaits_block self.old ≡ true }
        ensures { Stands self.old self.new ended result }
    {
        match self.stage {
            Stage::Between { skip } => {
                self.settle(skip);
                self.look_on(ended)
            }
            Stage::Inside(block) => self.turn_on(block, ended),
            Stage::Plain | Stage::Broken(_) | Stage::Ended => unreachable!(),
        }
    }

    /// Gives the next bytes. While blocks may follow, one byte is kept back.
    pub fn give(&mut self, into: &mut [u8]) -> usize
        requires awaits_block { awaits_block self.old ≡ false }
        requires hands_on { hands_on self.old ≡ false }
        ensures bound { result ≤ length into.new }
        ensures given { (rest : List ℕ) → tells self.old rest ≡ behind (take result into.new) (tells self.new rest) }
        ensures none { result ≡ 0 → 0 < length into.new → (rest : List ℕ) → (tells self.new rest).text ≡ [] }
        ensures stage { self.new.stage ≡ self.old.stage }
        ensures shrinks { length self.new.ready ≤ length self.old.ready }
    {
        let front = self.ready.bytes();
        let most = front.len() + self.held - kept_back(self.stage);
        let count = into.len().min(most);
        let first = count.min(front.len());
        let second = count - first;
        copy_both(&front[..first], &self.window.bytes()[..second], into);
        self.ready.consume(first);
        self.window.consume(second);
        self.held -= second;
        count
    }

    /// The first break, once it was found.
    pub fn broken(&self) -> Option<NgBreak>
        ensures value { result ≡ break_at self.now.stage }
        ensures plain { self.now.stage ≡ Stage.Plain → (self.now.held ≡ []) × (self.now.ahead ≡ []) }
        ensures told { (rest : List ℕ) → (tells self.now rest).text ≡ [] → (result ≡ (tells self.now rest).broken) × (result ≡ None → (rest ≡ []) ⊎ (self.now.stage ≡ Stage.Ended)) }
    {
        match self.stage {
            Stage::Broken(broken) => Some(broken),
            _ => None,
        }
    }
}
