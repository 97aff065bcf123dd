// The bytes that were read ahead, in one buffer.
ghost use Rattle.std.specs.Prelude.{◌≡◌, ◌≤◌, ◌<◌, ◌+◌, ◌-◌, ◌++◌, [], List, ℕ, length, drop, take, IfOk, OnErr};
ghost use Rattle.std.specs.Io.KnownBytes.{Consumes, Keeps, IsAtEnd};
ghost use Rattle.rss_base.specs.Faults.{HasCause};

use crate::{Failed, NoMemory, Source};
use std::alloc::Global;
use std::marker::Model;

/// The bytes that were read ahead and not yet used, at most `ROOM` of them. Contracts see it as their
/// list.
#[derive(Drop)]
pub struct Window<const ROOM: usize> {
    buffer: Vec<u8>,
    start: usize,
    end: usize,
}

impl<const ROOM: usize> Model for Window<ROOM> {
    ghost use Rattle.std.specs.Prelude.{◌≡◌, ◌≤◌, List, ℕ, length, take, drop};

    ghost Value = { List ℕ };

    ghost view = { λ w. drop w.start (take w.end w.buffer.items) };

    ghost invariant = { λ w. (w.start ≤ w.end) × (w.end ≤ length w.buffer.items) × (length w.buffer.items ≡ ROOM) };
}

// Moves a part to the front.
fn compact(buffer: &mut Vec<u8>, start: usize, end: usize)
    requires order { start ≤ end }
    requires within { end ≤ length buffer.old.items }
    ensures front { take (end - start) buffer.new.items ≡ drop start (take end buffer.old.items) }
    ensures len { length buffer.new.items ≡ length buffer.old.items }
{
    buffer.copy_within(start..end, 0);
}

// Writes a piece at a place.
fn put_at(bytes: &mut [u8], at: usize, piece: &[u8])
    requires { at + length piece.now ≤ length bytes.old }
    ensures { take (at + length piece.now) bytes.new ≡ take at bytes.old ++ piece.now }
{
    bytes[at..at + piece.len()].copy_from_slice(piece);
}

/// One read, behind the first `at` bytes of a buffer. These stay as they are.
pub fn read_at<S: Source>(buffer: &mut [u8], at: usize, source: &mut S) -> Result<usize, Failed>
    requires { at ≤ length buffer.old }
    ensures front { take at buffer.new ≡ take at buffer.old }
    ensures within { IfOk result (λ n. at + n ≤ length buffer.new) }
    ensures bytes { IfOk result (λ n. Consumes (S.left source.old) (S.left source.new) (take n (drop at buffer.new))) }
    ensures end { IfOk result (λ n. n ≡ 0 → at < length buffer.old → IsAtEnd (S.left source.new)) }
    ensures err { OnErr result (Keeps (S.left source.old) (S.left source.new)) }
    ensures cause { HasCause (S.faults source.old) (S.faults source.new) result }
    ensures origin { S.origin source.new ≡ S.origin source.old }
{
    source.read(&mut buffer[at..])
}

// One read, behind the first `end` bytes of the buffer of a window.
fn read_behind<S: Source>(buffer: &mut Vec<u8>, end: usize, source: &mut S) -> Result<usize, Failed>
    requires { end ≤ length buffer.old.items }
    ensures front { take end buffer.new.items ≡ take end buffer.old.items }
    ensures len { length buffer.new.items ≡ length buffer.old.items }
    ensures within { IfOk result (λ n. end + n ≤ length buffer.new.items) }
    ensures bytes { IfOk result (λ n. Consumes (S.left source.old) (S.left source.new) (take n (drop end buffer.new.items))) }
    ensures end { IfOk result (λ n. n ≡ 0 → end < length buffer.old.items → IsAtEnd (S.left source.new)) }
    ensures err { OnErr result (Keeps (S.left source.old) (S.left source.new)) }
    ensures cause { HasCause (S.faults source.old) (S.faults source.new) result }
    ensures origin { S.origin source.new ≡ S.origin source.old }
{
    read_at(buffer, end, source)
}

impl<const ROOM: usize> Window<ROOM> {
    /// An empty window. It takes its whole buffer now, and no memory later.
    pub fn new(alloc: Global) -> Result<Window<ROOM>, NoMemory>
        ensures { IfOk result (λ w. w ≡ []) }
    {
        match vec![in alloc; 0u8; ROOM] {
            Ok(buffer) => Ok(Window {
                buffer,
                start: 0,
                end: 0,
            }),
            Err(_) => Err(NoMemory),
        }
    }

    /// What was read ahead.
    pub fn bytes(&self) -> &[u8]
        ensures value { result.now ≡ self.now }
        ensures room { length self.now ≤ ROOM }
    {
        &self.buffer[self.start..self.end]
    }

    /// Puts a piece behind what is there.
    pub fn put(&mut self, piece: &[u8])
        requires { length self.old + length piece.now ≤ ROOM }
        ensures { self.new ≡ self.old ++ piece.now }
    {
        compact(&mut self.buffer, self.start, self.end);
        let kept = self.end - self.start;
        put_at(&mut self.buffer, kept, piece);
        self.start = 0;
        self.end = kept + piece.len();
    }

    /// Lets go of that many bytes at the front.
    pub fn consume(&mut self, count: usize)
        requires { count ≤ length self.old }
        ensures { self.new ≡ drop count self.old }
    {
        self.start += count;
    }

    /// Lets go of that many bytes behind the first `from`.
    pub fn cut(&mut self, from: usize, count: usize)
        requires { from + count ≤ length self.old }
        ensures { self.new ≡ take from self.old ++ drop (from + count) self.old }
    {
        let at = self.start + from;
        self.buffer.copy_within(at + count..self.end, at);
        self.end -= count;
    }

    /// One read, which asks for all that the buffer has room for.
    pub fn pull<S: Source>(&mut self, source: &mut S) -> Result<usize, Failed>
        requires { length self.old < ROOM }
        ensures bytes { IfOk result (λ n. (piece : List ℕ) × (length piece ≡ n) × (self.new ≡ self.old ++ piece) × Consumes (S.left source.old) (S.left source.new) piece) }
        ensures end { IfOk result (λ n. n ≡ 0 → IsAtEnd (S.left source.new)) }
        ensures err { OnErr result (Keeps (S.left source.old) (S.left source.new) × (self.new ≡ self.old)) }
        ensures cause { HasCause (S.faults source.old) (S.faults source.new) result }
        ensures origin { S.origin source.new ≡ S.origin source.old }
    {
        compact(&mut self.buffer, self.start, self.end);
        self.end -= self.start;
        self.start = 0;
        match read_behind(&mut self.buffer, self.end, source) {
            Ok(count) => {
                self.end += count;
                Ok(count)
            }
            Err(failed) => Err(failed),
        }
    }
}
