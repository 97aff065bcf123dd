ghost use Rattle.std.specs.Prelude.{◌≡◌, ◌≢◌, ◌≤◌, ◌+◌, length, IfOk, IfErr, IfSome, IsErrOf};
ghost use Rattle.pcap_reader.specs.Stream.{HasReadCause, TakesHeader, HeaderRefused, StopsAtHeader, MOST_AHEAD};

use crate::format::CAPTURE_HEADER;
use crate::head::next_head;
use crate::header::announced_by;
use crate::window::{Window, fill};
use crate::{Break, Form, ReadError, Record};
use rss_base::{Link, Source};
use std::alloc::Global;
use std::marker::Model;

/// The most records that may have been given before a call of `next`, so that each has a number.
pub const MOST_RECORDS: u64 = 4_294_967_295;

/// How far the reading of a capture has come.
#[derive(Clone, Copy, Debug, PartialEq, Eq)]
pub enum Progress {
    /// Records may follow.
    Going,
    /// The input ended behind a whole record, or behind the header.
    Ended,
    /// This error was answered, and is answered again from then on.
    Stopped(ReadError),
}

/// Reads the records of a capture, one by one. Contracts see it as a `Reading` (`specs/Reading.antt`).
#[derive(Drop)]
pub struct Reader {
    window: Window,
    form: Form,
    given: u64,
    // The record given last, whose bytes are at the front of the window.
    has_record: bool,
    nanos: u64,
    original: u32,
    held: usize,
    progress: Progress,
}

impl Model for Reader {
    ghost use Rattle.std.specs.Prelude.{◌≡◌, ◌≢◌, ◌≤◌, ◌+◌, length, take, drop, true, false, if◌then◌else◌, None, Some, IfSome};
    ghost use Rattle.pcap_reader.specs.Reading.{Reading};
    ghost use Rattle.pcap_reader.specs.declared.reader.TheConstants.{MOST_RECORDS};
    ghost use Rattle.pcap_reader.specs.declared.reader.Progress.TheVariants.{Going};

    ghost Value = { Reading };

    ghost view = { λ r. record {
      form = r.form;
      given = r.given;
      shown = if r.has_record then Some (record { link = r.form.link; nanos = r.nanos; original = r.original; bytes = take r.held r.window }) else None;
      ahead = drop r.held r.window;
      progress = r.progress;
    } };

    ghost invariant = { λ r. (r.held ≤ length r.window) × (r.progress ≢ Going → r.has_record ≡ false) × (r.has_record ≡ true → (1 ≤ r.given) × (r.given ≤ MOST_RECORDS + 1)) };
}

impl Reader {
    ghost use Rattle.std.specs.Borrow.{sem};
    ghost use Rattle.pcap_reader.specs.Reading.{Reading, still, answer, Proceeds};
    ghost use Rattle.pcap_reader.specs.Next.{captured_of, seen, EndsAs};

    /// Takes the buffer, and then reads the header of the capture. `NoMemory` comes before any read,
    /// `ReadFault` where a read failed, and `Broken` with the first thing that is wrong with the
    /// header.
    pub fn start<S: Source>(alloc: Global, source: &mut S) -> Result<Reader, ReadError>
        ensures header { IfOk result (λ reader. TakesHeader (S.left source.old) (still reader (S.left source.new)) reader.form) }
        ensures first { IfOk result (λ reader. (reader.given ≡ 0) × (reader.progress ≡ Progress.Going)) }
        ensures ahead { IfOk result (λ reader. length reader.ahead ≤ MOST_AHEAD) }
        ensures refused { IfErr result (λ error. HeaderRefused (S.left source.old) error) }
        ensures stops { IfErr result (λ error. StopsAtHeader error (S.left source.old) (S.left source.new)) }
        ensures no_memory { IsErrOf result ReadError.NoMemory → source.new ≡ source.old }
        ensures cause { HasReadCause (S.faults source.old) (S.faults source.new) result }
        ensures origin { S.origin source.new ≡ S.origin source.old }
    {
        let mut window = match Window::new(alloc) {
            Ok(window) => window,
            Err(_) => return Err(ReadError::NoMemory),
        };
        if fill(&mut window, source, CAPTURE_HEADER).is_err() {
            return Err(ReadError::ReadFault);
        }
        let have = window.bytes().len();
        if have < CAPTURE_HEADER {
            return Err(ReadError::Broken(Break::ShortHeader { have: have as u32 }));
        }
        match announced_by(&window.bytes()[..CAPTURE_HEADER]) {
            Ok(form) => {
                window.consume(CAPTURE_HEADER);
                Ok(Reader {
                    window,
                    form,
                    given: 0,
                    has_record: false,
                    nanos: 0,
                    original: 0,
                    held: 0,
                    progress: Progress::Going,
                })
            }
            Err(e) => Err(ReadError::Broken(e)),
        }
    }

    // Moves to the next record, or to the end or error that comes instead.
    fn advance<S: Source>(&mut self, source: &mut S) -> Result<(), ReadError>
        requires { self.old.given ≤ MOST_RECORDS }
        ensures proceeds { Proceeds self.old self.new (S.left source.old) (S.left source.new) (answer result self.new.shown) }
        ensures over { self.old.progress ≢ Progress.Going → source.new ≡ source.old }
        ensures cause { self.old.progress ≡ Progress.Going → HasReadCause (S.faults source.old) (S.faults source.new) result }
        ensures origin { S.origin source.new ≡ S.origin source.old }
    {
        match self.progress {
            Progress::Going => {}
            Progress::Ended => return Ok(()),
            Progress::Stopped(error) => return Err(error),
        }
        self.window.consume(self.held);
        self.held = 0;
        self.has_record = false;
        match next_head(&mut self.window, source, self.form, self.given as u32) {
            Ok(Some(head)) => {
                self.held = head.captured as usize;
                self.nanos = head.nanos;
                self.original = head.original;
                self.has_record = true;
                self.given += 1;
                Ok(())
            }
            Ok(None) => {
                self.progress = Progress::Ended;
                Ok(())
            }
            Err(error) => {
                self.progress = Progress::Stopped(error);
                Err(error)
            }
        }
    }

    // The record given last.
    fn record(&self) -> Option<Record<'_>>
        ensures shown { captured_of result ≡ self.now.shown }
        ensures number { IfSome result (λ r. r.number + 1 ≡ self.now.given) }
    {
        if !self.has_record {
            return None;
        }
        Some(Record {
            number: (self.given - 1) as u32,
            link: self.form.link,
            nanos: self.nanos,
            original: self.original,
            bytes: &self.window.bytes()[..self.held],
        })
    }

    /// The next record, or `None` at the end. It takes no memory. After `None` or an error it
    /// answers the same again, and reads nothing.
    pub fn next<'a, S: Source>(
        &'a mut self,
        source: &mut S,
    ) -> Result<Option<Record<'a>>, ReadError>
        requires { self.old.given ≤ MOST_RECORDS }
        ensures* proceeds { sem 𝓛 (EndsAs self.entry (S.left source.old) (S.left source.new) result) }
        ensures number { self.old.progress ≡ Progress.Going → IfOk result (λ next. IfSome next (λ r. r.number ≡ self.old.given)) }
        ensures over { self.old.progress ≢ Progress.Going → source.new ≡ source.old }
        ensures cause { self.old.progress ≡ Progress.Going → HasReadCause (S.faults source.old) (S.faults source.new) result }
        ensures origin { S.origin source.new ≡ S.origin source.old }
    {
        self.advance(source)?;
        Ok(self.record())
    }

    /// What the frames of the records begin with.
    pub fn link(&self) -> Link
        ensures { result ≡ self.now.form.link }
    {
        self.form.link
    }

    /// How many records were given.
    pub fn given(&self) -> u64
        ensures { result ≡ self.now.given }
    {
        self.given
    }
}
