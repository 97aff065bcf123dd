ghost use Rattle.std.specs.Prelude.{◌≡◌, ◌++◌, [], List, ℕ, OnOk, OnErr};
ghost use Rattle.std.specs.List.{flat_map};
ghost use Rattle.std.specs.Fmt.{decimal};

use crate::piece::{hex2, hex8};
use crate::{NoMemory, Piece};
use itoa::Buffer;
use std::alloc::Global;
use std::marker::Model;

/// A text that is put together before it is written. Contracts see it as the list of its bytes.
#[derive(Drop)]
pub struct Text {
    bytes: Vec<u8>,
}

impl Model for Text {
    ghost use Rattle.std.specs.Prelude.{List, ℕ};

    ghost Value = { List ℕ };

    ghost view = { λ t. t.bytes.items };
}

impl Text {
    ghost use Rattle.rss_base.specs.Piece.{piece_text, GrowsByFront};

    /// An empty text, which takes no memory yet.
    pub fn new(alloc: Global) -> Text
        ensures { result ≡ [] }
    {
        Text {
            bytes: Vec::new(alloc),
        }
    }

    /// Appends bytes as they are. After [`NoMemory`] the text is as it was.
    pub fn push_bytes(&mut self, piece: &[u8]) -> Result<(), NoMemory>
        ensures ok { OnOk result (self.new ≡ self.old ++ piece.now) }
        ensures err { OnErr result (self.new ≡ self.old) }
    {
        match self.bytes.extend_from_slice(piece) {
            Ok(()) => Ok(()),
            Err(_) => Err(NoMemory),
        }
    }

    /// Appends a number in decimal digits. After [`NoMemory`] the text is as it was.
    pub fn push_number(&mut self, value: u64) -> Result<(), NoMemory>
        ensures ok { OnOk result (self.new ≡ self.old ++ decimal value) }
        ensures err { OnErr result (self.new ≡ self.old) }
    {
        let mut buffer = Buffer::new();
        self.push_bytes(buffer.format(value).as_bytes())
    }

    // Appends one piece. After `NoMemory` the text is as it was.
    fn push(&mut self, piece: &Piece<'_>) -> Result<(), NoMemory>
        ensures ok { OnOk result (self.new ≡ self.old ++ piece_text piece.now) }
        ensures err { OnErr result (self.new ≡ self.old) }
    {
        match piece {
            Piece::Bytes(bytes) => self.push_bytes(bytes),
            Piece::Number(value) => self.push_number(*value),
            Piece::Hex2(value) => self.push_bytes(&hex2(*value)),
            Piece::Hex8(value) => self.push_bytes(&hex8(*value)),
        }
    }

    /// Appends all pieces, one behind the other. After [`NoMemory`] a front of their text was
    /// appended.
    pub fn push_all(&mut self, pieces: &[Piece<'_>]) -> Result<(), NoMemory>
        ensures ok { OnOk result (self.new ≡ self.old ++ flat_map piece_text pieces.now) }
        ensures err { OnErr result (GrowsByFront self.old self.new (flat_map piece_text pieces.now)) }
    {
        for piece in pieces {
            self.push(piece)?;
        }
        Ok(())
    }

    /// What was appended since the start or the last `clear`.
    pub fn bytes(&self) -> &[u8]
        ensures { result.now ≡ self.now }
    {
        &self.bytes
    }

    /// Empties the text and keeps its memory.
    pub fn clear(&mut self)
        ensures { self.new ≡ [] }
    {
        self.bytes.clear();
    }
}
