ghost use Rattle.std.specs.Prelude.{◌≡◌};
ghost use Rattle.indirection.specs.Tries.{owner_by};

/// What came of asking that a bucket goes to a core.
#[derive(Clone, Copy, Debug, PartialEq, Eq)]
pub enum Outcome {
    /// The bucket moved, behind its first `tail` packets.
    Moved {
        tail: u32,
    },
    /// The bucket had no packet yet, and was given to the core.
    Placed,
    /// The core owned the bucket already.
    Same,
    /// The bucket stayed, since its table was still under way to its owner: `tail` is that of its
    /// last move, `sent` is how many of its packets were sent, and `word` is the passage word that
    /// was met, if one was looked at.
    InPassage {
        tail: u32,
        sent: u32,
        word: Option<u64>,
    },
}

impl Outcome {
    /// Who owns the bucket afterwards: the core that it was asked to go to, where it was moved or
    /// placed, and else its owner.
    pub fn owner(&self, owner: u8, to: u8) -> u8
        ensures { result ≡ owner_by owner to self.now }
    {
        match self {
            Outcome::Moved { .. } | Outcome::Placed => to,
            Outcome::Same | Outcome::InPassage { .. } => owner,
        }
    }
}
