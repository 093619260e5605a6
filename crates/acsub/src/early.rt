//! Runs that always write while they read: a mask, and a run for whole words. Why the rules don't suit one, and why it stops.
ghost use Rattle.std.specs.Prelude.{◌≡◌};
ghost use Rattle.acsub.specs.Tool.{status_of_refusal};

use crate::error::RunError;
use std::error::Error;
use std::fmt;

/// Why settings or rules don't suit such a run.
#[derive(Clone, Copy, Debug)]
pub enum Refusal {
    /// A leftmost kind is asked for. A mask covers every occurrence, whatever the kind.
    LeftmostMasked,
    /// Packed search is named. It finds the matches of its kind alone, and a mask covers what overlaps them.
    PackedMasked,
    /// There are no rules to mask by. All would pass through, as if it had been masked.
    NoRules,
    /// A pattern is empty. It covers no byte, so nothing would come of it in a mask.
    EmptyMasked,
    /// The mask is in a pattern, or its partner is: the pattern could occur in what is masked.
    Occurs(u8),
    /// Packed search is named. It finds the matches of its kind alone, and a word may be none of these.
    PackedWord,
    /// A pattern is empty, where whole words are searched for.
    EmptyWord,
}

impl Refusal {
    /// The status with which the program ends.
    pub fn status(&self) -> u8
        ensures { result ≡ status_of_refusal self.now }
    {
        match self {
            Refusal::LeftmostMasked | Refusal::PackedMasked | Refusal::PackedWord => 2,
            Refusal::NoRules | Refusal::EmptyMasked | Refusal::Occurs(_) | Refusal::EmptyWord => 4,
        }
    }
}

impl fmt::Display for Refusal {
    ghost use Rattle.std.specs.Prelude.{Some};
    ghost use Rattle.acsub.specs.Tool.{refusal_text};

    ghost output = { λ refusal. Some (refusal_text refusal) };

    fn fmt<W: fmt::Write>(&self, f: &mut fmt::Formatter<W>) -> fmt::Result {
        match self {
            Refusal::LeftmostMasked => write!(f, "mask: needs the standard kind"),
            Refusal::PackedMasked => write!(f, "mask: packed finds no overlaps"),
            Refusal::NoRules => write!(f, "mask: there are no rules"),
            Refusal::EmptyMasked => write!(f, "mask: a pattern is empty"),
            Refusal::Occurs(byte) => {
                let (high, low) = (byte / 16, byte % 16);
                write!(f, "mask: byte {high:x}{low:x} occurs in a pattern")
            }
            Refusal::PackedWord => write!(f, "word: packed finds no whole words"),
            Refusal::EmptyWord => write!(f, "word: a pattern is empty"),
        }
    }
}

impl Error for Refusal {}

/// Why such a run stopped.
#[derive(Drop)]
pub enum EarlyError {
    /// The settings or the rules don't suit it.
    Refused(Refusal),
    /// It stopped as other runs do.
    Run(RunError),
}

impl From<Refusal> for EarlyError {
    ghost use Rattle.acsub.specs.declared.early.EarlyError.TheVariants.{Refused};

    ghost from_gives = { λ refusal stopped. stopped ≡ Refused refusal };

    fn from(refusal: Refusal) -> EarlyError {
        EarlyError::Refused(refusal)
    }
}

impl From<RunError> for EarlyError {
    ghost use Rattle.acsub.specs.declared.early.EarlyError.TheVariants.{Run};

    ghost from_gives = { λ error stopped. stopped ≡ Run error };

    fn from(error: RunError) -> EarlyError {
        EarlyError::Run(error)
    }
}
