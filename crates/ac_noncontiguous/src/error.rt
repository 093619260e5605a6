//! Why an automaton is not built.
//!
//! An automaton stores its states and patterns under 32-bit numbers, of which [`GREATEST`] is the greatest. A build that would
//! need a number past that fails, and a [`BuildError`] says which limit was met, and by what. A build can also run out of memory,
//! at any time. It never fails for another reason.
ghost use Rattle.std.specs.Prelude.{◌≡◌, Some};
ghost use Rattle.ac_noncontiguous.specs.declared.error.BuildErrorKind.TheVariants.{Memory};
ghost use Rattle.ac_noncontiguous.specs.Errors.{build_error_text};

use ac_input::primitives::{GREATEST, PatternID};
use std::alloc::AllocError;
use std::error::Error;
use std::fmt;
use std::marker::Model;

/// Why an automaton is not built.
#[derive(Clone, Debug, PartialEq, Eq, Drop)]
pub enum BuildErrorKind {
    /// There are more states than can be numbered.
    StateIDOverflow {
        /// The greatest number of a state, [`GREATEST`].
        max: u64,
        /// A number past it that a state would need.
        requested_max: u64,
    },
    /// There are more patterns than can be numbered.
    PatternIDOverflow {
        /// The greatest number of a pattern, [`GREATEST`].
        max: u64,
        /// A number past it that a pattern would need.
        requested_max: u64,
    },
    /// A pattern has more than [`GREATEST`] bytes.
    PatternTooLong {
        /// The number of the pattern.
        pattern: PatternID,
        /// How many bytes it has.
        len: usize,
    },
    /// There was no memory for the automaton.
    Memory,
}

/// An automaton that was not built.
///
/// It is a plain value, and making one allocates nothing. A contract sees its kind instead.
#[derive(Clone, Debug, Drop)]
pub struct BuildError {
    kind: BuildErrorKind,
}

impl Model for BuildError {
    ghost use Rattle.ac_noncontiguous.specs.declared.error.BuildErrorKind.{BuildErrorKind};

    ghost Value = { BuildErrorKind };

    ghost view = { λ error. error.kind };

    ghost inverse = { λ kind. record { kind = kind } };
}

impl BuildError {
    /// Why it was not built.
    pub fn kind(&self) -> &BuildErrorKind
        ensures { result.now ≡ self.now }
    {
        &self.kind
    }

    /// States that would need a number past the greatest.
    pub(crate) fn state_id_overflow(max: u64, requested_max: u64) -> BuildError
        ensures { result ≡ BuildErrorKind.StateIDOverflow max requested_max }
    {
        BuildError {
            kind: BuildErrorKind::StateIDOverflow { max, requested_max },
        }
    }

    /// Patterns that would need a number past the greatest.
    pub(crate) fn pattern_id_overflow(max: u64, requested_max: u64) -> BuildError
        ensures { result ≡ BuildErrorKind.PatternIDOverflow max requested_max }
    {
        BuildError {
            kind: BuildErrorKind::PatternIDOverflow { max, requested_max },
        }
    }

    /// A pattern of more bytes than a state's depth may be.
    pub(crate) fn pattern_too_long(pattern: PatternID, len: usize) -> BuildError
        ensures { result ≡ BuildErrorKind.PatternTooLong pattern len }
    {
        BuildError {
            kind: BuildErrorKind::PatternTooLong { pattern, len },
        }
    }

    /// No memory for the automaton.
    pub(crate) fn memory() -> BuildError
        ensures { result ≡ BuildErrorKind.Memory }
    {
        BuildError {
            kind: BuildErrorKind::Memory,
        }
    }
}

impl From<BuildErrorKind> for BuildError {
    ghost from_gives = { λ kind error. error ≡ kind };

    /// The build of an automaton from this one fails for the same reasons.
    fn from(kind: BuildErrorKind) -> BuildError {
        BuildError { kind }
    }
}

impl From<AllocError> for BuildError {
    ghost from_gives = { λ _ error. error ≡ Memory };

    fn from(_error: AllocError) -> BuildError {
        BuildError::memory()
    }
}

impl fmt::Display for BuildError {
    ghost output = { λ error. Some (build_error_text error) };

    fn fmt<W: fmt::Write>(&self, f: &mut fmt::Formatter<W>) -> fmt::Result {
        match self.kind {
            BuildErrorKind::StateIDOverflow { requested_max, .. } => {
                write!(f, "state number {requested_max} is past {GREATEST}")
            }
            BuildErrorKind::PatternIDOverflow { requested_max, .. } => {
                write!(f, "pattern number {requested_max} is past {GREATEST}")
            }
            BuildErrorKind::PatternTooLong { pattern, len } => {
                let number = pattern.as_usize();
                write!(f, "pattern {number} has {len} bytes, more than {GREATEST}")
            }
            BuildErrorKind::Memory => write!(f, "out of memory"),
        }
    }
}

impl Error for BuildError {}
