//! Why a search returns an error, and why a search of a stream stops.
//!
//! A search returns an error before it looks at a byte: the automaton wasn't built for it, or the search is not defined for the
//! automaton's kind. A [`MatchError`] says which. A search of a stream can stop also because reading, writing or memory failed. A
//! [`StreamError`] distinguishes these, so that a caller knows which side of a copy failed.
ghost use Rattle.std.specs.Prelude.{◌≡◌, Some};
ghost use Rattle.ac_automaton.specs.declared.error.StreamError.TheVariants.{Config, Memory};
ghost use Rattle.ac_automaton.specs.declared.error.ReplaceError.TheVariants.{Match, Memory as NoMemory};
ghost use Rattle.ac_automaton.specs.Errors.{match_error_text, replace_error_text, stream_error_text};

use ac_input::search::MatchKind;
use std::alloc::AllocError;
use std::error::Error;
use std::marker::Model;
use std::{fmt, io};

/// Why a search returns an error.
#[derive(Clone, Copy, Debug, PartialEq, Eq)]
pub enum MatchErrorKind {
    /// An anchored search, by an automaton that was built only for unanchored ones; or an anchored input for an iterator over
    /// overlapping matches, which takes none.
    InvalidInputAnchored,
    /// An unanchored search, by an automaton that was built only for anchored ones.
    InvalidInputUnanchored,
    /// A search of a stream, by an automaton of a leftmost kind. Such a match may depend on bytes arbitrarily far after it.
    UnsupportedStream {
        /// The automaton's kind.
        got: MatchKind,
    },
    /// A search for overlapping matches, by an automaton of a leftmost kind, which drops the overlapped ones when it is built.
    UnsupportedOverlapping {
        /// The automaton's kind.
        got: MatchKind,
    },
    /// A search of a stream, by an automaton with an empty pattern.
    UnsupportedEmpty,
}

/// An unsupported search.
///
/// It is a plain value, and making one allocates nothing. A contract sees its kind instead.
#[derive(Clone, Debug, PartialEq, Eq, Drop)]
pub struct MatchError {
    kind: MatchErrorKind,
}

impl Model for MatchError {
    ghost use Rattle.ac_automaton.specs.declared.error.MatchErrorKind.{MatchErrorKind};

    ghost Value = { MatchErrorKind };

    ghost view = { λ error. error.kind };

    ghost inverse = { λ kind. record { kind = kind } };
}

impl MatchError {
    /// The error for this reason.
    pub fn new(kind: MatchErrorKind) -> MatchError
        ensures { result ≡ kind }
    {
        MatchError { kind }
    }

    /// The reason.
    pub fn kind(&self) -> &MatchErrorKind
        ensures { result.now ≡ self.now }
    {
        &self.kind
    }

    /// An anchored search that isn't supported.
    pub fn invalid_input_anchored() -> MatchError
        ensures { result ≡ MatchErrorKind.InvalidInputAnchored }
    {
        MatchError::new(MatchErrorKind::InvalidInputAnchored)
    }

    /// An unanchored search that isn't supported.
    pub fn invalid_input_unanchored() -> MatchError
        ensures { result ≡ MatchErrorKind.InvalidInputUnanchored }
    {
        MatchError::new(MatchErrorKind::InvalidInputUnanchored)
    }

    /// A search of a stream by an automaton of this kind.
    pub fn unsupported_stream(got: MatchKind) -> MatchError
        ensures { result ≡ MatchErrorKind.UnsupportedStream got }
    {
        MatchError::new(MatchErrorKind::UnsupportedStream { got })
    }

    /// A search for overlapping matches by an automaton of this kind.
    pub fn unsupported_overlapping(got: MatchKind) -> MatchError
        ensures { result ≡ MatchErrorKind.UnsupportedOverlapping got }
    {
        MatchError::new(MatchErrorKind::UnsupportedOverlapping { got })
    }

    /// A search of a stream by an automaton with an empty pattern.
    pub fn unsupported_empty() -> MatchError
        ensures { result ≡ MatchErrorKind.UnsupportedEmpty }
    {
        MatchError::new(MatchErrorKind::UnsupportedEmpty)
    }
}

impl fmt::Display for MatchError {
    ghost output = { λ error. Some (match_error_text error) };

    fn fmt<W: fmt::Write>(&self, f: &mut fmt::Formatter<W>) -> fmt::Result {
        match self.kind {
            MatchErrorKind::InvalidInputAnchored => {
                write!(f, "anchored search is not supported")
            }
            MatchErrorKind::InvalidInputUnanchored => {
                write!(f, "unanchored search is not supported")
            }
            MatchErrorKind::UnsupportedStream { .. } => {
                write!(f, "stream search needs the standard kind")
            }
            MatchErrorKind::UnsupportedOverlapping { .. } => {
                write!(f, "overlapping search needs the standard kind")
            }
            MatchErrorKind::UnsupportedEmpty => {
                write!(f, "stream search takes no empty pattern")
            }
        }
    }
}

impl Error for MatchError {}

/// Why a replacement in memory failed.
#[derive(Debug, Drop)]
pub enum ReplaceError {
    /// The search is not supported.
    Match(MatchError),
    /// There was no memory for the result.
    Memory,
}

impl From<MatchError> for ReplaceError {
    ghost from_gives = { λ refused error. error ≡ Match refused };

    fn from(refused: MatchError) -> ReplaceError {
        ReplaceError::Match(refused)
    }
}

impl From<AllocError> for ReplaceError {
    ghost from_gives = { λ _ error. error ≡ NoMemory };

    fn from(_error: AllocError) -> ReplaceError {
        ReplaceError::Memory
    }
}

impl fmt::Display for ReplaceError {
    ghost output = { λ error. Some (replace_error_text error) };

    fn fmt<W: fmt::Write>(&self, f: &mut fmt::Formatter<W>) -> fmt::Result {
        match self {
            ReplaceError::Match(error) => write!(f, "{error}"),
            ReplaceError::Memory => write!(f, "out of memory"),
        }
    }
}

impl Error for ReplaceError {}

/// Why a search of a stream stopped.
///
/// A stream doesn't resume: what was read so far is lost to the search, and what was written stays written.
#[derive(Debug, Drop)]
pub enum StreamError {
    /// The search is not supported; nothing was read or written.
    Config(MatchError),
    /// A read failed, with this error.
    Read(io::Error),
    /// A write failed, with this error.
    Write(io::Error),
    /// A write was passed bytes and took none, as a full device may.
    WriteZero,
    /// There was no memory for the buffer.
    Memory,
    /// The input is longer than places can be counted.
    Position,
}

impl From<MatchError> for StreamError {
    ghost from_gives = { λ refused error. error ≡ Config refused };

    fn from(refused: MatchError) -> StreamError {
        StreamError::Config(refused)
    }
}

impl From<AllocError> for StreamError {
    ghost from_gives = { λ _ error. error ≡ Memory };

    fn from(_error: AllocError) -> StreamError {
        StreamError::Memory
    }
}

impl fmt::Display for StreamError {
    ghost output = { stream_error_text };

    fn fmt<W: fmt::Write>(&self, f: &mut fmt::Formatter<W>) -> fmt::Result {
        match self {
            StreamError::Config(error) => write!(f, "{error}"),
            StreamError::Read(error) => write!(f, "read failed: {error}"),
            StreamError::Write(error) => write!(f, "write failed: {error}"),
            StreamError::WriteZero => write!(f, "write took no byte"),
            StreamError::Memory => write!(f, "out of memory"),
            StreamError::Position => write!(f, "input too long"),
        }
    }
}

impl Error for StreamError {}
