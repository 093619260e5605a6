//! What a call returns: the numbers that the header names.
ghost use Rattle.std.specs.Prelude.{◌≡◌};
ghost use Rattle.ac_c.specs.Status.{refusal_status, stream_status};

use aho_corasick::{MatchError, MatchErrorKind, StreamError};

pub const OK: u32 = 0;

pub const NONE: u32 = 1;

pub const NO_MEMORY: u32 = 4;

pub const TOO_MANY_STATES: u32 = 5;

pub const TOO_MANY_PATTERNS: u32 = 6;

pub const PATTERN_TOO_LONG: u32 = 7;

pub const BAD_KIND: u32 = 8;

pub const BAD_START_KIND: u32 = 9;

pub const BAD_ENGINE: u32 = 10;

pub const BAD_PAIRS: u32 = 11;

const NOT_ANCHORED: u32 = 12;

const NOT_UNANCHORED: u32 = 13;

const NOT_STANDARD: u32 = 14;

pub const BAD_SPAN: u32 = 15;

pub const BAD_CURSOR: u32 = 16;

pub const WRONG_COUNT: u32 = 17;

pub const TOO_SHORT: u32 = 18;

pub const BAD_PATTERN: u32 = 19;

pub const EMPTY_PATTERN: u32 = 20;

pub const NO_STREAM: u32 = 21;

pub const FINISHED: u32 = 22;

pub const TOO_MANY_BYTES: u32 = 23;

pub const NO_REPLACER: u32 = 24;

pub const NO_MASKER: u32 = 25;

/// The status of a search that the automaton doesn't have.
pub fn refused(error: &MatchError) -> u32
    ensures { result ≡ refusal_status error.now }
{
    match error.kind() {
        MatchErrorKind::InvalidInputAnchored => NOT_ANCHORED,
        MatchErrorKind::InvalidInputUnanchored => NOT_UNANCHORED,
        MatchErrorKind::UnsupportedStream { .. } => NOT_STANDARD,
        MatchErrorKind::UnsupportedOverlapping { .. } => NOT_STANDARD,
        MatchErrorKind::UnsupportedEmpty => EMPTY_PATTERN,
    }
}

/// The status of a stream that couldn't be made.
pub fn refused_stream(error: &StreamError) -> u32
    ensures { result ≡ stream_status error.now }
{
    match error {
        StreamError::Config(error) => refused(error),
        _ => NO_MEMORY,
    }
}
