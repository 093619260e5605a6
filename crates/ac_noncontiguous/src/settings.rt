//! The settings that the builders of all automata share.
//!
//! A builder of one automaton may not have a call for each of them, and passes the others on unchanged.
ghost use Rattle.ac_input.specs.Pairing.{IsFolded};
ghost use Rattle.ac_noncontiguous.specs.Builder.{AreDefaultSettings};

use ac_input::pairing::Pairing;
use ac_input::search::{MatchKind, StartKind};

/// How many bytes the rows of a contiguous automaton may take where nothing else is set: 16 MiB.
pub const ROW_MEMORY: usize = 16777216;

/// How an automaton is built.
#[derive(Clone, Copy)]
pub struct Settings {
    /// Which of several overlapping occurrences is the match.
    pub match_kind: MatchKind,
    /// For which searches a DFA has a start.
    pub start_kind: StartKind,
    /// Which bytes stand for one another.
    pub pairing: Pairing,
    /// Whether a prefilter is wanted.
    pub prefilter: bool,
    /// Below which depth the states of an NFA have rows. Where there is none, each NFA has its own default.
    pub dense_depth: Option<usize>,
    /// Whether bytes that lead alike are one class.
    pub byte_classes: bool,
    /// How many bytes the rows of a contiguous automaton may take.
    pub row_memory: usize,
}

impl Settings {
    /// Standard matches, unanchored searches, no byte paired, a prefilter wanted, each NFA's own depth of rows, and bytes in
    /// classes.
    pub fn new() -> Settings
        ensures { AreDefaultSettings result }
    {
        Settings {
            match_kind: MatchKind::Standard,
            start_kind: StartKind::Unanchored,
            pairing: Pairing::none(),
            prefilter: true,
            dense_depth: None,
            byte_classes: true,
            row_memory: ROW_MEMORY,
        }
    }
}

/// The pairing of the ASCII letters in their two cases, or of no bytes.
pub fn case_pairing(insensitive: bool) -> Pairing
    ensures { IsFolded insensitive result }
{
    if insensitive {
        Pairing::ascii()
    } else {
        Pairing::none()
    }
}
