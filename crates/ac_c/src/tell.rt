//! What is asked of an automaton without a search.
ghost use Rattle.std.specs.Prelude.{◌≡◌};
ghost use Rattle.ac_c.specs.Tell.{AnswersLength, TellsAbout, engine_number, kind_number, start_number};

use crate::replace::Length;
use crate::status::{BAD_PATTERN, OK};
use aho_corasick::automaton::Automaton;
use aho_corasick::{AhoCorasick, AhoCorasickKind, MatchKind, PatternID, StartKind};

/// What an automaton was built of and as, and about how many bytes of memory it holds.
#[repr(C)]
#[derive(Clone, Copy)]
pub struct About {
    pub patterns: usize,
    pub shortest: usize,
    pub longest: usize,
    pub memory: usize,
    pub kind: u32,
    pub start_kind: u32,
    pub engine: u32,
}

/// The number of a kind.
fn kind_number(kind: MatchKind) -> u32
    ensures { result ≡ kind_number kind }
{
    match kind {
        MatchKind::Standard => 0,
        MatchKind::LeftmostFirst => 1,
        MatchKind::LeftmostLongest => 2,
    }
}

/// The number of a start kind.
fn start_number(kind: StartKind) -> u32
    ensures { result ≡ start_number kind }
{
    match kind {
        StartKind::Unanchored => 0,
        StartKind::Anchored => 1,
        StartKind::Both => 2,
    }
}

/// The number of an engine.
fn engine_number(kind: AhoCorasickKind) -> u32
    ensures { result ≡ engine_number kind }
{
    match kind {
        AhoCorasickKind::NoncontiguousNFA => 1,
        AhoCorasickKind::ContiguousNFA => 2,
        AhoCorasickKind::DFA => 3,
    }
}

/// What an automaton was built of and as.
pub fn describe(ac: &AhoCorasick) -> About
    ensures { TellsAbout ac.now result }
{
    About {
        patterns: ac.patterns_len(),
        shortest: ac.min_pattern_len(),
        longest: ac.max_pattern_len(),
        memory: ac.memory_usage(),
        kind: kind_number(ac.match_kind()),
        start_kind: start_number(ac.start_kind()),
        engine: engine_number(ac.kind()),
    }
}

/// How many bytes the pattern of this number has.
pub fn pattern_len(ac: &AhoCorasick, pattern: u32) -> Length
    ensures { AnswersLength ac.now pattern result }
{
    let number = pattern as usize;
    if number >= ac.patterns_len() {
        return Length::none(BAD_PATTERN);
    }
    match PatternID::new(number) {
        Ok(id) => Length {
            len: Automaton::pattern_len(ac, id),
            status: OK,
        },
        Err(_) => Length::none(BAD_PATTERN),
    }
}
