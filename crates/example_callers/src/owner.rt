//! A type that holds an automaton, and how the conditions of the calls are met there: by ghost fields and clauses that name words of
//! the front alone.
ghost use Rattle.std.specs.Prelude.{◌≡◌, ◌≤◌, false, length, IfOk};
ghost use Rattle.aho_corasick.specs.AhoCorasick.{kind_of, pattern_count, patterns_of, start_kind_of, supported_by};
ghost use Rattle.aho_corasick.specs.Work.{shortest};
ghost use Rattle.aho_corasick.specs.declared.MatchKind.TheVariants.{Standard};
ghost use Rattle.aho_corasick.specs.declared.StartKind.TheVariants.{Unanchored};

use aho_corasick::{
    AhoCorasick, Anchored, FindOverlappingIter, Input, Match, MatchKind, OverlappingState,
    StartKind, StreamFindIter, Watched,
};
use std::alloc::{AllocError, Global};

/// The match of the text, by an automaton that has a start for it.
pub fn found_by(ac: &AhoCorasick, text: &str) -> Option<Match>
    requires { supported_by ac.now Anchored.No }
{
    ac.find(Input::from(text))
}

/// The first occurrence in the text, by an automaton that can show all.
pub fn shown_by(ac: &AhoCorasick, text: &[u8]) -> Option<Match>
    requires supports { supported_by ac.now Anchored.No }
    requires standard { kind_of ac.now ≡ Standard }
{
    let mut state = OverlappingState::start();
    ac.find_overlapping(Input::new(text), &mut state);
    state.get_match()
}

/// An automaton that makes every search that isn't anchored, also of streams, and a replacement for each of its patterns.
#[derive(Debug, Drop)]
pub struct Owner {
    ac: AhoCorasick,
    replacements: Vec<&'static str>,
    ghost unanchored: { start_kind_of ac ≡ Unanchored },
    ghost standard: { kind_of ac ≡ Standard },
    ghost filled: { 1 ≤ shortest (patterns_of ac) },
    ghost one_each: { length replacements.items ≡ pattern_count ac },
}

impl Owner {
    ghost use Rattle.aho_corasick.specs.Packed.{bytes_of};
    ghost use Rattle.aho_corasick.specs.Replaced.{IsReplacedText};

    /// An owner of both, if the automaton makes these searches and the replacements are as many as the patterns.
    pub fn new(ac: AhoCorasick, replacements: Vec<&'static str>) -> Option<Owner> {
        if ac.min_pattern_len() == 0 || replacements.len() != ac.patterns_len() {
            return None;
        }
        match (ac.start_kind(), ac.match_kind()) {
            (StartKind::Unanchored, MatchKind::Standard) => Some(Owner { ac, replacements }),
            _ => None,
        }
    }

    /// The match of the text.
    pub fn first(&self, text: &str) -> Option<Match> {
        found_by(&self.ac, text)
    }

    /// The first occurrence in the text.
    pub fn shown(&self, text: &[u8]) -> Option<Match> {
        shown_by(&self.ac, text)
    }

    /// All occurrences in the text, one after another.
    pub fn all<'a>(&'a self, text: &'a str) -> FindOverlappingIter<'a, 'a> {
        self.ac.find_overlapping_iter(Input::from(text))
    }

    /// The text with each match replaced.
    pub fn replaced(&self, alloc: Global, text: &str) -> Result<String, AllocError>
        ensures { IfOk result
            (IsReplacedText self.now.ac text.now (bytes_of self.now.replacements.items)) }
    {
        self.ac.replace_all(alloc, text, &self.replacements)
    }

    /// The matches of a stream, one after another.
    pub fn places<'a, R>(
        &'a self,
        alloc: Global,
        reader: &'a mut Watched<R>,
    ) -> Result<StreamFindIter<'a, R>, AllocError>
        requires { reader.old.ended ≡ false }
    {
        self.ac.stream_find_iter(alloc, reader)
    }
}
