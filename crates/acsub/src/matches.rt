//! The matches of an input, one after another, by whatever finds them.
ghost use Rattle.std.specs.Iterator.{YieldsFirst};
ghost use Rattle.acsub.specs.Matches.{KeepsCount, left_in};

use ac_input::search::Match;
use ac_input::steps::Steps;
use ac_literal::packed;
use aho_corasick::{FindIterAhead, FindOverlappingIter};

/// The remaining matches of an input, by what finds them.
#[derive(Drop)]
pub enum Matches<'a> {
    /// The walk of an automaton, which reads ahead where that may pay.
    Walk(FindIterAhead<'a, 'a>),
    /// An overlapping search by an automaton.
    Overlapping(FindOverlappingIter<'a, 'a>),
    /// Packed search.
    Packed(packed::FindIter<'a, 'a>),
}

impl<'a> Matches<'a> {
    /// The next match; counts the looks and scans of an automaton, each when it is made. It may look at up to 8 KiB past the match.
    /// Packed search counts nothing.
    pub fn next_counted(&mut self, steps: &mut Steps) -> Option<Match>
        ensures yields { YieldsFirst left_in self.old result self.new }
        ensures counts { KeepsCount self.old self.new steps.old steps.new }
    {
        match self {
            Matches::Walk(walk) => walk.next_counted(steps),
            Matches::Overlapping(run) => run.next_counted(steps),
            Matches::Packed(picks) => picks.next(),
        }
    }
}
