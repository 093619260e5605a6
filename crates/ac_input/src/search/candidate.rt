//! What is known about the place where a search may begin.
ghost use Rattle.std.specs.Prelude.{◌≡◌};
ghost use Rattle.ac_input.specs.Candidate.{start_of};

use crate::search::Match;

/// What a prefilter returns for a span: no match that lies whole in the span starts before the candidate.
#[derive(Clone, Debug, Drop)]
pub enum Candidate {
    /// There is no match.
    None,
    /// This is the match; no further search is needed.
    Match(Match),
    /// A match may start here.
    PossibleStartOfMatch(usize),
}

impl Candidate {
    /// Where the search has to go on, if anywhere: where the match starts, or may start.
    pub fn into_option(self) -> Option<usize>
        ensures { result ≡ start_of self }
    {
        match self {
            Candidate::None => None,
            Candidate::Match(found) => Some(found.start()),
            Candidate::PossibleStartOfMatch(at) => Some(at),
        }
    }
}
