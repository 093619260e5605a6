//! Overlapping searches: every occurrence in turn, in the order of end, start and number.
//!
//! Under the standard kind the list of a state holds every pattern that the bytes read end in. So one walk over the span meets
//! each occurrence once, at the state where it ends. A call goes through the rest of the list where the last call stood, and then
//! reads on to the next state whose list has something to show. All calls together look at the states of one walk, whatever they
//! show; nothing is read twice.
//!
//! If the automaton has a prefilter, it runs at the start and wherever the walk is back at the start: no remaining occurrence
//! begins before that place, and the walk goes on from the next place where one may begin. Of a prefilter's match only the start
//! is used, since others may overlap it.
//!
//! The caller keeps the place of a search between two calls, in an [`OverlappingState`]. It belongs to one automaton and one input
//! from its first search on. [`FindOverlappingIter`] keeps all three together, and what it read ahead.
ghost use Rattle.std.specs.Prelude.{◌≡◌, ⊤, None, Some};
ghost use Rattle.ac_input.specs.Steps.{Added};
ghost use Rattle.ac_automaton.specs.InMemory.Overlapping.{IsFreshState, IsOverlappingCost, and_one};
ghost use Rattle.ac_automaton.specs.InMemory.Overlapping.OverlappingSearch.{AnswersCall, CameFromCalls};

mod ahead;
pub mod iter;
mod search;

use crate::error::MatchError;
use crate::search::Search;
use ac_input::history::Count;
use ac_input::primitives::{PatternID, StateID};
use ac_input::search::{Input, Match};
use ac_input::steps::Steps;
pub(crate) use ahead::advance_ahead;
pub use iter::FindOverlappingIter;
use search::begin;
pub(crate) use search::{advance, unanchored_start};
use std::alloc::AllocError;

/// Where an overlapping search stands between two calls.
#[derive(Clone, Copy)]
pub enum Position {
    /// In this state, which was reached from the start by the bytes between two places. Of its list the matches before `index`
    /// were shown.
    At {
        sid: StateID,
        from: usize,
        at: usize,
        index: usize,
    },
    /// After the last occurrence.
    Over,
}

/// Where a search begins: its start state, and the place where it stands first.
#[derive(Clone, Copy)]
pub(crate) struct Beginning {
    start: StateID,
    place: Position,
}

/// An entry of a state's list that counts, and the index after it.
#[derive(Clone, Copy)]
struct Entry {
    pattern: PatternID,
    next: usize,
}

/// What a call shows, and where it leaves the search.
#[derive(Clone, Copy)]
pub struct Shown {
    place: Position,
    found: Option<Match>,
}

/// How far an overlapping search has come.
///
/// It starts fresh, and from the first search on it belongs to the automaton and the input of that search.
#[derive(Drop)]
pub struct OverlappingState {
    place: Option<Position>,
    found: Option<Match>,
    shown: Count,
    sums: Steps,
}

impl OverlappingState {
    /// The state of a search that has not begun.
    pub fn start() -> OverlappingState
        ensures fresh { IsFreshState result }
        ensures found { result.found ≡ None }
    {
        OverlappingState {
            place: None,
            found: None,
            shown: Count::zero(),
            sums: Steps::new(),
        }
    }

    /// The match that the last search showed; none before the first, and after the last occurrence.
    pub fn get_match(&self) -> Option<Match>
        ensures { result ≡ self.now.found }
    {
        self.found
    }

    /// A call showed this, and did this much.
    fn keep(&mut self, shown: Shown, done: &Steps)
        ensures place { self.new.place ≡ Some shown.place }
        ensures found { self.new.found ≡ shown.found }
        ensures shown { self.new.shown.value ≡ and_one shown.found self.old.shown.value }
        ensures sums { Added done.now self.old.sums self.new.sums }
    {
        self.place = Some(shown.place);
        self.found = shown.found;
        self.shown = with_found(&self.shown, &shown.found);
        self.sums.add(done);
    }
}

impl Clone for OverlappingState {
    ghost is_clone = { λ state clone. clone ≡ state };

    ghost is_infallible = { λ _. ⊤ };

    fn clone(&self) -> Result<Self, AllocError> {
        let mut sums = Steps::new();
        sums.add(&self.sums);
        Ok(OverlappingState {
            place: self.place,
            found: self.found,
            shown: self.shown.more(&0),
            sums,
        })
    }
}

/// How many were shown, with this one if there is one.
pub(crate) fn with_found(shown: &Count, found: &Option<Match>) -> Count
    ensures { result.value ≡ and_one found.now shown.now.value }
{
    match found {
        Some(_) => shown.next(),
        None => shown.more(&0),
    }
}

/// Finds the next occurrence of the search of the input, if there is one more, and stores it in the state.
///
/// All calls with one state together look at the states of one walk over the span. Returns an error if the automaton has no start
/// for the input's anchoring, or isn't of the standard kind; the state is then unchanged.
pub(crate) fn find_overlapping<A: Search>(
    automaton: &A,
    input: &Input<'_>,
    state: &mut OverlappingState,
) -> Result<(), MatchError>
    requires { CameFromCalls A.Automaton automaton.now input.now state.old }
    ensures came { CameFromCalls A.Automaton automaton.now input.now state.new }
    ensures answer { AnswersCall A.Automaton automaton.now input.now state.old state.new result }
    ensures cost { IsOverlappingCost (A.built automaton.now) input.now state.new.sums }
{
    let beginning = begin(automaton, input)?;
    let place = state.place.unwrap_or(beginning.place);
    let mut done = Steps::new();
    let shown = automaton.search_overlapping(input, beginning.start, place, &mut done);
    state.keep(shown, &done);
    Ok(())
}
