//! The matches of an input that is read ahead, one after another.
//!
//! A walk over many matches of a long text spends its time waiting for one look-up after another. [`FindIterAhead`] has the automaton
//! read ahead over several parts of the text side by side, and takes the matches from its notes: see [`ahead`](crate::ahead). It
//! returns what [`FindIter`](crate::iter::FindIter) returns. Under the standard kind it looks at as many states over the whole span.
//! Under a leftmost kind notes may be lost, where a search begins again after a match. So it looks at each byte at most once more than
//! `FindIter` may: no byte is read ahead twice. A call may read up to 8 KiB past the match that it returns, and counts these looks when
//! it makes them. So it doesn't pay for a caller who needs the first few matches only.
//!
//! It pays with hundreds of patterns and more, whose tables don't lie in the nearest cache. The notes are some 3 KiB within the
//! iterator itself; nothing is allocated. To make one takes as long as to search some hundred bytes, so for short texts `FindIter` is
//! the faster one.
//!
//! Only an automaton with no empty pattern reads ahead, and only where the input isn't anchored and has 1 KiB to be searched; under a
//! leftmost kind also only where the search isn't an earliest one. A prefilter passes bytes faster, unless it is packed search for
//! more than 64 patterns that doesn't go by grams, and the automaton reads ahead, or matches are a few bytes apart. Elsewhere this
//! iterator goes on as `FindIter` does.
ghost use Rattle.std.specs.Prelude.{◌≡◌, ◌≤◌, [], length, take, IfSome};
ghost use Rattle.std.specs.Iterator.{YieldsFirst, item_count};
ghost use Rattle.ac_automaton.specs.Ahead.{IsPaid, StaysReadOnce};
ghost use Rattle.ac_automaton.specs.InMemory.Find.Ahead.{MayReadAhead, ReadsAheadFrom, ended_at};
ghost use Rattle.ac_automaton.specs.InMemory.Iter.{GivesPick, CostsPickAhead, left_of, IsPickOf, IsPickCost, IsPlaceIn, IsRestOf, IsOnItsWay, PickCounts, walk_from_place};

use crate::ahead::{Ahead, LEAST};
use crate::in_memory::iter::{WalkPlace, next_pick};
use crate::search::Search;
use crate::skip::FEW_PATTERNS;
use ac_input::history::Count;
use ac_input::primitives::StateID;
use ac_input::search::{Anchored, Input, Match};
use ac_input::steps::Steps;
use std::marker::Model;

/// The remaining matches of an input, which is read ahead where that may pay. From
/// [`Automaton::try_find_iter_ahead`](crate::automaton::Automaton::try_find_iter_ahead).
///
/// After its first `None` it always returns `None`, and does nothing.
#[derive(Drop)]
pub struct FindIterAhead<'a, 'h, A: Search> {
    automaton: &'a A,
    input: Input<'h>,
    last: Option<usize>,
    first: Count,
    given: Count,
    sums: Steps,
    /// The state in which each search begins, if it reads ahead.
    start: Option<StateID>,
    ahead: Ahead,
}

impl<'a, 'h, A: Search> Model for FindIterAhead<'a, 'h, A> {
    ghost use Rattle.std.specs.Prelude.{◌≤◌, min, take};
    ghost use Rattle.ac_automaton.specs.Ahead.{IsReadOnceFrom, bytes_ahead, less_ahead};
    ghost use Rattle.ac_automaton.specs.InMemory.Find.Ahead.{ReadsAheadFrom};
    ghost use Rattle.ac_automaton.specs.InMemory.Iter.{CountsWalk, Walk, walk_at, IsOnItsWay, IsWithinBudget};

    ghost Value = { Walk };

    ghost view = { λ i. walk_at (A.built i.automaton.now) i.first.value i.input i.last i.given.value i.sums };

    ghost invariant = { λ i.
        A.supports i.automaton.now i.input.anchored
        × IsOnItsWay (walk_at (A.built i.automaton.now) i.first.value i.input i.last i.given.value i.sums)
        × IsWithinBudget (walk_at (A.built i.automaton.now) i.first.value i.input i.last i.given.value (less_ahead i.sums i.ahead))
        × CountsWalk (walk_at (A.built i.automaton.now) i.first.value i.input i.last i.given.value (less_ahead i.sums i.ahead))
        × ReadsAheadFrom A.Automaton i.automaton.now i.start i.input (min i.input.span.start i.input.span.end) i.ahead
        × IsReadOnceFrom i.first.value (take i.input.span.end i.input.haystack) i.ahead
        × (bytes_ahead i.ahead ≤ i.sums.looked.value) };
}

/// Whether an automaton has a prefilter that passes bytes faster than several walks side by side read them.
fn passes_many<A: Search>(automaton: &A) -> bool {
    let Some(prefilter) = automaton.prefilter() else {
        return false;
    };
    if prefilter.finds_close() && automaton.reads_quickly() {
        return false;
    }
    !prefilter.is_dense() || automaton.patterns_len() <= FEW_PATTERNS || !automaton.has_lanes()
}

/// Whether the input is read ahead, and then in which state: that in which its search begins.
fn reads_from<A: Search>(automaton: &A, input: &Input<'_>, start: StateID) -> Option<StateID>
    requires { A.Reaches automaton.now input.now.anchored [] start }
    ensures { IfSome result (MayReadAhead A.Automaton automaton.now input.now) }
{
    let is_free = input.get_anchored() == Anchored::No;
    let kind = automaton.match_kind();
    if !is_free || kind.asked(input.get_earliest()) != kind || automaton.min_pattern_len() == 0 {
        return None;
    }
    let is_long = input.end().saturating_sub(input.start()) >= LEAST;
    if is_long && !passes_many(automaton) {
        Some(start)
    } else {
        None
    }
}

/// The next pick of a walk that stands where the input starts. It may set the input's start one byte further.
fn next_pick_ahead<A: Search>(
    automaton: &A,
    start: Option<StateID>,
    input: &mut Input<'_>,
    last: Option<usize>,
    ahead: &mut Ahead,
    steps: &mut Steps,
) -> Option<Match>
    requires supported { A.supports automaton.now input.old.anchored }
    requires within { input.old.span.start ≤ input.old.span.end }
    requires inside { input.old.span.end ≤ length input.old.haystack }
    requires last { IfSome last (λ end. end ≤ input.old.span.start) }
    requires reads { ReadsAheadFrom A.Automaton automaton.now start input.old input.old.span.start ahead.old }
    ensures pick { IsPickOf (A.built automaton.now) input.old last result }
    ensures asked { IsRestOf input.old input.new }
    ensures paid { IsPaid ahead.old ahead.new steps.new (λ paid. IsPickCost (A.built automaton.now) input.old steps.old paid result
        × PickCounts (A.built automaton.now) input.old result steps.old paid) }
    ensures reads { ReadsAheadFrom A.Automaton automaton.now start input.old (ended_at input.old result) ahead.new }
    ensures once { StaysReadOnce (take input.old.span.end input.old.haystack) ahead.old ahead.new }
{
    match start {
        Some(start) => automaton.search_ahead(input, start, ahead, steps),
        None => next_pick(automaton, input, last, steps),
    }
}

impl<'a, 'h, A: Search> FindIterAhead<'a, 'h, A> {
    /// The matches of the input from a place on at which a walk over it stands, as
    /// [`FindIter::from_place`](crate::iter::FindIter::from_place) makes them. Each search begins in this start state.
    pub(crate) fn from_place(
        automaton: &'a A,
        input: Input<'h>,
        place: WalkPlace,
        start: StateID,
    ) -> FindIterAhead<'a, 'h, A>
        requires supported { A.supports automaton.now input.anchored }
        requires starts { A.Reaches automaton.now input.anchored [] start }
        requires place { IsPlaceIn input place }
        ensures { result ≡ walk_from_place (A.built automaton.now) input.entry place }
    {
        let mut input = input;
        input.set_start(place.start);
        let start = reads_from(automaton, &input, start);
        let first = Count::zero().more(&place.start);
        let mut ahead = Ahead::none();
        ahead.forget(place.start);
        FindIterAhead {
            automaton,
            input,
            last: place.last,
            first,
            given: Count::zero(),
            sums: Steps::new(),
            start,
            ahead,
        }
    }

    /// Where the walk stands.
    /// [`Automaton::try_find_iter_ahead_from`](crate::automaton::Automaton::try_find_iter_ahead_from) goes on from there.
    pub fn place(&self) -> WalkPlace
        ensures value { result ≡ (record { start = self.now.at; last = self.now.last }) }
        ensures within { IsPlaceIn self.now.asked result }
    {
        WalkPlace {
            start: self.input.start(),
            last: self.last,
        }
    }

    /// The next match, as `next` returns it; counts what it does.
    pub fn next_counted(&mut self, steps: &mut Steps) -> Option<Match>
        ensures gives { GivesPick self.old result self.new }
        ensures cost { CostsPickAhead self.old self.new steps.old steps.new }
        ensures kept { IsOnItsWay self.new }
    {
        if self.input.is_done() {
            return None;
        }
        let mut taken = Steps::new();
        let found = next_pick_ahead(
            self.automaton,
            self.start,
            &mut self.input,
            self.last,
            &mut self.ahead,
            &mut taken,
        );
        steps.add(&taken);
        self.sums.add(&taken);
        match &found {
            Some(found) => {
                self.input.set_start(found.end());
                self.last = Some(found.end());
                self.given = self.given.next();
            }
            None => self.input.set_start(self.input.end() + 1),
        }
        found
    }
}

impl<'a, 'h, A: Search> Iterator for FindIterAhead<'a, 'h, A> {
    type Item = Match;

    ghost next_gives = { YieldsFirst left_of };

    ghost remaining = { item_count left_of };

    fn next(&mut self) -> Option<Match> {
        let mut steps = Steps::new();
        self.next_counted(&mut steps)
    }
}
