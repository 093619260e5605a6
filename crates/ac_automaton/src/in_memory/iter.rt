//! The matches of an input, one after another.
//!
//! A walk takes the match of the input, goes on where that match ends, and so on to the end of the span. It takes no empty match
//! where the match before it ended. It searches again from one byte further on instead, so that it always reaches its end. An
//! anchored walk takes at each turn only what starts at the very place where it searches, and ends where nothing does.
//!
//! [`FindIter`] is the walk as an iterator. It holds two references and a few numbers, and takes no memory. Under the standard
//! kind it reads on from the end of each match, so it reads each byte of the span once. Under a leftmost kind it has to read past
//! a match, by as much as the longest pattern, before it knows that it is the one; it reads those bytes again.
//!
//! Where a walk stands is two numbers, a [`WalkPlace`]. A caller who can't keep an iterator keeps the place, and goes on from there
//! by [`Automaton::try_find_iter_from`].
ghost use Rattle.std.specs.Prelude.{◌≡◌, ◌↔◌, ◌≤◌, IfSome, IsTrue};
ghost use Rattle.std.specs.Iterator.{YieldsFirst, item_count};
ghost use Rattle.ac_input.specs.Walk.{Repeats};
ghost use Rattle.ac_automaton.specs.Automaton.{IsFound, IsFindCost};
ghost use Rattle.ac_automaton.specs.InMemory.Iter.{GivesPick, CostsPick, left_of, IsPickOf, IsPickCost, IsPlaceIn, IsRestOf, IsOnItsWay, PickCounts, walk_from_place};

pub mod ahead;

use crate::automaton::Automaton;
use crate::search::Search;
use ac_input::history::Count;
use ac_input::search::{Input, Match};
use ac_input::steps::Steps;
use std::marker::Model;

/// The remaining matches of an input. From [`Automaton::try_find_iter`].
///
/// After its first `None` it always returns `None`, and does nothing.
#[derive(Drop)]
pub struct FindIter<'a, 'h, A: Search> {
    automaton: &'a A,
    input: Input<'h>,
    last: Option<usize>,
    first: Count,
    given: Count,
    sums: Steps,
}

impl<'a, 'h, A: Search> Model for FindIter<'a, 'h, A> {
    ghost use Rattle.ac_automaton.specs.InMemory.Iter.{CountsWalk, Walk, walk_at, IsOnItsWay, IsWithinBudget};

    ghost Value = { Walk };

    ghost view = { λ i. walk_at (A.built i.automaton.now) i.first.value i.input i.last i.given.value i.sums };

    ghost invariant = { λ i.
        A.supports i.automaton.now i.input.anchored
        × IsOnItsWay (walk_at (A.built i.automaton.now) i.first.value i.input i.last i.given.value i.sums)
        × IsWithinBudget (walk_at (A.built i.automaton.now) i.first.value i.input i.last i.given.value i.sums)
        × CountsWalk (walk_at (A.built i.automaton.now) i.first.value i.input i.last i.given.value i.sums) };
}

/// Where a walk stands between two matches: the place from which it searches on, and where its last match ended, if it had one. It
/// holds nothing else, so a caller may keep it as long as the automaton and the haystack are the same.
#[derive(Clone, Copy, Debug, PartialEq, Eq)]
pub struct WalkPlace {
    /// From where on it searches; one past the span's end after the last match.
    pub start: usize,
    /// Where its last match ended.
    pub last: Option<usize>,
}

/// The match of an input that the automaton supports.
fn best<A: Search>(automaton: &A, input: &Input<'_>, steps: &mut Steps) -> Option<Match>
    requires { A.supports automaton.now input.now.anchored }
    ensures found { IsFound (A.built automaton.now) input.now result }
    ensures cost { IsFindCost (A.built automaton.now) input.now steps.old steps.new result }
{
    automaton.search(input, steps).unwrap()
}

/// Whether the match is empty and lies where the last one ended.
fn repeats(last: Option<usize>, found: &Option<Match>) -> bool
    ensures { IsTrue result ↔ Repeats last found.now }
{
    match (last, found) {
        (Some(last), Some(found)) => found.is_empty() && found.end() == last,
        _ => false,
    }
}

/// The next pick of a walk that stands where the input starts. It may set the input's start one byte further.
pub(crate) fn next_pick<A: Search>(
    automaton: &A,
    input: &mut Input<'_>,
    last: Option<usize>,
    steps: &mut Steps,
) -> Option<Match>
    requires supported { A.supports automaton.now input.old.anchored }
    requires within { input.old.span.start ≤ input.old.span.end }
    requires last { IfSome last (λ end. end ≤ input.old.span.start) }
    ensures pick { IsPickOf (A.built automaton.now) input.old last result }
    ensures asked { IsRestOf input.old input.new }
    ensures work { IsPickCost (A.built automaton.now) input.old steps.old steps.new result }
    ensures counts { PickCounts (A.built automaton.now) input.old result steps.old steps.new }
{
    let found = best(automaton, input, steps);
    if !repeats(last, &found) {
        return found;
    }
    if input.start() == input.end() {
        return None;
    }
    input.set_start(input.start() + 1);
    best(automaton, input, steps)
}

impl<'a, 'h, A: Search> FindIter<'a, 'h, A> {
    /// The matches of the input from a place on at which a walk over it stands: those that are left of that walk. What it does is
    /// counted from there.
    pub(crate) fn from_place(
        automaton: &'a A,
        input: Input<'h>,
        place: WalkPlace,
    ) -> FindIter<'a, 'h, A>
        requires supported { A.supports automaton.now input.anchored }
        requires place { IsPlaceIn input place }
        ensures { result ≡ walk_from_place (A.built automaton.now) input.entry place }
    {
        let mut input = input;
        input.set_start(place.start);
        let first = Count::zero().more(&place.start);
        FindIter {
            automaton,
            input,
            last: place.last,
            first,
            given: Count::zero(),
            sums: Steps::new(),
        }
    }

    /// Where the walk stands. [`Automaton::try_find_iter_from`] goes on from there.
    pub fn place(&self) -> WalkPlace
        ensures value { result ≡ (record { start = self.now.at; last = self.now.last }) }
        ensures within { IsPlaceIn self.now.asked result }
    {
        WalkPlace {
            start: self.input.start(),
            last: self.last,
        }
    }

    /// The next match, as `next` returns it; counts what it does.
    pub fn next_counted(&mut self, steps: &mut Steps) -> Option<Match>
        ensures gives { GivesPick self.old result self.new }
        ensures cost { CostsPick self.old self.new steps.old steps.new result }
        ensures kept { IsOnItsWay self.new }
    {
        if self.input.is_done() {
            return None;
        }
        let mut taken = Steps::new();
        let found = next_pick(self.automaton, &mut self.input, self.last, &mut taken);
        steps.add(&taken);
        self.sums.add(&taken);
        match &found {
            Some(found) => {
                self.input.set_start(found.end());
                self.last = Some(found.end());
                self.given = self.given.next();
            }
            None => self.input.set_start(self.input.end() + 1),
        }
        found
    }
}

impl<'a, 'h, A: Search> Iterator for FindIter<'a, 'h, A> {
    type Item = Match;

    ghost next_gives = { YieldsFirst left_of };

    ghost remaining = { item_count left_of };

    fn next(&mut self) -> Option<Match> {
        let mut steps = Steps::new();
        self.next_counted(&mut steps)
    }
}
