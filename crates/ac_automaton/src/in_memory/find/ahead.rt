//! The search for one match by what was read ahead.
//!
//! It is for a walk over many matches of a long text: see [`FindIterAhead`](crate::iter::ahead::FindIterAhead). No state is dead before
//! the first one that matches, whatever the kind, and where no pattern is empty the start doesn't match. So a search reads on from its
//! start to that state, in one call of [`advance_to_match`], which takes notes of what the automaton has read ahead. It uses no
//! prefilter.
//!
//! Under the standard kind the first match is the result. Under a leftmost kind the search then reads on alone, for the few bytes to
//! the dead state: until then each match that it meets is better than the one before.
ghost use Rattle.std.specs.Prelude.{◌≤◌, take};
ghost use Rattle.ac_automaton.specs.Ahead.{IsPaid, StaysReadOnce};
ghost use Rattle.ac_automaton.specs.Automaton.{IsFindCost, IsFound};
ghost use Rattle.ac_automaton.specs.InMemory.Find.Ahead.{IsAheadIn, MayReadAhead, ended_at};

use crate::ahead::{Ahead, advance_to_match};
use crate::automaton::Automaton;
use crate::in_memory::find::cursor::{Cursor, read_on};
use crate::in_memory::find::{first_match, takes_first};
use ac_input::primitives::StateID;
use ac_input::search::{Input, Match};
use ac_input::steps::Steps;

/// The match of an input, if it has one, of a search that begins in a start state; counts what it does, and keeps notes of what it
/// read ahead.
pub(crate) fn find<A: Automaton>(
    automaton: &A,
    input: &Input<'_>,
    start: StateID,
    ahead: &mut Ahead,
    steps: &mut Steps,
) -> Option<Match>
    requires may { MayReadAhead A.Automaton automaton.now input.now start }
    requires ordered { input.now.span.start ≤ input.now.span.end }
    requires ahead { IsAheadIn A.Automaton automaton.now input.now start input.now.span.start ahead.old }
    ensures found { IsFound (A.built automaton.now) input.now result }
    ensures cost { IsPaid ahead.old ahead.new steps.new (λ paid. IsFindCost (A.built automaton.now) input.now steps.old paid result) }
    ensures ahead { IsAheadIn A.Automaton automaton.now input.now start (ended_at input.now result) ahead.new }
    ensures once { StaysReadOnce (take input.now.span.end input.now.haystack) ahead.old ahead.new }
{
    if input.start() == input.end() {
        return None;
    }
    let bytes = &input.haystack()[..input.end()];
    let stop = advance_to_match(
        automaton,
        &Some(start),
        start,
        bytes,
        input.start(),
        ahead,
        steps,
    );
    if !automaton.is_match(stop.sid) {
        return None;
    }
    let mut cursor = Cursor {
        sid: stop.sid,
        from: input.start(),
        at: input.start() + stop.taken,
    };
    let mut best = first_match(automaton, cursor.sid, cursor.at);
    if takes_first(automaton, input) {
        return Some(best);
    }
    while cursor.at < input.end() {
        cursor = read_on(automaton, input, cursor, steps);
        if automaton.is_dead(cursor.sid) {
            return Some(best);
        }
        if automaton.is_match(cursor.sid) {
            best = first_match(automaton, cursor.sid, cursor.at);
        }
    }
    Some(best)
}
