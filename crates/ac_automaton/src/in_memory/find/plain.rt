//! The search for one match that runs no prefilter.
//!
//! Where it isn't anchored and its start doesn't match, it reads on to the first state that matches in one call, and passes over starts:
//! no state is dead before a match. Under the standard kind, and in an earliest search of any kind, that match is the result. Else a
//! later one may be better, and the search reads on until its state is dead.
//!
//! Few bytes are searched so whether there is a prefilter or not: to ask it costs more than to read them. Where the patterns are few, too,
//! the automaton is asked first whether it rules out that any of them occurs there, which costs less than to read 24 bytes.
ghost use Rattle.std.specs.Prelude.{◌≤◌, [], IsTrue, slice_range};
ghost use Rattle.ac_input.specs.Opening.{HasNoOccurrence};
ghost use Rattle.ac_automaton.specs.Automaton.{IsFindCost, IsFound};
ghost use Rattle.ac_automaton.specs.InMemory.Find.{StartsQuiet};

use crate::automaton::Automaton;
use crate::in_memory::find::cursor::{Cursor, read_on, read_to_match};
use crate::in_memory::find::{first_match, search, takes_first};
use ac_input::primitives::StateID;
use ac_input::search::{Anchored, Input, Match};
use ac_input::steps::Steps;

/// Up to how many bytes, and for up to how many patterns, a search asks its automaton first whether it rules out that any occurs. With more
/// of either the answer is too often no.
const SHORT: usize = 128;

const FEW_PATTERNS: usize = 16;

/// Whether the search isn't anchored, has bytes to read, and doesn't match at its start.
fn is_plain<A: Automaton>(automaton: &A, input: &Input<'_>, start: StateID) -> bool
    requires { A.Reaches automaton.now input.now.anchored [] start }
    ensures { IsTrue result → StartsQuiet A.Automaton automaton.now input.now start }
{
    match input.get_anchored() {
        Anchored::Yes => false,
        Anchored::No => {
            if input.start() >= input.end() {
                return false;
            }
            !automaton.is_match(start)
        }
    }
}

/// Whether no pattern occurs in the span, as the automaton shows sooner than by reading it.
fn is_ruled_out<A: Automaton>(automaton: &A, input: &Input<'_>) -> bool
    requires { input.now.span.start ≤ input.now.span.end }
    ensures { IsTrue result → HasNoOccurrence (A.built automaton.now).dictionary
        (slice_range input.now.haystack input.now.span.start input.now.span.end) }
{
    let len = input.end() - input.start();
    if len > SHORT || automaton.patterns_len() > FEW_PATTERNS {
        return false;
    }
    automaton.rules_out(&input.haystack()[input.start()..input.end()])
}

/// The match of the span, if it has one, of a search that begins in a start state.
pub(crate) fn find<A: Automaton>(
    automaton: &A,
    input: &Input<'_>,
    start: StateID,
    steps: &mut Steps,
) -> Option<Match>
    requires starts { A.Reaches automaton.now input.now.anchored [] start }
    requires ordered { input.now.span.start ≤ input.now.span.end }
    ensures found { IsFound (A.built automaton.now) input.now result }
    ensures cost { IsFindCost (A.built automaton.now) input.now steps.old steps.new result }
{
    if !is_plain(automaton, input, start) {
        return search(automaton, None, input, start, steps);
    }
    let end = input.end();
    let from = input.start();
    if is_ruled_out(automaton, input) {
        steps.looks(end - from);
        return None;
    }
    let begun = Cursor {
        sid: start,
        from,
        at: from,
    };
    let mut cursor = read_to_match(automaton, input, begun, end, steps);
    if !automaton.is_match(cursor.sid) {
        return None;
    }
    let mut best = first_match(automaton, cursor.sid, cursor.at);
    if takes_first(automaton, input) {
        return Some(best);
    }
    loop {
        if cursor.at == end || automaton.is_dead(cursor.sid) {
            return Some(best);
        }
        cursor = read_on(automaton, input, cursor, steps);
        if automaton.is_match(cursor.sid) {
            best = first_match(automaton, cursor.sid, cursor.at);
        }
    }
}
