//! Searches of one's own, state by state.
ghost use Rattle.std.specs.Prelude.{◌≡◌, ◌↔◌, ◌+◌, ◌<◌, true, false, length, IfNone, IfOk, IfSome, IsTrue};
ghost use Rattle.ac_input.specs.declared.search.MatchKind.TheVariants.{Standard};
ghost use Rattle.ac_input.specs.Dictionary.{whole};
ghost use Rattle.ac_automaton.specs.Automaton.{IsDead, IsReached, IsState, PassesPlain};
ghost use Rattle.ac_automaton.specs.Stream.{NothingIsLive};
ghost use Rattle.ac_noncontiguous.specs.Nfa.ReadCalls.{edges_in, state_len, AreEdges};
ghost use Rattle.aho_corasick.specs.Callers.{EndsWithPattern, IsFirstEnd};

use ac_automaton::automaton::Automaton;
use ac_input::primitives::{PatternID, StateID};
use ac_input::search::Anchored;
use ac_input::steps::Steps;
use ac_noncontiguous::nfa::NFA;
use std::alloc::{AllocError, Global};

/// Whether one of the patterns ends the text: the state after its last byte matches.
pub fn ends_with_any<A: Automaton>(automaton: &A, text: &[u8]) -> bool
    requires supports { A.supports automaton.now Anchored.No }
    requires standard { (A.built automaton.now).dictionary.kind ≡ Standard }
    ensures { IsTrue result ↔ EndsWithPattern (A.built automaton.now).dictionary text.now }
{
    let mut sid = automaton.start_state(Anchored::No).unwrap();
    for byte in text {
        sid = automaton.next_state(Anchored::No, sid, *byte);
    }
    automaton.is_match(sid)
}

/// The least place at which an occurrence ends, by a walk of one's own.
pub fn first_end<A: Automaton>(automaton: &A, text: &[u8], steps: &mut Steps) -> Option<usize>
    requires supports { A.supports automaton.now Anchored.No }
    requires standard { (A.built automaton.now).dictionary.kind ≡ Standard }
    ensures { IsFirstEnd (whole (A.built automaton.now).dictionary text.now false) result }
{
    let start = automaton.start_state(Anchored::No).unwrap();
    if automaton.is_match(start) {
        return Some(0);
    }
    let end = automaton.advance_to_match(Anchored::No, start, text, steps);
    if automaton.is_match(end.sid) {
        Some(end.taken)
    } else {
        None
    }
}

/// Whether an anchored search is over after the text: no pattern can be found any more, whatever follows.
pub fn is_over<A: Automaton>(automaton: &A, text: &[u8]) -> bool
    requires { A.supports automaton.now Anchored.Yes }
    ensures { IsTrue result ↔ IsDead (A.built automaton.now) Anchored.Yes text.now }
{
    let mut sid = automaton.start_state(Anchored::Yes).unwrap();
    for byte in text {
        sid = automaton.next_state(Anchored::Yes, sid, *byte);
    }
    automaton.is_dead(sid)
}

/// Whether a search may forget the text: it is back at its start, where nothing matches, so that no match begins in the text and
/// ends after it.
pub fn may_forget<A: Automaton>(automaton: &A, text: &[u8]) -> bool
    requires { A.supports automaton.now Anchored.No }
    ensures { IsTrue result → NothingIsLive (A.built automaton.now).dictionary text.now }
{
    let mut sid = automaton.start_state(Anchored::No).unwrap();
    for byte in text {
        sid = automaton.next_state(Anchored::No, sid, *byte);
    }
    if automaton.is_match(sid) {
        return false;
    }
    automaton.is_start(sid)
}

/// The state after one more byte, by an automaton that has followed every failure beforehand: it looks at one state.
pub fn next_by_one_look<A: Automaton>(
    automaton: &A,
    anchored: Anchored,
    sid: StateID,
    byte: u8,
    steps: &mut Steps,
) -> StateID
    requires reached { IsReached (A.Reaches automaton.now anchored) sid }
    requires deterministic { (A.built automaton.now).deterministic ≡ true }
    ensures { steps.new.looked.value ≡ steps.old.looked.value + 1 }
{
    automaton.next_state_counted(anchored, sid, byte, steps)
}

/// The first state at which a search has more to do than to read on, where the text leads to one; none where it may be read to its end.
pub fn next_special<A: Automaton>(
    automaton: &A,
    anchored: Anchored,
    sid: StateID,
    text: &[u8],
    steps: &mut Steps,
) -> Option<StateID>
    requires { IsReached (A.Reaches automaton.now anchored) sid }
    ensures some { IfSome result (λ to. IsTrue (A.special automaton.now to)) }
    ensures none { IfNone result (PassesPlain (A.Reaches automaton.now anchored)
        (A.special automaton.now) sid text.now (length text.now)) }
{
    let end = automaton.advance(anchored, sid, text, steps);
    if automaton.is_special(end.sid) {
        Some(end.sid)
    } else {
        None
    }
}

/// The patterns that match at a state, in their order.
pub fn patterns_at<A: Automaton>(
    automaton: &A,
    alloc: Global,
    sid: StateID,
) -> Result<Vec<PatternID>, AllocError>
    requires { IsState (A.Reaches automaton.now) sid }
    ensures { IfOk result (λ v. v.items ≡ A.matches automaton.now sid) }
{
    let mut patterns = Vec::new(alloc);
    if !automaton.is_match(sid) {
        return Ok(patterns);
    }
    for index in 0..automaton.match_len(sid) {
        patterns.push(automaton.match_pattern(sid, index))?;
    }
    Ok(patterns)
}

/// How many patterns match at a state, by the list of them, and one after another. It is the same.
pub fn count_by_both(nfa: &NFA, sid: StateID) -> (usize, usize)
    requires { sid < state_len nfa.now }
    ensures { result.0 ≡ result.1 }
{
    (nfa.match_list(sid).len(), nfa.iter_matches(sid).count())
}

/// The bytes that lead on from a state, each with the state to which it leads.
pub fn transitions(nfa: &NFA, alloc: Global, sid: StateID) -> Result<Vec<(u8, StateID)>, AllocError>
    requires { sid < state_len nfa.now }
    ensures value { IfOk result (λ v. v.items ≡ edges_in nfa.now sid) }
    ensures lead { AreEdges nfa.now sid (edges_in nfa.now sid) }
{
    nfa.iter_trans(sid).collect(alloc)
}
