//! Reading the noncontiguous automaton, as one that is made of it does.
ghost use Rattle.std.specs.Prelude.{◌≡◌, ◌+◌, ◌-◌, ◌*◌, ◌<◌, [], length, get_or, IfOk, IfSome, IsTrue};
ghost use Rattle.ac_automaton.specs.Automaton.{IsReached};
ghost use Rattle.ac_input.specs.declared.search.Anchored.TheVariants.{Yes};
ghost use Rattle.ac_input.specs.Alphabet.Classes.{BytesLeadAlike};
ghost use Rattle.ac_input.specs.Same.{other};
ghost use Rattle.ac_input.specs.Work.{longest, shortest};
ghost use Rattle.ac_noncontiguous.specs.Nfa.{InOneRun};
ghost use Rattle.ac_noncontiguous.specs.Nfa.Reads.{IsRead, built_as};
ghost use Rattle.ac_noncontiguous.specs.Nfa.ReadCalls.{MayBeMet, fail_in, special_in, state_len};

use ac_input::primitives::{PatternID, StateID};
use ac_input::search::Anchored;
use ac_noncontiguous::nfa::NFA;
use ac_noncontiguous::nfa::pattern_lens::PatternLens;
use std::alloc::{AllocError, Global};

/// The state of this number, if there is one.
pub fn numbered(nfa: &NFA, number: usize) -> Option<StateID>
    ensures { IfSome result (λ sid. sid < state_len nfa.now) }
{
    let sid = StateID::new(number).ok()?;
    if sid.as_usize() < nfa.state_len() {
        Some(sid)
    } else {
        None
    }
}

/// Whether the state to which one fails is less deep. It is, wherever it stands for a text: so failures come to an end.
pub fn fails_upward(nfa: &NFA, sid: StateID) -> bool
    requires { sid < state_len nfa.now }
    ensures { 1 < fail_in nfa.now sid → IsTrue result }
{
    nfa.depth(nfa.fail(sid)) < nfa.depth(sid)
}

/// The state in which a search begins, from which bytes may lead on.
pub fn start_of(nfa: &NFA, anchored: Anchored) -> StateID
    ensures { MayBeMet nfa.now anchored result }
{
    let special = nfa.special();
    match anchored {
        Anchored::No => special.start_unanchored_id,
        Anchored::Yes => special.start_anchored_id,
    }
}

/// The state to which the text leads from a state. None leads from the dead one.
pub fn lead_over(nfa: &NFA, anchored: Anchored, sid: StateID, text: &[u8]) -> StateID
    requires { MayBeMet nfa.now anchored sid }
    ensures met { MayBeMet nfa.now anchored result }
    ensures dead { sid ≡ 0 → result ≡ 0 }
{
    let mut at = sid;
    for byte in text {
        at = nfa.lead(anchored, at, *byte);
    }
    at
}

/// Whether two bytes are in one class. Then they lead alike from every state.
pub fn are_alike(nfa: &NFA, one: u8, other: u8) -> bool
    ensures { IsTrue result → BytesLeadAlike (built_as nfa.now).dictionary one other }
{
    let classes = nfa.byte_classes();
    classes.get(one) == classes.get(other)
}

/// How many bytes the pattern has more than the shortest one.
pub fn len_past_shortest(nfa: &NFA, pattern: PatternID) -> usize
    requires { pattern < length (built_as nfa.now).dictionary.patterns }
    ensures { result ≡ length (get_or (built_as nfa.now).dictionary.patterns pattern [])
        - shortest (built_as nfa.now).dictionary.patterns }
{
    let lens = nfa.pattern_lens();
    lens.pattern_len(pattern) - lens.shortest()
}

/// How many bytes the patterns would take if each were as long as the longest one, if that can be counted.
pub fn room_for_all(nfa: &NFA) -> Option<usize>
    ensures { IfSome result (λ room. room ≡ length (built_as nfa.now).dictionary.patterns
        * longest (built_as nfa.now).dictionary.patterns) }
{
    let lens = nfa.pattern_lens();
    lens.len().checked_mul(lens.longest())
}

/// How long each pattern is, to keep beside an automaton that is made of this one.
pub fn copy_lens(nfa: &NFA, alloc: Global) -> Result<PatternLens, AllocError>
    ensures { IfOk result (λ lens. lens ≡ (built_as nfa.now).dictionary.patterns) }
{
    nfa.pattern_lens().clone(alloc)
}

/// The byte that is taken for the same as this one; the byte itself where it stands in no pair.
pub fn partner(nfa: &NFA, byte: u8) -> u8
    ensures { result ≡ other (built_as nfa.now).dictionary.pairing byte }
{
    nfa.pairing().other(byte)
}

/// The number of the last pattern, if there is one. Whatever is built is within the limits, so it has a number.
pub fn last_pattern(nfa: &NFA) -> Option<PatternID>
    ensures { IfSome result
        (λ last. last + 1 ≡ length (built_as nfa.now).dictionary.patterns) }
{
    nfa.states_stand();
    let len = nfa.pattern_lens().len();
    if len == 0 {
        return None;
    }
    Some(PatternID::must(len - 1))
}

/// The state to which anchored searches come once nothing can match any more.
pub fn anchored_end(nfa: &NFA) -> StateID
    ensures { IsReached (IsRead nfa.now Yes) result }
{
    nfa.states_are_read();
    StateID::ZERO
}

/// Whether a state is at least as deep as one that comes before it. It is, where both come before the starts, or both after them.
pub fn is_deeper(nfa: &NFA, sid: StateID, before: StateID) -> bool
    requires within { sid < state_len nfa.now }
    requires before { before < sid }
    requires run { InOneRun (special_in nfa.now).start_unanchored_id before sid }
    ensures { IsTrue result }
{
    nfa.states_stand();
    nfa.states_are_ordered();
    nfa.depth(before) <= nfa.depth(sid)
}
