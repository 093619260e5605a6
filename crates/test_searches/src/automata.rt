//! What the noncontiguous automaton keeps of its states: their order, their transitions, their failure links and their patterns.
ghost use Rattle.std.specs.Prelude.{◌<◌};
ghost use Rattle.ac_noncontiguous.specs.Nfa.ReadCalls.{state_len};

use crate::asserts::{equal, same};
use ac_input::primitives::{PatternID, StateID};
use ac_input::search::MatchKind;
use ac_noncontiguous::{Automaton, ByteClasses, NFA};
use std::alloc::{AllocError, Global};
use std::process::Abort;
use std::test::Fail;
use test_rows::engines::{Asked, Letters, Prefiltering, noncontiguous};

mod kinds;
mod order;
mod pairs;

/// Where the bytes lead from a state.
#[derive(Clone, Copy)]
pub enum Leads {
    /// These bytes lead to these states, and no other byte leads on.
    Only(&'static [(u8, usize)]),
    /// All bytes lead to this state, but for these.
    All(usize, &'static [(u8, usize)]),
}

/// A state: its number, how many bytes lead to it, to which state it fails, which patterns match there, and where its bytes lead.
pub struct State(
    pub usize,
    pub usize,
    pub usize,
    pub &'static [usize],
    pub Leads,
);

/// Some patterns, and what the automaton keeps of them.
pub struct Kept {
    pub shows: &'static str,
    pub patterns: &'static [&'static [u8]],
    pub kind: MatchKind,
    pub letters: Letters,
    /// Whether a prefilter is wanted, and whether there is one.
    pub prefilter: (Prefiltering, bool),
    /// The last state that matches, the last special one, the two starts, and how many states there are.
    pub bounds: [usize; 5],
    pub states: &'static [State],
    /// Some bytes, and the class of each.
    pub classes: (&'static [u8], &'static [u8]),
}

/// Standard matches, byte for byte, and no prefilter.
pub const PLAIN: Kept = Kept {
    shows: "",
    patterns: &[],
    kind: MatchKind::Standard,
    letters: Letters::Cased,
    prefilter: (Prefiltering::Off, false),
    bounds: [0; 5],
    states: &[],
    classes: (b"", b""),
};

/// The last state that matches, the last special one, the two starts, and how many states there are.
fn bounds_of(nfa: &NFA) -> [usize; 5] {
    let special = nfa.special();
    [
        special.max_match_id.as_usize(),
        special.max_special_id.as_usize(),
        special.start_unanchored_id.as_usize(),
        special.start_anchored_id.as_usize(),
        nfa.state_len(),
    ]
}

/// Where a byte leads, if all lead to one state, but for some.
fn led(byte: u8, rest: usize, but: &[(u8, usize)]) -> usize {
    for (other, state) in but {
        if *other == byte {
            return *state;
        }
    }
    rest
}

/// All transitions of a state.
fn transitions(alloc: Global, leads: Leads) -> Result<Vec<(u8, usize)>, AllocError> {
    match leads {
        Leads::Only(those) => those.iter().copied().collect(alloc),
        Leads::All(rest, but) => (0..=255u8)
            .map(|byte| (byte, led(byte, rest, but)))
            .collect(alloc),
    }
}

/// Asserts where the bytes lead from a state.
fn state_leads<T: Abort>(
    rt: &T,
    alloc: Global,
    nfa: &NFA,
    sid: StateID,
    leads: Leads,
    shows: &str,
) -> Result<(), AllocError>
    requires { sid < state_len nfa.now }
{
    let want = transitions(alloc, leads)?;
    let found: Vec<(u8, usize)> = nfa
        .iter_trans(sid)
        .map(|(byte, next)| (byte, next.as_usize()))
        .collect(alloc)?;
    same(rt, &found, &want, shows);
    Ok(())
}

/// Asserts which patterns match at a state, by the list that is lent and by the iterator.
fn state_lists<T: Abort>(
    rt: &T,
    alloc: Global,
    nfa: &NFA,
    sid: StateID,
    want: &[usize],
    shows: &str,
) -> Result<(), AllocError>
    requires { sid < state_len nfa.now }
{
    let given: Vec<PatternID> = nfa.iter_matches(sid).collect(alloc)?;
    same(rt, &given, nfa.match_list(sid), shows);
    let numbers: Vec<usize> = given.iter().map(|it| it.as_usize()).collect(alloc)?;
    same(rt, &numbers, want, shows);
    Ok(())
}

/// Asserts what is kept of a state.
fn state_is<T: Abort>(
    rt: &T,
    alloc: Global,
    nfa: &NFA,
    state: &State,
    shows: &str,
) -> Result<(), Fail> {
    let State(number, depth, fails_to, matches, leads) = state;
    let sid = StateID::new(*number)?;
    if sid.as_usize() >= nfa.state_len() {
        return Err("no such state".into());
    }
    let found = [nfa.depth(sid), nfa.fail(sid).as_usize()];
    same(rt, &found, &[*depth, *fails_to], shows);
    state_leads(rt, alloc, nfa, sid, *leads, shows)?;
    state_lists(rt, alloc, nfa, sid, *matches, shows)?;
    Ok(())
}

/// Asserts the classes of some bytes.
fn classes_so<T: Abort>(rt: &T, classes: &ByteClasses, kept: &Kept) {
    let (bytes, want) = kept.classes;
    equal(rt, &bytes.len(), &want.len(), kept.shows);
    for (byte, class) in bytes.iter().zip(want) {
        let found = (*byte, classes.get(*byte));
        equal(rt, &found, &(*byte, *class), kept.shows);
    }
}

/// Asserts what is kept.
fn is_kept<T: Abort>(rt: &T, alloc: Global, nfa: &NFA, kept: &Kept) -> Result<(), Fail> {
    let shows = kept.shows;
    same(rt, &bounds_of(nfa), &kept.bounds, shows);
    same(rt, &[nfa.prefilter().is_some()], &[kept.prefilter.1], shows);
    classes_so(rt, nfa.byte_classes(), kept);
    for state in kept.states {
        state_is(rt, alloc, nfa, state, shows)?;
    }
    Ok(())
}

/// Asserts what the automaton keeps, and a copy of it, which takes as much memory.
fn keeps<T: Abort>(rt: &T, alloc: Global, nfa: &NFA, kept: &Kept) -> Result<(), Fail> {
    is_kept(rt, alloc, nfa, kept)?;
    let copy = nfa.clone(alloc)?;
    let memory = (copy.memory_usage(), nfa.memory_usage());
    equal(rt, &memory.0, &memory.1, kept.shows);
    is_kept(rt, alloc, &copy, kept)
}

/// Asserts what the automaton of these patterns keeps of them.
fn holds<T: Abort>(rt: &T, alloc: Global, kept: &Kept) -> Result<(), Fail> {
    let asked = Asked {
        patterns: kept.patterns,
        kind: kept.kind,
        letters: kept.letters,
    };
    let nfa = noncontiguous(alloc, asked, kept.prefilter.0, 3)?;
    keeps(rt, alloc, &nfa, kept)
}

/// Asserts what automata keep.
fn each_holds<T: Abort>(rt: &T, alloc: Global, each: &[Kept]) -> Result<(), Fail> {
    for kept in each {
        holds(rt, alloc, kept)?;
    }
    Ok(())
}

/// States in order, of each kind, and of paired bytes.
#[test]
fn states(rt: HostRuntime) -> Result<(), Fail> {
    for each in [order::KEPT, kinds::KEPT, pairs::KEPT] {
        each_holds(&rt, rt.alloc(), each)?;
    }
    Ok(())
}
