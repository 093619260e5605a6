//! The words of all states, one state after another.
ghost use Rattle.std.specs.Prelude.{◌≡◌, ◌<◌, length, IfOk};
ghost use Rattle.ac_noncontiguous.specs.Nfa.ReadCalls.{state_len, edges_in, AreEdges};
ghost use Rattle.ac_tables.specs.Contiguous.Build.{ArePlacesIn, AreReadBy, IsWritten, AreAllWritten};

use crate::contiguous::words::{Parts, push_state};
use ac_input::alphabet::ByteClasses;
use ac_input::primitives::StateID;
use ac_noncontiguous::nfa::{FAIL, NFA};
use std::alloc::{AllocError, Global};

/// Reads the transitions of the state, each with its byte's class and the place of the next state, in place of what was there.
fn read_edges(
    nfa: &NFA,
    sid: StateID,
    classes: &ByteClasses,
    places: &[StateID],
    edges: &mut Vec<(u8, StateID)>,
) -> Result<(), AllocError>
    requires within { sid < state_len nfa.now }
    requires places { length places.now ≡ state_len nfa.now }
    ensures lead { AreEdges nfa.now sid (edges_in nfa.now sid) }
    ensures read { IfOk result
        (λ _. AreReadBy nfa.now classes.now places.now sid edges.new.items) }
{
    edges.clear();
    for (byte, next) in nfa.iter_trans(sid) {
        edges.push((classes.get(byte), places[next.as_usize()]))?;
    }
    Ok(())
}

/// Puts the words of the state after those of the states before it, which are in `out`. Its transitions are read into `edges`.
fn push_words(
    nfa: &NFA,
    sid: StateID,
    depth: usize,
    classes: &ByteClasses,
    places: &[StateID],
    edges: &mut Vec<(u8, StateID)>,
    out: &mut Vec<u32>,
) -> Result<(), AllocError>
    requires within { sid < state_len nfa.now }
    requires places { ArePlacesIn nfa.now depth classes.now places.now }
    ensures { IfOk result (λ _. IsWritten nfa.now depth classes.now sid
        out.old.items out.new.items) }
{
    if sid.as_usize() == FAIL {
        return Ok(());
    }
    read_edges(nfa, sid, classes, places, edges)?;
    let parts = Parts {
        shallow: nfa.depth(sid) < depth,
        fail: places[nfa.fail(sid).as_usize()],
        edges,
        matches: nfa.match_list(sid),
    };
    push_state(&parts, classes.alphabet_len(), out)
}

/// The words of the states, one state after another: `words_len` of them.
pub(super) fn words(
    alloc: Global,
    nfa: &NFA,
    dense_depth: usize,
    classes: &ByteClasses,
    places: &[StateID],
    words_len: usize,
) -> Result<Vec<u32>, AllocError>
    requires { ArePlacesIn nfa.now dense_depth classes.now places.now }
    ensures { IfOk result
        (λ words. AreAllWritten nfa.now dense_depth classes.now words.items) }
{
    let mut edges = Vec::new(alloc);
    let mut words = Vec::with_capacity(alloc, words_len)?;
    for state in 0..nfa.state_len() {
        let sid = StateID::must(state);
        push_words(
            nfa,
            sid,
            dense_depth,
            classes,
            places,
            &mut edges,
            &mut words,
        )?;
    }
    Ok(words)
}
