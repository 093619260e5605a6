//! What is stored for each state.
ghost use Rattle.std.specs.Prelude.{◌≡◌, ◌+◌, ◌<◌, length, slice_index, EachIndex, IfOk};
ghost use Rattle.ac_noncontiguous.specs.Links.{by_state};
ghost use Rattle.ac_noncontiguous.specs.Compiler.Assembly.{IsKeptOf, AreKept};

use crate::compiler::outlines::Outline;
use crate::links::Range;
use crate::links::ranges::Ranges;
use crate::nfa::tables::{NO_ROW, State};
use ac_input::primitives::StateID;
use std::alloc::{AllocError, Global};

/// What is stored for the state, whose transitions and row begin at these places.
fn kept(
    outlines: &[Outline],
    at: &[StateID],
    ranges: &Ranges,
    state: usize,
    transitions: usize,
    row: u32,
) -> State
    requires outlines { length outlines.now ≡ length at.now }
    requires ranges { EachIndex at.now (λ k. slice_index at.now k < length (by_state ranges.now)) }
    requires within { state < length at.now }
    ensures { IsKeptOf outlines.now at.now (by_state ranges.now) state transitions row result }
{
    let Outline { fail, depth } = outlines[state];
    let range = if state < 2 {
        Range { from: 0, len: 0 }
    } else {
        ranges.get(at[state])
    };
    State {
        transitions,
        matches: range.from,
        matches_len: range.len,
        fail,
        depth,
        row,
    }
}

/// What is stored for all states, and one entry more, for the end of their transitions. It is made of their outlines, their trie
/// states and the ranges of these, and of where their transitions and rows begin.
pub(super) fn states(
    alloc: Global,
    outlines: &[Outline],
    at: &[StateID],
    ranges: &Ranges,
    transitions: &[usize],
    rows: &[u32],
) -> Result<Vec<State>, AllocError>
    requires outlines { length outlines.now ≡ length at.now }
    requires ranges { EachIndex at.now (λ k. slice_index at.now k < length (by_state ranges.now)) }
    requires transitions { length transitions.now ≡ length at.now + 1 }
    requires rows { length rows.now ≡ length at.now }
    ensures { IfOk result
        (λ states. AreKept outlines.now at.now (by_state ranges.now) transitions.now rows.now states.items) }
{
    let len = at.len();
    let mut states = Vec::with_capacity(alloc, len + 1)?;
    for state in 0..len {
        states.push(kept(outlines, at, ranges, state, transitions[state], rows[state]))?;
    }
    states.push(State {
        transitions: transitions[len],
        matches: 0,
        matches_len: 0,
        fail: StateID::ZERO,
        depth: 0,
        row: NO_ROW,
    })?;
    Ok(states)
}
