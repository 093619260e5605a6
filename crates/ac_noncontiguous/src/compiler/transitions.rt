//! The transitions of the states, one state after another.
//!
//! A state stores the transitions that lead somewhere, and none for the other bytes, which are looked up at its failure. The dead
//! state and both starts store all 256: they are reached last or most often, and have no failure.
//!
//! Where no byte has a partner, the children of a state give its transitions, since they come in the order of their bytes. Else most
//! states have one child or none, and then need no look at each of the 256 bytes.
ghost use Rattle.std.specs.Prelude.{◌≡◌, ◌+◌, ◌<◌, length, true, false, IsTrue, IfOk};
ghost use Rattle.ac_input.specs.Same.{IsUnpaired};
ghost use Rattle.ac_noncontiguous.specs.Compiler.Numbering.{IsNumbering};
ghost use Rattle.ac_noncontiguous.specs.Compiler.Only.{AppendsChildrenOf, HasOneAtMost, AppendsOnly};
ghost use Rattle.ac_noncontiguous.specs.Compiler.Layout.{AreAppended, HasAll, IsAppended, AreLaidOut};

use crate::compiler::edges::edges;
use crate::compiler::numbering::Numbering;
use crate::nfa::tables::Transition;
use crate::trie::Trie;
use ac_input::primitives::StateID;
use std::alloc::{AllocError, Global};

/// The transitions of all states.
#[derive(Drop)]
pub(super) struct Transitions {
    /// Where those of each state begin, and last where they end.
    pub offsets: Vec<usize>,
    pub transitions: Vec<Transition>,
}

/// Puts the transitions for all bytes after the others, or those that lead somewhere.
fn push_edges(
    edges: &[StateID; 256],
    all: bool,
    transitions: &mut Vec<Transition>,
) -> Result<(), AllocError>
    ensures { IfOk result
        (λ _. AreAppended edges.now all 256 transitions.old.items transitions.new.items) }
{
    for byte in 0..256usize {
        let next = edges[byte];
        if all || next.as_usize() != 1 {
            let byte = byte as u8;
            transitions.push(Transition { byte, next })?;
        }
    }
    Ok(())
}

/// Whether the state has a transition for each byte.
fn has_all(numbering: &Numbering, state: usize) -> bool
    ensures yes { HasAll numbering.now.start state → result ≡ true }
    ensures no { (¬ HasAll numbering.now.start state) → result ≡ false }
{
    state == 0 || state == numbering.start.as_usize() || state == numbering.start.one_more()
}

/// Whether the trie state has no child, or only one, for a byte that stands for itself and its partner.
fn has_one_at_most(trie: &Trie, of: StateID) -> bool
    requires { of < length trie.now.states.items }
    ensures { IsTrue result → HasOneAtMost trie.now of }
{
    let first = trie.state(of).child;
    if first == StateID::ZERO {
        return true;
    }
    let child = trie.state(first);
    child.sibling == StateID::ZERO && trie.canonical(child.byte) == child.byte
}

/// Whether no byte has a partner.
fn is_unpaired(trie: &Trie) -> bool
    ensures { IsTrue result → IsUnpaired trie.now.pairing }
{
    for byte in 0..256usize {
        if trie.other(byte as u8) != byte as u8 {
            return false;
        }
    }
    true
}

/// Puts the transitions to the children of the trie state after the others, in rising order of byte.
fn push_children(
    trie: &Trie,
    numbering: &Numbering,
    of: StateID,
    transitions: &mut Vec<Transition>,
) -> Result<(), AllocError>
    requires numbering { IsNumbering (length trie.now.states.items) numbering.now }
    requires within { of < length trie.now.states.items }
    ensures { IfOk result (λ _.
        AppendsChildrenOf trie.now numbering.now of transitions.old.items transitions.new.items) }
{
    let mut at = trie.state(of).child;
    while at != StateID::ZERO {
        let child = trie.state(at);
        let next = numbering.of[at.as_usize()];
        let byte = child.byte;
        transitions.push(Transition { byte, next })?;
        at = child.sibling;
    }
    Ok(())
}

/// Puts the transitions to the first child of the trie state after the others, if it has one.
fn push_only(
    trie: &Trie,
    numbering: &Numbering,
    of: StateID,
    transitions: &mut Vec<Transition>,
) -> Result<(), AllocError>
    requires numbering { IsNumbering (length trie.now.states.items) numbering.now }
    requires within { of < length trie.now.states.items }
    ensures { IfOk result (λ _.
        AppendsOnly trie.now numbering.now of transitions.old.items transitions.new.items) }
{
    let child = trie.state(of).child;
    if child == StateID::ZERO {
        return Ok(());
    }
    let byte = trie.state(child).byte;
    let next = numbering.of[child.as_usize()];
    transitions.push(Transition { byte, next })?;
    let other = trie.other(byte);
    if other != byte {
        transitions.push(Transition { byte: other, next })?;
    }
    Ok(())
}

/// Puts the transitions of the state after those of the others.
fn push_state(
    trie: &Trie,
    numbering: &Numbering,
    back: StateID,
    unpaired: bool,
    state: usize,
    transitions: &mut Vec<Transition>,
) -> Result<(), AllocError>
    requires unpaired { IsTrue unpaired → IsUnpaired trie.now.pairing }
    requires numbering { IsNumbering (length trie.now.states.items) numbering.now }
    requires within { state < length numbering.now.at.items }
    requires back { back < length numbering.now.at.items }
    ensures { IfOk result (λ _.
        IsAppended trie.now numbering.now back state transitions.old.items transitions.new.items) }
{
    if state == 1 {
        return Ok(());
    }
    let all = has_all(numbering, state);
    let of = numbering.at[state];
    if !all && unpaired {
        return push_children(trie, numbering, of, transitions);
    }
    if !all && has_one_at_most(trie, of) {
        return push_only(trie, numbering, of, transitions);
    }
    let edges = edges(trie, numbering, back, state);
    push_edges(&edges, all, transitions)
}

impl Transitions {
    /// The transitions of all states; `back` is where the bytes that begin nothing lead from the unanchored start.
    pub(super) fn new(
        alloc: Global,
        trie: &Trie,
        numbering: &Numbering,
        back: StateID,
    ) -> Result<Transitions, AllocError>
        requires numbering { IsNumbering (length trie.now.states.items) numbering.now }
        requires back { back < length numbering.now.at.items }
        ensures { IfOk result (λ it. AreLaidOut trie.now numbering.now back
            (length numbering.now.at.items) it.offsets.items it.transitions.items) }
    {
        let states = numbering.at.len();
        let mut offsets = Vec::with_capacity(alloc, states + 1)?;
        let mut transitions = Vec::new(alloc);
        let unpaired = is_unpaired(trie);
        offsets.push(0)?;
        for state in 0..states {
            push_state(trie, numbering, back, unpaired, state, &mut transitions)?;
            offsets.push(transitions.len())?;
        }
        Ok(Transitions {
            offsets,
            transitions,
        })
    }
}
