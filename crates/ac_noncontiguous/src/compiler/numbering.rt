//! The numbers of the states of the automaton.
//!
//! A search checks at each state whether some pattern matches there, so the states that match have the lowest numbers after the
//! first two: then one comparison decides. They come in breadth-first order, as the states after the starts do, so that the states
//! that are met most often lie close together.
ghost use Rattle.std.specs.Prelude.{◌≡◌, ◌+◌, ◌<◌, ◌≤◌, ◌++◌, length, true, false, slice_index, EachIndex, IfOk};
ghost use Rattle.std.specs.List.{filter};
ghost use Rattle.ac_input.specs.Number.{greatest_number};
ghost use Rattle.ac_noncontiguous.specs.Links.{by_state};
ghost use Rattle.ac_noncontiguous.specs.Links.Order.{IsBreadthFirst};
ghost use Rattle.ac_noncontiguous.specs.Compiler.Numbering.{is_chosen, AreListed, AreFirstNumbers, FitsTrie, IsNumbering, AreInRuns, IsLastMatch};

use crate::links::Links;
use crate::trie::Trie;
use ac_input::primitives::StateID;
use std::alloc::{AllocError, Global};

/// The trie states in the order of their numbers.
#[derive(Drop)]
struct Listed {
    /// For each state its trie state.
    at: Vec<StateID>,
    /// The number of the unanchored start.
    start: StateID,
}

/// Which trie state each state stands for, and the other way round.
#[derive(Drop)]
pub(super) struct Numbering {
    /// For each state its trie state. The dead one and the fail one stand for none, and have the start here.
    pub at: Vec<StateID>,
    /// For each trie state its number. The start has that of the unanchored one.
    pub of: Vec<StateID>,
    /// The unanchored start.
    pub start: StateID,
    /// The last state at which a pattern matches; 1 where there is none.
    pub max_match: StateID,
}

/// Whether some pattern matches at the trie state, or whether none does.
pub(super) fn is_chosen(links: &Links, id: StateID, matching: bool) -> bool
    requires { id < length (by_state links.now.ranges) }
    ensures { result ≡ is_chosen (by_state links.now.ranges) matching id }
{
    let some = links.ranges.get(id).len > 0;
    if matching { some } else { !some }
}

/// Puts those of the trie states after the others at which some pattern matches, or none does.
fn push_chosen(
    states: &[StateID],
    links: &Links,
    matching: bool,
    at: &mut Vec<StateID>,
) -> Result<(), AllocError>
    requires { EachIndex states.now
        (λ k. slice_index states.now k < length (by_state links.now.ranges)) }
    ensures { IfOk result (λ _. at.new.items ≡ at.old.items ++ filter
        (is_chosen (by_state links.now.ranges) matching) states.now) }
{
    for id in states {
        if is_chosen(links, *id, matching) {
            at.push(*id)?;
        }
    }
    Ok(())
}

/// The trie states in the order of their numbers, where these are all but the start.
fn list(alloc: Global, states: &[StateID], links: &Links) -> Result<Listed, AllocError>
    requires within { EachIndex states.now
        (λ k. slice_index states.now k < length (by_state links.now.ranges)) }
    requires few { length states.now + 4 ≤ greatest_number + 1 }
    ensures { IfOk result (AreListed (by_state links.now.ranges) states.now) }
{
    let mut at = Vec::with_capacity(alloc, states.len() + 4)?;
    at.push(StateID::ZERO)?;
    at.push(StateID::ZERO)?;
    push_chosen(states, links, true, &mut at)?;
    let start = StateID::must(at.len());
    at.push(StateID::ZERO)?;
    at.push(StateID::ZERO)?;
    push_chosen(states, links, false, &mut at)?;
    Ok(Listed { at, start })
}

/// The number of each trie state.
fn inverse(alloc: Global, at: &[StateID], states: usize) -> Result<Vec<StateID>, AllocError>
    requires some { 2 ≤ length at.now }
    requires few { length at.now ≤ greatest_number + 1 }
    requires within { EachIndex at.now (λ k. slice_index at.now k < states) }
    ensures { IfOk result (λ of. (length of.items ≡ states) × AreFirstNumbers at.now 2 of.items) }
{
    let mut of = vec![in alloc; StateID::ZERO; states]?;
    let mut from = at.len();
    while from > 2 {
        from -= 1;
        of[at[from].as_usize()] = StateID::must(from);
    }
    Ok(of)
}

/// The last state at which some pattern matches: the anchored start, or the state before the unanchored one.
fn last_match(links: &Links, start: StateID) -> StateID
    requires some { 0 < length (by_state links.now.ranges) }
    requires within { (1 < start) × (start < greatest_number) }
    ensures yes { is_chosen (by_state links.now.ranges) true 0 ≡ true → result ≡ start + 1 }
    ensures no { is_chosen (by_state links.now.ranges) true 0 ≡ false → result + 1 ≡ start }
{
    if is_chosen(links, StateID::ZERO, true) {
        StateID::must(start.one_more())
    } else {
        StateID::must(start.as_usize() - 1)
    }
}

impl Numbering {
    /// The numbers of the states of a trie.
    pub(super) fn new(
        alloc: Global,
        trie: &Trie,
        order: &[StateID],
        links: &Links,
    ) -> Result<Numbering, AllocError>
        requires order { IsBreadthFirst trie.now.states.items order.now }
        requires links { FitsTrie (length trie.now.states.items) links.now }
        ensures made { IfOk result (IsNumbering (length trie.now.states.items)) }
        ensures matches { IfOk result
            (λ it. IsLastMatch (by_state links.now.ranges) it.at.items it.start it.max_match) }
        ensures runs { IfOk result
            (λ it. AreInRuns trie.now.states.items it.at.items it.start) }
    {
        let Listed { at, start } = list(alloc, &order[1..], links)?;
        let of = inverse(alloc, &at, trie.len())?;
        Ok(Numbering {
            at,
            of,
            start,
            max_match: last_match(links, start),
        })
    }
}
