//! The rows of the states that few bytes lead to.
//!
//! A row has the next state for each class of bytes, all failures followed: where a byte leads to none from the state itself, it
//! leads where it does from the failure, by the failure's row. Most of a search's steps are near the start, where states have most
//! children. A row for each state of little depth makes a step there three loads, whatever the byte.
//!
//! A failure is less deep than its state, so the rows are made in order of depth: then that of the failure is there before.
ghost use Rattle.std.specs.Prelude.{◌≡◌, ℕ, ◌+◌, ◌<◌, ◌||◌, length, true, slice_index, IfOk};
ghost use Rattle.ac_input.specs.Alphabet.{has, class, is_edge, alphabet_len};
ghost use Rattle.ac_noncontiguous.specs.Compiler.Numbering.{FitsTrie, IsNumbering};
ghost use Rattle.ac_noncontiguous.specs.Links.Failures.{AreShallower};
ghost use Rattle.ac_noncontiguous.specs.Links.Order.{IsBreadthFirst};
ghost use Rattle.ac_input.specs.Alphabet.Classes.{IsParted};
ghost use Rattle.ac_noncontiguous.specs.Compiler.Layout.{AreAlone, AreClassesOfTrie, LeadAlike, KeepsRows, IsRowAppended, or_failure, AreWithFailures, AreOfDead, HaveRows, AreRowsOf, AreRowedAbove, AddsRow, AreRowedUpTo};

use crate::compiler::edges::{edges, filled};
use crate::compiler::numbering::Numbering;
use crate::compiler::outlines::failure;
use crate::links::Links;
use crate::nfa::tables::{FAIL, NO_ROW};
use crate::trie::Trie;
use ac_input::alphabet::{ByteClassSet, ByteClasses};
use ac_input::primitives::StateID;
use std::alloc::{AllocError, Global};

/// Separates the byte from all others.
fn set_apart(set: &mut ByteClassSet, byte: u8)
    ensures parted { IsParted set.new byte }
    ensures kept { (b : ℕ) → has set.old b ≡ true → has set.new b ≡ true }
    ensures edges { (b : ℕ) → has set.new b ≡ (has set.old b || is_edge byte byte b) }
{
    set.set_range(byte, byte);
}

/// The classes of bytes that no state of the trie distinguishes.
pub(super) fn classes(trie: &Trie) -> ByteClasses
    ensures alone { AreAlone trie.now result }
    ensures made { AreClassesOfTrie trie.now result }
{
    let mut set = ByteClassSet::empty();
    for id in 1..trie.len() {
        let byte = trie.state(StateID::must(id)).byte;
        set_apart(&mut set, byte);
        set_apart(&mut set, trie.other(byte));
    }
    set.byte_classes()
}

/// Puts a number for each class after the others.
fn push_blank(rows: &mut Vec<StateID>, classes: &ByteClasses) -> Result<(), AllocError>
    ensures { IfOk result (λ _. KeepsRows rows.old.items rows.new.items ×
        (length rows.new.items ≡ length rows.old.items + alphabet_len classes.now)) }
{
    for _ in 0..classes.alphabet_len() {
        rows.push(StateID::ZERO)?;
    }
    Ok(())
}

/// Puts a row after the others.
fn push_row(
    rows: &mut Vec<StateID>,
    classes: &ByteClasses,
    edges: &[StateID; 256],
) -> Result<(), AllocError>
    requires { LeadAlike classes.now edges.now }
    ensures { IfOk result
        (λ _. IsRowAppended classes.now edges.now 256 rows.old.items rows.new.items) }
{
    let row = rows.len();
    push_blank(rows, classes)?;
    for byte in 0..256usize {
        rows[row + classes.get(byte as u8) as usize] = edges[byte];
    }
    Ok(())
}

/// The next state, or, if that is the fail state, the one at a place of the rows.
fn or_failure(next: StateID, rows: &[StateID], at: usize) -> StateID
    requires { at < length rows.now }
    ensures { result ≡ or_failure next (slice_index rows.now at) }
{
    if next.as_usize() == FAIL {
        rows[at]
    } else {
        next
    }
}

/// Where each byte leads by these edges or, where by them it leads to none, by the row of the failure, which begins at this place.
fn with_failures(
    edges: &[StateID; 256],
    classes: &ByteClasses,
    rows: &[StateID],
    failure: usize,
) -> [StateID; 256]
    requires { (b : ℕ) → b < 256 → failure + class classes.now b < length rows.now }
    ensures { AreWithFailures classes.now edges.now rows.now failure result }
{
    let mut leads = filled(StateID::ZERO);
    for byte in 0..256usize {
        let at = failure + classes.get(byte as u8) as usize;
        leads[byte] = or_failure(edges[byte], rows, at);
    }
    leads
}

/// The rows.
#[derive(Drop)]
pub(super) struct Rows {
    /// Where that of each state begins, if it keeps one.
    pub offsets: Vec<u32>,
    pub rows: Vec<StateID>,
}

impl Rows {
    /// The row of the dead state, from which each byte leads to it; no row, if none is wanted.
    fn of_dead(
        alloc: Global,
        states: usize,
        classes: &ByteClasses,
        dense_depth: usize,
    ) -> Result<Rows, AllocError>
        requires { 0 < states }
        ensures { IfOk result (AreOfDead states dense_depth classes.now) }
    {
        let mut offsets = vec![in alloc; NO_ROW; states]?;
        let mut rows = Vec::new(alloc);
        if dense_depth == 0 {
            return Ok(Rows { offsets, rows });
        }
        push_row(&mut rows, classes, &filled(StateID::ZERO))?;
        offsets[0] = 0;
        Ok(Rows { offsets, rows })
    }

    /// Puts the row of the state after the others, if it is less deep than this depth, its failure keeps one, and there is room.
    fn push_state(
        &mut self,
        trie: &Trie,
        numbering: &Numbering,
        links: &Links,
        back: StateID,
        classes: &ByteClasses,
        id: StateID,
        dense_depth: usize,
    ) -> Result<(), AllocError>
        requires numbering { IsNumbering (length trie.now.states.items) numbering.now }
        requires links { FitsTrie (length trie.now.states.items) links.now }
        requires back { back < length numbering.now.at.items }
        requires classes { AreAlone trie.now classes.now }
        requires within { id < length trie.now.states.items }
        requires have { HaveRows trie.now numbering.now links.now back classes.now
            self.old.offsets.items self.old.rows.items }
        requires shallower { AreShallower trie.now.states.items links.now.fails.items }
        requires above { AreRowedAbove trie.now numbering.now dense_depth id self.old }
        ensures have { IfOk result (λ _. HaveRows trie.now numbering.now links.now back classes.now
            self.new.offsets.items self.new.rows.items) }
        ensures rowed { IfOk result (λ _. AddsRow trie.now numbering.now dense_depth id self.old self.new) }
    {
        let depth = trie.state(id).depth as usize;
        let from = self.offsets[failure(numbering, links, id).as_usize()];
        let row = self.rows.len();
        if depth >= dense_depth || from == NO_ROW || row >= NO_ROW as usize {
            return Ok(());
        }
        let state = numbering.of[id.as_usize()].as_usize();
        let edges = edges(trie, numbering, back, state);
        let leads = with_failures(&edges, classes, &self.rows, from as usize);
        push_row(&mut self.rows, classes, &leads)?;
        self.offsets[state] = row as u32;
        Ok(())
    }

    /// The rows of the states that are less deep than this depth; `back` is where the bytes that begin nothing lead from the
    /// unanchored start.
    pub(super) fn new(
        alloc: Global,
        trie: &Trie,
        numbering: &Numbering,
        links: &Links,
        order: &[StateID],
        back: StateID,
        classes: &ByteClasses,
        dense_depth: usize,
    ) -> Result<Rows, AllocError>
        requires numbering { IsNumbering (length trie.now.states.items) numbering.now }
        requires links { FitsTrie (length trie.now.states.items) links.now }
        requires order { IsBreadthFirst trie.now.states.items order.now }
        requires back { back < length numbering.now.at.items }
        requires classes { AreAlone trie.now classes.now }
        requires shallower { AreShallower trie.now.states.items links.now.fails.items }
        ensures rows { IfOk result (λ it. AreRowsOf trie.now numbering.now links.now back classes.now
            it.offsets.items it.rows.items) }
        ensures rowed { IfOk result
            (AreRowedUpTo trie.now numbering.now order.now dense_depth (length order.now)) }
    {
        let mut rows = Rows::of_dead(alloc, numbering.at.len(), classes, dense_depth)?;
        for id in order {
            rows.push_state(trie, numbering, links, back, classes, *id, dense_depth)?;
        }
        let start = numbering.start.as_usize();
        rows.offsets[start + 1] = rows.offsets[start];
        Ok(rows)
    }
}
