//! The table of a DFA, and how a search looks things up in it.
//!
//! It is one vector: a row for each state, one after another, and in each row the next state for each class of bytes. A state's
//! number is where its row begins, so that a look-up is the byte's class, one addition and one load. Rows are as long as the least
//! power of two that is enough for the classes.
ghost use Rattle.std.specs.Prelude.{◌≡◌, ◌↔◌, ◌+◌, ◌==◌, ◌||◌, IfOk, IsTrue, slice_index};
ghost use Rattle.ac_input.specs.Alphabet.{class};
ghost use Rattle.ac_input.specs.Dfa.{Serves};
ghost use Rattle.ac_tables.specs.Dfa.Copy.{IsSameDfaTable};
ghost use Rattle.ac_tables.specs.Dfa.Table.{dfa_list_of};
ghost use Rattle.ac_automaton.specs.Starters.{SkipsBelow};
ghost use Rattle.ac_tables.specs.Dfa.Lookups.{ArePlain, HasRow, HasDfaList, IsIdleIn, list_at};

use crate::dfa::lists::Lists;
use crate::rows::next;
use ac_automaton::starters::Starters;
use ac_input::alphabet::ByteClasses;
use ac_input::primitives::{PatternID, StateID};
use ac_input::search::{Anchored, StartKind};
use std::alloc::{AllocError, Global};

/// The table. Rows are numbered so: the dead state (0), the fail state (1), the states that match, the unanchored start, the
/// anchored start, the others.
#[derive(Drop)]
pub(crate) struct Table {
    /// The next state for each row and each class of bytes.
    pub trans: Vec<StateID>,
    pub classes: ByteClasses,
    pub lists: Lists,
    /// The exponent of the stride: a row has two to it entries.
    pub stride2: usize,
    /// The unanchored start; the anchored one is the next row.
    pub start: StateID,
    pub start_anchored: StateID,
    /// The last state at which a pattern matches; that of row 1 where there is none.
    pub max_match: StateID,
    pub kind: StartKind,
}

impl Table {
    /// The state after one more byte.
    #[inline]
    pub(crate) fn next(&self, plain: bool, sid: StateID, byte: u8) -> StateID
        requires row { HasRow self.now sid }
        requires plain { IsTrue plain → ArePlain self.now.classes }
        ensures { result ≡ slice_index self.now.trans.items (sid + class self.now.classes byte) }
    {
        next(&self.trans, &self.classes, plain, sid, byte)
    }

    /// Whether there is a start for searches of this anchoring.
    pub(crate) fn serves(&self, anchored: Anchored) -> bool
        ensures { IsTrue result ↔ Serves self.now.kind anchored }
    {
        match self.kind {
            StartKind::Both => true,
            StartKind::Unanchored => anchored == Anchored::No,
            StartKind::Anchored => anchored == Anchored::Yes,
        }
    }

    /// Whether it is one of the two starts.
    #[inline]
    pub(crate) fn is_start(&self, sid: StateID) -> bool
        ensures { result ≡ ((sid == self.now.start) || (sid == self.now.start_anchored)) }
    {
        sid == self.start || sid == self.start_anchored
    }

    /// The bytes that lead from the unanchored start to another state. It makes one look-up for each byte.
    pub(crate) fn starters(&self) -> Starters
        requires { Serves self.now.kind Anchored.No → HasRow self.now self.now.start }
        ensures { SkipsBelow (IsIdleIn self.now) 256 result }
    {
        if !self.serves(Anchored::No) || self.start <= self.max_match {
            return Starters::Many;
        }
        let mut starters = Starters::None;
        for byte in 0..256usize {
            if self.next(false, self.start, byte as u8) != self.start {
                starters = starters.with(byte as u8);
            }
        }
        starters
    }

    /// Which of the lists is that of a state.
    #[inline]
    fn list_index(&self, sid: StateID) -> usize
        requires { HasDfaList self.now sid }
        ensures { result ≡ list_at self.now sid }
    {
        let row = (sid.as_usize() >> self.stride2) - 2;
        match self.kind {
            StartKind::Both => row / 2,
            StartKind::Unanchored | StartKind::Anchored => row,
        }
    }

    /// The patterns that match at a state.
    pub(crate) fn match_list(&self, sid: StateID) -> &[PatternID]
        requires { HasDfaList self.now sid }
        ensures { result.now ≡ dfa_list_of self.now.lists (list_at self.now sid) }
    {
        let at = self.list_index(sid);
        let start = if at == 0 { 0 } else { self.lists.ends[at - 1] };
        &self.lists.patterns[start..self.lists.ends[at]]
    }

    /// How many bytes of memory it takes, besides itself.
    pub(crate) fn memory_usage(&self) -> usize {
        (self.trans.len().saturating_mul(4))
            .saturating_add(self.lists.patterns.len().saturating_mul(4))
            .saturating_add(self.lists.ends.len().saturating_mul(8))
    }

    /// A copy, in memory from `alloc`.
    pub(super) fn clone(&self, alloc: Global) -> Result<Table, AllocError>
        ensures { IfOk result (IsSameDfaTable self.now) }
    {
        Ok(Table {
            trans: Vec::from_slice(alloc, &self.trans)?,
            classes: self.classes.clone()?,
            lists: self.lists.clone(alloc)?,
            stride2: self.stride2,
            start: self.start,
            start_anchored: self.start_anchored,
            max_match: self.max_match,
            kind: self.kind,
        })
    }
}
