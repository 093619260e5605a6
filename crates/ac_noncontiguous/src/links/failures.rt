//! To which state each state of a trie fails.
//!
//! A state fails to the one for the longest part of its text that may still grow into a match. That is where its last byte leads
//! from the failure of its parent. Where a byte leads from a state is given by the state's child for it, or else by the failure of
//! the state. So failures are computed from shallow states to deep ones.
//!
//! Each step from a failure to the next one is paid for by a byte of the pattern by which the states were added: the time is in
//! proportion to the bytes of the patterns.
ghost use Rattle.std.specs.Prelude.{◌≡◌, ℕ, ◌+◌, ◌<◌, length, Some, IfOk};
ghost use Rattle.ac_noncontiguous.specs.Trie.Tree.{depth};
ghost use Rattle.ac_noncontiguous.specs.Compiler.Assembly.{AreFailsFor};
ghost use Rattle.ac_noncontiguous.specs.Links.Order.{IsBreadthFirst};
ghost use Rattle.ac_noncontiguous.specs.Links.Children.{AreChildrenOfAll};
ghost use Rattle.ac_noncontiguous.specs.Links.Failures.{IsToldBy, AreShallower, IsWithinDepth, IsNextByFails, IsFailureByFails, IsFinalIn};

use crate::links::children::Children;
use crate::trie::Trie;
use ac_input::primitives::StateID;
use ac_input::search::MatchKind;
use std::alloc::{AllocError, Global};

impl Trie {
    /// Where the byte leads from the state, if its failure isn't needed.
    fn told_by(&self, children: &Children, of: StateID, byte: u8) -> Option<StateID>
        requires within { of < length self.now.states.items }
        requires children { AreChildrenOfAll self.now.states.items children.now }
        ensures { IsToldBy self.now.states.items of byte result }
    {
        let child = self.child_of(children, of, byte);
        if child.is_none() && of == StateID::ZERO {
            return Some(of);
        }
        child
    }

    /// Where the byte leads from the state: where the first state along the failures that has an edge for it leads, if any has.
    fn next(
        &self,
        children: &Children,
        fails: &[Option<StateID>],
        from: StateID,
        byte: u8,
    ) -> Option<StateID>
        requires within { from < length self.now.states.items }
        requires children { AreChildrenOfAll self.now.states.items children.now }
        requires shallower { AreShallower self.now.states.items fails.now }
        ensures shallow { IsWithinDepth self.now.states.items
            (depth self.now.states.items from + 1) result }
        ensures leads { IsNextByFails self.now fails.now from byte result }
    {
        let mut at = Some(from);
        while let Some(id) = at {
            let told = self.told_by(children, id, byte);
            if told.is_some() {
                return told;
            }
            at = fails[id.as_usize()];
        }
        None
    }

    /// Whether no state after this one can be better: under a leftmost kind a pattern ends in it, or at the start.
    fn is_final(&self, id: StateID) -> bool
        requires { id < length self.now.states.items }
        ensures { IsFinalIn self.now.kind self.now.states.items id result }
    {
        self.kind() != MatchKind::Standard
            && (self.state(id).is_match || self.state(StateID::ZERO).is_match)
    }

    /// To which state this one fails, by the failures of the states of lesser depth.
    fn failure(
        &self,
        children: &Children,
        fails: &[Option<StateID>],
        id: StateID,
    ) -> Option<StateID>
        requires within { id < length self.now.states.items }
        requires children { AreChildrenOfAll self.now.states.items children.now }
        requires shallower { AreShallower self.now.states.items fails.now }
        ensures shallower { (f : ℕ) → result ≡ Some f → (f < length self.now.states.items) ×
            (depth self.now.states.items f < depth self.now.states.items id) }
        ensures fails { IsFailureByFails self.now fails.now id result }
    {
        if id == StateID::ZERO || self.is_final(id) {
            return None;
        }
        let state = self.state(id);
        if state.parent == StateID::ZERO {
            return Some(StateID::ZERO);
        }
        let above = fails[state.parent.as_usize()];
        match above {
            None => None,
            Some(from) => self.next(children, fails, from, state.byte),
        }
    }

    /// To which state each one fails. The order is that of [`breadth_first`](Self::breadth_first).
    pub(crate) fn failures(
        &self,
        alloc: Global,
        order: &[StateID],
    ) -> Result<Vec<Option<StateID>>, AllocError>
        requires { IsBreadthFirst self.now.states.items order.now }
        ensures shallower { IfOk result (λ fails. AreShallower self.now.states.items fails.items) }
        ensures fails { IfOk result (λ fails. AreFailsFor self.now fails.items) }
    {
        let children = self.children(alloc)?;
        let mut fails = vec![in alloc; None; self.states.len()]?;
        for id in order {
            let failure = self.failure(&children, &fails, *id);
            fails[id.as_usize()] = failure;
        }
        Ok(fails)
    }
}
