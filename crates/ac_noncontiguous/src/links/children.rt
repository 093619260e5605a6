//! The children of all states of a trie, one state after another.
//!
//! The states of a large trie lie far apart in memory, and so do the children of one state. Where children are looked up often, as
//! for the failures, they are put side by side: 13 bytes a state, which are freed afterwards.
ghost use Rattle.std.specs.Prelude.{◌≡◌, ◌+◌, ◌<◌, map, length, IfOk};
ghost use Rattle.ac_noncontiguous.specs.Trie.Tree.{byte as byte_of};
ghost use Rattle.ac_noncontiguous.specs.Links.Children.{AppendsChildren, AreChildrenOfAll};
ghost use Rattle.ac_noncontiguous.specs.Links.Failures.{IsChildOf};

use crate::trie::Trie;
use ac_input::primitives::StateID;
use std::alloc::{AllocError, Global};

/// Up to how many children are searched without trying a hint first.
const FEW: usize = 16;

/// Where the children of each state begin, in rising order of state; the children; and the byte of each.
#[derive(Drop)]
pub(super) struct Children {
    firsts: Vec<usize>,
    ids: Vec<StateID>,
    bytes: Vec<u8>,
}

impl Trie {
    /// Puts the children of the state after those of other states.
    fn push_children(
        &self,
        of: StateID,
        ids: &mut Vec<StateID>,
        bytes: &mut Vec<u8>,
    ) -> Result<(), AllocError>
        requires within { of < length self.now.states.items }
        requires before { bytes.old.items ≡ map (byte_of self.now.states.items) ids.old.items }
        ensures children { IfOk result
            (λ _. AppendsChildren self.now.states.items of ids.old.items ids.new.items) }
        ensures bytes { IfOk result
            (λ _. bytes.new.items ≡ map (byte_of self.now.states.items) ids.new.items) }
    {
        let mut at = self.state(of).child;
        while at != StateID::ZERO {
            let state = self.state(at);
            ids.push(at)?;
            bytes.push(state.byte)?;
            at = state.sibling;
        }
        Ok(())
    }

    /// The children of all states.
    pub(super) fn children(&self, alloc: Global) -> Result<Children, AllocError>
        ensures { IfOk result (AreChildrenOfAll self.now.states.items) }
    {
        let len = self.states.len();
        let mut firsts = Vec::with_capacity(alloc, len + 1)?;
        let mut ids = Vec::with_capacity(alloc, len)?;
        let mut bytes = Vec::with_capacity(alloc, len)?;
        firsts.push(0)?;
        for of in 0..len {
            self.push_children(StateID::must(of), &mut ids, &mut bytes)?;
            firsts.push(ids.len())?;
        }
        Ok(Children { firsts, ids, bytes })
    }

    /// The child of the state for the byte. If there are many, a hint is tried first.
    pub(super) fn child_of(&self, children: &Children, of: StateID, byte: u8) -> Option<StateID>
        requires within { of < length self.now.states.items }
        requires children { AreChildrenOfAll self.now.states.items children.now }
        ensures { IsChildOf self.now.states.items of byte result }
    {
        let from = children.firsts[of.as_usize()];
        let end = children.firsts[of.as_usize() + 1];
        if end.saturating_sub(from) > FEW {
            if let Some(id) = self.known(of, byte) {
                return Some(id);
            }
        }
        self.child_among(children, of, byte)
    }

    /// The child of the state for the byte, as they are put side by side.
    fn child_among(&self, children: &Children, of: StateID, byte: u8) -> Option<StateID>
        requires within { of < length self.now.states.items }
        requires children { AreChildrenOfAll self.now.states.items children.now }
        ensures { IsChildOf self.now.states.items of byte result }
    {
        let from = children.firsts[of.as_usize()];
        let end = children.firsts[of.as_usize() + 1];
        for at in from..end {
            if children.bytes[at] == byte {
                return Some(children.ids[at]);
            }
        }
        None
    }
}
