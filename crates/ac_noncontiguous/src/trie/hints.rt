//! Where children were found, so that a long list of siblings isn't walked again for each pattern.
//!
//! A hint says for a state and a byte which child that may be. It is checked before it is followed: the child names its parent and
//! its byte, so a hint that was overwritten, or was lost as the table grew, costs a walk and changes no result. The hints of one
//! state stand in the order of their bytes, so a hint before a missing one gives the place to walk on from.
//!
//! Only children that aren't the first of their parent are recorded. The table has room for twice as many as were recorded since
//! it grew, and at most 16 megabytes; if there is no memory to grow, it starts anew. It is freed when the failures are known.
ghost use Rattle.std.specs.Prelude.{◌≡◌, ℕ, ◌<◌, length, Some, IsTrue};
ghost use Rattle.ac_noncontiguous.specs.Trie.Tree.{IsSiblingWalk, IsChildBelow};
ghost use Rattle.ac_noncontiguous.specs.Compiler.Edges.{IsChildFor};
ghost use Rattle.ac_noncontiguous.specs.Trie.Kept.{KeepsSettings};

use super::{ChildSlot, Trie};
use ac_input::primitives::StateID;
use std::alloc::Global;

/// How many hints there is room for at first.
const LEAST: usize = 256;

/// How many hints there is room for at most.
const MOST: usize = 4194304;

/// How many bytes below a byte a hint is looked for from which to walk on.
const REACH: u8 = 16;

/// An odd number that spreads the numbers of the states over the table.
const SPREAD: u32 = 2654435769;

/// At a place for a state and a byte, the child that was recorded there last; the start where none was.
#[derive(Drop)]
pub(super) struct Hints {
    slots: Vec<StateID>,
    noted: usize,
}

impl Hints {
    /// No hints.
    pub(super) fn new(alloc: Global) -> Hints {
        Hints {
            slots: Vec::new(alloc),
            noted: 0,
        }
    }

    /// The place for the state and the byte; the room is a power of two.
    fn slot(&self, of: StateID, byte: u8) -> usize {
        let from = (of.as_u32().wrapping_mul(SPREAD) >> 7) as usize;
        (from + byte as usize) & self.slots.len().wrapping_sub(1)
    }

    /// What was recorded last at the place for the state and the byte: perhaps the child of another state.
    pub(super) fn get(&self, of: StateID, byte: u8) -> StateID {
        match self.slots.get(self.slot(of, byte)) {
            Some(id) => *id,
            None => StateID::ZERO,
        }
    }

    /// Records the child of the state for the byte.
    pub(super) fn put(&mut self, of: StateID, byte: u8, child: StateID) {
        let len = self.slots.len();
        self.noted = self.noted.wrapping_add(1);
        if self.noted > len / 2 && len < MOST {
            self.grow(len.saturating_mul(2).max(LEAST));
        }
        let slot = self.slot(of, byte);
        if let Some(place) = self.slots.get_mut(slot) {
            *place = child;
        }
    }

    /// Makes room for this many, and drops those that were recorded.
    fn grow(&mut self, len: usize) {
        self.noted = 0;
        self.slots.clear();
        if self.slots.resize(len, StateID::ZERO).is_err() {
            self.slots.clear();
        }
    }
}

impl Trie {
    /// Whether it is the child of the state for the byte.
    fn is_child(&self, of: StateID, byte: u8, id: StateID) -> bool
        ensures { IsTrue result → IsChildFor self.now.states.items of byte id }
    {
        if id == StateID::ZERO || id.as_usize() >= self.states.len() {
            return false;
        }
        let state = self.state(id);
        state.parent == of && state.byte == byte
    }

    /// The child of the state for the byte, if it is the first one or a hint gives it.
    pub(crate) fn known(&self, of: StateID, byte: u8) -> Option<StateID>
        requires { of < length self.now.states.items }
        ensures { (id : ℕ) → result ≡ Some id → IsChildFor self.now.states.items of byte id }
    {
        let first = self.state(of).child;
        if first == StateID::ZERO {
            return None;
        }
        if self.is_child(of, byte, first) {
            return Some(first);
        }
        let hint = self.hints.get(of, byte);
        if self.is_child(of, byte, hint) {
            return Some(hint);
        }
        None
    }

    /// A child of the state for a lesser byte, near this one, if a hint gives one.
    fn known_before(&self, of: StateID, byte: u8) -> Option<StateID>
        ensures { (id : ℕ) → result ≡ Some id → IsChildBelow self.now.states.items of byte id }
    {
        let least = byte.saturating_sub(REACH);
        let mut low = byte;
        while low > least {
            low -= 1;
            let hint = self.hints.get(of, low);
            if self.is_child(of, low, hint) {
                return Some(hint);
            }
        }
        None
    }

    /// From where to walk along the children of the state to the place for the byte.
    pub(super) fn from_where(&self, of: StateID, byte: u8) -> ChildSlot
        requires { of < length self.now.states.items }
        ensures { IsSiblingWalk self.now.states.items of byte result.before result.at }
    {
        let first = self.state(of).child;
        let none = ChildSlot {
            before: StateID::ZERO,
            at: first,
        };
        if first == StateID::ZERO {
            return none;
        }
        match self.known_before(of, byte) {
            None => none,
            Some(before) => ChildSlot {
                before,
                at: self.state(before).sibling,
            },
        }
    }

    /// Records a child of the state if it isn't the first.
    pub(super) fn note_child(&mut self, of: StateID, byte: u8, child: StateID)
        requires { of < length self.old.states.items }
        ensures states { self.new.states ≡ self.old.states }
        ensures rest { KeepsSettings self.old self.new }
    {
        if self.state(of).child != child {
            self.hints.put(of, byte, child);
        }
    }

    /// The same trie without its hints, which are freed.
    pub(crate) fn without_hints(mut self, alloc: Global) -> Trie
        ensures states { result.states ≡ self.states }
        ensures rest { KeepsSettings self result }
    {
        self.hints = Hints::new(alloc);
        self
    }
}
