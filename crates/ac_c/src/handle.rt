//! What C holds of an automaton: a pointer to it, or null.
ghost use Rattle.std.specs.Prelude.{◌≡◌, Some, None, option_map};
ghost use Rattle.ac_c.specs.Handle.{HeldAutomaton, automaton_coded};

use crate::slot::Slot;
use aho_corasick::AhoCorasick;
use std::alloc::Global;
use std::marker::Model;

/// Stands behind the pointer. C never looks at it.
#[repr(C)]
#[derive(Drop)]
pub struct Opaque {
    byte: u8,
}

/// An automaton on the heap, or none.
#[repr(C)]
pub struct Handle {
    at: *mut Opaque,
    alloc: Global,
    pub ghost value: { HeldAutomaton } by { automaton_coded },
}

impl Model for Handle {
    ghost use Rattle.aho_corasick.specs.contracts.ahocorasick.AhoCorasick.{the_row};
    ghost use Rattle.ac_c.specs.Slot.{slot_owns};

    ghost also_owns = { λ h. slot_owns the_row h.alloc h.at h.value };
}

unsafe impl Send for Handle {}

impl Handle {
    /// Hides what is at the pointer.
    fn from_slot(slot: Slot<AhoCorasick>) -> Handle
        ensures { result.value ≡ slot.value }
    {
        let Slot { at, alloc } = slot;
        Handle {
            at: at as *mut Opaque,
            alloc,
        }
    }

    /// What is at the pointer.
    fn into_slot(self) -> Slot<AhoCorasick>
        ensures { result.value ≡ self.value }
    {
        let Handle { at, alloc } = self;
        Slot {
            at: at as *mut AhoCorasick,
            alloc,
        }
    }

    /// No automaton.
    pub fn none(alloc: Global) -> Handle
        ensures { result.value ≡ None }
    {
        Handle::from_slot(Slot::none(alloc))
    }

    /// Puts an automaton behind a pointer.
    pub fn from_box(automaton: Box<AhoCorasick, Global>) -> Handle
        ensures { result.value ≡ Some automaton.value }
    {
        Handle::from_slot(Slot::from_box(automaton))
    }

    /// The automaton, if there is one.
    pub fn into_box(self) -> Option<Box<AhoCorasick, Global>>
        ensures { self.value ≡ option_map (λ b. b.value) result }
    {
        self.into_slot().into_box()
    }
}

impl Drop for Handle {
    fn drop(self) {
        drop(self.into_box());
    }
}
