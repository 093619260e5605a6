//! What C holds of a replacement of pieces: a pointer to it, or null.
ghost use Rattle.std.specs.Prelude.{◌≡◌, Some, None, option_map};
ghost use Rattle.ac_c.specs.Replacer.{AnswersReplacing, HeldReplacer, replacer_coded};

use crate::replacing::Replacing;
use crate::slot::Slot;
use crate::status::OK;
use aho_corasick::AhoCorasick;
use std::alloc::Global;
use std::marker::Model;

/// Stands behind the pointer. C never looks at it.
#[repr(C)]
#[derive(Drop)]
pub struct OpaqueReplacer {
    byte: u8,
}

/// A replacement of pieces on the heap, or none.
#[repr(C)]
pub struct Replacer {
    at: *mut OpaqueReplacer,
    alloc: Global,
    pub ghost value: { HeldReplacer } by { replacer_coded },
}

impl Model for Replacer {
    ghost use Rattle.ac_c.specs.contracts.replacing.Replacing.{the_row};
    ghost use Rattle.ac_c.specs.Slot.{slot_owns};

    ghost also_owns = { λ h. slot_owns the_row h.alloc h.at h.value };
}

unsafe impl Send for Replacer {}

impl Replacer {
    /// Hides what is at the pointer.
    fn from_slot(slot: Slot<Replacing>) -> Replacer
        ensures { result.value ≡ slot.value }
    {
        let Slot { at, alloc } = slot;
        Replacer {
            at: at as *mut OpaqueReplacer,
            alloc,
        }
    }

    /// What is at the pointer.
    fn into_slot(self) -> Slot<Replacing>
        ensures { result.value ≡ self.value }
    {
        let Replacer { at, alloc } = self;
        Slot {
            at: at as *mut Replacing,
            alloc,
        }
    }

    /// No replacement.
    pub fn none(alloc: Global) -> Replacer
        ensures { result.value ≡ None }
    {
        Replacer::from_slot(Slot::none(alloc))
    }

    /// Puts a replacement of pieces behind a pointer.
    pub fn from_box(replacement: Box<Replacing, Global>) -> Replacer
        ensures { result.value ≡ Some replacement.value }
    {
        Replacer::from_slot(Slot::from_box(replacement))
    }

    /// The replacement, if there is one.
    pub fn into_box(self) -> Option<Box<Replacing, Global>>
        ensures { self.value ≡ option_map (λ b. b.value) result }
    {
        self.into_slot().into_box()
    }
}

impl Drop for Replacer {
    fn drop(self) {
        drop(self.into_box());
    }
}

/// A replacement of pieces by an automaton into a handle, as C sees it. It is another owner of the automaton.
pub fn begin(ac: &AhoCorasick, alloc: Global, replacer: &mut Replacer) -> u32
    ensures { AnswersReplacing ac.now replacer.old.value replacer.new.value result }
{
    hold!(Replacing::begin(ac, alloc), replacer: Replacer)
}
