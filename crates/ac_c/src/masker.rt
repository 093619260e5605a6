//! What C holds of a masking of pieces: a pointer to it, or null.
ghost use Rattle.std.specs.Prelude.{◌≡◌, Some, None, option_map};
ghost use Rattle.ac_c.specs.Masker.{AnswersMasking, AnswersWordMasking, HeldMasker, masker_coded};

use crate::masking::Masking;
use crate::slot::Slot;
use crate::status::OK;
use aho_corasick::AhoCorasick;
use std::alloc::Global;
use std::marker::Model;

/// Stands behind the pointer. C never looks at it.
#[repr(C)]
#[derive(Drop)]
pub struct OpaqueMasker {
    byte: u8,
}

/// A masking of pieces on the heap, or none.
#[repr(C)]
pub struct Masker {
    at: *mut OpaqueMasker,
    alloc: Global,
    pub ghost value: { HeldMasker } by { masker_coded },
}

impl Model for Masker {
    ghost use Rattle.ac_c.specs.contracts.masking.Masking.{the_row};
    ghost use Rattle.ac_c.specs.Slot.{slot_owns};

    ghost also_owns = { λ h. slot_owns the_row h.alloc h.at h.value };
}

unsafe impl Send for Masker {}

impl Masker {
    /// Hides what is at the pointer.
    fn from_slot(slot: Slot<Masking>) -> Masker
        ensures { result.value ≡ slot.value }
    {
        let Slot { at, alloc } = slot;
        Masker {
            at: at as *mut OpaqueMasker,
            alloc,
        }
    }

    /// What is at the pointer.
    fn into_slot(self) -> Slot<Masking>
        ensures { result.value ≡ self.value }
    {
        let Masker { at, alloc } = self;
        Slot {
            at: at as *mut Masking,
            alloc,
        }
    }

    /// No masking.
    pub fn none(alloc: Global) -> Masker
        ensures { result.value ≡ None }
    {
        Masker::from_slot(Slot::none(alloc))
    }

    /// Puts a masking of pieces behind a pointer.
    pub fn from_box(masking: Box<Masking, Global>) -> Masker
        ensures { result.value ≡ Some masking.value }
    {
        Masker::from_slot(Slot::from_box(masking))
    }

    /// The masking, if there is one.
    pub fn into_box(self) -> Option<Box<Masking, Global>>
        ensures { self.value ≡ option_map (λ b. b.value) result }
    {
        self.into_slot().into_box()
    }
}

impl Drop for Masker {
    fn drop(self) {
        drop(self.into_box());
    }
}

/// A masking of pieces by an automaton into a handle, as C sees it. It is another owner of the automaton.
pub fn begin(ac: &AhoCorasick, byte: u8, alloc: Global, masker: &mut Masker) -> u32
    ensures { AnswersMasking ac.now byte masker.old.value masker.new.value result }
{
    hold!(Masking::begin(ac, byte, alloc), masker: Masker)
}

/// A masking of the whole words of pieces into a handle, as C sees it. It is another owner of the automaton.
pub fn begin_words(ac: &AhoCorasick, byte: u8, alloc: Global, masker: &mut Masker) -> u32
    ensures { AnswersWordMasking ac.now byte masker.old.value masker.new.value result }
{
    hold!(Masking::begin_words(ac, byte, alloc), masker: Masker)
}
