//! What C holds of a text: a pointer to it, or null.
ghost use Rattle.std.specs.Prelude.{◌≡◌, Some, None, option_map};
ghost use Rattle.ac_c.specs.Text.{HeldText, text_coded};

use crate::slot::Slot;
use std::alloc::Global;
use std::marker::Model;

/// A text that the library allocated, as a value of this crate.
#[derive(Drop)]
pub struct Bytes {
    pub bytes: Vec<u8>,
}

/// Stands behind the pointer. C never looks at it.
#[repr(C)]
#[derive(Drop)]
pub struct OpaqueText {
    byte: u8,
}

/// A text on the heap, or none.
#[repr(C)]
pub struct Text {
    at: *mut OpaqueText,
    alloc: Global,
    pub ghost value: { HeldText } by { text_coded },
}

impl Model for Text {
    ghost use Rattle.ac_c.specs.contracts.text.Bytes.{the_row};
    ghost use Rattle.ac_c.specs.Slot.{slot_owns};

    ghost also_owns = { λ h. slot_owns the_row h.alloc h.at h.value };
}

unsafe impl Send for Text {}

impl Text {
    /// Hides what is at the pointer.
    fn from_slot(slot: Slot<Bytes>) -> Text
        ensures { result.value ≡ slot.value }
    {
        let Slot { at, alloc } = slot;
        Text {
            at: at as *mut OpaqueText,
            alloc,
        }
    }

    /// What is at the pointer.
    fn into_slot(self) -> Slot<Bytes>
        ensures { result.value ≡ self.value }
    {
        let Text { at, alloc } = self;
        Slot {
            at: at as *mut Bytes,
            alloc,
        }
    }

    /// No text.
    pub fn none(alloc: Global) -> Text
        ensures { result.value ≡ None }
    {
        Text::from_slot(Slot::none(alloc))
    }

    /// Puts a text behind a pointer.
    pub fn from_box(text: Box<Bytes, Global>) -> Text
        ensures { result.value ≡ Some text.value }
    {
        Text::from_slot(Slot::from_box(text))
    }

    /// The text, if there is one.
    pub fn into_box(self) -> Option<Box<Bytes, Global>>
        ensures { self.value ≡ option_map (λ b. b.value) result }
    {
        self.into_slot().into_box()
    }
}

impl Drop for Text {
    fn drop(self) {
        drop(self.into_box());
    }
}
