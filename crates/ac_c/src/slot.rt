//! A value on the heap by its pointer, which is null where there is none.
//!
//! C holds an automaton, a text, a search or a replacement by such a pointer. It may see no type that owns memory, so each of these has
//! a handle of its own, whose pointer says nothing of what it points to. What a handle owns is what the slot with its two fields owns:
//! here is how a box comes to lie at a pointer, and how it is taken back. A handle only changes the pointer's type.
ghost use Rattle.std.specs.Prelude.{◌≡◌, Some, None, option_map};
ghost use Rattle.std.specs.declared.option.Option.{Option};
ghost use Rattle.std.specs.Coded.{coded_option};
ghost use Rattle.ac_c.specs.Slot.{slot_owns};

use std::alloc::Global;
use std::marker::Model;
use std::ptr::null_mut;

/// A block that holds a value, and the right to free it; or null.
pub(crate) struct Slot<T> {
    pub(crate) at: *mut T,
    pub(crate) alloc: Global,
    pub ghost value: { Option T } by { coded_option T.code },
}

impl<T> Model for Slot<T> {
    ghost also_owns = { λ s. slot_owns T.row s.alloc s.at s.value };
}

impl<T> Slot<T> {
    /// No value.
    pub(crate) fn none(alloc: Global) -> Slot<T>
        ensures { result.value ≡ None }
    {
        Slot {
            at: null_mut(),
            alloc,
        }
    }

    /// The value of a box, where it lies.
    pub(crate) fn from_box(held: Box<T, Global>) -> Slot<T>
    where
        T: Drop,
        ensures { result.value ≡ Some held.value }
    {
        let (at, alloc) = Box::into_raw_with_allocator(held);
        Slot { at, alloc }
    }

    /// The box again, if there is a value.
    pub(crate) fn into_box(self) -> Option<Box<T, Global>>
        ensures { self.value ≡ option_map (λ b. b.value) result }
    {
        let Slot { at, alloc } = self;
        if at.is_null() {
            None
        } else {
            Some(unsafe { Box::from_raw(alloc, at) })
        }
    }
}
