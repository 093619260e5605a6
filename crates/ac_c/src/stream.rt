//! What C holds of a search of pieces: a pointer to it, or null.
ghost use Rattle.std.specs.Prelude.{◌≡◌, Some, None, option_map};
ghost use Rattle.ac_c.specs.Stream.{AnswersAllWordStream, AnswersStream, AnswersWordStream, HeldStream, stream_coded};

use crate::build::kind_by;
use crate::searching::Searching;
use crate::slot::Slot;
use crate::status::{BAD_KIND, OK};
use aho_corasick::AhoCorasick;
use std::alloc::Global;
use std::marker::Model;

/// Stands behind the pointer. C never looks at it.
#[repr(C)]
#[derive(Drop)]
pub struct OpaqueStream {
    byte: u8,
}

/// A search of pieces on the heap, or none.
#[repr(C)]
pub struct Stream {
    at: *mut OpaqueStream,
    alloc: Global,
    pub ghost value: { HeldStream } by { stream_coded },
}

impl Model for Stream {
    ghost use Rattle.ac_c.specs.contracts.searching.Searching.{the_row};
    ghost use Rattle.ac_c.specs.Slot.{slot_owns};

    ghost also_owns = { λ h. slot_owns the_row h.alloc h.at h.value };
}

unsafe impl Send for Stream {}

impl Stream {
    /// Hides what is at the pointer.
    fn from_slot(slot: Slot<Searching>) -> Stream
        ensures { result.value ≡ slot.value }
    {
        let Slot { at, alloc } = slot;
        Stream {
            at: at as *mut OpaqueStream,
            alloc,
        }
    }

    /// What is at the pointer.
    fn into_slot(self) -> Slot<Searching>
        ensures { result.value ≡ self.value }
    {
        let Stream { at, alloc } = self;
        Slot {
            at: at as *mut Searching,
            alloc,
        }
    }

    /// No search.
    pub fn none(alloc: Global) -> Stream
        ensures { result.value ≡ None }
    {
        Stream::from_slot(Slot::none(alloc))
    }

    /// Puts a search of pieces behind a pointer.
    pub fn from_box(search: Box<Searching, Global>) -> Stream
        ensures { result.value ≡ Some search.value }
    {
        Stream::from_slot(Slot::from_box(search))
    }

    /// The search, if there is one.
    pub fn into_box(self) -> Option<Box<Searching, Global>>
        ensures { self.value ≡ option_map (λ b. b.value) result }
    {
        self.into_slot().into_box()
    }
}

impl Drop for Stream {
    fn drop(self) {
        drop(self.into_box());
    }
}

/// A search of pieces by an automaton into a handle, as C sees it. It is another owner of the automaton.
pub fn begin(ac: &AhoCorasick, alloc: Global, stream: &mut Stream) -> u32
    ensures { AnswersStream ac.now stream.old.value stream.new.value result }
{
    hold!(Searching::begin(ac, alloc), stream: Stream)
}

/// A search of pieces for whole words under the kind of this number into a handle, as C sees it. It is another owner of the automaton.
pub fn begin_words(ac: &AhoCorasick, kind: u32, alloc: Global, stream: &mut Stream) -> u32
    ensures { AnswersWordStream ac.now kind stream.old.value stream.new.value result }
{
    let Some(kind) = kind_by(kind) else {
        return BAD_KIND;
    };
    hold!(Searching::begin_words(ac, kind, alloc), stream: Stream)
}

/// A search of pieces for all whole words into a handle, as C sees it. It is another owner of the automaton.
pub fn begin_all_words(ac: &AhoCorasick, alloc: Global, stream: &mut Stream) -> u32
    ensures { AnswersAllWordStream ac.now stream.old.value stream.new.value result }
{
    hold!(Searching::begin_all_words(ac, alloc), stream: Stream)
}
