//! A replacement of a text that C passes piece by piece: what is behind its handle, and what each call does.
//!
//! The library's replacement hands out the replaced text, as far as it is decided, in slices: of the bytes that it holds, and of the
//! replacements. A call gives C the place and the length of one slice, so no byte is copied again.
ghost use Rattle.std.specs.Prelude.{◌≡◌, IfErr, IfOk, OnOk};
ghost use Rattle.ac_automaton.specs.Stream.{StreamCounts};
ghost use Rattle.ac_automaton.specs.Stream.Replacer.{fresh_replacer};
ghost use Rattle.ac_automaton.specs.declared.stream.StreamKinds.TheVariants.{AnyKind};
ghost use Rattle.aho_corasick.specs.AhoCorasick.{as_built};
ghost use Rattle.ac_c.specs.Begun.{CanBegin, IsBeginRefused, IsBegunAs};
ghost use Rattle.ac_c.specs.Replacing.{IsGivenText, IsPushedOn, ended_by, replacing_by};

use crate::replace::Length;
use crate::searching::{Count, shared};
use crate::status::{FINISHED, NO_MEMORY, NONE, OK, TOO_MANY_BYTES, WRONG_COUNT, refused_stream};
use ac_automaton::stream::{StreamKinds, StreamReplacer};
use aho_corasick::{AhoCorasick, Steps};
use std::alloc::Global;
use std::ptr::NonNull;

/// A replacement of pieces under any kind.
#[derive(Drop)]
pub struct Replacing {
    replacer: StreamReplacer<AhoCorasick>,
}

/// A replacement of pieces by an automaton, which it shares.
fn replacer_by(ac: &AhoCorasick, alloc: Global) -> Result<StreamReplacer<AhoCorasick>, u32>
    ensures { IsBegunAs AnyKind ac.now (fresh_replacer (as_built ac.now)) result }
{
    let shared = shared(ac, StreamKinds::AnyKind, alloc)?;
    match StreamReplacer::any_kind(shared, alloc) {
        Ok(replacer) => Ok(replacer),
        Err(error) => Err(refused_stream(&error)),
    }
}

impl Replacing {
    /// A replacement that was passed nothing yet, in a box.
    pub fn begin(ac: &AhoCorasick, alloc: Global) -> Result<Box<Replacing, Global>, u32>
        ensures begun { IfOk result (λ r. replacing_by ac.now ≡ r.value) }
        ensures can { OnOk result (CanBegin AnyKind ac.now) }
        ensures refused { IfErr result (IsBeginRefused AnyKind ac.now) }
    {
        let replacer = replacer_by(ac, alloc)?;
        match Box::new(alloc, Replacing { replacer }) {
            Ok(begun) => Ok(begun),
            Err(_) => Err(NO_MEMORY),
        }
    }

    /// Takes the first bytes of a piece.
    pub fn push(&mut self, piece: &[u8]) -> Count
        ensures { IsPushedOn self.old piece.now self.new result }
    {
        self.push_counted(piece, &mut Steps::new())
    }

    /// The same; counts the bytes that it moves.
    fn push_counted(&mut self, piece: &[u8], steps: &mut Steps) -> Count
        ensures pushed { IsPushedOn self.old piece.now self.new result }
        ensures cost { StreamCounts self.old.replacer.search self.new.replacer.search steps.old
            steps.new }
    {
        if self.replacer.is_finished() {
            return Count::none(FINISHED);
        }
        match self.replacer.push_counted(piece, steps) {
            Ok(count) => Count { count, status: OK },
            Err(_) => Count::none(TOO_MANY_BYTES),
        }
    }

    /// The next slice of the text that is decided: where it lies, unless it is empty, and its length.
    pub fn next(&mut self, replacements: &[&[u8]], at: &mut *const u8) -> Length
        ensures { IsGivenText self.old replacements.now self.new result }
    {
        self.next_counted(replacements, at, &mut Steps::new())
    }

    /// The same; counts what it does.
    fn next_counted(
        &mut self,
        replacements: &[&[u8]],
        at: &mut *const u8,
        steps: &mut Steps,
    ) -> Length
        ensures given { IsGivenText self.old replacements.now self.new result }
        ensures cost { StreamCounts self.old.replacer.search self.new.replacer.search steps.old
            steps.new }
    {
        if replacements.len() != self.replacer.patterns_len() {
            return Length::none(WRONG_COUNT);
        }
        match self.replacer.next_counted(replacements, steps) {
            None => Length::none(NONE),
            Some(slice) => {
                if let Some(first) = slice.first() {
                    *at = NonNull::from_ref(first).as_ptr();
                }
                Length {
                    len: slice.len(),
                    status: OK,
                }
            }
        }
    }

    /// Tells it that no more pieces come, so that all of the text is decided.
    pub fn finish(&mut self)
        ensures { self.new ≡ ended_by self.old }
    {
        self.replacer.finish();
    }
}
