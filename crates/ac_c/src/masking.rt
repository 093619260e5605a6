//! Masking: of a text where it lies, and of a text that C passes piece by piece.
//!
//! The library's masking hands out what is masked of the pieces, as far as no later byte changes it, as one slice of the bytes that it
//! holds. A call gives C its place and its length, so no byte is copied again. A masking of whole words is one like it, and the handle
//! holds one or the other.
ghost use Rattle.std.specs.Prelude.{◌≡◌, false, IfErr, IfOk, OnOk};
ghost use Rattle.ac_automaton.specs.Stream.Mask.{MaskCounts, fresh_mask};
ghost use Rattle.ac_automaton.specs.declared.stream.StreamKinds.TheVariants.{OnlyStandard};
ghost use Rattle.aho_corasick.specs.AhoCorasick.{as_built};
ghost use Rattle.ac_c.specs.Begun.{CanBegin, IsBeginRefused, IsBegunAs};
ghost use Rattle.ac_c.specs.Masking.{AnswersMasked, AnswersMaskedWords, IsClosedMask, IsPushedTo, TakesMasked, masking_by, mask_progress, ready_in, ready_len, word_masking_by};
ghost use Rattle.ac_c.specs.Status.{no_memory};

use crate::replace::Length;
use crate::searching::{Count, shared};
use crate::status::{FINISHED, NO_MEMORY, OK, TOO_MANY_BYTES, refused, refused_stream};
use ac_automaton::stream::StreamKinds;
use ac_automaton::stream::mask::{StreamMask, StreamWordMask};
use aho_corasick::{AhoCorasick, ReplaceError, Steps, StreamError};
use std::alloc::Global;
use std::ptr::NonNull;

/// Masks a text where it lies, as C sees it.
pub fn mask(ac: &AhoCorasick, text: &mut [u8], byte: u8) -> u32
    ensures { AnswersMasked ac.now byte text.old text.new result }
{
    match ac.try_mask_counted(text, byte, &mut Steps::new()) {
        Ok(()) => OK,
        Err(error) => refused(&error),
    }
}

/// Masks the whole words of a text where it lies, as C sees it.
pub fn mask_words(ac: &AhoCorasick, alloc: Global, text: &mut [u8], byte: u8) -> u32
    ensures { AnswersMaskedWords ac.now byte text.old text.new result }
{
    match ac.try_mask_words_counted(alloc, text, byte, &mut Steps::new()) {
        Ok(()) => OK,
        Err(ReplaceError::Match(error)) => refused(&error),
        Err(ReplaceError::Memory) => NO_MEMORY,
    }
}

/// A masking of pieces.
#[derive(Drop)]
pub enum Masking {
    /// Of all occurrences.
    OfAll(StreamMask<AhoCorasick>),
    /// Of whole words.
    OfWords(StreamWordMask<AhoCorasick>),
}

/// A masking of pieces by an automaton, which it shares.
fn masking_of(ac: &AhoCorasick, byte: u8, alloc: Global) -> Result<StreamMask<AhoCorasick>, u32>
    ensures { IsBegunAs OnlyStandard ac.now (fresh_mask (as_built ac.now) byte) result }
{
    let shared = shared(ac, StreamKinds::OnlyStandard, alloc)?;
    match StreamMask::new(shared, byte, alloc) {
        Ok(stream) => Ok(stream),
        Err(error) => Err(refused_stream(&error)),
    }
}

/// The same of whole words.
fn word_masking_of(
    ac: &AhoCorasick,
    byte: u8,
    alloc: Global,
) -> Result<StreamWordMask<AhoCorasick>, u32>
    ensures { IsBegunAs OnlyStandard ac.now (fresh_mask (as_built ac.now) byte) result }
{
    let shared = shared(ac, StreamKinds::OnlyStandard, alloc)?;
    match StreamWordMask::new(shared, byte, alloc) {
        Ok(stream) => Ok(stream),
        Err(error) => Err(refused_stream(&error)),
    }
}

impl Masking {
    /// A masking that was passed nothing yet, in a box.
    fn boxed(self, alloc: Global) -> Result<Box<Masking, Global>, u32>
        ensures begun { IfOk result (λ m. m.value ≡ self) }
        ensures refused { IfErr result (λ status. status ≡ no_memory) }
    {
        match Box::new(alloc, self) {
            Ok(begun) => Ok(begun),
            Err(_) => Err(NO_MEMORY),
        }
    }

    /// A masking of all occurrences that was passed nothing yet, in a box.
    pub fn begin(ac: &AhoCorasick, byte: u8, alloc: Global) -> Result<Box<Masking, Global>, u32>
        ensures begun { IfOk result (λ m. masking_by ac.now byte ≡ m.value) }
        ensures can { OnOk result (CanBegin OnlyStandard ac.now) }
        ensures refused { IfErr result (IsBeginRefused OnlyStandard ac.now) }
    {
        let stream = masking_of(ac, byte, alloc)?;
        Masking::OfAll(stream).boxed(alloc)
    }

    /// A masking of whole words that was passed nothing yet, in a box.
    pub fn begin_words(
        ac: &AhoCorasick,
        byte: u8,
        alloc: Global,
    ) -> Result<Box<Masking, Global>, u32>
        ensures begun { IfOk result (λ m. word_masking_by ac.now byte ≡ m.value) }
        ensures can { OnOk result (CanBegin OnlyStandard ac.now) }
        ensures refused { IfErr result (IsBeginRefused OnlyStandard ac.now) }
    {
        let stream = word_masking_of(ac, byte, alloc)?;
        Masking::OfWords(stream).boxed(alloc)
    }

    /// Whether it was told that no more pieces come.
    fn is_finished(&self) -> bool
        ensures { result ≡ (mask_progress self.now).closed }
    {
        match self {
            Masking::OfAll(stream) => stream.is_finished(),
            Masking::OfWords(stream) => stream.is_finished(),
        }
    }

    /// Takes the first bytes of a piece, as the library's masking does.
    fn take(&mut self, piece: &[u8], steps: &mut Steps) -> Result<usize, StreamError>
        requires unclosed { (mask_progress self.old).closed ≡ false }
        ensures taken { TakesMasked self.old piece.now self.new result }
        ensures cost { MaskCounts (mask_progress self.old) (mask_progress self.new) steps.old steps.new }
    {
        match self {
            Masking::OfAll(stream) => stream.push_counted(piece, steps),
            Masking::OfWords(stream) => stream.push_counted(piece, steps),
        }
    }

    /// Takes the first bytes of a piece.
    pub fn push(&mut self, piece: &[u8]) -> Count
        ensures { IsPushedTo self.old piece.now self.new result }
    {
        self.push_counted(piece, &mut Steps::new())
    }

    /// The same; counts what it does.
    fn push_counted(&mut self, piece: &[u8], steps: &mut Steps) -> Count
        ensures pushed { IsPushedTo self.old piece.now self.new result }
        ensures cost { MaskCounts (mask_progress self.old) (mask_progress self.new) steps.old steps.new }
    {
        if self.is_finished() {
            return Count::none(FINISHED);
        }
        match self.take(piece, steps) {
            Ok(count) => Count { count, status: OK },
            Err(_) => Count::none(TOO_MANY_BYTES),
        }
    }

    /// The masked bytes that are ready.
    fn ready_bytes(&self) -> &[u8]
        ensures { result.now ≡ ready_in self.now }
    {
        match self {
            Masking::OfAll(stream) => stream.ready(),
            Masking::OfWords(stream) => stream.ready(),
        }
    }

    /// Where the masked bytes lie that are ready, if there are any, and how many there are.
    pub fn ready(&self, at: &mut *const u8) -> Length
        ensures { result ≡ ready_len self.now }
    {
        let ready = self.ready_bytes();
        if let Some(first) = ready.first() {
            *at = NonNull::from_ref(first).as_ptr();
        }
        Length {
            len: ready.len(),
            status: OK,
        }
    }

    /// Tells it that no more pieces come, so that all that waited is ready.
    pub fn finish(&mut self)
        ensures { IsClosedMask self.old self.new }
    {
        match self {
            Masking::OfAll(stream) => stream.finish(),
            Masking::OfWords(stream) => stream.finish(),
        }
    }
}
