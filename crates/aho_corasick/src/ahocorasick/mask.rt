//! Masking: each byte that lies in an occurrence is replaced by one byte.
//!
//! All occurrences count, overlapping ones included. So where no pattern has the mask, no pattern occurs in what comes out, the empty
//! one aside: see [`mask_laws`](ac_input::mask_laws). A replacement promises no such thing: it takes the matches of a walk, and what
//! overlaps them stays in part.
//!
//! It needs the standard kind, as overlapping searches do, and an unanchored start. The Rust crate has no such calls.
//!
//! Pieces that are pushed are masked by a [`StreamMask`](crate::StreamMask), their whole words by a
//! [`StreamWordMask`](crate::StreamWordMask), which are made of an automaton or a reference to one.
ghost use Rattle.std.specs.Prelude.{◌≡◌, false};
ghost use Rattle.ac_automaton.specs.Masking.{CostsMask, Masks, masked_in};
ghost use Rattle.ac_automaton.specs.Masking.Words.{CostsMaskWords, MasksWords};
ghost use Rattle.ac_automaton.specs.Masking.Words.Stream.{CostsMaskWordsStream, MasksWordsStream};
ghost use Rattle.ac_automaton.specs.Stream.Mask.{CostsMaskStream, MasksStream};
ghost use Rattle.ac_automaton.specs.Stream.Overlapping.{AcceptsListing};
ghost use Rattle.ac_input.specs.declared.search.MatchKind.TheVariants.{Standard};
ghost use Rattle.aho_corasick.specs.AhoCorasick.{as_built, kind_of, supported_by};

use super::AhoCorasick;
use ac_automaton::error::{MatchError, ReplaceError, StreamError};
use ac_automaton::search::Search;
use ac_automaton::watched::Watched;
use ac_input::search::Anchored;
use ac_input::steps::Steps;
use std::alloc::Global;
use std::io::{Read, Write};

impl AhoCorasick {
    /// Masks the text in place: see [`AhoCorasick::try_mask_counted`].
    ///
    /// It requires a start for unanchored searches, which every start kind has but `Anchored`, and the standard kind.
    ///
    /// ```text
    /// let ac = AhoCorasick::new(alloc, &[b"abc", b"cde"])?;
    /// ac.mask(&mut text, b'*'); // of "xabcdex" it leaves "x*****x"
    /// ```
    pub fn mask(&self, text: &mut [u8], mask: u8)
        requires can { supported_by self.now Anchored.No }
        requires standard { kind_of self.now ≡ Standard }
        ensures { text.new ≡ masked_in (as_built self.now) mask text.old }
    {
        let mut steps = Steps::new();
        match self.try_mask_counted(text, mask, &mut steps) {
            Ok(()) => {}
            Err(_) => unreachable!(),
        }
    }

    /// Masks the text in place: each byte that lies in an occurrence of some pattern becomes `mask`, and every other byte stays. It
    /// takes no memory, and time in proportion to the text.
    ///
    /// Returns an error if the automaton has no start for an unanchored search, or isn't of the standard kind; the text is then
    /// unchanged.
    ///
    /// It counts what it does: at least one look at a state for each byte, and at most two.
    pub fn try_mask_counted(
        &self,
        text: &mut [u8],
        mask: u8,
        steps: &mut Steps,
    ) -> Result<(), MatchError>
        ensures masked { Masks (as_built self.now) (supported_by self.now) mask text.old text.new result }
        ensures cost { CostsMask (as_built self.now) text.old steps.old steps.new result }
    {
        Search::try_mask_counted(self, text, mask, steps)
    }

    /// Writes the input masked, as [`AhoCorasick::try_mask_counted`] masks a text. The input ends at its first empty read. Before each
    /// read it writes everything but the last bytes that may still be covered: fewer than the longest pattern has. The writer isn't
    /// flushed.
    ///
    /// It requires that the reader has not ended. Returns an error if the automaton has no start for an unanchored search, isn't of the
    /// standard kind, or has an empty pattern, checked in that order, and if there is no memory for its one buffer; the reader and the
    /// writer are then unchanged. It allocates nothing after that. Where a read or a write fails, nothing is tried again.
    ///
    /// It counts what it does.
    pub fn try_mask_stream_counted<R: Read, W: Write>(
        &self,
        alloc: Global,
        reader: &mut Watched<R>,
        writer: &mut Watched<W>,
        mask: u8,
        steps: &mut Steps,
    ) -> Result<(), StreamError>
        requires open { reader.old.ended ≡ false }
        ensures masked { MasksStream R.remaining W.contents (as_built self.now) mask reader.old reader.new
            writer.old writer.new result }
        ensures accepted { AcceptsListing (as_built self.now) (supported_by self.now) result }
        ensures cost { CostsMaskStream (as_built self.now) reader.old reader.new steps.old steps.new result }
    {
        Search::try_mask_stream_counted(self, alloc, reader, writer, mask, steps)
    }

    /// Masks the whole words of the text in place: each byte that lies in an occurrence with no word byte beside it becomes `mask`, words
    /// that overlap included, and every other byte stays. What a word byte is stands at [`AhoCorasick::try_find_word_iter`]. If the mask is
    /// a word byte that no pattern has, no whole word is left; else one may be left, or may have come about, beside a masked byte.
    ///
    /// It takes a copy of the text. Returns an error where [`AhoCorasick::try_mask_counted`] does, and then if there is no memory for the
    /// copy; the text is then unchanged.
    ///
    /// It counts what it does, but not the copying: at least one look at a state for each byte, and at most two.
    pub fn try_mask_words_counted(
        &self,
        alloc: Global,
        text: &mut [u8],
        mask: u8,
        steps: &mut Steps,
    ) -> Result<(), ReplaceError>
        ensures masked { MasksWords (as_built self.now) (supported_by self.now) mask text.old text.new result }
        ensures cost { CostsMaskWords (as_built self.now) text.old steps.old steps.new result }
    {
        Search::try_mask_words_counted(self, alloc, text, mask, steps)
    }

    /// Writes the input with its whole words masked, as [`AhoCorasick::try_mask_words_counted`] masks a text. The input ends at its first
    /// empty read. Before each read it writes everything but the last bytes that may still be covered: at most as many as the longest pattern
    /// has, and none where nothing is live. The writer isn't flushed.
    ///
    /// It requires that the reader has not ended. Returns an error where [`AhoCorasick::try_mask_stream_counted`] does; the reader
    /// and the writer are then unchanged. It has two buffers of `max(65536, 8 * (longest + 1))` bytes, and allocates nothing after them.
    ///
    /// It counts what it does.
    pub fn try_mask_words_stream_counted<R: Read, W: Write>(
        &self,
        alloc: Global,
        reader: &mut Watched<R>,
        writer: &mut Watched<W>,
        mask: u8,
        steps: &mut Steps,
    ) -> Result<(), StreamError>
        requires open { reader.old.ended ≡ false }
        ensures masked { MasksWordsStream R.remaining W.contents (as_built self.now) mask reader.old reader.new
            writer.old writer.new result }
        ensures accepted { AcceptsListing (as_built self.now) (supported_by self.now) result }
        ensures cost { CostsMaskWordsStream (as_built self.now) reader.old reader.new steps.old steps.new result }
    {
        Search::try_mask_words_stream_counted(self, alloc, reader, writer, mask, steps)
    }
}
