//! Whole words: the occurrences with no word byte beside them.
//!
//! A word byte is an ASCII letter, a digit, `_`, or a byte from 0x80 on; the ends of the text are none. Of the occurrences that count a
//! walk takes the matches under a kind. What a word is stands in `ac_input` (`specs.Word`), with its laws
//! ([`word_laws`](ac_input::word_laws)).
//!
//! It needs the standard kind, an unanchored start and no empty pattern. The Rust crate has no such calls.
//!
//! The words of a stream come from [`stream_find_word_iter`](crate::stream_find_word_iter), all of them from
//! [`stream_find_overlapping_word_iter`](crate::stream_find_overlapping_word_iter). Of pieces that are pushed they are found by a
//! [`WordSearch`](crate::WordSearch) and an [`OverlappingWordSearch`](crate::OverlappingWordSearch).
ghost use Rattle.std.specs.Prelude.{◌≡◌, ◌≤◌, false, length};
ghost use Rattle.ac_automaton.specs.InMemory.Words.{AnswersWords, AnswersWordsFrom};
ghost use Rattle.ac_automaton.specs.InMemory.Words.Replace.{ReplacesWholeWords};
ghost use Rattle.ac_automaton.specs.Stream.Overlapping.{AcceptsListing};
ghost use Rattle.ac_automaton.specs.Stream.WholeWords.{CostsWordStream, PumpsAllWords, PumpsWords, ReplacesWords, asked_for};
ghost use Rattle.ac_literal.specs.Packed.{bytes_of};
ghost use Rattle.aho_corasick.specs.AhoCorasick.{as_built, pattern_count, supported_by};

use super::{AhoCorasick, FindWordIter};
use ac_automaton::error::{MatchError, ReplaceError, StreamError};
use ac_automaton::search::Search;
use ac_automaton::stream::sink::Sink;
use ac_automaton::watched::Watched;
use ac_input::search::MatchKind;
use ac_input::steps::Steps;
use std::alloc::Global;
use std::io::{Read, Write};

impl AhoCorasick {
    /// The whole words of a text under a kind, one after another: see [`FindWordIter`]. The kind is that of the words, and may be any;
    /// the automaton is of the standard kind whatever it is, since it then meets every occurrence. A word ends before another begins.
    ///
    /// It takes no memory, and uses no prefilter. For each word it looks once at each byte up to its end with a DFA, or else twice; under
    /// a leftmost kind up to one byte past the longest pattern that begins with it, and at these bytes again for the next word.
    ///
    /// Returns an error if the automaton has no start for an unanchored search, isn't of the standard kind, or has an empty pattern,
    /// checked in that order.
    ///
    /// ```text
    /// let ac = AhoCorasick::new(alloc, &[b"new", b"new york"])?;
    /// for word in ac.try_find_word_iter(MatchKind::LeftmostLongest, b"new yorker, new york")? {
    ///     // patterns 0 and 1, at 0..3 and 12..20
    /// }
    /// ```
    pub fn try_find_word_iter<'a, 'h>(
        &'a self,
        kind: MatchKind,
        haystack: &'h [u8],
    ) -> Result<FindWordIter<'a, 'h>, MatchError>
        ensures { AnswersWords (as_built self.now) (supported_by self.now) kind haystack.entry.now result }
    {
        Search::try_find_word_iter(self, kind, haystack)
    }

    /// The words that begin at a place or later, of a walk that stands there, as [`FindWordIter::place`] returned it: for a caller who
    /// keeps the place and no iterator. The byte before the place still counts where it stands beside a word.
    ///
    /// It requires that the place isn't past the end of the text. Returns an error where [`AhoCorasick::try_find_word_iter`] does.
    pub fn try_find_word_iter_from<'a, 'h>(
        &'a self,
        kind: MatchKind,
        haystack: &'h [u8],
        at: usize,
    ) -> Result<FindWordIter<'a, 'h>, MatchError>
        requires { at ≤ length haystack.now }
        ensures { AnswersWordsFrom (as_built self.now) (supported_by self.now) kind haystack.entry.now at result }
    {
        Search::try_find_word_iter_from(self, kind, haystack, at)
    }

    /// The text with each of its whole words under a kind replaced by the replacement of its pattern. The memory is at first as large as
    /// the text, and grows as any `Vec` does.
    ///
    /// It requires one replacement for each pattern. Returns an error where [`AhoCorasick::try_find_word_iter`] does, and then if memory
    /// runs out.
    pub fn try_replace_words(
        &self,
        kind: MatchKind,
        alloc: Global,
        haystack: &[u8],
        replacements: &[&[u8]],
    ) -> Result<Vec<u8>, ReplaceError>
        requires { length replacements.now ≡ pattern_count self.now }
        ensures { ReplacesWholeWords (as_built self.now) (supported_by self.now) kind haystack.now replacements.now result }
    {
        Search::try_replace_words(self, kind, alloc, haystack, replacements)
    }

    /// Writes the input with each of its whole words under a kind replaced by the replacement of its pattern. The input ends at its first
    /// empty read. Before each read it has written everything up to where a word may still begin: all but at most as many bytes as the
    /// longest pattern has, or one, and all of them where nothing is live. The writer isn't flushed.
    ///
    /// It requires that the reader has not ended, and one replacement for each pattern. Returns an error where
    /// [`AhoCorasick::try_find_word_iter`] does, and if there is no memory for its two buffers; the reader and the writer are then
    /// unchanged. It allocates nothing after that. Where a read or a write fails, nothing is tried again.
    ///
    /// It counts what it does.
    pub fn try_stream_replace_words_counted<R: Read, W: Write>(
        &self,
        kind: MatchKind,
        alloc: Global,
        reader: &mut Watched<R>,
        writer: &mut Watched<W>,
        replacements: &[&[u8]],
        steps: &mut Steps,
    ) -> Result<(), StreamError>
        requires open { reader.old.ended ≡ false }
        requires one_each { length replacements.now ≡ pattern_count self.now }
        ensures replaced { ReplacesWords R.remaining W.contents (asked_for kind (as_built self.now)) (bytes_of replacements.now)
            reader.old reader.new writer.old writer.new result }
        ensures accepted { AcceptsListing (as_built self.now) (supported_by self.now) result }
        ensures cost { CostsWordStream (asked_for kind (as_built self.now)) reader.old reader.new steps.old steps.new result }
    {
        Search::try_stream_replace_words_counted(
            self,
            kind,
            alloc,
            reader,
            writer,
            replacements,
            steps,
        )
    }

    /// Reads a stream to its end, and passes its whole words under a kind to a sink, with the text between them. Before each read all that
    /// no later byte can change is passed, and the sink holds nothing back then. Counts what it does.
    ///
    /// It requires that the reader has not ended, and that the sink is ready for every pattern and holds nothing back. Returns an error
    /// where [`stream_find_word_iter`](crate::stream_find_word_iter) does, and nothing has happened then; and if a read fails, the sink stops, or there
    /// are more bytes than places.
    pub fn try_stream_pump_words<R: Read, W, K: Sink<W>>(
        &self,
        kind: MatchKind,
        alloc: Global,
        reader: &mut Watched<R>,
        writer: &mut Watched<W>,
        sink: &mut K,
        steps: &mut Steps,
    ) -> Result<(), StreamError>
        requires open { reader.old.ended ≡ false }
        requires ready { K.handling.ready (pattern_count self.now) (sink.old, writer.old) }
        requires settled { K.handling.settled (sink.old, writer.old) }
        ensures { PumpsWords K.handling R.remaining kind (as_built self.now) (supported_by self.now)
            reader.old reader.new (sink.old, writer.old) (sink.new, writer.new) steps.old steps.new result }
    {
        Search::try_stream_pump_words(self, kind, alloc, reader, writer, sink, steps)
    }

    /// Reads a stream to its end, and passes all its whole words, overlapping ones too, to a sink, without the text between them: all that
    /// are decided before each read. Counts what it does.
    ///
    /// It requires what [`AhoCorasick::try_stream_pump_words`] requires, and returns an error where that does.
    pub fn try_stream_pump_all_words<R: Read, W, K: Sink<W>>(
        &self,
        alloc: Global,
        reader: &mut Watched<R>,
        writer: &mut Watched<W>,
        sink: &mut K,
        steps: &mut Steps,
    ) -> Result<(), StreamError>
        requires open { reader.old.ended ≡ false }
        requires ready { K.handling.ready (pattern_count self.now) (sink.old, writer.old) }
        requires settled { K.handling.settled (sink.old, writer.old) }
        ensures { PumpsAllWords K.handling R.remaining (as_built self.now) (supported_by self.now)
            reader.old reader.new (sink.old, writer.old) (sink.new, writer.new) steps.old steps.new result }
    {
        Search::try_stream_pump_all_words(self, alloc, reader, writer, sink, steps)
    }
}
