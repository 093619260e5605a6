//! Streams: their matches, and replacement from a reader to a writer.
//!
//! A stream is searched under the standard kind, by an unanchored search, without an empty pattern. The calls with `try_` return
//! an error if that isn't so; [`AhoCorasick::stream_find_iter`] requires it. One buffer is allocated before the first read, and no
//! memory after it.
//!
//! [`stream_find_iter`](crate::stream_find_iter) also searches under any kind, as does the call whose name has `any_kind`. Under a
//! leftmost kind a match is held back until no byte that follows can change it.
//! [`stream_find_overlapping_iter`](crate::stream_find_overlapping_iter) returns every occurrence in a stream. Pieces that are pushed
//! are searched by a [`StreamSearch`](crate::StreamSearch), and replaced by a [`StreamReplacer`](crate::StreamReplacer), which are made
//! of an automaton or a reference to one. The Rust crate has none of these.
//!
//! A search may look at up to 8 KiB of the held bytes ahead of the place to which it has come. It counts each look when it makes
//! it. Under the standard kind it looks at none of these bytes again. Under a leftmost kind it begins anew after a match, and may
//! have looked ahead in vain: so it reads each byte at most once more than it would without. Where `has_lanes` is false it looks at
//! none ahead.
ghost use Rattle.std.specs.Prelude.{◌≡◌, false, length, IfOk, OnOk};
ghost use Rattle.ac_literal.specs.Packed.{bytes_of};
ghost use Rattle.ac_automaton.specs.declared.error.StreamError.TheVariants.{Memory};
ghost use Rattle.ac_automaton.specs.InMemory.Replace.{IsForMatches};
ghost use Rattle.ac_automaton.specs.Stream.{CanStream};
ghost use Rattle.ac_automaton.specs.Stream.Iter.{FindsStream, IsStreamOver};
ghost use Rattle.ac_automaton.specs.Stream.Pump.{PumpsMatches, PumpsOccurrences};
ghost use Rattle.ac_automaton.specs.Stream.Replace.{AcceptsStream, CostsStream, ReplacesStream};
ghost use Rattle.ac_automaton.specs.Stream.ReplaceWith.{ReplacesStreamWith};
ghost use Rattle.ac_automaton.specs.declared.stream.StreamKinds.TheVariants.{AnyKind, OnlyStandard};
ghost use Rattle.aho_corasick.specs.AhoCorasick.{as_built, supported_by, pattern_count};
ghost use Rattle.aho_corasick.specs.Streamed.{IsStreamReplaced};

use super::automaton::enforce_anchored_consistency;
use super::{AhoCorasick, StreamFindIter};
use crate::engine::Engine;
use ac_automaton::automaton::Automaton;
use ac_automaton::error::StreamError;
use ac_automaton::stream::StreamKinds;
use ac_automaton::stream::sink::Sink;
use ac_automaton::watched::Watched;
use ac_input::search::{Anchored, Match};
use ac_input::steps::Steps;
use std::alloc::{AllocError, Global};
use std::io::{Read, Write};

/// The error of a search of a stream that can fail only for memory.
fn out_of_memory(error: StreamError) -> AllocError
    requires { error ≡ Memory }
{
    match error {
        StreamError::Memory => AllocError,
        _ => unreachable!(),
    }
}

impl AhoCorasick {
    /// All matches of a stream, one after another: see [`AhoCorasick::try_stream_find_iter`].
    ///
    /// It requires that the reader has not ended, that the start kind has unanchored searches, that the kind is the standard one, and
    /// that no pattern is empty. Returns an error only if memory runs out.
    ///
    /// ```text
    /// let matches = ac.stream_find_iter(alloc, reader)?;
    /// ```
    pub fn stream_find_iter<'a, R>(
        &'a self,
        alloc: Global,
        reader: &'a mut Watched<R>,
    ) -> Result<StreamFindIter<'a, R>, AllocError>
        requires open { reader.old.ended ≡ false }
        requires can { CanStream OnlyStandard (as_built self.now) (supported_by self.now) }
        ensures { IfOk result (IsStreamOver (as_built self.now) reader.entry) }
    {
        match self.try_stream_find_iter(alloc, reader) {
            Ok(matches) => Ok(matches),
            Err(error) => Err(out_of_memory(error)),
        }
    }

    /// All matches of a stream, one after another: see [`StreamFindIter`]. Their places are counted from the first byte that is
    /// read. It allocates one buffer of `max(65536, 8 * max(1, longest))` bytes. It requires that the reader has not ended.
    ///
    /// Returns an error if the automaton has no start for an unanchored search, isn't of the standard kind, or has an empty
    /// pattern, checked in that order, and then if there is no memory for the buffer. Nothing was read then.
    ///
    /// ```text
    /// let mut reader = Watched::new(reader);
    /// for found in ac.try_stream_find_iter(alloc, &mut reader)? {
    ///     let found = found?;
    ///     places.push(found.start()).map_err(AllocError::from)?;
    /// }
    /// ```
    pub fn try_stream_find_iter<'a, R>(
        &'a self,
        alloc: Global,
        reader: &'a mut Watched<R>,
    ) -> Result<StreamFindIter<'a, R>, StreamError>
        requires { reader.old.ended ≡ false }
        ensures { FindsStream OnlyStandard (as_built self.now) (supported_by self.now)
            reader.entry result }
    {
        Automaton::try_stream_find_iter(self, alloc, reader)
    }

    /// Writes the input with each match replaced by the replacement of its pattern. The input ends at its first empty read. Before
    /// each read everything is written that no later byte can change; it holds back at most as many bytes as the longest pattern
    /// has. The writer isn't flushed.
    ///
    /// It requires that the reader has not ended, and one replacement for each pattern. It takes the buffer of
    /// [`AhoCorasick::try_stream_find_iter`] and one of 64 KiB for what is written, and looks at two states for each byte at most.
    ///
    /// Returns an error where [`AhoCorasick::try_stream_find_iter`] does; the reader and the writer are then unchanged. Where a
    /// read or a write fails, nothing is tried again.
    ///
    /// ```text
    /// let masks = vec![in alloc; mask; ac.patterns_len()]?; // `mask` is b"***"
    /// let mut reader = Watched::new(reader);
    /// let mut writer = Watched::new(writer);
    /// ac.try_stream_replace_all(alloc, &mut reader, &mut writer, &masks)
    /// ```
    pub fn try_stream_replace_all<R: Read, W: Write>(
        &self,
        alloc: Global,
        reader: &mut Watched<R>,
        writer: &mut Watched<W>,
        replacements: &[&[u8]],
    ) -> Result<(), StreamError>
        requires open { reader.old.ended ≡ false }
        requires one_each { length replacements.now ≡ pattern_count self.now }
        ensures replaced { OnOk result (IsStreamReplaced R.remaining W.contents self.now
            (bytes_of replacements.now) reader.old reader.new writer.old writer.new) }
        ensures moved { ReplacesStream R.remaining W.contents (as_built self.now)
            (bytes_of replacements.now) reader.old reader.new writer.old writer.new result }
        ensures accepted { AcceptsStream OnlyStandard (as_built self.now) (supported_by self.now) result }
    {
        let mut steps = Steps::new();
        self.try_stream_replace_all_counted(alloc, reader, writer, replacements, &mut steps)
    }

    /// The same, and counts what it does. The clause `replaced` of that call follows from `moved`.
    pub fn try_stream_replace_all_counted<R: Read, W: Write>(
        &self,
        alloc: Global,
        reader: &mut Watched<R>,
        writer: &mut Watched<W>,
        replacements: &[&[u8]],
        steps: &mut Steps,
    ) -> Result<(), StreamError>
        requires open { reader.old.ended ≡ false }
        requires one_each { length replacements.now ≡ pattern_count self.now }
        ensures moved { ReplacesStream R.remaining W.contents (as_built self.now)
            (bytes_of replacements.now) reader.old reader.new writer.old writer.new result }
        ensures accepted { AcceptsStream OnlyStandard (as_built self.now) (supported_by self.now) result }
        ensures cost { CostsStream (as_built self.now) reader.old reader.new
            steps.old steps.new result }
    {
        enforce_anchored_consistency(self.start_kind, Anchored::No)?;
        dispatch!(self.try_stream_replace_all_counted(alloc, reader, writer, replacements, steps))
    }

    /// Writes the input, and in place of each match what the closure writes. The closure takes the match, its bytes and the
    /// writer, which has taken everything before the match.
    ///
    /// It requires that the reader has not ended, and of the closure that it may be called with every match of a pattern below
    /// [`patterns_len`](AhoCorasick::patterns_len), whatever else it is given, and that after such a call it may be called so again.
    ///
    /// It reads, writes and fails as [`AhoCorasick::try_stream_replace_all`] does. The closure's first error ends the call and is
    /// returned unchanged.
    ///
    /// ```text
    /// ac.try_stream_replace_all_with(alloc, reader, writer, |_, matched, writer| {
    ///     write_whole(writer, b"[")?;
    ///     write_whole(writer, matched)?;
    ///     write_whole(writer, b"]")
    /// })
    /// ```
    pub fn try_stream_replace_all_with<R: Read, W: Write, F>(
        &self,
        alloc: Global,
        reader: &mut Watched<R>,
        writer: &mut Watched<W>,
        replace_with: F,
    ) -> Result<(), StreamError>
    where
        F: FnMut(&Match, &[u8], &mut Watched<W>) -> Result<(), StreamError>,
        requires open { reader.old.ended ≡ false }
        requires ready { IsForMatches F.FnMut (pattern_count self.now) replace_with }
        ensures { ReplacesStreamWith W.contents F.FnMut R.remaining (as_built self.now)
            (supported_by self.now) replace_with reader.old reader.new writer.old writer.new result }
    {
        Automaton::try_stream_replace_all_with(self, alloc, reader, writer, replace_with)
    }

    /// Writes the input with each match replaced by the replacement of its pattern, under any kind. Before each read everything is
    /// written that no later byte can change; it holds back at most as many bytes as the longest pattern has. The writer isn't
    /// flushed.
    ///
    /// It takes, reads, writes and fails as [`AhoCorasick::try_stream_replace_all`] does, but is no error for another kind than the
    /// standard one.
    ///
    /// ```text
    /// let masks = vec![in alloc; mask; ac.patterns_len()]?; // `mask` is b"***"
    /// ac.try_stream_replace_all_any_kind_counted(alloc, &mut Watched::new(text), writer, &masks, steps)
    /// ```
    ///
    /// It counts what it does. Under a leftmost kind it looks at more than [`AhoCorasick::try_stream_replace_all_counted`] does: after
    /// each match at what it reads again, and with lanes at each byte at most once more, read ahead in vain. The clause `replaced` of
    /// [`AhoCorasick::try_stream_replace_all`] follows from `moved`.
    pub fn try_stream_replace_all_any_kind_counted<R: Read, W: Write>(
        &self,
        alloc: Global,
        reader: &mut Watched<R>,
        writer: &mut Watched<W>,
        replacements: &[&[u8]],
        steps: &mut Steps,
    ) -> Result<(), StreamError>
        requires open { reader.old.ended ≡ false }
        requires one_each { length replacements.now ≡ pattern_count self.now }
        ensures moved { ReplacesStream R.remaining W.contents (as_built self.now)
            (bytes_of replacements.now) reader.old reader.new writer.old writer.new result }
        ensures accepted { AcceptsStream AnyKind (as_built self.now) (supported_by self.now) result }
        ensures cost { CostsStream (as_built self.now) reader.old reader.new
            steps.old steps.new result }
    {
        enforce_anchored_consistency(self.start_kind, Anchored::No)?;
        dispatch!(self.try_stream_replace_all_any_kind_counted(
            alloc,
            reader,
            writer,
            replacements,
            steps
        ))
    }

    /// Reads a stream to its end, and passes its matches to a sink with the text between them: see [`Sink`]. It accepts these kinds.
    /// Before each read all that no later byte can change is passed, and the sink holds nothing back then. Counts what it does.
    ///
    /// It requires that the reader has not ended, and that the sink is ready for every pattern and holds nothing back. It takes the
    /// buffer of [`AhoCorasick::try_stream_find_iter`].
    ///
    /// Returns an error where a search of these kinds does, and nothing has happened then; and if a read fails, the sink stops, or
    /// there are more bytes than places. The Rust crate has no such call.
    pub fn try_stream_pump_matches<R: Read, W, K: Sink<W>>(
        &self,
        kinds: StreamKinds,
        alloc: Global,
        reader: &mut Watched<R>,
        writer: &mut Watched<W>,
        sink: &mut K,
        steps: &mut Steps,
    ) -> Result<(), StreamError>
        requires open { reader.old.ended ≡ false }
        requires ready { K.handling.ready (pattern_count self.now) (sink.old, writer.old) }
        requires settled { K.handling.settled (sink.old, writer.old) }
        ensures { PumpsMatches K.handling R.remaining kinds (as_built self.now) (supported_by self.now)
            reader.old reader.new (sink.old, writer.old) (sink.new, writer.new) steps.old steps.new result }
    {
        enforce_anchored_consistency(self.start_kind, Anchored::No)?;
        dispatch!(self.try_stream_pump_matches(kinds, alloc, reader, writer, sink, steps))
    }

    /// The same for every occurrence, by end, start and number. They may overlap, so the sink is passed no text between them. It needs
    /// the standard kind, and takes the buffer of [`stream_find_overlapping_iter`](crate::stream_find_overlapping_iter).
    ///
    /// Returns an error where that call does, and nothing has happened then; and if a read fails, the sink stops, or there are more
    /// bytes than places. The Rust crate has no such call.
    pub fn try_stream_pump_occurrences<R: Read, W, K: Sink<W>>(
        &self,
        alloc: Global,
        reader: &mut Watched<R>,
        writer: &mut Watched<W>,
        sink: &mut K,
        steps: &mut Steps,
    ) -> Result<(), StreamError>
        requires open { reader.old.ended ≡ false }
        requires ready { K.handling.ready (pattern_count self.now) (sink.old, writer.old) }
        requires settled { K.handling.settled (sink.old, writer.old) }
        ensures { PumpsOccurrences K.handling R.remaining (as_built self.now) (supported_by self.now)
            reader.old reader.new (sink.old, writer.old) (sink.new, writer.new) steps.old steps.new result }
    {
        enforce_anchored_consistency(self.start_kind, Anchored::No)?;
        dispatch!(self.try_stream_pump_occurrences(alloc, reader, writer, sink, steps))
    }
}
