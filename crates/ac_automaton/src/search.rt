//! The searches that an automaton runs whole: for one match, for the next occurrence, and for the next match or occurrence of a
//! stream.
//!
//! [`Search`] needs nothing but the calls on states, so for most automata an implementation is an empty one. An automaton that
//! stands for one of several, as that of the crate `aho_corasick` does, passes each search on to the one that serves. So it
//! chooses once a search, and not at each state.
//!
//! A function that searches by any automaton asks for `A: Search`. One that goes from state to state asks for `A: Automaton`.
use crate::ahead::Ahead;
use crate::automaton::Automaton;
use crate::error::{MatchError, ReplaceError, StreamError};
use crate::in_memory::mask::{mask_all, mask_words};
use crate::in_memory::overlapping::{Position, Shown};
use crate::in_memory::replace::replace_words;
use crate::in_memory::words::{FindWordIter, find_word_iter, find_word_iter_from};
use crate::in_memory::{find, overlapping};
use crate::stream::Progress;
use crate::stream::devices::watched::Watched;
use crate::stream::mask::mask_stream;
use crate::stream::mask::words::mask_words_stream;
use crate::stream::overlapping::{ListPlace, Listed};
use crate::stream::pump::{pump_all_words, pump_words};
use crate::stream::replace::replace_words_counted;
use crate::stream::sink::Sink;
use crate::{masking, stream};
use ac_input::primitives::StateID;
use ac_input::search::{Input, Match, MatchKind};
use ac_input::steps::Steps;
use std::alloc::Global;
use std::io::{Read, Write};

/// An automaton that searches.
pub trait Search: Automaton {
    ghost use Rattle.std.specs.Prelude.{◌≡◌, ◌≤◌, ◌-◌, false, [], length, drop, map, take, None, Some};
    ghost use Rattle.ac_input.specs.declared.search.Anchored.TheVariants.{No};
    ghost use Rattle.ac_input.specs.declared.search.MatchKind.TheVariants.{Standard};
    ghost use Rattle.ac_automaton.specs.Ahead.{IsPaid, StaysReadOnce};
    ghost use Rattle.ac_automaton.specs.Automaton.{Finds, CostsFind, IsFindCost, IsFound, IsReached, IsReadCost};
    ghost use Rattle.ac_automaton.specs.InMemory.Find.Ahead.{IsAheadIn, MayReadAhead, ended_at};
    ghost use Rattle.ac_automaton.specs.InMemory.Items.{FindsWithin};
    ghost use Rattle.ac_automaton.specs.InMemory.Overlapping.OverlappingSearch.{CountsOn, HasLeft, IsAheadAt, KeepsPaying, ShowsNextAt};
    ghost use Rattle.ac_automaton.specs.InMemory.Words.{AnswersWords, AnswersWordsFrom};
    ghost use Rattle.ac_automaton.specs.InMemory.Words.Replace.{ReplacesWholeWords};
    ghost use Rattle.ac_automaton.specs.Masking.{CostsMask, Masks, MasksFrom};
    ghost use Rattle.ac_automaton.specs.Masking.Words.{CostsMaskWords, MasksWords};
    ghost use Rattle.ac_automaton.specs.Masking.Words.Stream.{CostsMaskWordsStream, MasksWordsStream};
    ghost use Rattle.ac_automaton.specs.Stream.Mask.{CostsMaskStream, MasksStream};
    ghost use Rattle.ac_automaton.specs.Stream.Overlapping.{AcceptsListing};
    ghost use Rattle.ac_automaton.specs.Stream.Overlapping.Walk.{IsAheadFor, ListsNext, MayList};
    ghost use Rattle.ac_automaton.specs.Stream.Search.Walk.{IsAheadBy, MayWalk, WalksOn};
    ghost use Rattle.ac_automaton.specs.Stream.WholeWords.{CostsWordStream, PumpsAllWords, PumpsWords, ReplacesWords, asked_for};

    /// The match of the input, if it has one, as [`Automaton::try_find_counted`] returns it; counts what it does.
    fn search(&self, input: &Input<'_>, steps: &mut Steps) -> Result<Option<Match>, MatchError>
        ensures answer { Finds (Self.built self.now).dictionary (Self.supports self.now) input.now result }
        ensures within { FindsWithin (Self.built self.now).dictionary input.now result }
        ensures cost { CostsFind (Self.built self.now) input.now steps.old steps.new result }
    {
        find::find(self, input, steps)
    }

    /// The match of the input, if it has one, of a search that begins in this start state; counts what it does, and keeps notes of
    /// what it read ahead in the haystack. Its caller is the walk that reads ahead:
    /// [`FindIterAhead`](crate::iter::ahead::FindIterAhead).
    fn search_ahead(
        &self,
        input: &Input<'_>,
        start: StateID,
        ahead: &mut Ahead,
        steps: &mut Steps,
    ) -> Option<Match>
        requires may { MayReadAhead Self.Automaton self.now input.now start }
        requires ordered { input.now.span.start ≤ input.now.span.end }
        requires ahead { IsAheadIn Self.Automaton self.now input.now start input.now.span.start ahead.old }
        ensures found { IsFound (Self.built self.now) input.now result }
        ensures cost { IsPaid ahead.old ahead.new steps.new (λ paid. IsFindCost (Self.built self.now) input.now steps.old paid result) }
        ensures ahead { IsAheadIn Self.Automaton self.now input.now start (ended_at input.now result) ahead.new }
        ensures once { StaysReadOnce (take input.now.span.end input.now.haystack) ahead.old ahead.new }
    {
        find::ahead::find(self, input, start, ahead, steps)
    }

    /// The next occurrence of an overlapping search that began in a start state and stands at a place; counts what it does.
    /// Its callers are [`Automaton::try_find_overlapping`] and the iterator: a place comes from an earlier call, or from their
    /// beginning.
    fn search_overlapping(
        &self,
        input: &Input<'_>,
        start: StateID,
        place: Position,
        steps: &mut Steps,
    ) -> Shown
        requires standard { (Self.built self.now).dictionary.kind ≡ Standard }
        requires starts { Self.Reaches self.now input.now.anchored [] start }
        requires left { HasLeft Self.Automaton self.now input.now place }
        ensures shows { ShowsNextAt Self.Automaton self.now input.now place result }
        ensures pays { KeepsPaying (Self.built self.now) input.now place result
            steps.old steps.new }
        ensures counts { CountsOn (Self.built self.now) input.now place result steps.old steps.new }
    {
        overlapping::advance(self, input, start, place, steps)
    }

    /// The same for a search that isn't anchored, by what was read ahead in the haystack, of which it keeps notes. It runs no
    /// prefilter. Its caller is the iterator: [`FindOverlappingIter`](crate::overlapping::FindOverlappingIter).
    fn search_overlapping_ahead(
        &self,
        input: &Input<'_>,
        place: Position,
        ahead: &mut Ahead,
        steps: &mut Steps,
    ) -> Shown
        requires standard { (Self.built self.now).dictionary.kind ≡ Standard }
        requires free { input.now.anchored ≡ No }
        requires left { HasLeft Self.Automaton self.now input.now place }
        requires ahead { IsAheadAt Self.Automaton self.now input.now place ahead.old }
        ensures shows { ShowsNextAt Self.Automaton self.now input.now place result }
        ensures paid { IsPaid ahead.old ahead.new steps.new (λ paid. KeepsPaying (Self.built self.now) input.now place result steps.old paid
            × CountsOn (Self.built self.now) input.now place result steps.old paid) }
        ensures ahead { IsAheadAt Self.Automaton self.now input.now result.place ahead.new }
    {
        overlapping::advance_ahead(self, input, place, ahead, steps)
    }

    /// The next match of a stream among the bytes that are held, of a search that began in a start state; counts what it does, and
    /// keeps how far it has come and notes of what it read ahead of these bytes. Its callers are the searches of streams, which
    /// alone make and keep a [`Progress`].
    fn search_stream(
        &self,
        start: StateID,
        progress: &mut Progress,
        held: &[u8],
        ahead: &mut Ahead,
        steps: &mut Steps,
    ) -> Option<Match>
        requires walk { MayWalk Self.Automaton self.now start progress.old held.now }
        requires ahead { IsAheadBy Self.Automaton self.now start held.now progress.old ahead.old }
        ensures walk { IsPaid ahead.old ahead.new steps.new (λ paid. WalksOn Self.Automaton self.now start progress.old held.now
            (record { progress = progress.new; found = result }) steps.old paid) }
        ensures ahead { IsAheadBy Self.Automaton self.now start held.now progress.new ahead.new }
        ensures once { StaysReadOnce held.now ahead.old ahead.new }
    {
        stream::search_held(self, start, progress, held, ahead, steps)
    }

    /// The next occurrence in a stream among the bytes of the last read, of a search that has come this far; counts what it does, and
    /// keeps notes of what it read ahead of these bytes. Its caller is the search of a stream for every occurrence, which alone makes
    /// and keeps a [`ListPlace`].
    fn search_stream_overlapping(
        &self,
        place: &ListPlace,
        held: &[u8],
        ahead: &mut Ahead,
        steps: &mut Steps,
    ) -> Listed
        requires stands { MayList Self.Automaton self.now place.now held.now }
        requires ahead { IsAheadFor Self.Automaton self.now held.now place.now ahead.old }
        ensures lists { IsPaid ahead.old ahead.new steps.new (λ paid. ListsNext Self.Automaton self.now place.now held.now result
            steps.old paid) }
        ensures ahead { IsAheadFor Self.Automaton self.now held.now result.place ahead.new }
    {
        stream::overlapping::next_listed(self, place, held, ahead, steps)
    }

    /// Reads on from a state over the bytes from a place on, and masks the occurrences that end there, also their bytes before the
    /// place, as far as they are held; counts what it does. Returns the state after the last byte. Its callers mask a text, in memory
    /// or in a stream.
    fn mask_from(
        &self,
        sid: StateID,
        bytes: &mut [u8],
        from: usize,
        mask: u8,
        steps: &mut Steps,
    ) -> StateID
        requires standard { (Self.built self.now).dictionary.kind ≡ Standard }
        requires reached { IsReached (Self.Reaches self.now No) sid }
        requires within { from ≤ length bytes.old }
        ensures masks { MasksFrom (Self.built self.now) (Self.Reaches self.now No) mask sid from
            bytes.old bytes.new result }
        ensures cost { IsReadCost (Self.built self.now) (Self.Reaches self.now) No sid (drop from bytes.old) steps.old steps.new }
    {
        masking::mask_from(self, sid, bytes, from, mask, steps)
    }

    /// The whole words of a text, one after another: the matches under a kind of the occurrences beside which no word byte stands. A word
    /// byte is an ASCII letter, a digit, `_`, or a byte from 0x80 on; the ends of the text are none. So with `new` and `new york` a text
    /// `new yorker` has the word `new`, whatever the kind. What a word is stands in `ac_input` (`specs.Word`), with its laws
    /// ([`word_laws`](ac_input::word_laws)).
    ///
    /// The kind is that of the words, and may be any. The automaton has to be of the standard kind, since it then meets every occurrence.
    /// It takes no memory, and uses no prefilter. For each word it looks once at each byte up to its end, or twice if it isn't
    /// deterministic; under a leftmost kind up to one byte past the longest pattern that begins with it, and it looks at these bytes again
    /// for the next word.
    ///
    /// Returns an error if the automaton has no start for a search that isn't anchored, isn't of the standard kind, or has an empty
    /// pattern, checked in that order.
    final fn try_find_word_iter<'a, 'h>(
        &'a self,
        kind: MatchKind,
        haystack: &'h [u8],
    ) -> Result<FindWordIter<'a, 'h, Self>, MatchError>
    where
        Self: Sized,
        ensures { AnswersWords (Self.built self.now) (Self.supports self.now) kind haystack.entry.now result }
    {
        find_word_iter(self, kind, haystack)
    }

    /// The same, of a walk that stands at a place: the words that begin there or later, one after another. What stands before the place
    /// still counts where it is beside a word. So a walk goes on from the end of its last word
    /// ([`FindWordIter::place`](crate::in_memory::words::FindWordIter::place)).
    ///
    /// It requires that the place isn't past the end of the text.
    final fn try_find_word_iter_from<'a, 'h>(
        &'a self,
        kind: MatchKind,
        haystack: &'h [u8],
        at: usize,
    ) -> Result<FindWordIter<'a, 'h, Self>, MatchError>
    where
        Self: Sized,
        requires within { at ≤ length haystack.now }
        ensures { AnswersWordsFrom (Self.built self.now) (Self.supports self.now) kind haystack.entry.now at result }
    {
        find_word_iter_from(self, kind, haystack, at)
    }

    /// The text with each of its whole words under a kind replaced by the replacement of its pattern, as
    /// [`try_find_word_iter`](Search::try_find_word_iter) finds them. The memory is at first as large as the text, and grows as any
    /// `Vec` does.
    ///
    /// It requires one replacement for each pattern. Returns an error where `try_find_word_iter` does, and then if memory runs out.
    final fn try_replace_words(
        &self,
        kind: MatchKind,
        alloc: Global,
        haystack: &[u8],
        replacements: &[&[u8]],
    ) -> Result<Vec<u8>, ReplaceError>
    where
        Self: Sized,
        requires { length replacements.now ≡ length (Self.built self.now).dictionary.patterns }
        ensures { ReplacesWholeWords (Self.built self.now) (Self.supports self.now) kind haystack.now replacements.now result }
    {
        replace_words(self, kind, alloc, haystack, replacements)
    }

    /// Writes the input with each of its whole words under a kind replaced by the replacement of its pattern. There is one replacement
    /// for each pattern. The input ends at its first empty read. Before each read it has written everything up to where a word may still
    /// begin: all but at most as many bytes as the longest pattern has, or one, and all of them where nothing is live. The writer isn't
    /// flushed.
    ///
    /// It requires that the reader has not ended. Returns an error if the automaton has no start for an unanchored search, isn't of the
    /// standard kind, or has an empty pattern, checked in that order, and if there is no memory for its two buffers; the reader and the
    /// writer are then unchanged. It allocates nothing after that. Where a read or a write fails, nothing is tried again.
    ///
    /// It counts what it does.
    final fn try_stream_replace_words_counted<R: Read, W: Write>(
        &self,
        kind: MatchKind,
        alloc: Global,
        reader: &mut Watched<R>,
        writer: &mut Watched<W>,
        replacements: &[&[u8]],
        steps: &mut Steps,
    ) -> Result<(), StreamError>
    where
        Self: Sized,
        requires open { reader.old.ended ≡ false }
        requires one_each { length replacements.now ≡ length (Self.built self.now).dictionary.patterns }
        ensures replaced { ReplacesWords R.remaining W.contents (asked_for kind (Self.built self.now))
            (map (λ r. r.now) replacements.now) reader.old reader.new writer.old writer.new result }
        ensures accepted { AcceptsListing (Self.built self.now) (Self.supports self.now) result }
        ensures cost { CostsWordStream (asked_for kind (Self.built self.now)) reader.old reader.new steps.old steps.new result }
    {
        replace_words_counted(self, kind, alloc, reader, writer, replacements, steps)
    }

    /// Reads a stream to its end, and passes its whole words under a kind to a [`Sink`] with the text between them, all that is decided
    /// before each read; counts what it does. It returns an error where
    /// [`stream_find_word_iter`](crate::stream::stream_find_word_iter) does, before it reads, and if a read fails, the sink stops, or
    /// there are more bytes than places.
    final fn try_stream_pump_words<R: Read, W, K: Sink<W>>(
        &self,
        kind: MatchKind,
        alloc: Global,
        reader: &mut Watched<R>,
        writer: &mut Watched<W>,
        sink: &mut K,
        steps: &mut Steps,
    ) -> Result<(), StreamError>
    where
        Self: Sized,
        requires open { reader.old.ended ≡ false }
        requires ready { K.handling.ready (length (Self.built self.now).dictionary.patterns) (sink.old, writer.old) }
        requires settled { K.handling.settled (sink.old, writer.old) }
        ensures { PumpsWords K.handling R.remaining kind (Self.built self.now) (Self.supports self.now)
            reader.old reader.new (sink.old, writer.old) (sink.new, writer.new) steps.old steps.new result }
    {
        pump_words(self, kind, alloc, reader, writer, sink, steps)
    }

    /// Reads a stream to its end, and passes all its whole words, overlapping ones too, to a [`Sink`], without the text between them, all
    /// that are decided before each read; counts what it does. It returns an error where
    /// [`stream_find_word_iter`](crate::stream::stream_find_word_iter) does, before it reads, and if a read fails, the sink stops, or
    /// there are more bytes than places.
    final fn try_stream_pump_all_words<R: Read, W, K: Sink<W>>(
        &self,
        alloc: Global,
        reader: &mut Watched<R>,
        writer: &mut Watched<W>,
        sink: &mut K,
        steps: &mut Steps,
    ) -> Result<(), StreamError>
    where
        Self: Sized,
        requires open { reader.old.ended ≡ false }
        requires ready { K.handling.ready (length (Self.built self.now).dictionary.patterns) (sink.old, writer.old) }
        requires settled { K.handling.settled (sink.old, writer.old) }
        ensures { PumpsAllWords K.handling R.remaining (Self.built self.now) (Self.supports self.now)
            reader.old reader.new (sink.old, writer.old) (sink.new, writer.new) steps.old steps.new result }
    {
        pump_all_words(self, alloc, reader, writer, sink, steps)
    }

    /// Masks the text in place: each byte that lies in an occurrence of some pattern becomes `mask`, and every other byte stays.
    /// Overlapping occurrences count too. So if no pattern has the byte `mask`, no pattern occurs in the text any more, the empty one
    /// aside: see [`mask_laws`](ac_input::mask_laws).
    ///
    /// It takes no memory. Returns an error if the automaton has no start for a search that isn't anchored, or isn't of the standard
    /// kind; the text is then unchanged.
    ///
    /// It counts what it does: at least one look at a state for each byte, and at most two.
    final fn try_mask_counted(
        &self,
        text: &mut [u8],
        mask: u8,
        steps: &mut Steps,
    ) -> Result<(), MatchError>
    where
        Self: Sized,
        ensures masked { Masks (Self.built self.now) (Self.supports self.now) mask text.old text.new result }
        ensures cost { CostsMask (Self.built self.now) text.old steps.old steps.new result }
    {
        mask_all(self, text, mask, steps)
    }

    /// Masks the whole words of the text: each byte that lies in an occurrence with no word byte beside it becomes `mask`, and every other
    /// byte stays. Words that overlap count too. What a word is stands at [`try_find_word_iter`](Search::try_find_word_iter), what is left
    /// of them in the masked text at [`word_laws`](ac_input::word_laws).
    ///
    /// It takes a copy of the text. Returns an error if the automaton has no start for a search that isn't anchored, or isn't of the
    /// standard kind, checked in that order, and then if there is no memory for the copy; the text is then unchanged.
    ///
    /// It counts what it does, but not the copying: at least one look at a state for each byte, and at most two.
    final fn try_mask_words_counted(
        &self,
        alloc: Global,
        text: &mut [u8],
        mask: u8,
        steps: &mut Steps,
    ) -> Result<(), ReplaceError>
    where
        Self: Sized,
        ensures masked { MasksWords (Self.built self.now) (Self.supports self.now) mask text.old text.new result }
        ensures cost { CostsMaskWords (Self.built self.now) text.old steps.old steps.new result }
    {
        mask_words(self, alloc, text, mask, steps)
    }

    /// Writes the input with each byte that lies in an occurrence of some pattern replaced by `mask`, as
    /// [`try_mask_counted`](Search::try_mask_counted) does in memory. The input ends at its first empty read. Before each read it writes
    /// everything but the last bytes that may still be covered: fewer than the longest pattern has, and none where nothing is live. The
    /// writer isn't flushed.
    ///
    /// Returns an error if the automaton has no start for a search that isn't anchored, isn't of the standard kind, or has an empty
    /// pattern, checked in that order, and then if there is no memory for its buffer of `max(65536, 8 * max(1, longest))` bytes; the
    /// reader and the writer are then unchanged. It allocates nothing after that. Where a read or a write fails, nothing is tried again.
    ///
    /// It counts what it does: at most two looks at states for each byte that it reads, and a seventh of the bytes moved. If it reaches
    /// the end, it has looked at one state at least for each.
    final fn try_mask_stream_counted<R: Read, W: Write>(
        &self,
        alloc: Global,
        reader: &mut Watched<R>,
        writer: &mut Watched<W>,
        mask: u8,
        steps: &mut Steps,
    ) -> Result<(), StreamError>
    where
        Self: Sized,
        requires open { reader.old.ended ≡ false }
        ensures masked { MasksStream R.remaining W.contents (Self.built self.now) mask reader.old reader.new
            writer.old writer.new result }
        ensures accepted { AcceptsListing (Self.built self.now) (Self.supports self.now) result }
        ensures cost { CostsMaskStream (Self.built self.now) reader.old reader.new steps.old steps.new result }
    {
        mask_stream(self, alloc, reader, writer, mask, steps)
    }

    /// Writes the input with its whole words masked, as [`try_mask_words_counted`](Search::try_mask_words_counted) does in memory. The
    /// input ends at its first empty read. Before each read it writes everything but the last bytes, of which a word may still be found:
    /// at most as many as the longest pattern has, and none where nothing is live. The writer isn't flushed.
    ///
    /// Returns an error where [`try_mask_stream_counted`](Search::try_mask_stream_counted) does. It has two buffers of
    /// `max(65536, 8 * (longest + 1))` bytes each, which it allocates before the first read: one for the bytes as they were read, and one
    /// for the masked ones.
    ///
    /// It counts what it does: at most two looks at states for each byte that it reads, and in each buffer a seventh of the bytes moved.
    /// If it reaches the end, it has looked at one state at least for each.
    final fn try_mask_words_stream_counted<R: Read, W: Write>(
        &self,
        alloc: Global,
        reader: &mut Watched<R>,
        writer: &mut Watched<W>,
        mask: u8,
        steps: &mut Steps,
    ) -> Result<(), StreamError>
    where
        Self: Sized,
        requires open { reader.old.ended ≡ false }
        ensures masked { MasksWordsStream R.remaining W.contents (Self.built self.now) mask reader.old reader.new
            writer.old writer.new result }
        ensures accepted { AcceptsListing (Self.built self.now) (Self.supports self.now) result }
        ensures cost { CostsMaskWordsStream (Self.built self.now) reader.old reader.new steps.old steps.new result }
    {
        mask_words_stream(self, alloc, reader, writer, mask, steps)
    }
}

impl<'a, A: Search> Search for &'a A {
    fn search(&self, input: &Input<'_>, steps: &mut Steps) -> Result<Option<Match>, MatchError> {
        (**self).search(input, steps)
    }

    fn search_ahead(
        &self,
        input: &Input<'_>,
        start: StateID,
        ahead: &mut Ahead,
        steps: &mut Steps,
    ) -> Option<Match> {
        (**self).search_ahead(input, start, ahead, steps)
    }

    fn search_overlapping(
        &self,
        input: &Input<'_>,
        start: StateID,
        place: Position,
        steps: &mut Steps,
    ) -> Shown {
        (**self).search_overlapping(input, start, place, steps)
    }

    fn search_overlapping_ahead(
        &self,
        input: &Input<'_>,
        place: Position,
        ahead: &mut Ahead,
        steps: &mut Steps,
    ) -> Shown {
        (**self).search_overlapping_ahead(input, place, ahead, steps)
    }

    fn search_stream(
        &self,
        start: StateID,
        progress: &mut Progress,
        held: &[u8],
        ahead: &mut Ahead,
        steps: &mut Steps,
    ) -> Option<Match> {
        (**self).search_stream(start, progress, held, ahead, steps)
    }

    fn search_stream_overlapping(
        &self,
        place: &ListPlace,
        held: &[u8],
        ahead: &mut Ahead,
        steps: &mut Steps,
    ) -> Listed {
        (**self).search_stream_overlapping(place, held, ahead, steps)
    }

    fn mask_from(
        &self,
        sid: StateID,
        bytes: &mut [u8],
        from: usize,
        mask: u8,
        steps: &mut Steps,
    ) -> StateID {
        (**self).mask_from(sid, bytes, from, mask, steps)
    }
}
