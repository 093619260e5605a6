//! The definition of an automaton, and every search with one.
//!
//! An automaton reads a text byte by byte and is in one state after each. A state stands for the part of the text that may still
//! grow into a match, and stores the patterns that match there. The trait [`Automaton`] specifies its calls in those terms only;
//! how states and transitions are stored is left to the implementation. All searches are provided methods, proved once from the
//! trait's clauses and laws, so every automaton that meets them returns the same results.
//!
//! A caller who searches needs only `try_find` and its relatives; a function that searches by any automaton asks for
//! [`Search`](crate::search::Search). The methods on states are for those who write a search of their own: a state comes from
//! `start_state`, `next_state` or `advance` of the same automaton, and each step goes on from there.
//!
//! A search spends nearly all its time in `advance`, which reads on over the states that need nothing but the next byte. So an
//! automaton implements that method itself, as fast as its tables allow. The provided one looks up one byte after another, for an
//! automaton that has nothing better.
pub mod reference;

use crate::ahead::{Note, Noted};
use crate::error::{MatchError, ReplaceError, StreamError};
use crate::in_memory::iter::ahead::FindIterAhead;
use crate::in_memory::iter::{FindIter, WalkPlace};
use crate::in_memory::overlapping::{FindOverlappingIter, OverlappingState};
use crate::in_memory::{overlapping, replace};
use crate::search::Search;
use crate::stream::devices::watched::Watched;
use crate::stream::replace::replace_all_counted;
use crate::stream::replace_with::replace_all_with;
use crate::stream::sink::Sink;
use crate::stream::{self, StreamFindIter, StreamKinds};
use ac_input::primitives::{PatternID, StateID};
use ac_input::search::{Anchored, Input, Match, MatchKind};
use ac_input::steps::Steps;
use ac_literal::prefilter::Prefilter;
use std::alloc::{AllocError, Global};
use std::io::{Read, Write};

/// A state, and how many bytes were read to reach it.
#[derive(Clone, Copy, Debug)]
pub struct Advance {
    /// The state.
    pub sid: StateID,
    /// How many bytes were read.
    pub taken: usize,
}

/// An automaton that finds patterns in a text.
pub trait Automaton {
    ghost use Rattle.std.specs.Prelude.{◌≡◌, ◌≢◌, ℕ, ◌<◌, ◌≤◌, ◌↔◌, Bool, false, List, [], ◌∷◌, length, map, take, IsTrue, IfOk, IfSome, get_or, Option, slice_get, option_map, ◌+◌};
    ghost use Rattle.ac_input.specs.declared.search.Anchored.{Anchored};
    ghost use Rattle.ac_input.specs.Number.{StateID};
    ghost use Rattle.ac_input.specs.Input.{is_anchored};
    ghost use Rattle.ac_input.specs.Dictionary.{IsLive};
    ghost use Rattle.ac_input.specs.Opening.{HasNoOccurrence};
    ghost use Rattle.ac_input.specs.Tells.{Tells};
    ghost use Rattle.ac_input.specs.Work.{longest, shortest};
    ghost use Rattle.ac_automaton.specs.Automaton.{Built, IsReached, IsState, AtEach, Leads, IsReadCost, TellsDead, TellsStart, IsSpecial, Advances, AdvancesToMatch, OwnsPrefilter, AnswersStart, Finds, CostsFind, MayAsk};
    ghost use Rattle.ac_automaton.specs.Ahead.{ReadsAhead, most_ahead};
    ghost use Rattle.ac_automaton.specs.InMemory.Iter.{AnswersFindIter, AnswersFindIterFrom, IsPlaceIn, left_of};
    ghost use Rattle.ac_automaton.specs.InMemory.Overlapping.{CameFrom, IsOverlappingCost, AnswersOverlapping};
    ghost use Rattle.ac_automaton.specs.InMemory.Overlapping.OverlappingIter.{AnswersListing, rest_of};
    ghost use Rattle.ac_automaton.specs.InMemory.Items.{AreFewForEach, MatchesAreInOrder, EachLiesWithin, FindsWithin};
    ghost use Rattle.ac_automaton.specs.Stream.Iter.{FindsStream};
    ghost use Rattle.ac_automaton.specs.Stream.Pump.{PumpsMatches, PumpsOccurrences};
    ghost use Rattle.ac_automaton.specs.Stream.Replace.{AcceptsStream, CostsStream, ReplacesStream};
    ghost use Rattle.ac_automaton.specs.Stream.ReplaceWith.{ReplacesStreamWith};
    ghost use Rattle.ac_automaton.specs.declared.stream.StreamKinds.TheVariants.{AnyKind, OnlyStandard};
    ghost use Rattle.ac_automaton.specs.InMemory.Replace.{IsForMatches, ReplacesText, ReplacesBytes, ReplacesTextWith, ReplacesBytesWith};

    /// What it was built as: its patterns, pairing and kind, whether it looks at exactly one state for a byte, its prefilter.
    ghost built: { Self → Built };

    /// Which searches it has a start for.
    ghost supports: { Self → Anchored → Type 0 };

    /// The state is reached from the start of this anchoring by these bytes.
    ghost Reaches: { Self → Anchored → List ℕ → StateID → Type 0 };

    /// The patterns that match at a state, in order.
    ghost matches: { Self → StateID → List ℕ };

    /// The states of which `is_start` is true.
    ghost starts: { Self → StateID → Bool };

    /// The states of which `is_special` is true.
    ghost special: { Self → StateID → Bool };

    /// The state in which a search begins. Returns an error if the automaton has no start for the anchoring.
    fn start_state(&self, anchored: Anchored) -> Result<StateID, MatchError>
        ensures { AnswersStart (supports self.now) (Reaches self.now) anchored result };

    /// The state after one more byte, where the search began with this anchoring. Counts the states that it looks at.
    fn next_state_counted(
        &self,
        anchored: Anchored,
        sid: StateID,
        byte: u8,
        steps: &mut Steps,
    ) -> StateID
        requires { IsReached (Reaches self.now anchored) sid }
        ensures next { Leads (Reaches self.now anchored) sid (byte ∷ []) result }
        ensures cost { IsReadCost (built self.now) (Reaches self.now) anchored sid (byte ∷ []) steps.old steps.new };

    /// Reads on from a state over bytes, to the first state that is special, or to the last byte. It reads at least one byte, if
    /// there is one.
    ///
    /// It counts at least one look at a state for each byte that it reads, also for one that it passes without a look. In total it
    /// counts at most two for each, plus the bytes that were live before, less those that are live after. A deterministic automaton
    /// counts exactly one for each.
    ///
    /// The provided method calls `next_state_counted` and `is_special` for each byte. An automaton with a faster way overrides it.
    fn advance(&self, anchored: Anchored, sid: StateID, bytes: &[u8], steps: &mut Steps) -> Advance
        requires { IsReached (Reaches self.now anchored) sid }
        ensures goes { Advances (Reaches self.now anchored) (special self.now) sid bytes.now result }
        ensures cost { IsReadCost (built self.now) (Reaches self.now) anchored sid
            (take result.taken bytes.now) steps.old steps.new }
    {
        let mut current = sid;
        for (read, byte) in bytes.iter().enumerate() {
            current = self.next_state_counted(anchored, current, *byte, steps);
            if self.is_special(current) {
                return Advance {
                    sid: current,
                    taken: read + 1,
                };
            }
        }
        Advance {
            sid: current,
            taken: bytes.len(),
        }
    }

    /// Reads on from a state over bytes, to the first state that matches, or to the last byte; it passes over starts and dead
    /// states. It reads at least one byte, if there is one. Its looks at states are within the bounds of `advance`.
    ///
    /// A search without a prefilter reads this way: there a start is a state like any other.
    fn advance_to_match(
        &self,
        anchored: Anchored,
        sid: StateID,
        bytes: &[u8],
        steps: &mut Steps,
    ) -> Advance
        requires { IsReached (Reaches self.now anchored) sid }
        ensures goes { AdvancesToMatch (Reaches self.now anchored) (matches self.now) sid bytes.now result }
        ensures cost { IsReadCost (built self.now) (Reaches self.now) anchored sid
            (take result.taken bytes.now) steps.old steps.new }
    {
        let mut current = sid;
        for (read, byte) in bytes.iter().enumerate() {
            current = self.next_state_counted(anchored, current, *byte, steps);
            if self.is_match(current) {
                return Advance {
                    sid: current,
                    taken: read + 1,
                };
            }
        }
        Advance {
            sid: current,
            taken: bytes.len(),
        }
    }

    /// The same by the automaton's own loop alone, which passes no byte unread: faster where a match is close.
    fn advance_alone(
        &self,
        anchored: Anchored,
        sid: StateID,
        bytes: &[u8],
        steps: &mut Steps,
    ) -> Advance
        requires { IsReached (Reaches self.now anchored) sid }
        ensures goes { AdvancesToMatch (Reaches self.now anchored) (matches self.now) sid bytes.now result }
        ensures cost { IsReadCost (built self.now) (Reaches self.now) anchored sid
            (take result.taken bytes.now) steps.old steps.new }
    {
        self.advance_to_match(anchored, sid, bytes, steps)
    }

    /// Reads up to `len` bytes ahead of an unanchored search that stands at `at` in state `sid`, and writes notes of what it found, in
    /// order of place. `anew` is the state in which the search begins anew after a match; none if it goes on from the state that
    /// matched. Returns how many notes it made, and how many bytes it read: those that the notes cover, each with one look.
    ///
    /// It pays where an automaton can walk over several parts of the bytes side by side: see [`ahead`](crate::ahead). The provided
    /// method reads nothing.
    fn note_ahead(
        &self,
        _sid: StateID,
        _bytes: &[u8],
        _at: usize,
        _len: usize,
        _anew: Option<StateID>,
        _notes: &mut [Note],
        _steps: &mut Steps,
    ) -> Noted
        requires reached { IsReached (Reaches self.now Anchored.No) _sid }
        requires begins { IfSome _anew (Reaches self.now Anchored.No []) }
        requires within { _at + _len ≤ length _bytes.now }
        requires few { _len ≤ most_ahead }
        ensures few { result.notes ≤ length _notes.new }
        ensures reads { ReadsAhead (built self.now) (Reaches self.now Anchored.No) (matches self.now) _anew _sid
            _bytes.now _at _len result.read (take result.notes _notes.new) _steps.old _steps.new }
    {
        Noted::none()
    }

    /// Whether [`Automaton::note_ahead`] reads ahead, where the bytes allow it. No result depends on it, but what a stream may cost
    /// under a leftmost kind does.
    fn has_lanes(&self) -> bool
        ensures { result ≡ (built self.now).lanes };

    /// Whether its own loop reads on faster than a prefilter that is asked every few bytes. No result depends on it.
    fn reads_quickly(&self) -> bool {
        true
    }

    /// Whether it shows, sooner than by reading them, that no pattern occurs in these bytes. It may say no where none does: the provided
    /// method does so. What it looks at for this isn't counted, so it is asked of few bytes and few patterns alone.
    fn rules_out(&self, _bytes: &[u8]) -> bool
        requires { MayAsk (built self.now) _bytes.now }
        ensures { IsTrue result → HasNoOccurrence (built self.now).dictionary _bytes.now }
    {
        false
    }

    /// Whether a search has more to do here than to read on: the state is dead, or matches, or is a start and there is a prefilter
    /// to run.
    fn is_special(&self, sid: StateID) -> bool
        requires { IsState (Reaches self.now) sid }
        ensures { result ≡ special self.now sid };

    /// Whether the state is dead: no later byte can lead to a match.
    fn is_dead(&self, sid: StateID) -> bool
        requires { IsState (Reaches self.now) sid }
        ensures { AtEach (Reaches self.now) sid (TellsDead (built self.now) result) };

    /// Whether a pattern matches at this state.
    fn is_match(&self, sid: StateID) -> bool
        requires { IsState (Reaches self.now) sid }
        ensures { IsTrue result ↔ (matches self.now sid ≢ []) };

    /// Whether it is a start. Then none of the bytes read is live any more, unless the state matches.
    fn is_start(&self, sid: StateID) -> bool
        requires { IsState (Reaches self.now) sid }
        ensures value { result ≡ starts self.now sid }
        ensures tells { TellsStart (built self.now) (Reaches self.now) (matches self.now) sid result };

    /// The kind that it was made for.
    fn match_kind(&self) -> MatchKind
        ensures { result ≡ (built self.now).dictionary.kind };

    /// How many patterns match at a state that matches.
    fn match_len(&self, sid: StateID) -> usize
        requires valid { IsState (Reaches self.now) sid }
        requires matches { matches self.now sid ≢ [] }
        ensures { result ≡ length (matches self.now sid) };

    /// The pattern of this index of those that match at a state.
    fn match_pattern(&self, sid: StateID, index: usize) -> PatternID
        requires valid { IsState (Reaches self.now) sid }
        requires within { index < length (matches self.now sid) }
        ensures value { slice_get (matches self.now sid) index ≡ Some result }
        ensures known { result < length (built self.now).dictionary.patterns };

    /// How many patterns it was made from.
    fn patterns_len(&self) -> usize
        ensures { result ≡ length (built self.now).dictionary.patterns };

    /// How many bytes the pattern has.
    fn pattern_len(&self, pattern: PatternID) -> usize
        requires { pattern < length (built self.now).dictionary.patterns }
        ensures { result ≡ length (get_or (built self.now).dictionary.patterns pattern []) };

    /// How many bytes the shortest pattern has; `usize::MAX` where there is none.
    fn min_pattern_len(&self) -> usize
        ensures { result ≡ shortest (built self.now).dictionary.patterns };

    /// How many bytes the longest pattern has; 0 where there is none.
    fn max_pattern_len(&self) -> usize
        ensures { result ≡ longest (built self.now).dictionary.patterns };

    /// The approximate number of bytes of memory that it uses.
    fn memory_usage(&self) -> usize;

    /// Its prefilter, if it has one.
    fn prefilter(&self) -> Option<&Prefilter>
        ensures value { option_map (λ p. p.now) result ≡ (built self.now).prefilter }
        ensures made { OwnsPrefilter (built self.now) };

    /// What the list of a state says about the bytes that were read.
    ghost tells: { (self : Self) (anchored : Anchored) (text : List ℕ) (sid : StateID)
        → Reaches self anchored text sid
        → Tells (built self).dictionary anchored text (matches self sid) };

    /// At which states a search has more to do than to read on.
    ghost stops: { (self : Self) (anchored : Anchored) (text : List ℕ) (sid : StateID)
        → Reaches self anchored text sid
        → (IsTrue (special self sid)
        ↔ IsSpecial (built self) (matches self sid) (starts self sid) anchored text) };

    /// The state after one more byte, where the search began with this anchoring.
    final fn next_state(&self, anchored: Anchored, sid: StateID, byte: u8) -> StateID
        requires { IsReached (Reaches self.now anchored) sid }
        ensures { Leads (Reaches self.now anchored) sid (byte ∷ []) result }
    {
        let mut steps = Steps::new();
        self.next_state_counted(anchored, sid, byte, &mut steps)
    }

    /// The match of the input, if it has one: the best of the automaton's kind, or of the standard one in an earliest search.
    ///
    /// Returns an error if the automaton has no start for the input's anchoring, and for no other reason.
    final fn try_find(&self, input: &Input<'_>) -> Result<Option<Match>, MatchError>
    where
        Self: Search,
        ensures answer { Finds (built self.now).dictionary (supports self.now) input.now result }
        ensures within { FindsWithin (built self.now).dictionary input.now result }
    {
        let mut steps = Steps::new();
        self.try_find_counted(input, &mut steps)
    }

    /// The same; counts what it does.
    final fn try_find_counted(
        &self,
        input: &Input<'_>,
        steps: &mut Steps,
    ) -> Result<Option<Match>, MatchError>
    where
        Self: Search,
        ensures answer { Finds (built self.now).dictionary (supports self.now) input.now result }
        ensures within { FindsWithin (built self.now).dictionary input.now result }
        ensures cost { CostsFind (built self.now) input.now steps.old steps.new result }
    {
        self.search(input, steps)
    }

    /// All matches of the input, one after another: see [`FindIter`]. Returns an error where `try_find` does.
    final fn try_find_iter<'a, 'h>(
        &'a self,
        input: Input<'h>,
    ) -> Result<FindIter<'a, 'h, Self>, MatchError>
    where
        Self: Sized + Search,
        ensures answer { AnswersFindIter (built self.now) (supports self.now) input.entry result }
        ensures few { IfOk result (λ w. length (left_of w) ≤ length input.entry.haystack + 1) }
        ensures lie { IfOk result (MatchesAreInOrder (built self.now) input.entry) }
    {
        let start = input.start();
        self.try_find_iter_from(input, WalkPlace { start, last: None })
    }

    /// The matches of the input from a place on at which a walk over it stands, as [`FindIter::place`] returned it. Returns an error
    /// where `try_find` does.
    final fn try_find_iter_from<'a, 'h>(
        &'a self,
        input: Input<'h>,
        place: WalkPlace,
    ) -> Result<FindIter<'a, 'h, Self>, MatchError>
    where
        Self: Sized + Search,
        requires { IsPlaceIn input place }
        ensures { AnswersFindIterFrom (built self.now) (supports self.now) input.entry place result }
    {
        self.start_state(input.get_anchored())?;
        Ok(FindIter::from_place(self, input, place))
    }

    /// The same matches from a place on, for many of them in a long text: see [`FindIterAhead`].
    final fn try_find_iter_ahead_from<'a, 'h>(
        &'a self,
        input: Input<'h>,
        place: WalkPlace,
    ) -> Result<FindIterAhead<'a, 'h, Self>, MatchError>
    where
        Self: Sized + Search,
        requires { IsPlaceIn input place }
        ensures { AnswersFindIterFrom (built self.now) (supports self.now) input.entry place result }
    {
        let start = self.start_state(input.get_anchored())?;
        Ok(FindIterAhead::from_place(self, input, place, start))
    }

    /// The same matches, for many of them in a long text with hundreds of patterns and more: see [`FindIterAhead`].
    final fn try_find_iter_ahead<'a, 'h>(
        &'a self,
        input: Input<'h>,
    ) -> Result<FindIterAhead<'a, 'h, Self>, MatchError>
    where
        Self: Sized + Search,
        ensures answer { AnswersFindIter (built self.now) (supports self.now) input.entry result }
        ensures few { IfOk result (λ w. length (left_of w) ≤ length input.entry.haystack + 1) }
        ensures lie { IfOk result (MatchesAreInOrder (built self.now) input.entry) }
    {
        let start = input.start();
        self.try_find_iter_ahead_from(input, WalkPlace { start, last: None })
    }

    /// Finds the next occurrence of the search of the input, in the order of end, start and number, and stores it in the state;
    /// each comes once, and after the last one the state holds none. The state is fresh before the first call, and belongs to this
    /// automaton and this input from then on.
    ///
    /// Returns an error if the automaton has no start for the input's anchoring, or isn't of the standard kind, the only one that
    /// stores every occurrence. The state is then unchanged.
    final fn try_find_overlapping(
        &self,
        input: &Input<'_>,
        state: &mut OverlappingState,
    ) -> Result<(), MatchError>
    where
        Self: Search,
        requires { CameFrom (built self.now) (Reaches self.now) (matches self.now) input.now state.old }
        ensures came { CameFrom (built self.now) (Reaches self.now) (matches self.now) input.now state.new }
        ensures answer { AnswersOverlapping (built self.now) (supports self.now) input.now state.old state.new result }
        ensures cost { IsOverlappingCost (built self.now) input.now state.new.sums }
    {
        overlapping::find_overlapping(self, input, state)
    }

    /// All occurrences in the input, one after another; see [`FindOverlappingIter`].
    ///
    /// Returns an error where `try_find_overlapping` does, and also if the input is anchored.
    final fn try_find_overlapping_iter<'a, 'h>(
        &'a self,
        input: Input<'h>,
    ) -> Result<FindOverlappingIter<'a, 'h, Self>, MatchError>
    where
        Self: Sized + Search,
        ensures answer { AnswersListing (built self.now) (supports self.now) input.entry result }
        ensures few { IfOk result (AreFewForEach (built self.now) input.entry) }
        ensures lie { IfOk result (EachLiesWithin rest_of (built self.now) input.entry) }
    {
        overlapping::iter::find_overlapping_iter(self, input)
    }

    /// All matches of a stream, one after another: see [`StreamFindIter`]. Their places are counted from the first byte that is
    /// read. It allocates one buffer of `max(65536, 8 * max(1, longest))` bytes, and nothing after that.
    ///
    /// Returns an error if the automaton has no start for a search that isn't anchored, isn't of the standard kind, or has an
    /// empty pattern, checked in that order, and then if there is no memory for the buffer. Nothing was read then: this call does
    /// not require [`Read`], so it can't read.
    final fn try_stream_find_iter<'a, R>(
        &'a self,
        alloc: Global,
        reader: &'a mut Watched<R>,
    ) -> Result<StreamFindIter<'a, Self, R>, StreamError>
    where
        Self: Sized + Search,
        requires { reader.old.ended ≡ false }
        ensures { FindsStream OnlyStandard (built self.now) (supports self.now) reader.entry result }
    {
        stream::stream_find_iter(reader, self, StreamKinds::OnlyStandard, alloc)
    }

    /// The text with each match replaced by the replacement of its pattern. There is one replacement for each pattern. A match
    /// that begins or ends within a character is skipped: its bytes stay.
    ///
    /// Returns an error if the automaton has no start for a search that isn't anchored, and if memory runs out.
    final fn try_replace_all(
        &self,
        alloc: Global,
        haystack: &str,
        replacements: &[&str],
    ) -> Result<String, ReplaceError>
    where
        Self: Search,
        requires { length replacements.now ≡ length (built self.now).dictionary.patterns }
        ensures { ReplacesText (built self.now) (supports self.now) haystack.now replacements.now result }
    {
        replace::replace_all(self, alloc, haystack, replacements)
    }

    /// The same for bytes: here every match is replaced.
    final fn try_replace_all_bytes(
        &self,
        alloc: Global,
        haystack: &[u8],
        replacements: &[&[u8]],
    ) -> Result<Vec<u8>, ReplaceError>
    where
        Self: Search,
        requires { length replacements.now ≡ length (built self.now).dictionary.patterns }
        ensures { ReplacesBytes (built self.now) (supports self.now) haystack.now replacements.now result }
    {
        replace::replace_all_bytes(self, alloc, haystack, replacements)
    }

    /// Appends the text to the destination, and in place of each match what the closure appends. The closure takes the match, its
    /// text and the destination. A match that begins or ends within a character is skipped. Once the closure returns `false` it is
    /// not called again, and the rest is copied.
    ///
    /// Returns an error where `try_replace_all` does. If memory runs out, what was appended stays. The destination grows with the
    /// allocator that it was made with.
    final fn try_replace_all_with<F>(
        &self,
        _alloc: Global,
        haystack: &str,
        dst: &mut String,
        replace_with: F,
    ) -> Result<(), ReplaceError>
    where
        Self: Search,
        F: FnMut(&Match, &str, &mut String) -> Result<bool, AllocError>,
        requires { IsForMatches F.FnMut (length (built self.now).dictionary.patterns) replace_with }
        ensures { ReplacesTextWith F.FnMut (built self.now) (supports self.now) haystack.now
            replace_with dst.old dst.new result }
    {
        replace::replace_all_with(self, haystack, dst, replace_with)
    }

    /// The same for bytes: here the closure is called for every match.
    final fn try_replace_all_with_bytes<F>(
        &self,
        _alloc: Global,
        haystack: &[u8],
        dst: &mut Vec<u8>,
        replace_with: F,
    ) -> Result<(), ReplaceError>
    where
        Self: Search,
        F: FnMut(&Match, &[u8], &mut Vec<u8>) -> Result<bool, AllocError>,
        requires { IsForMatches F.FnMut (length (built self.now).dictionary.patterns) replace_with }
        ensures { ReplacesBytesWith F.FnMut (built self.now) (supports self.now) haystack.now
            replace_with dst.old dst.new result }
    {
        replace::replace_all_with_bytes(self, haystack, dst, replace_with)
    }

    /// Reads a stream to its end, and passes its matches to a [`Sink`] with the text between them, all that is decided before each
    /// read; counts what it does. It returns an error where `stream_find_iter` does, before it reads, and if a read fails, the sink
    /// stops, or there are more bytes than places.
    final fn try_stream_pump_matches<R: Read, W, K: Sink<W>>(
        &self,
        kinds: StreamKinds,
        alloc: Global,
        reader: &mut Watched<R>,
        writer: &mut Watched<W>,
        sink: &mut K,
        steps: &mut Steps,
    ) -> Result<(), StreamError>
    where
        Self: Search,
        requires open { reader.old.ended ≡ false }
        requires ready { K.handling.ready (length (built self.now).dictionary.patterns) (sink.old, writer.old) }
        requires settled { K.handling.settled (sink.old, writer.old) }
        ensures { PumpsMatches K.handling R.remaining kinds (built self.now) (supports self.now)
            reader.old reader.new (sink.old, writer.old) (sink.new, writer.new) steps.old steps.new result }
    {
        stream::pump::pump_matches(self, kinds, alloc, reader, writer, sink, steps)
    }

    /// The same for every occurrence; the sink is passed no text between them. It needs the standard kind.
    final fn try_stream_pump_occurrences<R: Read, W, K: Sink<W>>(
        &self,
        alloc: Global,
        reader: &mut Watched<R>,
        writer: &mut Watched<W>,
        sink: &mut K,
        steps: &mut Steps,
    ) -> Result<(), StreamError>
    where
        Self: Search,
        requires open { reader.old.ended ≡ false }
        requires ready { K.handling.ready (length (built self.now).dictionary.patterns) (sink.old, writer.old) }
        requires settled { K.handling.settled (sink.old, writer.old) }
        ensures { PumpsOccurrences K.handling R.remaining (built self.now) (supports self.now)
            reader.old reader.new (sink.old, writer.old) (sink.new, writer.new) steps.old steps.new result }
    {
        stream::pump::pump_occurrences(self, alloc, reader, writer, sink, steps)
    }

    /// Writes the input with each match replaced by the replacement of its pattern; there is one for each pattern. The input ends
    /// at its first empty read. Before each read it writes everything, unless the last bytes may still begin a match; then it
    /// holds back at most as many bytes as the longest pattern has. The writer isn't flushed.
    ///
    /// Returns an error if a stream can't be searched, and if there is no memory for its two buffers; the reader and the writer
    /// are then unchanged. It allocates nothing after that. Where a read or a write fails, nothing is tried again.
    final fn try_stream_replace_all<R: Read, W: Write>(
        &self,
        alloc: Global,
        reader: &mut Watched<R>,
        writer: &mut Watched<W>,
        replacements: &[&[u8]],
    ) -> Result<(), StreamError>
    where
        Self: Search,
        requires open { reader.old.ended ≡ false }
        requires one_each { length replacements.now ≡ length (built self.now).dictionary.patterns }
        ensures replaced { ReplacesStream R.remaining W.contents (built self.now)
            (map (λ r. r.now) replacements.now) reader.old reader.new writer.old writer.new result }
        ensures accepted { AcceptsStream OnlyStandard (built self.now) (supports self.now) result }
    {
        let mut steps = Steps::new();
        self.try_stream_replace_all_counted(alloc, reader, writer, replacements, &mut steps)
    }

    /// The same; counts what it does. In total it looks at two states at most for each byte that it reads, and moves a seventh of
    /// the bytes at most within its buffer; if it reaches the end, it has looked at one state at least for each.
    final fn try_stream_replace_all_counted<R: Read, W: Write>(
        &self,
        alloc: Global,
        reader: &mut Watched<R>,
        writer: &mut Watched<W>,
        replacements: &[&[u8]],
        steps: &mut Steps,
    ) -> Result<(), StreamError>
    where
        Self: Search,
        requires open { reader.old.ended ≡ false }
        requires one_each { length replacements.now ≡ length (built self.now).dictionary.patterns }
        ensures replaced { ReplacesStream R.remaining W.contents (built self.now)
            (map (λ r. r.now) replacements.now) reader.old reader.new writer.old writer.new result }
        ensures accepted { AcceptsStream OnlyStandard (built self.now) (supports self.now) result }
        ensures cost { CostsStream (built self.now) reader.old reader.new steps.old steps.new result }
    {
        let kinds = StreamKinds::OnlyStandard;
        replace_all_counted(self, kinds, alloc, reader, writer, replacements, steps)
    }

    /// Writes the input, and in place of each match what the closure writes. The closure takes the match, its bytes and the
    /// writer, which has taken everything before the match. The closure must accept every pattern number below
    /// [`patterns_len`](Automaton::patterns_len), also after each call.
    ///
    /// It reads, writes and fails as `try_stream_replace_all` does, but gathers nothing, so that it takes only one buffer. The
    /// closure's first error ends the call and is returned unchanged, so an error may be the closure's.
    final fn try_stream_replace_all_with<R: Read, W: Write, F>(
        &self,
        alloc: Global,
        reader: &mut Watched<R>,
        writer: &mut Watched<W>,
        replace_with: F,
    ) -> Result<(), StreamError>
    where
        Self: Search,
        F: FnMut(&Match, &[u8], &mut Watched<W>) -> Result<(), StreamError>,
        requires open { reader.old.ended ≡ false }
        requires ready { IsForMatches F.FnMut (length (built self.now).dictionary.patterns) replace_with }
        ensures { ReplacesStreamWith W.contents F.FnMut R.remaining (built self.now)
            (supports self.now) replace_with reader.old reader.new writer.old writer.new result }
    {
        replace_all_with(self, alloc, reader, writer, replace_with)
    }

    /// The same as `try_stream_replace_all` under any kind: under a leftmost one each match is replaced once it is decided. Before
    /// each read it writes everything, unless the last bytes may still begin or change a match; then it holds back at most as many
    /// bytes as the longest pattern has.
    ///
    /// Returns an error if the automaton has no start for a search that isn't anchored, or has an empty pattern, checked in that
    /// order, and if there is no memory for its two buffers; the reader and the writer are then unchanged. It allocates nothing after that.
    ///
    /// It counts what it does. Under a leftmost kind it looks at more than `try_stream_replace_all_counted` does: after each match at
    /// what it reads again, and at each byte at most once more, read ahead in vain.
    final fn try_stream_replace_all_any_kind_counted<R: Read, W: Write>(
        &self,
        alloc: Global,
        reader: &mut Watched<R>,
        writer: &mut Watched<W>,
        replacements: &[&[u8]],
        steps: &mut Steps,
    ) -> Result<(), StreamError>
    where
        Self: Search,
        requires open { reader.old.ended ≡ false }
        requires one_each { length replacements.now ≡ length (built self.now).dictionary.patterns }
        ensures replaced { ReplacesStream R.remaining W.contents (built self.now)
            (map (λ r. r.now) replacements.now) reader.old reader.new writer.old writer.new result }
        ensures accepted { AcceptsStream AnyKind (built self.now) (supports self.now) result }
        ensures cost { CostsStream (built self.now) reader.old reader.new steps.old steps.new result }
    {
        let kinds = StreamKinds::AnyKind;
        replace_all_counted(self, kinds, alloc, reader, writer, replacements, steps)
    }
}
