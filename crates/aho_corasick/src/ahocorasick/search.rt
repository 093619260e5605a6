//! Searches for one match, and for one after another.
//!
//! Each takes an [`Input`]: a text or bytes by `Input::from`, a part of them by [`Input::span`].
//!
//! The calls with `try_` return an error if the automaton has no start for the input's anchoring, and those for overlapping
//! matches also if its kind isn't the standard one. The others require that neither is so, and then do the same. None of them
//! takes memory.
ghost use Rattle.std.specs.Prelude.{◌≡◌, ◌↔◌, IfOk, IfSome, IsTrue, length, ◌+◌, ◌≤◌};
ghost use Rattle.ac_automaton.specs.Automaton.{Finds, CostsFind, IsFound, searched};
ghost use Rattle.ac_automaton.specs.InMemory.Iter.{AnswersFindIter, AnswersFindIterFrom, IsPlaceIn, left_of};
ghost use Rattle.ac_automaton.specs.InMemory.Overlapping.{ShowsNext, AnswersOverlapping, IsOverlappingCost};
ghost use Rattle.ac_automaton.specs.InMemory.Overlapping.OverlappingIter.{AnswersListing, rest_of};
ghost use Rattle.ac_automaton.specs.InMemory.Items.{AreFewForEach, MatchesAreInOrder, EachLiesWithin, FindsWithin, LiesWithin};
ghost use Rattle.aho_corasick.specs.AhoCorasick.{as_built, kind_of, supported_by, CameFromCalls, HasOccurrence, IsWalkOver, IsRunOver};

use super::{AhoCorasick, FindIter, FindIterAhead, FindOverlappingIter};
use ac_automaton::automaton::Automaton;
use ac_automaton::error::MatchError;
use ac_automaton::iter::WalkPlace;
use ac_automaton::overlapping::OverlappingState;
use ac_input::search::{Anchored, Input, Match, MatchKind};
use ac_input::steps::Steps;

impl AhoCorasick {
    /// Whether some pattern occurs in the input. It serves to filter haystacks: under a leftmost kind it may read less than
    /// [`AhoCorasick::find`], since the first end of a match that it meets will do.
    ///
    /// It requires that the start kind has the input's anchoring; where that isn't known, use [`AhoCorasick::try_find`]. It looks
    /// at two states for each byte that it reads at most, or at one with a DFA.
    ///
    /// ```text
    /// let ac = AhoCorasick::new(alloc, &[b"foo", b"bar", b"quux", b"baz"])?;
    /// ac.is_match(Input::from("xxx bar xxx")) // true
    /// ac.is_match(Input::from("xxx qux xxx")) // false
    /// ```
    pub fn is_match(&self, input: Input<'_>) -> bool
        requires { supported_by self.now input.anchored }
        ensures { IsTrue result ↔ HasOccurrence (searched (as_built self.now) input.entry) }
    {
        self.find(input.earliest(true)).is_some()
    }

    /// The match of the input, if it has one: the best of the automaton's kind, or of the standard one in an earliest search.
    ///
    /// It requires that the start kind has the input's anchoring; where that isn't known, use [`AhoCorasick::try_find`]. It looks
    /// at two states for each byte of the span at most, or at one with a DFA. Under the standard kind it reads no further than
    /// the match ends.
    ///
    /// ```text
    /// let found = ac.find(Input::from("foo abcd")); // an Option<Match>
    /// ```
    ///
    /// The match of a text begins and ends between characters if each pattern is UTF-8, none is empty, and no bytes are paired but
    /// ASCII letters in their two cases: the laws of `ac_input::utf8_laws`.
    pub fn find(&self, input: Input<'_>) -> Option<Match>
        requires { supported_by self.now input.anchored }
        ensures found { IsFound (as_built self.now) input.entry result }
        ensures within { IfSome result (LiesWithin (as_built self.now).dictionary input.entry) }
    {
        self.try_find(input).unwrap()
    }

    /// Shows the next occurrence of the input: see [`AhoCorasick::try_find_overlapping`].
    ///
    /// It requires that the start kind has the input's anchoring, and that the kind is the standard one. The state is fresh, or
    /// came only from calls with this automaton and this input. [`AhoCorasick::find_overlapping_iter`] keeps the state itself.
    ///
    /// ```text
    /// let mut state = OverlappingState::start();
    /// ac.find_overlapping(Input::from(text), &mut state);
    /// ac.find_overlapping(Input::from(text), &mut state);
    /// state.get_match() // the second occurrence
    /// ```
    pub fn find_overlapping(&self, input: Input<'_>, state: &mut OverlappingState)
        requires can { supported_by self.now input.anchored }
        requires standard { kind_of self.now ≡ MatchKind.Standard }
        requires came { CameFromCalls self.now input state.old }
        ensures came { CameFromCalls self.now input.entry state.new }
        ensures shows { ShowsNext (as_built self.now) input.entry state.old state.new }
        ensures cost { IsOverlappingCost (as_built self.now) input.entry state.new.sums }
    {
        self.try_find_overlapping(input, state).unwrap()
    }

    /// All matches of the input, one after another, none of which overlap: see [`FindIter`].
    ///
    /// It requires that the start kind has the input's anchoring; where that isn't known, use [`AhoCorasick::try_find_iter`].
    /// Under the standard kind all matches together cost two looks at states for each byte of the span, or one with a DFA; under
    /// a leftmost kind bytes after a match are read again.
    ///
    /// ```text
    /// for found in ac.find_iter(Input::from("append the app to the appendage")) {
    ///     found.pattern().as_usize() // and found.range()
    /// }
    /// ```
    ///
    /// Where the patterns are texts, no match of a text cuts a character: see [`AhoCorasick::find`].
    pub fn find_iter<'a, 'h>(&'a self, input: Input<'h>) -> FindIter<'a, 'h>
        requires { supported_by self.now input.anchored }
        ensures over { IsWalkOver (as_built self.now) input.entry result }
        ensures few { length (left_of result) ≤ length input.entry.haystack + 1 }
        ensures lie { MatchesAreInOrder (as_built self.now) input.entry result }
    {
        self.try_find_iter(input).unwrap()
    }

    /// The matches of [`AhoCorasick::find_iter`], for many of them in a long text, with hundreds of patterns and more: see
    /// [`FindIterAhead`].
    ///
    /// A call may look at up to 8 KiB past the match that it returns, over several parts of the text side by side, and counts
    /// each look when it makes it. Under the standard kind no byte is looked at again for that, so all matches together cost no more
    /// looks than those of `find_iter` may; under a leftmost kind what was read ahead may be lost where a longer match is taken, and
    /// is then read again, each byte at most once. The iterator takes some 3 KiB and no other memory. Where reading ahead can't pay it does as `find_iter`:
    /// with a prefilter, unless that is packed search for more than 64 patterns; with an empty pattern; for an anchored input; for an
    /// earliest search under a leftmost kind; and for an input of less than 1 KiB.
    pub fn find_iter_ahead<'a, 'h>(&'a self, input: Input<'h>) -> FindIterAhead<'a, 'h>
        requires { supported_by self.now input.anchored }
        ensures over { IsWalkOver (as_built self.now) input.entry result }
        ensures few { length (left_of result) ≤ length input.entry.haystack + 1 }
        ensures lie { MatchesAreInOrder (as_built self.now) input.entry result }
    {
        self.try_find_iter_ahead(input).unwrap()
    }

    /// All occurrences in the input, one after another: see [`FindOverlappingIter`].
    ///
    /// It requires that the input isn't anchored, that the start kind has unanchored searches, and that the kind is the standard
    /// one. However many occurrences there are, it looks at two states for each byte of the span at most, or at one with a DFA.
    ///
    /// A call may look at up to 8 KiB past the match that it returns, where there is no prefilter and 1 KiB or more is left to be
    /// searched. It counts each look when it makes it, and no byte is looked at again for that. The iterator takes some 3 KiB and
    /// no other memory. [`AhoCorasick::try_find_overlapping`] never reads ahead.
    ///
    /// ```text
    /// ac.find_overlapping_iter(Input::from(text))
    ///     .map(|found| found.pattern())
    ///     .collect(alloc)
    /// ```
    pub fn find_overlapping_iter<'a, 'h>(&'a self, input: Input<'h>) -> FindOverlappingIter<'a, 'h>
        requires can { supported_by self.now Anchored.No }
        requires standard { kind_of self.now ≡ MatchKind.Standard }
        requires anywhere { input.anchored ≡ Anchored.No }
        ensures over { IsRunOver (as_built self.now) input.entry result }
        ensures few { AreFewForEach (as_built self.now) input.entry result }
        ensures lie { EachLiesWithin rest_of (as_built self.now) input.entry result }
    {
        self.try_find_overlapping_iter(input).unwrap()
    }

    /// The match of the input, if it has one: see [`AhoCorasick::find`].
    ///
    /// Returns `InvalidInputAnchored` or `InvalidInputUnanchored` if the start kind doesn't have the input's anchoring.
    ///
    /// ```text
    /// let input = Input::from(text)
    ///     .range(place..text.len())
    ///     .anchored(Anchored::Yes);
    /// ac.try_find(input)
    /// ```
    pub fn try_find(&self, input: Input<'_>) -> Result<Option<Match>, MatchError>
        ensures answer { Finds (as_built self.now).dictionary (supported_by self.now) input.entry result }
        ensures within { FindsWithin (as_built self.now).dictionary input.entry result }
    {
        Automaton::try_find(self, &input)
    }

    /// The same, and counts what it does.
    ///
    /// ```text
    /// let found = ac.try_find_counted(Input::from(text).earliest(true), steps)?;
    /// Ok(found.map(|found| found.end()))
    /// ```
    pub fn try_find_counted(
        &self,
        input: Input<'_>,
        steps: &mut Steps,
    ) -> Result<Option<Match>, MatchError>
        ensures answer { Finds (as_built self.now).dictionary (supported_by self.now) input.entry result }
        ensures within { FindsWithin (as_built self.now).dictionary input.entry result }
        ensures cost { CostsFind (as_built self.now) input.entry steps.old steps.new result }
    {
        Automaton::try_find_counted(self, &input, steps)
    }

    /// Finds the next occurrence of the input, in the order of end, start and number, and stores it in the state; each comes once,
    /// and after the last one the state holds none. The state is fresh before the first call, and belongs to this automaton and
    /// this input from then on.
    ///
    /// Returns `InvalidInputAnchored` or `InvalidInputUnanchored` if the start kind doesn't have the input's anchoring, and then
    /// `UnsupportedOverlapping` if the kind isn't the standard one. The state is unchanged then.
    ///
    /// All calls together look at two states for each byte of the span at most, or at one with a DFA.
    ///
    /// ```text
    /// let mut state = OverlappingState::start();
    /// ac.try_find_overlapping(Input::from("append the app to the appendage"), &mut state)?;
    /// let first = state.get_match();
    /// ```
    pub fn try_find_overlapping(
        &self,
        input: Input<'_>,
        state: &mut OverlappingState,
    ) -> Result<(), MatchError>
        requires { CameFromCalls self.now input state.old }
        ensures came { CameFromCalls self.now input.entry state.new }
        ensures answer { AnswersOverlapping (as_built self.now) (supported_by self.now) input.entry
            state.old state.new result }
        ensures cost { IsOverlappingCost (as_built self.now) input.entry state.new.sums }
    {
        Automaton::try_find_overlapping(self, &input, state)
    }

    /// All matches of the input, one after another: see [`AhoCorasick::find_iter`].
    ///
    /// Returns `InvalidInputAnchored` or `InvalidInputUnanchored` if the start kind doesn't have the input's anchoring.
    ///
    /// ```text
    /// let input = Input::from(text).anchored(Anchored::Yes);
    /// let found = ac.try_find_iter(input)?.collect(alloc)?;
    /// ```
    pub fn try_find_iter<'a, 'h>(&'a self, input: Input<'h>) -> Result<FindIter<'a, 'h>, MatchError>
        ensures answer { AnswersFindIter (as_built self.now) (supported_by self.now) input.entry
            result }
        ensures few { IfOk result (λ w. length (left_of w) ≤ length input.entry.haystack + 1) }
        ensures lie { IfOk result (MatchesAreInOrder (as_built self.now) input.entry) }
    {
        Automaton::try_find_iter(self, input)
    }

    /// The matches of the input from a place on at which a walk over it stands, as [`FindIter::place`] returned it: for a caller who
    /// keeps the place and no iterator. The input's own start says nothing.
    ///
    /// Returns `InvalidInputAnchored` or `InvalidInputUnanchored` if the start kind doesn't have the input's anchoring.
    pub fn try_find_iter_from<'a, 'h>(
        &'a self,
        input: Input<'h>,
        place: WalkPlace,
    ) -> Result<FindIter<'a, 'h>, MatchError>
        requires { IsPlaceIn input place }
        ensures { AnswersFindIterFrom (as_built self.now) (supported_by self.now) input.entry place
            result }
    {
        Automaton::try_find_iter_from(self, input, place)
    }

    /// The same matches, read ahead: see [`AhoCorasick::find_iter_ahead`].
    pub fn try_find_iter_ahead_from<'a, 'h>(
        &'a self,
        input: Input<'h>,
        place: WalkPlace,
    ) -> Result<FindIterAhead<'a, 'h>, MatchError>
        requires { IsPlaceIn input place }
        ensures { AnswersFindIterFrom (as_built self.now) (supported_by self.now) input.entry place
            result }
    {
        Automaton::try_find_iter_ahead_from(self, input, place)
    }

    /// All matches of the input, one after another: see [`AhoCorasick::find_iter_ahead`].
    ///
    /// Returns `InvalidInputAnchored` or `InvalidInputUnanchored` if the start kind doesn't have the input's anchoring.
    pub fn try_find_iter_ahead<'a, 'h>(
        &'a self,
        input: Input<'h>,
    ) -> Result<FindIterAhead<'a, 'h>, MatchError>
        ensures answer { AnswersFindIter (as_built self.now) (supported_by self.now) input.entry
            result }
        ensures few { IfOk result (λ w. length (left_of w) ≤ length input.entry.haystack + 1) }
        ensures lie { IfOk result (MatchesAreInOrder (as_built self.now) input.entry) }
    {
        Automaton::try_find_iter_ahead(self, input)
    }

    /// All occurrences in the input, one after another: see [`AhoCorasick::find_overlapping_iter`].
    ///
    /// Returns an error as [`AhoCorasick::try_find_overlapping`] does, and then `InvalidInputAnchored` if the input is anchored.
    ///
    /// ```text
    /// let mut count: u64 = 0;
    /// for _ in ac.try_find_overlapping_iter(Input::from(text))? {
    ///     count = count.saturating_add(1);
    /// }
    /// ```
    pub fn try_find_overlapping_iter<'a, 'h>(
        &'a self,
        input: Input<'h>,
    ) -> Result<FindOverlappingIter<'a, 'h>, MatchError>
        ensures answer { AnswersListing (as_built self.now) (supported_by self.now)
            input.entry result }
        ensures few { IfOk result (AreFewForEach (as_built self.now) input.entry) }
        ensures lie { IfOk result (EachLiesWithin rest_of (as_built self.now) input.entry) }
    {
        Automaton::try_find_overlapping_iter(self, input)
    }
}
