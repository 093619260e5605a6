//! Searching for whole words: the occurrences with no word byte beside them.
//!
//! A word byte is an ASCII letter, a digit, `_`, or a byte from 0x80 on. An automaton of the standard kind meets every occurrence, in
//! order of their ends. Those that are whole words count, and of these the kind of match takes the best: under the standard kind the
//! first that is met, under a leftmost kind the best so far, once no other may still begin as early. Then the search begins anew at its
//! end, and reads again what it has read past it: no more than the longest pattern and one byte.
//!
//! Whether an occurrence is a whole word isn't known before the byte after it is, or that none follows. So a search of a text that comes
//! in pieces stops before it looks at what ends at the last byte. All words, overlapping ones too, are found in [`listed`].
ghost use Rattle.std.specs.Prelude.{◌≡◌, ℕ, ◌+◌, ◌-◌, ◌<◌, ◌≤◌, max, List, None, Some, length, true, false};
ghost use Rattle.ac_input.specs.declared.search.Anchored.TheVariants.{No};
ghost use Rattle.ac_input.specs.declared.search.MatchKind.TheVariants.{Standard};
ghost use Rattle.ac_input.specs.Best.{IsLeast, preference};
ghost use Rattle.ac_input.specs.Word.{is_whole_word, is_word_at, is_word_byte};
ghost use Rattle.ac_input.specs.Number.{usize_max};
ghost use Rattle.ac_input.specs.Occurrence.{Occurrence};
ghost use Rattle.ac_input.specs.Work.{longest, shortest};
ghost use Rattle.ac_automaton.specs.Automaton.{IsState};
ghost use Rattle.ac_automaton.specs.Words.{BeginsIfIdle, BetterOf, CostsWord, Decided, FindsWord, IsDecidedBy, IsOpen, HasSeen, IsWindowOf, PaysForWords, StandsForWords, WaitsForWord, WordsBefore, anew_after};

pub(crate) mod listed;

use crate::automaton::Automaton;
use ac_input::primitives::StateID;
use ac_input::search::{Anchored, Match, MatchKind, Span};
use ac_input::steps::Steps;
use std::cmp::Ordering;

/// The bytes of a text that are held: where they begin, and whether no more follow.
#[derive(Clone, Copy)]
pub(crate) struct Window<'h> {
    pub(crate) bytes: &'h [u8],
    pub(crate) from: usize,
    pub(crate) closed: bool,
}

/// Where a search for whole words stands. Places are counted from the first byte of the text.
#[derive(Clone, Copy)]
pub(crate) struct WordPlace {
    kind: MatchKind,
    start: StateID,
    sid: StateID,
    /// Where it last began anew.
    last: usize,
    /// Up to where the automaton has read since.
    at: usize,
    /// The best word that ends before that place.
    best: Option<Match>,
}

impl WordPlace {
    /// A search by this kind of match that begins in this state, at the first byte.
    pub(crate) fn new(kind: MatchKind, start: StateID) -> WordPlace
        ensures { result ≡ (record { kind = kind; start = start; sid = start; last = 0; at = 0; best = None }) }
    {
        WordPlace {
            kind,
            start,
            sid: start,
            last: 0,
            at: 0,
            best: None,
        }
    }

    /// One that begins at a later place.
    pub(crate) fn new_at(kind: MatchKind, start: StateID, at: usize) -> WordPlace
        ensures { result ≡ (record { kind = kind; start = start; sid = start; last = at; at = at; best = None }) }
    {
        WordPlace {
            last: at,
            at,
            ..WordPlace::new(kind, start)
        }
    }

    /// Where it last began anew: at the end of the last word, if there was one.
    pub(crate) fn last(&self) -> usize
        ensures { result ≡ self.now.last }
    {
        self.last
    }

    /// Up to where it has read.
    pub(crate) fn at(&self) -> usize
        ensures { result ≡ self.now.at }
    {
        self.at
    }

    /// A word that is still to be found begins at this place or later, where no pattern is longer than this.
    pub(crate) fn cut(&self, longest: usize) -> usize
        ensures { result ≡ max self.now.last (self.now.at - max longest 1) }
    {
        self.last.max(self.at.saturating_sub(longest.max(1)))
    }
}

/// Whether a byte is a word byte.
fn is_word_byte(byte: u8) -> bool
    ensures { result ≡ is_word_byte byte }
{
    byte.is_ascii_alphanumeric() || byte == b'_' || byte >= 0x80
}

/// Whether there is a word byte at a place of some bytes.
fn is_word_at(bytes: &[u8], at: usize) -> bool
    ensures { result ≡ is_word_at bytes.now at }
{
    at < bytes.len() && is_word_byte(bytes[at])
}

/// Whether a match is a whole word of the text that a window shows.
pub(crate) fn is_whole_word(window: Window<'_>, found: &Match) -> bool
    requires before { 0 < found.now.start → window.from < found.now.start }
    requires after { window.from ≤ found.now.end }
    ensures { (x : List ℕ) → IsWindowOf window.entry x → result ≡ is_whole_word x found.now }
{
    let start = found.start();
    if start > 0 && is_word_at(window.bytes, start - 1 - window.from) {
        return false;
    }
    !is_word_at(window.bytes, found.end() - window.from)
}

/// Which of two matches the kind prefers: the lesser.
fn compare(kind: MatchKind, one: &Match, other: &Match) -> Ordering
    ensures { result ≡ preference kind one.now other.now }
{
    let starts = one.start().cmp(&other.start());
    let ends = one.end().cmp(&other.end());
    let patterns = one.pattern().cmp(&other.pattern());
    match kind {
        MatchKind::Standard => ends.then(starts.then(patterns)),
        MatchKind::LeftmostFirst => starts.then(patterns),
        MatchKind::LeftmostLongest => starts.then(ends.reverse().then(patterns)),
    }
}

/// The one that the kind prefers.
fn better(kind: MatchKind, best: Option<Match>, found: Match) -> Match
    ensures { BetterOf kind best found result }
{
    match best {
        Some(best) if compare(kind, &found, &best).is_ge() => best,
        _ => found,
    }
}

/// The best word up to a place: of those before it, and of those that end there, which the state's list has. The byte at the place is in
/// the window, or the text ends there.
fn best_at<A: Automaton>(automaton: &A, window: Window<'_>, place: &WordPlace) -> Option<Match>
    requires standard { (A.built automaton.now).dictionary.kind ≡ Standard }
    requires stands { (x : List ℕ) × IsWindowOf window x
        × StandsForWords (A.built automaton.now).dictionary (A.Reaches automaton.now No) window.from x place.now }
    ensures { (x : List ℕ) → IsWindowOf window.entry x
        → StandsForWords (A.built automaton.now).dictionary (A.Reaches automaton.now No) window.entry.from x place.now
        → IsLeast place.now.kind (WordsBefore (A.built automaton.now).dictionary x place.now.last (place.now.at + 1)) result }
{
    let mut best = place.best;
    if !automaton.is_match(place.sid) {
        return best;
    }
    for index in 0..automaton.match_len(place.sid) {
        let pattern = automaton.match_pattern(place.sid, index);
        let start = place.at - automaton.pattern_len(pattern);
        let found = Match::new(
            pattern,
            Span {
                start,
                end: place.at,
            },
        );
        if is_whole_word(window, &found) {
            best = Some(better(place.kind, best, found));
        }
    }
    best
}

/// Whether no other word can be preferred to the best one any more. All that end before the place of the search were looked at, and if
/// `seen` those that end there. Nothing follows if it is `over`; else it must be clear that none of the others begins or ends as early.
fn is_decided<A: Automaton>(
    automaton: &A,
    place: &WordPlace,
    best: &Match,
    seen: bool,
    over: bool,
) -> bool
    requires { IsState (A.Reaches automaton.now) place.now.sid }
    ensures yes { result ≡ true → IsDecidedBy A.Automaton automaton.now place.now seen over best.now }
    ensures no { result ≡ false → IsOpen A.Automaton automaton.now place.now seen over best.now }
{
    if over || place.kind == MatchKind::Standard {
        return true;
    }
    let longest = automaton.max_pattern_len();
    let passed = place.at.saturating_sub(best.start());
    if longest < passed || seen && longest == passed && best.start() <= place.at {
        return true;
    }
    automaton.is_start(place.sid) && !automaton.is_match(place.sid)
}

/// The best word, if it is decided.
fn decided<A: Automaton>(automaton: &A, place: &WordPlace, seen: bool, over: bool) -> Option<Match>
    requires { IsState (A.Reaches automaton.now) place.now.sid }
    ensures { Decided A.Automaton automaton.now place.now seen over result }
{
    match place.best {
        Some(best) if is_decided(automaton, place, &best, seen, over) => Some(best),
        _ => None,
    }
}

/// Up to where a search reads on: to the end of the window, or no further than its best word needs.
fn limit<A: Automaton>(automaton: &A, window: Window<'_>, place: &WordPlace) -> usize
    requires fits { window.from + length window.bytes.now ≤ usize_max }
    requires more { place.now.at < window.from + length window.bytes.now }
    requires open { (o : Occurrence) → place.now.best ≡ Some o → IsOpen A.Automaton automaton.now place.now true false o }
    ensures order { (place.now.at < result) × (result ≤ window.entry.from + length window.entry.bytes.now) }
    ensures near { (o : Occurrence) → place.now.best ≡ Some o
        → result ≤ o.start + longest (A.built automaton.now).dictionary.patterns + 1 }
{
    let end = window.from + window.bytes.len();
    match place.best {
        Some(best) => {
            let needed = best.start().saturating_add(automaton.max_pattern_len());
            end.min(needed.saturating_add(1))
        }
        None => end,
    }
}

/// Reads on to the next state that matches, but no further than the best word needs, or to the end of the window.
fn read_on<A: Automaton>(
    automaton: &A,
    window: Window<'_>,
    place: &mut WordPlace,
    steps: &mut Steps,
)
    requires standard { (A.built automaton.now).dictionary.kind ≡ Standard }
    requires fits { window.from + length window.bytes.now ≤ usize_max }
    requires stands { (x : List ℕ) × IsWindowOf window x × (place.old.at < length x)
        × HasSeen (A.built automaton.now).dictionary (A.Reaches automaton.now No) window.from x place.old }
    requires open { (o : Occurrence) → place.old.best ≡ Some o → IsOpen A.Automaton automaton.now place.old true false o }
    ensures stands { (x : List ℕ) → IsWindowOf window.entry x
        → HasSeen (A.built automaton.now).dictionary (A.Reaches automaton.now No) window.entry.from x place.old
        → StandsForWords (A.built automaton.now).dictionary (A.Reaches automaton.now No) window.entry.from x place.new }
    ensures further { (place.old.at < place.new.at) × (place.new.at ≤ window.entry.from + length window.entry.bytes.now) }
    ensures same { place.new ≡ record place.old { sid = place.new.sid; at = place.new.at } }
    ensures cost { (x : List ℕ) → IsWindowOf window.entry x
        → HasSeen (A.built automaton.now).dictionary (A.Reaches automaton.now No) window.entry.from x place.old
        → PaysForWords (A.built automaton.now) x place.old.last place.old.at place.new.at steps.old steps.new }
{
    let end = limit(automaton, window, place);
    let left = &window.bytes[place.at - window.from..end - window.from];
    let stop = automaton.advance_to_match(Anchored::No, place.sid, left, steps);
    place.sid = stop.sid;
    place.at += stop.taken;
}

/// The search begins anew at the end of a word.
fn begin_anew(place: &mut WordPlace, found: &Match)
    ensures { place.new ≡ anew_after place.old found.now }
{
    place.sid = place.start;
    place.last = found.end();
    place.at = found.end();
    place.best = None;
}

/// The next word of a text, which is final; the search begins anew at its end. None if more has to be read first, or, where no more
/// follows, if there is no further word.
pub(crate) fn next_word<A: Automaton>(
    automaton: &A,
    window: Window<'_>,
    place: &mut WordPlace,
    steps: &mut Steps,
) -> Option<Match>
    requires standard { (A.built automaton.now).dictionary.kind ≡ Standard }
    requires filled { 1 ≤ shortest (A.built automaton.now).dictionary.patterns }
    requires fits { window.from + length window.bytes.now ≤ usize_max }
    requires stands { (x : List ℕ) × IsWindowOf window x
        × StandsForWords (A.built automaton.now).dictionary (A.Reaches automaton.now No) window.from x place.old }
    ensures finds { (x : List ℕ) → IsWindowOf window.entry x
        → StandsForWords (A.built automaton.now).dictionary (A.Reaches automaton.now No) window.entry.from x place.old
        → FindsWord (A.built automaton.now).dictionary (A.Reaches automaton.now No) window.entry.from window.entry.closed x
        place.old place.new result }
    ensures cost { (x : List ℕ) → IsWindowOf window.entry x
        → StandsForWords (A.built automaton.now).dictionary (A.Reaches automaton.now No) window.entry.from x place.old
        → CostsWord (A.built automaton.now) x place.old place.new result steps.old steps.new }
    ensures waits { WaitsForWord A.Automaton automaton.now window.entry place.old place.new result }
{
    let end = window.from + window.bytes.len();
    while place.at < end || window.closed {
        place.best = best_at(automaton, window, place);
        if let Some(found) = decided(automaton, place, true, place.at == end) {
            begin_anew(place, &found);
            return Some(found);
        }
        if place.at == end {
            return None;
        }
        read_on(automaton, window, place, steps);
    }
    let found = decided(automaton, place, false, false)?;
    begin_anew(place, &found);
    Some(found)
}

/// A search that has no best word begins anew where it stands, if nothing of what was read is live: a word still to be found begins
/// there or later.
pub(crate) fn begin_if_idle<A: Automaton>(automaton: &A, place: &mut WordPlace)
    requires { IsState (A.Reaches automaton.now) place.old.sid }
    ensures { BeginsIfIdle A.Automaton automaton.now place.old place.new }
{
    if place.best.is_none() && automaton.is_start(place.sid) && !automaton.is_match(place.sid) {
        place.sid = place.start;
        place.last = place.at;
    }
}
