//! Searches by every place and every pattern.
//!
//! A [`Naive`] says what is searched for, and where. The best occurrence is found by going through the places of the span in
//! the order in which the kind prefers them: by ends for the standard kind, by starts for the leftmost ones. At each place one
//! pass over the patterns finds the preferred one there, and the first place that has one has the best of all. A comparison
//! stops at the first byte that differs. Where only whole words count ([`Naive::whole_words`]), the bytes beside an occurrence
//! are tested first.
//!
//! So a search costs the bytes that it passes times the total length of the patterns at most, and so does a whole walk, each
//! pick of which goes on where the one before it ended. The listing passes over the patterns again at each place where an
//! occurrence ends, once for each start that one has, and so costs the length of the longest pattern times that at most. Only
//! the calls that collect all picks or all occurrences, or mask the text, take memory. Masking searches, for each byte, from each
//! place up to it.
ghost use Rattle.std.specs.Prelude.{◌≡◌, ◌≢◌, ◌↔◌, ◌+◌, ◌≤◌, false, None, map, length, option_map, slice_get, IsTrue, IfOk};
ghost use Rattle.ac_input.specs.Same.{same_text};
ghost use Rattle.ac_input.specs.Occurrence.{Occurs};
ghost use Rattle.ac_input.specs.Best.{preference, IsLeast, asked_kind, IsAfter};
ghost use Rattle.ac_input.specs.declared.search.MatchKind.TheVariants.{Standard};
ghost use Rattle.ac_input.specs.Walk.{Repeats};
ghost use Rattle.ac_input.specs.Listing.{ListsAll};
ghost use Rattle.ac_input.specs.Mask.{IsCoveredAmong};
ghost use Rattle.ac_input.specs.Word.{is_word_byte, is_word_at, is_word_before, is_whole_word, OccursAsked};
ghost use Rattle.test_plain.specs.Naive.{search_for, plain_starting_at, PlainOccurs, PlainStartsAt, IsPlainPick, IsPlainWalk, plain_walk, plain_masked, IsOnly, EndsAfter, ReachesAfter, LiesAlike, preferred};

pub mod picks;

use ac_input::pairing::Pairing;
use ac_input::search::{Anchored, MatchKind, Span};
pub use picks::Picks;
use std::alloc::{AllocError, Global};
use std::cmp::Ordering;
use std::marker::Model;

/// An occurrence: which pattern lies where.
///
/// A pattern is named by its number, counted from 0 in the order in which the patterns were given. There is no table here, so
/// any number will do. `start` is the place of the first byte, and `end` the place after the last one, both counted from the
/// haystack's start.
#[derive(Clone, Copy, Debug, PartialEq, Eq)]
pub struct Found {
    pub pattern: usize,
    pub start: usize,
    pub end: usize,
}

impl Model for Found {
    ghost use Rattle.ac_input.specs.Occurrence.{Occurrence};

    ghost Value = { Occurrence };

    ghost view = { λ f. record { pattern = f.pattern; start = f.start; end = f.end } };

    ghost inverse = { λ o. record { pattern = o.pattern; start = o.start; end = o.end } };
}

/// What is searched for, and where: the plain counterpart of an automaton and of the input that it is given.
///
/// It holds references and the 256 bytes of the pairing, and takes no memory to make.
#[derive(Drop)]
pub struct Naive<'a> {
    patterns: &'a [&'a [u8]],
    pairing: Pairing,
    haystack: &'a [u8],
    span: Span,
    anchored: Anchored,
    whole_words: bool,
}

impl<'a> Model for Naive<'a> {
    ghost use Rattle.std.specs.Prelude.{◌+◌, ◌≤◌, map, length};
    ghost use Rattle.test_plain.specs.Naive.{Plain, search_for};

    ghost Value = { Plain };

    ghost view = { λ p. record {
      search = search_for (map (λ q. q.now) p.patterns.now) p.pairing p.haystack.now p.span p.anchored;
      words = p.whole_words;
    } };

    ghost invariant = { λ p.
        (p.span.start ≤ p.span.end + 1) × (p.span.end ≤ length p.haystack.now) };
}

/// Whether two texts are as long as each other and the same byte by byte, up to the pairing.
fn is_same(pairing: &Pairing, pattern: &[u8], text: &[u8]) -> bool
    ensures { result ≡ same_text pairing.now pattern.now text.now }
{
    if pattern.len() != text.len() {
        return false;
    }
    for i in 0..pattern.len() {
        if pattern[i] != text[i] && pairing.other(pattern[i]) != text[i] {
            return false;
        }
    }
    true
}

/// Whether the byte is a letter, a digit, `_` or no ASCII.
fn is_word_byte(byte: u8) -> bool
    ensures { result ≡ is_word_byte byte }
{
    byte.is_ascii_alphanumeric() || byte == b'_' || byte >= 0x80
}

/// Whether the text has a word byte at the place.
fn is_word_at(text: &[u8], at: usize) -> bool
    ensures { result ≡ is_word_at text.now at }
{
    at < text.len() && is_word_byte(text[at])
}

/// Whether the text has a word byte just before the place.
fn is_word_before(text: &[u8], place: usize) -> bool
    ensures { result ≡ is_word_before text.now place }
{
    place > 0 && is_word_at(text, place - 1)
}

/// Whether no word byte of the text lies beside the occurrence.
fn is_whole_word(text: &[u8], found: Found) -> bool
    ensures { result ≡ is_whole_word text.now found }
{
    !is_word_before(text, found.start) && !is_word_at(text, found.end)
}

/// Which of two occurrences the kind prefers: the lesser.
fn compare(kind: MatchKind, a: Found, b: Found) -> Ordering
    ensures { result ≡ preference kind a b }
{
    let starts = a.start.cmp(&b.start);
    let ends = a.end.cmp(&b.end);
    let patterns = a.pattern.cmp(&b.pattern);
    match kind {
        MatchKind::Standard => ends.then(starts.then(patterns)),
        MatchKind::LeftmostFirst => starts.then(patterns),
        MatchKind::LeftmostLongest => starts.then(ends.reverse().then(patterns)),
    }
}

/// The one that the kind prefers of two that may be absent.
fn better(kind: MatchKind, best: Option<Found>, candidate: Option<Found>) -> Option<Found>
    ensures { result ≡ preferred kind best candidate }
{
    match (best, candidate) {
        (None, _) => candidate,
        (_, None) => best,
        (Some(b), Some(c)) => {
            if compare(kind, c, b).is_lt() {
                candidate
            } else {
                best
            }
        }
    }
}

/// Whether the occurrence comes after the given one by end, start and number; each does after none.
fn is_after(before: &Option<Found>, found: Found) -> bool
    ensures { IsTrue result ↔ IsAfter before.now found }
{
    match before {
        None => true,
        Some(before) => compare(MatchKind::Standard, *before, found).is_lt(),
    }
}

/// Whether the occurrence is empty and lies where the last pick ended.
fn repeats(last: Option<usize>, found: &Option<Found>) -> bool
    ensures { IsTrue result ↔ Repeats last found.now }
{
    match (last, found) {
        (Some(last), Some(found)) => found.start == last && found.end == last,
        _ => false,
    }
}

impl<'a> Naive<'a> {
    /// A search of the haystack within the span, for whatever is the same as a pattern up to the pairing.
    ///
    /// The span lies within the haystack. Its start may be one past its end, as it is for what is left of a walk after an
    /// empty match at the end; nothing is found then.
    pub fn new(
        patterns: &'a [&'a [u8]],
        pairing: Pairing,
        haystack: &'a [u8],
        span: Span,
        anchored: Anchored,
    ) -> Naive<'a>
        requires ordered { span.start ≤ span.end + 1 }
        requires within { span.end ≤ length haystack.now }
        ensures search { result.search
            ≡ search_for (map (λ q. q.now) patterns.now) pairing haystack.now span anchored }
        ensures all { result.words ≡ false }
    {
        Naive {
            patterns,
            pairing,
            haystack,
            span,
            anchored,
            whole_words: false,
        }
    }

    /// The same search, in which only whole words count if asked: occurrences with no word byte beside them.
    pub fn whole_words(self, whole_words: bool) -> Naive<'a>
        ensures { result ≡ record self.entry { words = whole_words } }
    {
        Naive {
            whole_words,
            ..self
        }
    }

    /// The same search from another place on.
    fn starting_at(&self, at: usize) -> Naive<'a>
        requires { at ≤ self.now.search.end + 1 }
        ensures { result ≡ plain_starting_at self.now at }
    {
        Naive {
            patterns: self.patterns,
            pairing: self.pairing,
            haystack: self.haystack,
            span: Span {
                start: at,
                end: self.span.end,
            },
            anchored: self.anchored,
            whole_words: self.whole_words,
        }
    }

    /// The pattern of this number, if there is one.
    fn pattern(&self, number: usize) -> Option<&'a [u8]>
        ensures { option_map (λ p. p.now) result ≡ slice_get self.now.search.patterns number }
    {
        if number < self.patterns.len() {
            Some(self.patterns[number])
        } else {
            None
        }
    }

    /// Whether the pattern lies there.
    fn lies(&self, found: Found) -> bool
        ensures { IsTrue result ↔ Occurs self.now.search found }
    {
        let Some(pattern) = self.pattern(found.pattern) else {
            return false;
        };
        if found.start < self.span.start || found.end < found.start || self.span.end < found.end {
            return false;
        }
        if self.anchored.is_anchored() && found.start != self.span.start {
            return false;
        }
        is_same(
            &self.pairing,
            pattern,
            &self.haystack[found.start..found.end],
        )
    }

    /// Whether the pattern lies there, and that counts.
    fn occurs(&self, found: Found) -> bool
        ensures { IsTrue result ↔ PlainOccurs self.now found }
    {
        let counts = !self.whole_words || is_whole_word(self.haystack, found);
        counts && self.lies(found)
    }

    /// The pattern of this number, where it starts at the place.
    fn pattern_starting_at(&self, number: usize, at: usize) -> Option<Found>
        ensures { IsOnly (λ o. PlainStartsAt self.now at o × (o.pattern ≡ number)) result }
    {
        let pattern = self.pattern(number)?;
        let end = self.span.end;
        if end < at || end - at < pattern.len() {
            return None;
        }
        let found = Found {
            pattern: number,
            start: at,
            end: at + pattern.len(),
        };
        if self.occurs(found) {
            Some(found)
        } else {
            None
        }
    }

    /// The pattern of this number, where it ends at the place.
    fn pattern_ending_at(&self, number: usize, end: usize) -> Option<Found>
        ensures { IsOnly (λ o. (PlainOccurs self.now o × (o.end ≡ end)) × (o.pattern ≡ number)) result }
    {
        let pattern = self.pattern(number)?;
        if self.span.end < end || end < pattern.len() {
            return None;
        }
        let found = Found {
            pattern: number,
            start: end - pattern.len(),
            end,
        };
        if self.occurs(found) {
            Some(found)
        } else {
            None
        }
    }

    /// How many patterns there are.
    fn patterns_len(&self) -> usize
        ensures { result ≡ length self.now.search.patterns }
    {
        self.patterns.len()
    }

    /// The preferred one of those that start at the place.
    fn best_starting_at(&self, kind: MatchKind, at: usize) -> Option<Found>
        ensures { IsLeast kind (PlainStartsAt self.now at) result }
    {
        let mut best = None;
        for number in 0..self.patterns_len() {
            best = better(kind, best, self.pattern_starting_at(number, at));
        }
        best
    }

    /// The pattern of this number, where it ends at the place and comes after the given one.
    fn later_ending_at(&self, number: usize, end: usize, before: &Option<Found>) -> Option<Found>
        ensures { IsOnly (λ o. EndsAfter self.now end before.now o × (o.pattern ≡ number)) result }
    {
        let found = self.pattern_ending_at(number, end)?;
        if is_after(before, found) {
            Some(found)
        } else {
            None
        }
    }

    /// The first one of those that end at the place and come after the given one.
    fn first_ending_at(&self, end: usize, before: &Option<Found>) -> Option<Found>
        ensures { IsLeast MatchKind.Standard (EndsAfter self.now end before.now) result }
    {
        let mut first = None;
        for number in 0..self.patterns_len() {
            first = better(
                MatchKind::Standard,
                first,
                self.later_ending_at(number, end, before),
            );
        }
        first
    }

    /// The preferred one of all, where the kind goes by starts.
    fn best_by_start(&self, kind: MatchKind) -> Option<Found>
        requires { kind ≢ MatchKind.Standard }
        ensures { IsLeast kind (PlainOccurs self.now) result }
    {
        let Span { start, end } = self.span;
        for at in start..end + 1 {
            let best = self.best_starting_at(kind, at);
            if best.is_some() {
                return best;
            }
        }
        None
    }

    /// The first one of those that come after the given one and end at the place or later.
    fn first_by_end(&self, from: usize, before: &Option<Found>) -> Option<Found>
        ensures { IsLeast MatchKind.Standard (ReachesAfter self.now from before.now) result }
    {
        for end in from..self.span.end + 1 {
            let first = self.first_ending_at(end, before);
            if first.is_some() {
                return first;
            }
        }
        None
    }

    /// The first one of a later pattern that lies where the given one does.
    fn next_alike(&self, before: Found) -> Option<Found>
        ensures { IsLeast MatchKind.Standard (LiesAlike self.now before) result }
    {
        for number in before.pattern.saturating_add(1)..self.patterns_len() {
            let found = Found {
                pattern: number,
                start: before.start,
                end: before.end,
            };
            if self.occurs(found) {
                return Some(found);
            }
        }
        None
    }

    /// The best occurrence of the span, or none where it has none.
    ///
    /// An earliest search takes the standard one, whatever the kind: the occurrence at which an automaton could stop first.
    pub fn best(&self, kind: MatchKind, earliest: bool) -> Option<Found>
        ensures { IsLeast (asked_kind kind earliest) (PlainOccurs self.now) result }
    {
        let kind = kind.asked(earliest);
        let start = self.span.start;
        if self.anchored.is_anchored() {
            return self.best_starting_at(kind, start);
        }
        match kind {
            MatchKind::Standard => self.first_by_end(start, &None),
            MatchKind::LeftmostFirst | MatchKind::LeftmostLongest => self.best_by_start(kind),
        }
    }

    /// The next pick of a walk that stands at the place, where `last` is the end of the pick before it, if there was one.
    ///
    /// An anchored walk takes what starts at the place alone.
    pub fn next_pick(
        &self,
        kind: MatchKind,
        earliest: bool,
        at: usize,
        last: Option<usize>,
    ) -> Option<Found>
        requires { at ≤ self.now.search.end + 1 }
        ensures { IsPlainPick self.now (asked_kind kind earliest) at last result }
    {
        let found = self.starting_at(at).best(kind, earliest);
        if repeats(last, &found) {
            self.starting_at(at + 1).best(kind, earliest)
        } else {
            found
        }
    }

    /// The occurrence after the given one, by end, start and number; the first of all where none is given.
    ///
    /// The given one need not be an occurrence. The later patterns at its own place are tried first, so that many equal
    /// patterns take one pass together and not one each.
    pub fn next_occurrence(&self, before: Option<Found>) -> Option<Found>
        ensures { IsLeast Standard (λ o. PlainOccurs self.now o × IsAfter before o) result }
    {
        let Some(found) = before else {
            return self.first_by_end(self.span.start, &before);
        };
        let alike = self.next_alike(found);
        if alike.is_some() {
            return alike;
        }
        self.first_by_end(found.end, &before)
    }

    /// The picks of a walk over the whole span, each computed on request.
    pub fn picks(self, kind: MatchKind, earliest: bool) -> Picks<'a>
        ensures { result
            ≡ plain_walk self.entry (asked_kind kind earliest) self.entry.search.start None }
    {
        let at = self.span.start;
        Picks {
            search: self,
            kind: kind.asked(earliest),
            at,
            last: None,
        }
    }

    /// The picks of a walk over the whole span, one after another, in memory.
    pub fn walk(
        &self,
        alloc: Global,
        kind: MatchKind,
        earliest: bool,
    ) -> Result<Vec<Found>, AllocError>
        ensures { IfOk result (λ v. IsPlainWalk self.now (asked_kind kind earliest) v.items) }
    {
        let mut picks = Vec::new(alloc);
        let mut at = self.span.start;
        let mut last = None;
        while let Some(found) = self.next_pick(kind, earliest, at, last) {
            picks.push(found)?;
            at = found.end;
            last = Some(found.end);
        }
        Ok(picks)
    }

    /// Whether some occurrence covers the place: the longest that starts there or before ends after it.
    fn is_covered(&self, at: usize) -> bool
        ensures { IsTrue result ↔ IsCoveredAmong (OccursAsked self.now.words) self.now.search at }
    {
        if self.span.end <= at {
            return false;
        }
        for start in self.span.start..at + 1 {
            if let Some(found) = self.best_starting_at(MatchKind::LeftmostLongest, start) {
                if at < found.end {
                    return true;
                }
            }
        }
        false
    }

    /// The haystack with the mask in place of each byte that an occurrence covers, also where several overlap.
    pub fn masked(&self, alloc: Global, mask: u8) -> Result<Vec<u8>, AllocError>
        ensures { IfOk result (λ v. v.items ≡ plain_masked mask self.now) }
    {
        let mut text = Vec::new(alloc);
        for at in 0..self.haystack.len() {
            let byte = if self.is_covered(at) {
                mask
            } else {
                self.haystack[at]
            };
            text.push(byte)?;
        }
        Ok(text)
    }

    /// All occurrences of the span by end, start and number, also those that overlap, in memory.
    pub fn listing(&self, alloc: Global) -> Result<Vec<Found>, AllocError>
        ensures { IfOk result (λ v. ListsAll (PlainOccurs self.now) v.items) }
    {
        let mut found = Vec::new(alloc);
        let mut before = None;
        while let Some(next) = self.next_occurrence(before) {
            found.push(next)?;
            before = Some(next);
        }
        Ok(found)
    }
}
