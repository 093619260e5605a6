//! Masking whole words: each byte that a whole word covers is replaced by one byte, overlapping ones included.
//!
//! Whether an occurrence is a whole word depends on the bytes beside it, as the text has them. The byte before a word may have been
//! masked with an earlier one. So the walk reads the text in one slice, and masks it in another one of as many bytes. Of the words that
//! end at one place the longest alone is masked: it covers all that the others cover. A state's list has the longest pattern first, so
//! the first whole word in it is that one.
//!
//! A word is known once the byte after it is, or once nothing follows. So a walk over a text that comes in pieces stops before it looks
//! at what ends at the last byte, and goes on there with the next piece. The bytes before may be moved away, except for the last ones:
//! as many as the longest pattern has, and the byte before them.
ghost use Rattle.std.specs.Prelude.{◌≡◌, ◌+◌, ◌-◌, ◌<◌, ◌≤◌, ℕ, List, length};
ghost use Rattle.ac_input.specs.declared.search.Anchored.TheVariants.{No};
ghost use Rattle.ac_input.specs.declared.search.MatchKind.TheVariants.{Standard};
ghost use Rattle.ac_input.specs.Number.{usize_max};
ghost use Rattle.ac_automaton.specs.Masking.{IsMaskedStretch};
ghost use Rattle.ac_automaton.specs.Masking.Words.{CostsWindow, HasMaskedWords, HoldsWords, IsLongestWord, IsMaskPlace, MasksWindow, MayMaskWords, PassesQuietly};
ghost use Rattle.ac_automaton.specs.Words.{IsWindowOf};

use super::{Stretch, mask_between};
use crate::automaton::Automaton;
use crate::words::{Window, is_whole_word};
use ac_input::primitives::StateID;
use ac_input::search::{Anchored, Match, Span};
use ac_input::steps::Steps;

/// Where a walk that masks whole words stands: the bytes before the place lead to the state. Places are counted from the first byte of
/// the text.
#[derive(Clone, Copy)]
pub(crate) struct MaskPlace {
    pub(crate) sid: StateID,
    pub(crate) at: usize,
}

/// Where the longest whole word begins that ends where the walk stands; that place itself, if there is none. The byte at the place is in
/// the window, or the text ends there.
fn longest_word<A: Automaton>(automaton: &A, window: Window<'_>, place: &MaskPlace) -> usize
    requires standard { (A.built automaton.now).dictionary.kind ≡ Standard }
    requires near { HoldsWords (A.built automaton.now) window.from place.now.at }
    requires stands { (x : List ℕ) × IsWindowOf window x × IsMaskPlace (A.Reaches automaton.now No) x place.now }
    ensures { (x : List ℕ) → IsWindowOf window.entry x → IsMaskPlace (A.Reaches automaton.now No) x place.now
        → IsLongestWord (A.built automaton.now).dictionary x place.now.at result }
{
    if !automaton.is_match(place.sid) {
        return place.at;
    }
    for index in 0..automaton.match_len(place.sid) {
        let pattern = automaton.match_pattern(place.sid, index);
        let start = place.at - automaton.pattern_len(pattern);
        let found = Match::new(
            pattern,
            Span {
                start,
                end: place.at,
            },
        );
        if is_whole_word(window, &found) {
            return start;
        }
    }
    place.at
}

/// Masks the longest whole word that ends where the walk stands, but for its bytes that the last stretch has masked.
fn mask_word<A: Automaton>(
    automaton: &A,
    window: Window<'_>,
    place: &MaskPlace,
    masked: &mut [u8],
    last: Stretch,
    mask: u8,
) -> Stretch
    requires standard { (A.built automaton.now).dictionary.kind ≡ Standard }
    requires near { HoldsWords (A.built automaton.now) window.from place.now.at }
    requires last { IsMaskedStretch mask masked.old (place.now.at - window.from) last }
    requires may { MayMaskWords A.Automaton automaton.now mask window place.now masked.old }
    ensures masked { (x : List ℕ) → IsWindowOf window.entry x → HasMaskedWords (A.built automaton.now).dictionary
        (A.Reaches automaton.now No) mask window.entry.from place.now.at x place.now masked.old
        → HasMaskedWords (A.built automaton.now).dictionary
        (A.Reaches automaton.now No) mask window.entry.from (place.now.at + 1) x place.now masked.new }
    ensures last { IsMaskedStretch mask masked.new (place.now.at - window.entry.from) result }
{
    let start = longest_word(automaton, window, place);
    if start == place.at {
        return last;
    }
    mask_between(
        masked,
        last,
        start - window.from,
        place.at - window.from,
        mask,
    )
}

/// Reads on to the next state that matches, or to the end of the window.
fn read_on<A: Automaton>(
    automaton: &A,
    window: Window<'_>,
    place: &mut MaskPlace,
    steps: &mut Steps,
)
    requires standard { (A.built automaton.now).dictionary.kind ≡ Standard }
    requires fits { window.from + length window.bytes.now ≤ usize_max }
    requires held { window.from ≤ place.old.at }
    requires stands { (x : List ℕ) × IsWindowOf window x × (place.old.at < length x)
        × IsMaskPlace (A.Reaches automaton.now No) x place.old }
    ensures further { (place.old.at < place.new.at) × (place.new.at ≤ window.entry.from + length window.entry.bytes.now) }
    ensures reads { (x : List ℕ) → IsWindowOf window.entry x → IsMaskPlace (A.Reaches automaton.now No) x place.old
        → PassesQuietly (A.built automaton.now).dictionary (A.Reaches automaton.now No) x place.old place.new }
    ensures cost { CostsWindow A.Automaton automaton.now window.entry place.old place.new steps.old steps.new }
{
    let left = &window.bytes[place.at - window.from..];
    let stop = automaton.advance_to_match(Anchored::No, place.sid, left, steps);
    place.sid = stop.sid;
    place.at += stop.taken;
}

/// Reads on to the end of the window, and masks each whole word that becomes known: that ends where the walk stood or later, and before
/// the end of the window, or there if nothing follows. `masked` holds the same part of the text as the window, masked so far.
pub(crate) fn mask_words_from<A: Automaton>(
    automaton: &A,
    window: Window<'_>,
    place: &mut MaskPlace,
    masked: &mut [u8],
    mask: u8,
    steps: &mut Steps,
)
    requires standard { (A.built automaton.now).dictionary.kind ≡ Standard }
    requires fits { window.from + length window.bytes.now ≤ usize_max }
    requires near { HoldsWords (A.built automaton.now) window.from place.old.at }
    requires may { MayMaskWords A.Automaton automaton.now mask window place.old masked.old }
    ensures masks { MasksWindow A.Automaton automaton.now mask window.entry place.old masked.old place.new masked.new }
    ensures cost { CostsWindow A.Automaton automaton.now window.entry place.old place.new steps.old steps.new }
{
    let end = window.from + window.bytes.len();
    let begun = place.at - window.from;
    let mut last = Stretch {
        start: begun,
        end: begun,
    };
    while place.at < end || window.closed {
        last = mask_word(automaton, window, place, masked, last, mask);
        if place.at == end {
            return;
        }
        read_on(automaton, window, place, steps);
    }
}
