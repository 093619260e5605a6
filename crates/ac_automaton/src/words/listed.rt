//! The listing of the whole words: all of them, overlapping ones too, by end, start and number.
//!
//! Under the standard kind the list of a state has every pattern in which the bytes read end. So one walk over the text meets each
//! occurrence once, in the order of the listing, and returns those with no word byte beside them. The walk never begins anew, and of
//! what it has passed it needs only the byte before each word that it may still meet.
//!
//! It looks at what ends at the last byte held only when it knows the byte after it, or that none follows.
ghost use Rattle.std.specs.Prelude.{◌≡◌, ◌+◌, ◌-◌, ◌<◌, ◌≤◌, length};
ghost use Rattle.ac_input.specs.declared.search.MatchKind.TheVariants.{Standard};
ghost use Rattle.ac_input.specs.Number.{usize_max};
ghost use Rattle.ac_automaton.specs.ListedWords.{GoesOnListed, IsByteKnown, ListsNextWord, MayListWords, PaysForListed, ReadsOnForListed, TellsNextWord};

use super::{Window, is_whole_word};
use crate::automaton::Automaton;
use ac_input::primitives::StateID;
use ac_input::search::{Anchored, Match, Span};
use ac_input::steps::Steps;

/// Where a search for all whole words stands.
#[derive(Clone, Copy)]
pub(crate) struct ListedPlace {
    sid: StateID,
    /// Up to where it has read, counted from the first byte of the text.
    at: usize,
    /// How many of the state's list it has looked at.
    index: usize,
}

impl ListedPlace {
    /// A search that begins in this state, at the first byte.
    pub(crate) fn new(start: StateID) -> ListedPlace
        ensures { result ≡ (record { sid = start; at = 0; index = 0 }) }
    {
        ListedPlace {
            sid: start,
            at: 0,
            index: 0,
        }
    }

    /// Up to where it has read.
    pub(crate) fn at(&self) -> usize
        ensures { result ≡ self.now.at }
    {
        self.at
    }

    /// The byte before each word that may still be found is here or later, where no pattern is longer than this.
    pub(crate) fn needed(&self, longest: usize) -> usize
        ensures { result ≡ self.now.at - longest - 1 }
    {
        self.at.saturating_sub(longest).saturating_sub(1)
    }
}

/// The next whole word of the list of the state where a search stands.
fn next_told<A: Automaton>(
    automaton: &A,
    window: Window<'_>,
    place: &mut ListedPlace,
) -> Option<Match>
    requires standard { (A.built automaton.now).dictionary.kind ≡ Standard }
    requires known { IsByteKnown window place.old }
    requires stands { MayListWords A.Automaton automaton.now window place.old }
    ensures tells { TellsNextWord A.Automaton automaton.now window.entry place.old place.new result }
    ensures same { place.new ≡ record place.old { index = place.new.index } }
{
    let len = if automaton.is_match(place.sid) {
        automaton.match_len(place.sid)
    } else {
        0
    };
    while place.index < len {
        let pattern = automaton.match_pattern(place.sid, place.index);
        let start = place.at - automaton.pattern_len(pattern);
        let found = Match::new(
            pattern,
            Span {
                start,
                end: place.at,
            },
        );
        place.index += 1;
        if is_whole_word(window, &found) {
            return Some(found);
        }
    }
    None
}

/// Reads on to the next state that matches, or to the end of the window. All of the list of the state before was looked at.
fn read_on<A: Automaton>(
    automaton: &A,
    window: Window<'_>,
    place: &mut ListedPlace,
    steps: &mut Steps,
)
    requires standard { (A.built automaton.now).dictionary.kind ≡ Standard }
    requires fits { window.from + length window.bytes.now ≤ usize_max }
    requires told { length (A.matches automaton.now place.old.sid) ≤ place.old.index }
    requires more { place.old.at < window.from + length window.bytes.now }
    requires stands { MayListWords A.Automaton automaton.now window place.old }
    ensures stands { ReadsOnForListed A.Automaton automaton.now window.entry place.old place.new }
    ensures further { (place.old.at < place.new.at) × (place.new.at ≤ window.entry.from + length window.entry.bytes.now) }
    ensures cost { PaysForListed A.Automaton automaton.now window.entry place.old place.new steps.old steps.new }
{
    let left = &window.bytes[place.at - window.from..];
    let stop = automaton.advance_to_match(Anchored::No, place.sid, left, steps);
    place.sid = stop.sid;
    place.at += stop.taken;
    place.index = 0;
}

/// The next whole word of a text in the order of the listing, after those that were returned before. None if all that is held was
/// read and no other word is certain yet; or, where no more follows, if there is none.
pub(crate) fn next_listed_word<A: Automaton>(
    automaton: &A,
    window: Window<'_>,
    place: &mut ListedPlace,
    steps: &mut Steps,
) -> Option<Match>
    requires standard { (A.built automaton.now).dictionary.kind ≡ Standard }
    requires fits { window.from + length window.bytes.now ≤ usize_max }
    requires stands { MayListWords A.Automaton automaton.now window place.old }
    ensures lists { ListsNextWord A.Automaton automaton.now window.entry place.old place.new result }
    ensures goes { GoesOnListed window.entry place.old place.new result }
    ensures cost { PaysForListed A.Automaton automaton.now window.entry place.old place.new steps.old steps.new }
{
    let end = window.from + window.bytes.len();
    while place.at < end || window.closed {
        let found = next_told(automaton, window, place);
        if found.is_some() {
            return found;
        }
        if place.at == end {
            return None;
        }
        read_on(automaton, window, place, steps);
    }
    None
}
