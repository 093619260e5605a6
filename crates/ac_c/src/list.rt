//! The listing of all occurrences in a haystack, or of its whole words alone, from a place that C keeps.
//!
//! A place holds the occurrence that was given last. A call begins as many bytes before the end of that one as the longest pattern
//! has: no later occurrence starts before there. It passes over the few that aren't later, and in a listing of words over those with a
//! word byte beside them.
ghost use Rattle.std.specs.Prelude.{◌≡◌, ◌<◌, ◌≤◌, ◌^◌, IfOk, MatchOption, length};
ghost use Rattle.std.specs.Iterator.{YieldsFirst};
ghost use Rattle.ac_input.specs.Computed.{is_after};
ghost use Rattle.ac_automaton.specs.InMemory.Overlapping.OverlappingIter.{CountsRun, IsWithinOneWalk, LooksNear};
ghost use Rattle.ac_c.specs.Find.{is_set};
ghost use Rattle.ac_c.specs.Found.{found};
ghost use Rattle.ac_c.specs.Walk.{AreGiven};
ghost use Rattle.ac_c.specs.List.{AnswersListed, AreWantedBy, CostsListing, CountsFilled, IsPlaceOver, RunsTo, asked_from, before_of, begins_at, is_wanted, listed_of, place, place_after, wanted_of};

use crate::find::{Bounds, input_of};
use crate::found::Found;
use crate::status::{BAD_CURSOR, EMPTY_PATTERN, NONE, OK, refused};
use ac_automaton::in_memory::words::is_whole_word;
use aho_corasick::{AhoCorasick, FindOverlappingIter, Input, Match, Steps};

/// Where a listing stands: its span, and the occurrence that was given last, if `begun` isn't 0.
#[repr(C)]
#[derive(Clone, Copy)]
pub struct Place {
    pub start: usize,
    pub end: usize,
    pub last: Found,
    pub begun: u32,
}

/// Where a listing stands after some occurrences, how many these were, and the status.
#[repr(C)]
#[derive(Clone, Copy)]
pub struct Listed {
    pub place: Place,
    pub count: usize,
    pub status: u32,
}

/// Which occurrences a listing gives: those that come after the last one of its place, and if `words`, only whole words.
#[derive(Clone, Copy)]
struct Wanted {
    place: Place,
    words: bool,
}

/// Whether an occurrence comes after the one that was given last.
fn is_later(place: Place, found: &Match) -> bool
    ensures { result ≡ is_after (before_of place) found.now }
{
    place.begun == 0 || found.is_after(place.last.pattern, place.last.start, place.last.end)
}

/// Whether the listing gives an occurrence.
fn is_wanted(haystack: &[u8], wanted: Wanted, found: &Match) -> bool
    ensures { result ≡ is_wanted haystack.now wanted found.now }
{
    is_later(wanted.place, found) && (!wanted.words || is_whole_word(haystack, found))
}

/// From where on the haystack is searched.
fn begin(place: Place, longest: usize) -> usize
    requires { place.end < 2 ^ 63 }
    ensures { result ≡ begins_at place longest }
{
    if place.begun == 0 {
        return place.start;
    }
    let from = place.last.end.saturating_sub(longest).max(place.start);
    from.min(place.end + 1)
}

/// The input of the rest of a listing, if its place is one of the haystack.
fn input_at<'h>(haystack: &'h [u8], place: Place, longest: usize) -> Option<Input<'h>>
    ensures { MatchOption result (¬ IsPlaceOver haystack.now place)
        (λ input. IsPlaceOver haystack.now place
        × (input ≡ asked_from haystack.now place (begins_at place longest))) }
{
    if place.end > haystack.len() || place.start > place.end + 1 {
        return None;
    }
    let bounds = Bounds {
        start: begin(place, longest),
        end: place.end,
        anchored: 0,
        earliest: 0,
    };
    input_of(haystack, bounds)
}

/// The next occurrence that the listing gives; counts what it does.
fn next_wanted(
    matches: &mut FindOverlappingIter<'_, '_>,
    haystack: &[u8],
    wanted: Wanted,
    steps: &mut Steps,
) -> Option<Match>
    requires { IsWithinOneWalk matches.old }
    ensures wanted { YieldsFirst (wanted_of haystack.now wanted) matches.old result matches.new }
    ensures cost { RunsTo matches.old matches.new steps.old steps.new }
    ensures counted { CountsRun matches.new result }
    ensures near { LooksNear matches.new result }
{
    while let Some(found) = matches.next_counted(steps) {
        if is_wanted(haystack, wanted, &found) {
            return Some(found);
        }
    }
    None
}

/// Fills a buffer with the occurrences that come next; returns how many these are, and counts what it does.
fn fill(
    matches: &mut FindOverlappingIter<'_, '_>,
    haystack: &[u8],
    wanted: Wanted,
    out: &mut [Found],
    steps: &mut Steps,
) -> usize
    requires { IsWithinOneWalk matches.old }
    ensures given { AreGiven (wanted_of haystack.now wanted matches.old) out.old out.new result }
    ensures cost { RunsTo matches.old matches.new steps.old steps.new }
    ensures counted { CountsFilled matches.new wanted.place out.new result }
{
    for at in 0..out.len() {
        match next_wanted(matches, haystack, wanted, steps) {
            Some(found) => out[at] = Found::from_match(&found),
            None => return at,
        }
    }
    out.len()
}

/// The place after so many of the buffer's entries were given.
fn place_after(place: Place, out: &[Found], count: usize) -> Place
    requires { count ≤ length out.now }
    ensures { result ≡ place_after place out.now count }
{
    if count == 0 {
        return place;
    }
    Place {
        last: out[count - 1],
        begun: 1,
        ..place
    }
}

/// How many occurrences, or words, come next; counts what it does.
fn listed_counted(
    ac: &AhoCorasick,
    haystack: &[u8],
    wanted: Wanted,
    out: &mut [Found],
    steps: &mut Steps,
) -> Result<usize, u32>
    ensures listed { AreWantedBy wanted.words ac.now haystack.now wanted.place out.old out.new result }
    ensures cost { CostsListing ac.now haystack.now wanted.place out.new steps.old steps.new
        result }
{
    let Some(input) = input_at(haystack, wanted.place, ac.max_pattern_len()) else {
        return Err(BAD_CURSOR);
    };
    match ac.try_find_overlapping_iter(input) {
        Err(error) => Err(refused(&error)),
        Ok(mut matches) => {
            if wanted.words && ac.min_pattern_len() == 0 {
                return Err(EMPTY_PATTERN);
            }
            Ok(fill(&mut matches, haystack, wanted, out, steps))
        }
    }
}

/// What a call gave, as C sees it.
fn as_listed(place: Place, out: &[Found], listed: Result<usize, u32>) -> Listed
    requires { IfOk listed (λ count. count ≤ length out.now) }
    ensures { result ≡ listed_of place out.now listed }
{
    match listed {
        Ok(count) => Listed {
            place: place_after(place, out, count),
            count,
            status: if count == 0 && out.len() > 0 {
                NONE
            } else {
                OK
            },
        },
        Err(status) => Listed {
            place,
            count: 0,
            status,
        },
    }
}

/// What comes next, as C sees it.
fn list_by(ac: &AhoCorasick, haystack: &[u8], wanted: Wanted, out: &mut [Found]) -> Listed
    ensures { AnswersListed wanted.words ac.now haystack.now wanted.place out.old out.new result }
{
    let given = listed_counted(ac, haystack, wanted, out, &mut Steps::new());
    as_listed(wanted.place, out, given)
}

/// The next occurrences of a listing, as many as the buffer has room for, as C sees it; if `words` isn't 0, its next whole words.
pub fn list(
    ac: &AhoCorasick,
    haystack: &[u8],
    start: usize,
    end: usize,
    last_start: usize,
    last_end: usize,
    last_pattern: u32,
    begun: u32,
    words: u32,
    out: &mut [Found],
) -> Listed
    ensures { AnswersListed (is_set words) ac.now haystack.now
        (place start end (found last_start last_end last_pattern) begun) out.old out.new result }
{
    let last = Found {
        start: last_start,
        end: last_end,
        pattern: last_pattern,
    };
    let place = Place {
        start,
        end,
        last,
        begun,
    };
    let wanted = Wanted {
        place,
        words: words != 0,
    };
    list_by(ac, haystack, wanted, out)
}
