//! Masking: each byte that an occurrence covers is replaced by one byte, overlapping ones included.
//!
//! Under the standard kind the list of a state holds every pattern that the bytes read end in, the longest first. That one covers all
//! that the others cover. So one walk masks a text: wherever a state matches, it masks the bytes of the longest pattern, which it has
//! just read, and reads on after them. The state stands for the text as it was, so nothing has to be copied.
//!
//! Where occurrences overlap, the bytes that one stretch of them has masked already aren't written again.
//!
//! Both [`in_memory::mask`](crate::in_memory::mask) and [`stream::mask`](crate::stream::mask) stand on this walk.
//! Where whole words alone count, they stand on another one: see [`words`].
ghost use Rattle.std.specs.Prelude.{◌≡◌, ◌≢◌, ◌-◌, ◌≤◌, [], length, drop};
ghost use Rattle.ac_input.specs.declared.search.Anchored.TheVariants.{No};
ghost use Rattle.ac_input.specs.declared.search.MatchKind.TheVariants.{Standard};
ghost use Rattle.ac_automaton.specs.Automaton.{IsReached, IsReadCost, IsState};
ghost use Rattle.ac_automaton.specs.Masking.{IsMaskedStretch, MasksFrom, MasksLongest, masked_between};

use crate::ahead::{Ahead, advance_to_match};
use crate::automaton::Automaton;
use ac_input::primitives::StateID;
use ac_input::steps::Steps;

pub(crate) mod words;

/// Bytes that were masked, from one place to another.
#[derive(Clone, Copy)]
struct Stretch {
    start: usize,
    end: usize,
}

/// Masks the bytes from one place to another, but for those of the last stretch, which have the mask already.
#[inline]
fn mask_between(bytes: &mut [u8], last: Stretch, start: usize, end: usize, mask: u8) -> Stretch
    requires order { start ≤ end }
    requires within { end ≤ length bytes.old }
    requires last { IsMaskedStretch mask bytes.old end last }
    ensures masked { bytes.new ≡ masked_between mask bytes.old start end }
    ensures last { IsMaskedStretch mask bytes.new end result }
{
    bytes[start.max(last.end)..end].fill(mask);
    if last.end < start {
        return Stretch { start, end };
    }
    if last.start <= start {
        return Stretch {
            start: last.start,
            end,
        };
    }
    bytes[start..last.start].fill(mask);
    Stretch { start, end }
}

/// Masks the longest pattern that matches at a state, which ends at a place.
#[inline]
fn mask_longest<A: Automaton>(
    automaton: &A,
    sid: StateID,
    bytes: &mut [u8],
    last: Stretch,
    at: usize,
    mask: u8,
) -> Stretch
    requires state { IsState (A.Reaches automaton.now) sid }
    requires matches { A.matches automaton.now sid ≢ [] }
    requires within { at ≤ length bytes.old }
    requires last { IsMaskedStretch mask bytes.old at last }
    ensures masked { MasksLongest (A.built automaton.now) (A.matches automaton.now) mask sid at
        bytes.old bytes.new }
    ensures last { IsMaskedStretch mask bytes.new at result }
{
    let longest = automaton.pattern_len(automaton.match_pattern(sid, 0));
    mask_between(bytes, last, at.saturating_sub(longest), at, mask)
}

/// Reads on over the bytes from a place on, and masks the occurrences that end there: also their bytes before the place, which were
/// read in this state's text. Returns the state after the last byte.
pub(crate) fn mask_from<A: Automaton>(
    automaton: &A,
    sid: StateID,
    bytes: &mut [u8],
    from: usize,
    mask: u8,
    steps: &mut Steps,
) -> StateID
    requires standard { (A.built automaton.now).dictionary.kind ≡ Standard }
    requires reached { IsReached (A.Reaches automaton.now No) sid }
    requires within { from ≤ length bytes.old }
    ensures masks { MasksFrom (A.built automaton.now) (A.Reaches automaton.now No) mask sid from
        bytes.old bytes.new result }
    ensures cost { IsReadCost (A.built automaton.now) (A.Reaches automaton.now) No sid (drop from bytes.old) steps.old steps.new }
{
    let mut ahead = Ahead::none();
    let mut last = Stretch {
        start: from,
        end: from,
    };
    let mut current = sid;
    let mut read = 0;
    while read < bytes.len() - from {
        let stop = advance_to_match(
            automaton,
            &None,
            current,
            bytes,
            from + read,
            &mut ahead,
            steps,
        );
        current = stop.sid;
        read += stop.taken;
        if automaton.is_match(current) {
            last = mask_longest(automaton, current, bytes, last, from + read, mask);
        }
    }
    current
}
