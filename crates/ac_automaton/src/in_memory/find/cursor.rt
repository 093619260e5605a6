//! Where a search stands, how it goes on, and how it ends.
//!
//! A search reads the span byte by byte. Almost every state needs nothing but the next byte, and the automaton passes these
//! itself, in one call: [`read_on`] takes a [`Cursor`] to the next state that is special, or to the end of the span. There the
//! search checks whether the state matches, or is dead, or is a start, and goes on or ends.
ghost use Rattle.std.specs.Prelude.{◌≡◌, ◌≢◌, ◌<◌, [], take};
ghost use Rattle.ac_automaton.specs.Automaton.{AdvancesToMatch, IsReached, IsReadCost};
ghost use Rattle.ac_automaton.specs.InMemory.Find.Cursor.{HasNoneYet, StandsIn, ReadsFurther};

use crate::automaton::{Advance, Automaton};
use ac_input::primitives::StateID;
use ac_input::search::{Anchored, Input};
use ac_input::steps::Steps;

/// Up to so many bytes the automaton's own loop is the faster way.
const FEW: usize = 40;

/// The same with more than so many patterns, which begin at more places.
const FEW_FOR_MANY: usize = 256;

const MANY_PATTERNS: usize = 32;

/// A state, and the bytes by which it was reached from the start: those from one place up to another.
#[derive(Clone, Copy)]
pub(crate) struct Cursor {
    pub sid: StateID,
    pub from: usize,
    pub at: usize,
}

/// How a search over a part of the span ended.
#[derive(Clone, Copy)]
pub(crate) enum End<T> {
    /// This is the result.
    Found(T),
    /// None of the bytes read is live any more. There is no match before this place, and the search goes on from here.
    Idle(usize),
}

/// Reads on to the next state that is special, or to the end of the span.
#[inline]
pub(crate) fn read_on<A: Automaton>(
    automaton: &A,
    input: &Input<'_>,
    cursor: Cursor,
    steps: &mut Steps,
) -> Cursor
    requires stands { StandsIn (A.built automaton.now) (A.Reaches automaton.now) input.now cursor }
    requires open { cursor.at < input.now.span.end }
    ensures stands { StandsIn (A.built automaton.now) (A.Reaches automaton.now) input.now result }
    ensures from { result.from ≡ cursor.from }
    ensures on { ReadsFurther (A.built automaton.now) input.now cursor result steps.old steps.new }
{
    let rest = &input.haystack()[cursor.at..input.end()];
    let advance = automaton.advance(input.get_anchored(), cursor.sid, rest, steps);
    Cursor {
        sid: advance.sid,
        from: cursor.from,
        at: cursor.at + advance.taken,
    }
}

/// Whether so few bytes are read sooner by the automaton's own loop than by looking for the next place at which a pattern may begin.
#[inline]
fn are_few<A: Automaton>(automaton: &A, bytes: usize) -> bool {
    bytes < FEW || (bytes < FEW_FOR_MANY && automaton.patterns_len() > MANY_PATTERNS)
}

/// Whether matches are a few bytes apart, as the prefilter says, if there is one.
#[inline]
fn are_close<A: Automaton>(automaton: &A) -> bool {
    match automaton.prefilter() {
        Some(prefilter) => prefilter.finds_close() && automaton.reads_quickly(),
        None => false,
    }
}

/// Reads on to the first state that matches, or to the last byte: by the automaton's own loop where the bytes are few, or matches close.
#[inline(always)]
fn advance_to_first<A: Automaton>(
    automaton: &A,
    sid: StateID,
    bytes: &[u8],
    steps: &mut Steps,
) -> Advance
    requires { IsReached (A.Reaches automaton.now Anchored.No) sid }
    ensures goes { AdvancesToMatch (A.Reaches automaton.now Anchored.No) (A.matches automaton.now) sid
        bytes.now result }
    ensures cost { IsReadCost (A.built automaton.now) (A.Reaches automaton.now) Anchored.No sid
        (take result.taken bytes.now) steps.old steps.new }
{
    if are_few(automaton, bytes.len()) || are_close(automaton) {
        return automaton.advance_alone(Anchored::No, sid, bytes, steps);
    }
    automaton.advance_to_match(Anchored::No, sid, bytes, steps)
}

/// Reads on to the next state that matches, or to a place or the end of the span; it passes over starts. As long as a search that
/// isn't anchored has met no match, none of its states is dead, so it passes none at which the search ends.
#[inline]
pub(crate) fn read_to_match<A: Automaton>(
    automaton: &A,
    input: &Input<'_>,
    cursor: Cursor,
    until: usize,
    steps: &mut Steps,
) -> Cursor
    requires stands { StandsIn (A.built automaton.now) (A.Reaches automaton.now) input.now cursor }
    requires none { HasNoneYet (A.built automaton.now) input.now cursor }
    requires free { input.now.anchored ≡ Anchored.No }
    requires open { cursor.at < input.now.span.end }
    requires before { cursor.at < until }
    ensures stands { StandsIn (A.built automaton.now) (A.Reaches automaton.now) input.now result }
    ensures from { result.from ≡ cursor.from }
    ensures on { ReadsFurther (A.built automaton.now) input.now cursor result steps.old steps.new }
    ensures stops { result.at < input.now.span.end → result.at < until → A.matches automaton.now result.sid ≢ [] }
{
    let to = until.min(input.end());
    let rest = &input.haystack()[cursor.at..to];
    let advance = advance_to_first(automaton, cursor.sid, rest, steps);
    Cursor {
        sid: advance.sid,
        from: cursor.from,
        at: cursor.at + advance.taken,
    }
}
