//! The search for the next occurrence by what was read ahead.
//!
//! It is for a walk over many occurrences of a long text: see [`FindOverlappingIter`](crate::overlapping::FindOverlappingIter). Where
//! it isn't anchored, an overlapping search reads on from one state that matches to the next. So it takes notes of what the automaton
//! has read ahead: see [`ahead`](crate::ahead). It isn't begun anew after a match, so a note begins in the state that matched last.
ghost use Rattle.std.specs.Prelude.{◌≡◌, ◌<◌};
ghost use Rattle.ac_input.specs.declared.search.Anchored.TheVariants.{No};
ghost use Rattle.ac_input.specs.declared.search.MatchKind.TheVariants.{Standard};
ghost use Rattle.ac_automaton.specs.InMemory.Find.Cursor.{ReadsFurther, StandsIn};
ghost use Rattle.ac_automaton.specs.Ahead.{IsPaid};
ghost use Rattle.ac_automaton.specs.InMemory.Overlapping.OverlappingSearch.{HasLeft, IsAheadAt, IsAheadFrom, MayShow, PaysAhead, PaysAheadAt, ShowsAfter, ShowsNextAt, ShowsRest};

use crate::ahead::{Ahead, advance_to_match};
use crate::automaton::Automaton;
use crate::in_memory::find::cursor::Cursor;
use crate::in_memory::overlapping::search::{over, show, show_at};
use crate::in_memory::overlapping::{Position, Shown};
use ac_input::search::Input;
use ac_input::steps::Steps;

/// Reads on to the next state that matches, or to the end of the span.
fn read_on<A: Automaton>(
    automaton: &A,
    input: &Input<'_>,
    cursor: Cursor,
    ahead: &mut Ahead,
    steps: &mut Steps,
) -> Cursor
    requires stands { MayShow A.Automaton automaton.now input.now cursor }
    requires free { input.now.anchored ≡ No }
    requires open { cursor.at < input.now.span.end }
    requires ahead { IsAheadFrom A.Automaton automaton.now input.now cursor ahead.old }
    ensures stands { StandsIn (A.built automaton.now) (A.Reaches automaton.now) input.now result }
    ensures from { result.from ≡ cursor.from }
    ensures on { IsPaid ahead.old ahead.new steps.new (λ paid. ReadsFurther (A.built automaton.now) input.now cursor result steps.old paid) }
    ensures ahead { IsAheadFrom A.Automaton automaton.now input.now result ahead.new }
{
    let bytes = &input.haystack()[..input.end()];
    let stop = advance_to_match(automaton, &None, cursor.sid, bytes, cursor.at, ahead, steps);
    Cursor {
        sid: stop.sid,
        from: cursor.from,
        at: cursor.at + stop.taken,
    }
}

/// Shows the first of what ends after the bytes that were read.
fn show_later<A: Automaton>(
    automaton: &A,
    input: &Input<'_>,
    cursor: Cursor,
    ahead: &mut Ahead,
    steps: &mut Steps,
) -> Shown
    requires stands { MayShow A.Automaton automaton.now input.now cursor }
    requires free { input.now.anchored ≡ No }
    requires ahead { IsAheadFrom A.Automaton automaton.now input.now cursor ahead.old }
    ensures shows { ShowsAfter A.Automaton automaton.now input.now cursor result }
    ensures paid { PaysAheadAt (A.built automaton.now) input.now cursor 0 result
        ahead.old ahead.new steps.old steps.new }
    ensures ahead { IsAheadAt A.Automaton automaton.now input.now result.place ahead.new }
{
    let mut cursor = cursor;
    loop {
        if cursor.at == input.end() {
            return over();
        }
        cursor = read_on(automaton, input, cursor, ahead, steps);
        if let Some(shown) = show_at(automaton, input, &cursor) {
            return shown;
        }
    }
}

/// Shows what the state has to show from an index of its list on, or else the first of what ends later.
fn show_next<A: Automaton>(
    automaton: &A,
    input: &Input<'_>,
    cursor: &Cursor,
    from: usize,
    ahead: &mut Ahead,
    steps: &mut Steps,
) -> Shown
    requires stands { MayShow A.Automaton automaton.now input.now cursor.now }
    requires free { input.now.anchored ≡ No }
    requires ahead { IsAheadFrom A.Automaton automaton.now input.now cursor.now ahead.old }
    ensures shows { ShowsRest A.Automaton automaton.now input.now cursor.now from result }
    ensures paid { PaysAheadAt (A.built automaton.now) input.now cursor.now from result
        ahead.old ahead.new steps.old steps.new }
    ensures ahead { IsAheadAt A.Automaton automaton.now input.now result.place ahead.new }
{
    if let Some(shown) = show(automaton, input, *cursor, from) {
        return shown;
    }
    show_later(automaton, input, *cursor, ahead, steps)
}

/// Shows the next occurrence of a search that isn't anchored and stands at a place, as
/// [`advance`](crate::overlapping::advance) does. It runs no prefilter, and keeps notes of what it read ahead.
pub(crate) fn advance_ahead<A: Automaton>(
    automaton: &A,
    input: &Input<'_>,
    place: Position,
    ahead: &mut Ahead,
    steps: &mut Steps,
) -> Shown
    requires standard { (A.built automaton.now).dictionary.kind ≡ Standard }
    requires free { input.now.anchored ≡ No }
    requires left { HasLeft A.Automaton automaton.now input.now place }
    requires ahead { IsAheadAt A.Automaton automaton.now input.now place ahead.old }
    ensures shows { ShowsNextAt A.Automaton automaton.now input.now place result }
    ensures paid { PaysAhead (A.built automaton.now) input.now place result
        ahead.old ahead.new steps.old steps.new }
    ensures ahead { IsAheadAt A.Automaton automaton.now input.now result.place ahead.new }
{
    match place {
        Position::At {
            sid,
            from,
            at,
            index,
        } => {
            let cursor = Cursor { sid, from, at };
            show_next(automaton, input, &cursor, index, ahead, steps)
        }
        Position::Over => over(),
    }
}
