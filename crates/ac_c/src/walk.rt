//! The walk over a haystack, from a cursor that C keeps.
ghost use Rattle.std.specs.Prelude.{◌≡◌, MatchOption, length};
ghost use Rattle.ac_automaton.specs.InMemory.Iter.{left_of};
ghost use Rattle.ac_c.specs.Walking.{IsAccounted, WalksTo};
ghost use Rattle.ac_c.specs.Walk.{AnswersSome, AnswersStep, AreGiven, CostsSome, CostsStep, Goes, IsCursorIn, IsSomeBy, IsStepBy, IsWalkPast, TakesSome, batch_of, bounds_of, cursor, place_of_cursor, step_of};
ghost use Rattle.ac_c.specs.Find.{asked_by};

use crate::find::{Bounds, input_of};
use crate::found::Found;
use crate::status::{BAD_CURSOR, NONE, OK, refused};
use crate::walking::Walking;
use aho_corasick::{AhoCorasick, Input, Match, Steps, WalkPlace};

/// Where a walk stands: what is left of its span, and where its last match ended, or the greatest number for none. A flag is 0 or
/// else set.
#[repr(C)]
#[derive(Clone, Copy)]
pub struct Cursor {
    pub start: usize,
    pub end: usize,
    pub last: usize,
    pub anchored: u32,
    pub earliest: u32,
}

/// Where a walk stands after a step, its match where the status is OK, and the status.
#[repr(C)]
#[derive(Clone, Copy)]
pub struct Step {
    pub cursor: Cursor,
    pub found: Found,
    pub status: u32,
}

/// Where a walk stands after some matches, how many these were, and the status.
#[repr(C)]
#[derive(Clone, Copy)]
pub struct Batch {
    pub cursor: Cursor,
    pub count: usize,
    pub status: u32,
}

/// The span that is left, and how it is searched.
fn bounds_of(cursor: Cursor) -> Bounds
    ensures { result ≡ bounds_of cursor }
{
    Bounds {
        start: cursor.start,
        end: cursor.end,
        anchored: cursor.anchored,
        earliest: cursor.earliest,
    }
}

/// The place of the walk.
fn place_at(cursor: Cursor) -> WalkPlace
    ensures { result ≡ place_of_cursor cursor }
{
    let last = if cursor.last == usize::MAX {
        None
    } else {
        Some(cursor.last)
    };
    WalkPlace {
        start: cursor.start,
        last,
    }
}

/// The cursor, moved to another place of the walk.
fn cursor_at(cursor: Cursor, place: WalkPlace) -> Cursor
    ensures { Goes cursor place result }
{
    Cursor {
        start: place.start,
        last: place.last.unwrap_or(usize::MAX),
        ..cursor
    }
}

/// The input of the walk, if the cursor is one of a walk over the haystack.
fn input_at<'h>(haystack: &'h [u8], cursor: Cursor) -> Option<Input<'h>>
    ensures { MatchOption result (¬ IsCursorIn haystack.now cursor)
        (λ input. IsCursorIn haystack.now cursor
        × (input ≡ asked_by haystack.now (bounds_of cursor))) }
{
    if cursor.last != usize::MAX && cursor.last > cursor.start {
        return None;
    }
    input_of(haystack, bounds_of(cursor))
}

/// The next match, and where the walk stands then; counts what it does.
fn step_counted(
    ac: &AhoCorasick,
    haystack: &[u8],
    cursor: Cursor,
    steps: &mut Steps,
) -> Result<(Option<Match>, Cursor), u32>
    ensures step { IsStepBy ac.now haystack.now cursor result }
    ensures cost { CostsStep ac.now haystack.now cursor steps.old steps.new result }
{
    let Some(input) = input_at(haystack, cursor) else {
        return Err(BAD_CURSOR);
    };
    match ac.try_find_iter_from(input, place_at(cursor)) {
        Err(error) => Err(refused(&error)),
        Ok(mut matches) => {
            let found = matches.next_counted(steps);
            Ok((found, cursor_at(cursor, matches.place())))
        }
    }
}

/// Fills a buffer with the matches that come next; returns how many these are, and counts what it does.
fn fill<W: Walking>(matches: &mut W, out: &mut [Found], steps: &mut Steps) -> usize
    requires { IsAccounted W.ahead (W.walk matches.old) }
    ensures given { AreGiven (left_of (W.walk matches.old)) out.old out.new result }
    ensures past { IsWalkPast result (W.walk matches.old) (W.walk matches.new) }
    ensures cost { WalksTo W.ahead (W.walk matches.old) (W.walk matches.new) steps.old steps.new }
{
    for at in 0..out.len() {
        match matches.next_match(steps) {
            Some(found) => out[at] = Found::from_match(&found),
            None => return at,
        }
    }
    out.len()
}

/// The next matches of a walk that stands at the cursor, how many these are, and where it stands then.
fn taken<W: Walking + Drop>(
    matches: W,
    cursor: Cursor,
    out: &mut [Found],
    steps: &mut Steps,
) -> (usize, Cursor)
    requires { IsAccounted W.ahead (W.walk matches) }
    ensures { TakesSome W.ahead (W.walk matches) cursor out.old out.new steps.old steps.new result }
{
    let mut matches = matches;
    let count = fill(&mut matches, out, steps);
    (count, cursor_at(cursor, matches.stands()))
}

/// With room for fewer matches nothing is read ahead, since the notes for it would take longer to make than they save.
const FEW: usize = 16;

/// The next matches, and where the walk stands then; counts what it does.
fn next_matches_counted(
    ac: &AhoCorasick,
    haystack: &[u8],
    cursor: Cursor,
    out: &mut [Found],
    steps: &mut Steps,
) -> Result<(usize, Cursor), u32>
    ensures some { IsSomeBy ac.now haystack.now cursor out.old out.new result }
    ensures cost { CostsSome ac.now haystack.now cursor (length out.old) steps.old steps.new result }
{
    let Some(input) = input_at(haystack, cursor) else {
        return Err(BAD_CURSOR);
    };
    if out.len() < FEW {
        return match ac.try_find_iter_from(input, place_at(cursor)) {
            Err(error) => Err(refused(&error)),
            Ok(matches) => Ok(taken(matches, cursor, out, steps)),
        };
    }
    match ac.try_find_iter_ahead_from(input, place_at(cursor)) {
        Err(error) => Err(refused(&error)),
        Ok(matches) => Ok(taken(matches, cursor, out, steps)),
    }
}

/// A step as C sees it.
fn as_step(cursor: Cursor, stepped: Result<(Option<Match>, Cursor), u32>) -> Step
    ensures { result ≡ step_of cursor stepped }
{
    match stepped {
        Ok((Some(found), cursor)) => Step {
            cursor,
            found: Found::from_match(&found),
            status: OK,
        },
        Ok((None, cursor)) => Step {
            cursor,
            found: Found::nothing(),
            status: NONE,
        },
        Err(status) => Step {
            cursor,
            found: Found::nothing(),
            status,
        },
    }
}

/// The next match of a walk that stands at a cursor, as C sees it.
pub fn next(
    ac: &AhoCorasick,
    haystack: &[u8],
    start: usize,
    end: usize,
    last: usize,
    anchored: u32,
    earliest: u32,
) -> Step
    ensures { AnswersStep ac.now haystack.now (cursor start end last anchored earliest) result }
{
    let cursor = Cursor {
        start,
        end,
        last,
        anchored,
        earliest,
    };
    as_step(
        cursor,
        step_counted(ac, haystack, cursor, &mut Steps::new()),
    )
}

/// A batch as C sees it.
fn as_batch(cursor: Cursor, room: usize, taken: Result<(usize, Cursor), u32>) -> Batch
    ensures { result ≡ batch_of cursor room taken }
{
    match taken {
        Ok((count, cursor)) => Batch {
            cursor,
            count,
            status: if count == 0 && room > 0 { NONE } else { OK },
        },
        Err(status) => Batch {
            cursor,
            count: 0,
            status,
        },
    }
}

/// The next matches of a walk that stands at a cursor, as many as the buffer has room for, as C sees it.
pub fn next_matches(
    ac: &AhoCorasick,
    haystack: &[u8],
    start: usize,
    end: usize,
    last: usize,
    anchored: u32,
    earliest: u32,
    out: &mut [Found],
) -> Batch
    ensures { AnswersSome ac.now haystack.now (cursor start end last anchored earliest) out.old
        out.new result }
{
    let cursor = Cursor {
        start,
        end,
        last,
        anchored,
        earliest,
    };
    let room = out.len();
    let taken = next_matches_counted(ac, haystack, cursor, out, &mut Steps::new());
    as_batch(cursor, room, taken)
}
