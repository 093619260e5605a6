//! A search for one match.
ghost use Rattle.std.specs.Prelude.{◌≡◌, MatchOption};
ghost use Rattle.ac_c.specs.Find.{AnswersFindIn, CostsFindIn, IsFoundBy, IsSpanIn, answer_of, asked_by, bounds};

use crate::found::Found;
use crate::status::{BAD_SPAN, NONE, OK, refused};
use aho_corasick::{AhoCorasick, Anchored, Input, Match, Span, Steps};

/// Where a search looks in a haystack, and how. A flag is 0 or else set.
#[derive(Clone, Copy)]
pub struct Bounds {
    pub start: usize,
    pub end: usize,
    pub anchored: u32,
    pub earliest: u32,
}

/// The status of a search, and its match where the status is OK.
#[repr(C)]
#[derive(Clone, Copy)]
pub struct Answer {
    pub found: Found,
    pub status: u32,
}

/// The input of a search, if the bounds are a span of the haystack.
pub fn input_of<'h>(haystack: &'h [u8], bounds: Bounds) -> Option<Input<'h>>
    ensures span { MatchOption result (¬ IsSpanIn haystack.now bounds)
        (λ input. IsSpanIn haystack.now bounds × (input ≡ asked_by haystack.now bounds)) }
{
    if bounds.end > haystack.len() || bounds.start > bounds.end + 1 {
        return None;
    }
    let anchored = if bounds.anchored == 0 {
        Anchored::No
    } else {
        Anchored::Yes
    };
    let span = Span {
        start: bounds.start,
        end: bounds.end,
    };
    let input = Input::new(haystack).span(span).anchored(anchored);
    Some(if bounds.earliest == 0 {
        input
    } else {
        input.earliest(true)
    })
}

/// The match, if there is one, or the status of a search that isn't one of the automaton's; counts what it does.
fn find_counted(
    ac: &AhoCorasick,
    haystack: &[u8],
    bounds: Bounds,
    steps: &mut Steps,
) -> Result<Option<Match>, u32>
    ensures found { IsFoundBy ac.now haystack.now bounds result }
    ensures cost { CostsFindIn ac.now haystack.now bounds steps.old steps.new result }
{
    let Some(input) = input_of(haystack, bounds) else {
        return Err(BAD_SPAN);
    };
    match ac.try_find_counted(input, steps) {
        Ok(found) => Ok(found),
        Err(error) => Err(refused(&error)),
    }
}

/// The same as C sees it.
fn as_answer(found: Result<Option<Match>, u32>) -> Answer
    ensures { result ≡ answer_of found }
{
    match found {
        Ok(Some(found)) => Answer {
            found: Found::from_match(&found),
            status: OK,
        },
        Ok(None) => Answer {
            found: Found::nothing(),
            status: NONE,
        },
        Err(status) => Answer {
            found: Found::nothing(),
            status,
        },
    }
}

/// A find within bounds, as C sees its answer.
pub fn find(
    ac: &AhoCorasick,
    haystack: &[u8],
    start: usize,
    end: usize,
    anchored: u32,
    earliest: u32,
) -> Answer
    ensures { AnswersFindIn ac.now haystack.now (bounds start end anchored earliest) result }
{
    let bounds = Bounds {
        start,
        end,
        anchored,
        earliest,
    };
    as_answer(find_counted(ac, haystack, bounds, &mut Steps::new()))
}
