//! The search for the next occurrence, from where an overlapping search stands.
//!
//! A call goes through the rest of the list of the state where the last call stood, and then reads on: to the next state whose
//! list has something to show, or, with a prefilter, from one candidate to the next.
ghost use Rattle.std.specs.Prelude.{◌≡◌, ℕ, ◌<◌, ◌≤◌, List, None, [], length, get_or, IfErr, IfOk, OnOk};
ghost use Rattle.ac_input.specs.declared.search.Anchored.TheVariants.{No};
ghost use Rattle.ac_input.specs.declared.search.MatchKind.TheVariants.{Standard};
ghost use Rattle.ac_input.specs.Input.{is_anchored, whole_of};
ghost use Rattle.ac_automaton.specs.declared.in_memory.overlapping.Position.TheVariants.{Over};
ghost use Rattle.ac_automaton.specs.declared.in_memory.find.cursor.End.TheVariants.{Found};
ghost use Rattle.ac_automaton.specs.InMemory.Overlapping.{CanOverlap, IsOverlappingRefusal, OnlyLooked};
ghost use Rattle.ac_automaton.specs.InMemory.Overlapping.OverlappingSearch.{AnswersBegin, BeginsWith, CountsFrom, CountsOn, EndsHere, HasLeft, IsNextEntry, IsScanFor, KeepsPaying, LooksOn, MayShow, MaySkip, PaysAt, PaysOn, ScanCounts, ShowsAfter, ShowsAt, ShowsFrom, ShowsHere, ShowsLater, ShowsNextAt, ShowsRest, SkipCounts, SkipsAtCost};
ghost use Rattle.ac_input.specs.Tells.{ending_at};
ghost use Rattle.ac_automaton.specs.InMemory.Find.Cursor.{counts};

use crate::automaton::Automaton;
use crate::error::MatchError;
use crate::in_memory::find::cursor::{Cursor, End, read_on};
use crate::in_memory::find::{is_back, usable_prefilter};
use crate::in_memory::overlapping::{Beginning, Entry, Position, Shown};
use ac_input::primitives::{PatternID, StateID};
use ac_input::search::{Anchored, Input, Match, MatchKind, Span};
use ac_input::steps::Steps;
use ac_literal::prefilter::Prefilter;

/// Whether an entry counts for a search that has read this many bytes: an anchored one takes no shorter pattern.
fn is_counted<A: Automaton>(
    automaton: &A,
    anchored: Anchored,
    pattern: PatternID,
    read: usize,
) -> bool
    requires { pattern < length (A.built automaton.now).dictionary.patterns }
    ensures { result
        ≡ counts (A.built automaton.now).dictionary (is_anchored anchored) read pattern }
{
    match anchored {
        Anchored::No => true,
        Anchored::Yes => automaton.pattern_len(pattern) == read,
    }
}

/// The next entry of a state's list that counts, from an index on; `read` is how many bytes the search has read.
fn next_entry<A: Automaton>(
    automaton: &A,
    anchored: Anchored,
    sid: StateID,
    from: usize,
    read: usize,
) -> Option<Entry>
    requires { (text : List ℕ) × A.Reaches automaton.now anchored text sid }
    ensures { IsNextEntry A.Automaton automaton.now anchored sid read from result }
{
    if !automaton.is_match(sid) {
        return None;
    }
    for index in from..automaton.match_len(sid) {
        let pattern = automaton.match_pattern(sid, index);
        if is_counted(automaton, anchored, pattern, read) {
            return Some(Entry {
                pattern,
                next: index + 1,
            });
        }
    }
    None
}

/// The match of an entry at the place where its pattern ends.
fn match_of<A: Automaton>(automaton: &A, pattern: PatternID, at: usize) -> Match
    requires known { pattern < length (A.built automaton.now).dictionary.patterns }
    requires fits { length (get_or (A.built automaton.now).dictionary.patterns pattern []) ≤ at }
    ensures { result ≡ ending_at (A.built automaton.now).dictionary at pattern }
{
    let start = at - automaton.pattern_len(pattern);
    Match::new(pattern, Span { start, end: at })
}

/// What a search that is over shows.
pub(crate) fn over() -> Shown
    ensures found { result.found ≡ None }
    ensures place { result.place ≡ Over }
{
    Shown {
        place: Position::Over,
        found: None,
    }
}

/// What the state has to show from an index of its list on, if anything.
pub(crate) fn show<A: Automaton>(
    automaton: &A,
    input: &Input<'_>,
    cursor: Cursor,
    index: usize,
) -> Option<Shown>
    requires { MayShow A.Automaton automaton.now input.now cursor }
    ensures { ShowsAt A.Automaton automaton.now input.now cursor index
        result }
{
    let read = cursor.at - cursor.from;
    let entry = next_entry(automaton, input.get_anchored(), cursor.sid, index, read)?;
    Some(Shown {
        place: Position::At {
            sid: cursor.sid,
            from: cursor.from,
            at: cursor.at,
            index: entry.next,
        },
        found: Some(match_of(automaton, entry.pattern, cursor.at)),
    })
}

/// What a walk shows at its place: the first entry of the state; or that it is over, if the state is dead.
pub(crate) fn show_at<A: Automaton>(
    automaton: &A,
    input: &Input<'_>,
    cursor: &Cursor,
) -> Option<Shown>
    requires { MayShow A.Automaton automaton.now input.now cursor.now }
    ensures { ShowsHere A.Automaton automaton.now input.now cursor.now result }
{
    if automaton.is_dead(cursor.sid) {
        return Some(over());
    }
    show(automaton, input, *cursor, 0)
}

/// How a search ends at a place of the walk, if it does: it shows something, or the state is dead, or the walk is back at the
/// start.
fn end_at<A: Automaton>(automaton: &A, input: &Input<'_>, cursor: &Cursor) -> Option<End<Shown>>
    requires { MayShow A.Automaton automaton.now input.now cursor.now }
    ensures { EndsHere A.Automaton automaton.now input.now cursor.now result }
{
    if let Some(shown) = show_at(automaton, input, cursor) {
        return Some(End::Found(shown));
    }
    if is_back(automaton, input, cursor.sid) {
        return Some(End::Idle(cursor.at));
    }
    None
}

/// Reads on from a state to the next one that has something to show, and shows the first of it. It also stops where the walk is
/// back at the start.
fn read_to_start<A: Automaton>(
    automaton: &A,
    input: &Input<'_>,
    cursor: Cursor,
    steps: &mut Steps,
) -> End<Shown>
    requires { MayShow A.Automaton automaton.now input.now cursor }
    ensures reads { ShowsLater A.Automaton automaton.now input.now cursor result }
    ensures pays { PaysOn (A.built automaton.now) input.now cursor result steps.old steps.new }
    ensures only { OnlyLooked steps.old steps.new }
    ensures looks { LooksOn (A.built automaton.now) input.now cursor result steps.old steps.new }
{
    let mut cursor = cursor;
    loop {
        if cursor.at == input.end() {
            return End::Found(over());
        }
        cursor = read_on(automaton, input, cursor, steps);
        if let Some(end) = end_at(automaton, input, &cursor) {
            return end;
        }
    }
}

/// Where an occurrence may begin, from a place on: at the prefilter's candidate, or at the place itself if there is no prefilter.
fn candidate(
    prefilter: Option<&Prefilter>,
    input: &Input<'_>,
    at: usize,
    steps: &mut Steps,
) -> Option<usize>
    requires free { input.now.anchored ≡ No }
    requires to { at ≤ input.now.span.end }
    ensures begins { BeginsWith prefilter.entry input.now at result }
    ensures work { IsScanFor at input.now.span.end result steps.old steps.new }
    ensures counts { ScanCounts prefilter.entry at input.now.span.end result
        steps.old steps.new }
{
    let Some(prefilter) = prefilter else {
        return Some(at);
    };
    let rest = Span {
        start: at,
        end: input.end(),
    };
    let candidate = prefilter.find_in_counted(input.haystack(), rest, steps);
    candidate.into_option()
}

/// Reads on from the start, at the first place from which an occurrence may begin.
fn search_from_candidate<A: Automaton>(
    automaton: &A,
    prefilter: Option<&Prefilter>,
    input: &Input<'_>,
    start: StateID,
    at: usize,
    steps: &mut Steps,
) -> End<Shown>
    requires { MaySkip A.Automaton automaton.now input.now prefilter start at }
    ensures reads { ShowsFrom A.Automaton automaton.now input.now at result }
    ensures cost { SkipsAtCost (A.built automaton.now) input.now at result steps.old steps.new }
    ensures counts { SkipCounts (A.built automaton.now) input.now at result steps.old steps.new }
{
    let Some(from) = candidate(prefilter, input, at, steps) else {
        return End::Found(over());
    };
    let cursor = Cursor {
        sid: start,
        from,
        at: from,
    };
    read_to_start(automaton, input, cursor, steps)
}

/// Reads on from a place before which no remaining occurrence begins, from one candidate to the next.
fn search_by_candidates<A: Automaton>(
    automaton: &A,
    prefilter: Option<&Prefilter>,
    input: &Input<'_>,
    start: StateID,
    at: usize,
    steps: &mut Steps,
) -> Shown
    requires { MaySkip A.Automaton automaton.now input.now prefilter start at }
    ensures reads { ShowsFrom A.Automaton automaton.now input.now at (Found result) }
    ensures cost { SkipsAtCost (A.built automaton.now) input.now at (Found result)
        steps.old steps.new }
    ensures counts { CountsFrom (A.built automaton.now) input.now at result steps.old steps.new }
{
    let mut place = at;
    loop {
        match search_from_candidate(automaton, prefilter, input, start, place, steps) {
            End::Found(shown) => return shown,
            End::Idle(to) => place = to,
        }
    }
}

/// Shows the first of what ends after the bytes that were read.
fn show_later<A: Automaton>(
    automaton: &A,
    input: &Input<'_>,
    start: StateID,
    cursor: Cursor,
    steps: &mut Steps,
) -> Shown
    requires starts { A.Reaches automaton.now input.now.anchored [] start }
    requires stands { MayShow A.Automaton automaton.now input.now cursor }
    ensures shows { ShowsAfter A.Automaton automaton.now input.now cursor result }
    ensures pays { PaysAt (A.built automaton.now) input.now cursor 0 result steps.old steps.new }
    ensures counts { CountsFrom (A.built automaton.now) input.now cursor.at result
        steps.old steps.new }
{
    let prefilter = usable_prefilter(automaton, input.get_anchored(), start);
    if prefilter.is_some() && cursor.at == cursor.from {
        return search_by_candidates(automaton, prefilter, input, start, cursor.at, steps);
    }
    match read_to_start(automaton, input, cursor, steps) {
        End::Found(shown) => shown,
        End::Idle(at) => search_by_candidates(automaton, prefilter, input, start, at, steps),
    }
}

/// Shows what the state has to show from an index of its list on, or else the first of what ends later.
fn show_next<A: Automaton>(
    automaton: &A,
    input: &Input<'_>,
    start: StateID,
    cursor: &Cursor,
    from: usize,
    steps: &mut Steps,
) -> Shown
    requires starts { A.Reaches automaton.now input.now.anchored [] start }
    requires stands { MayShow A.Automaton automaton.now input.now cursor.now }
    ensures shows { ShowsRest A.Automaton automaton.now input.now cursor.now from result }
    ensures pays { PaysAt (A.built automaton.now) input.now cursor.now from result
        steps.old steps.new }
    ensures counts { CountsFrom (A.built automaton.now) input.now cursor.now.at result
        steps.old steps.new }
{
    if let Some(shown) = show(automaton, input, *cursor, from) {
        return shown;
    }
    show_later(automaton, input, start, *cursor, steps)
}

/// Shows the next occurrence of a search that stands at a place; `start` is where it began.
pub(crate) fn advance<A: Automaton>(
    automaton: &A,
    input: &Input<'_>,
    start: StateID,
    place: Position,
    steps: &mut Steps,
) -> Shown
    requires standard { (A.built automaton.now).dictionary.kind ≡ Standard }
    requires starts { A.Reaches automaton.now input.now.anchored [] start }
    requires left { HasLeft A.Automaton automaton.now input.now place }
    ensures shows { ShowsNextAt A.Automaton automaton.now input.now place result }
    ensures pays { KeepsPaying (A.built automaton.now) input.now place result steps.old steps.new }
    ensures counts { CountsOn (A.built automaton.now) input.now place result steps.old steps.new }
{
    match place {
        Position::Over => over(),
        Position::At {
            sid,
            from,
            at,
            index,
        } => {
            let cursor = Cursor { sid, from, at };
            show_next(automaton, input, start, &cursor, index, steps)
        }
    }
}

/// The start state of a search for every occurrence that isn't anchored, where the automaton can make one.
pub(crate) fn unanchored_start<A: Automaton>(automaton: &A) -> Result<StateID, MatchError>
    ensures start { IfOk result (λ sid. A.Reaches automaton.now No [] sid) }
    ensures can { OnOk result (CanOverlap (A.built automaton.now) (A.supports automaton.now) (whole_of [])) }
    ensures error { IfErr result (IsOverlappingRefusal (A.built automaton.now) (A.supports automaton.now) (whole_of [])) }
{
    let start = automaton.start_state(Anchored::No)?;
    let kind = automaton.match_kind();
    if kind != MatchKind::Standard {
        return Err(MatchError::unsupported_overlapping(kind));
    }
    Ok(start)
}

/// Where a search begins.
pub(crate) fn begin<A: Automaton>(automaton: &A, input: &Input<'_>) -> Result<Beginning, MatchError>
    ensures { AnswersBegin A.Automaton automaton.now input.now result }
{
    let start = automaton.start_state(input.get_anchored())?;
    let kind = automaton.match_kind();
    if kind != MatchKind::Standard {
        return Err(MatchError::unsupported_overlapping(kind));
    }
    let span = input.get_span();
    if span.start > span.end {
        return Ok(Beginning {
            start,
            place: Position::Over,
        });
    }
    Ok(Beginning {
        start,
        place: Position::At {
            sid: start,
            from: span.start,
            at: span.start,
            index: 0,
        },
    })
}
