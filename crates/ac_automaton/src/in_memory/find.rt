//! The search for one match.
//!
//! A walk begins at the start state and reads on from one special state to the next. Under the standard kind the first match ends
//! it. Under a leftmost kind a later match is better than an earlier one, since the automaton stores no others. So the walk keeps
//! the last one, and ends where no more can come.
//!
//! Without a prefilter, and over few bytes, a search is one walk over the span. Else the prefilter runs first, and the walk begins at its
//! candidate: bytes that it skips cost no look at a state. When the walk is back at the start of the automaton, nothing that was
//! read can grow into a match any more, and the prefilter runs again from there. Each walk ends further on than it began.
//!
//! Where a prefilter skips few bytes, a call costs more than it saves. Then a search of the standard kind does without it for a
//! while, and reads on to the next match: see [`Gain`].
//!
//! A prefilter may return the match itself. It is the best of the automaton's kind, so an earliest search, which stops at the
//! first end, uses only its place and walks from there.
//!
//! A walk stands on `cursor`, which is its place and state. `plain` is the search without a prefilter, and `ahead` is the same by what was
//! read ahead.
ghost use Rattle.std.specs.Prelude.{◌≡◌, ◌≢◌, ◌↔◌, ℕ, ◌<◌, ◌≤◌, List, [], IfSome, IsTrue, None, Some};
ghost use Rattle.ac_automaton.specs.Automaton.{Finds, CostsFind, IsFindCost, IsFound, IsState, kind_asked};
ghost use Rattle.ac_automaton.specs.InMemory.Find.Cursor.{HasNoneYet, IsFirstAt, IsReachedWithin, IsTaken, IsWholeTaken, ReadsFurther, StandsIn};
ghost use Rattle.ac_automaton.specs.InMemory.Find.{BackIsEmpty, CandidateCounts, CandidateEnds, IsCandidateCost, IsSearchCost, IsShort, IsUsable, IsWalkCost, SearchCounts, WalkLooks, WalkSays};
ghost use Rattle.ac_automaton.specs.InMemory.Items.{FindsWithin};

pub(crate) mod ahead;
pub(crate) mod cursor;
pub(crate) mod plain;

use crate::automaton::Automaton;
use crate::error::MatchError;
use crate::gain::Gain;
use crate::in_memory::find::cursor::{Cursor, End, read_on, read_to_match};
use ac_input::primitives::StateID;
use ac_input::search::{Anchored, Candidate, Input, Match, MatchKind, Span};
use ac_input::steps::Steps;
use ac_literal::prefilter::Prefilter;

/// How many bytes a prefilter has to skip to be worth its call.
const COST: usize = 64;

/// A search of fewer bytes runs no prefilter.
const FEW: usize = 64;

/// The first of the patterns that match at a state, where the search isn't anchored. It ends at the place.
pub(crate) fn first_match<A: Automaton>(automaton: &A, sid: StateID, at: usize) -> Match
    requires reads { IsReachedWithin (A.Reaches automaton.now Anchored.No) sid at }
    requires matches { A.matches automaton.now sid ≢ [] }
    ensures { IsFirstAt (A.built automaton.now).dictionary at (A.matches automaton.now sid) result }
{
    let pattern = automaton.match_pattern(sid, 0);
    let start = at - automaton.pattern_len(pattern);
    Match::new(pattern, Span { start, end: at })
}

/// The first of the patterns that match at a state and are as long as what was read, where the search is anchored.
fn whole_match<A: Automaton>(automaton: &A, sid: StateID, span: Span) -> Option<Match>
    requires reads { (text : List ℕ) × A.Reaches automaton.now Anchored.Yes text sid }
    requires ordered { span.start ≤ span.end }
    requires matches { A.matches automaton.now sid ≢ [] }
    ensures { IsWholeTaken (A.built automaton.now) (A.matches automaton.now) sid span result }
{
    for index in 0..automaton.match_len(sid) {
        let pattern = automaton.match_pattern(sid, index);
        if automaton.pattern_len(pattern) == span.end - span.start {
            return Some(Match::new(pattern, span));
        }
    }
    None
}

/// The match at the state where a search stands, if there is one.
fn match_at<A: Automaton>(automaton: &A, input: &Input<'_>, cursor: &Cursor) -> Option<Match>
    requires { StandsIn (A.built automaton.now) (A.Reaches automaton.now) input.now cursor.now }
    ensures { IsTaken (A.built automaton.now) (A.matches automaton.now) input.now cursor.now result }
{
    if !automaton.is_match(cursor.sid) {
        return None;
    }
    match input.get_anchored() {
        Anchored::No => Some(first_match(automaton, cursor.sid, cursor.at)),
        Anchored::Yes => {
            let span = Span {
                start: cursor.from,
                end: cursor.at,
            };
            whole_match(automaton, cursor.sid, span)
        }
    }
}

/// Whether the first match that is found is the result.
pub(crate) fn takes_first<A: Automaton>(automaton: &A, input: &Input<'_>) -> bool
    ensures { IsTrue result ↔ (kind_asked (A.built automaton.now) input.now ≡ MatchKind.Standard) }
{
    match automaton.match_kind().asked(input.get_earliest()) {
        MatchKind::Standard => true,
        MatchKind::LeftmostFirst | MatchKind::LeftmostLongest => false,
    }
}

/// Whether a search that isn't anchored is back at the start.
pub(crate) fn is_back<A: Automaton>(automaton: &A, input: &Input<'_>, sid: StateID) -> bool
    requires { IsState (A.Reaches automaton.now) sid }
    ensures free { IsTrue result → input.now.anchored ≡ Anchored.No }
    ensures empty { BackIsEmpty A.Automaton automaton.now sid result }
{
    match input.get_anchored() {
        Anchored::No => automaton.is_start(sid),
        Anchored::Yes => false,
    }
}

/// Reads on to the next special state, or to the end of the span. Where no match was met, a start is none up to a place.
fn read_past_starts<A: Automaton>(
    automaton: &A,
    input: &Input<'_>,
    cursor: Cursor,
    none_yet: bool,
    until: usize,
    steps: &mut Steps,
) -> Cursor
    requires stands { StandsIn (A.built automaton.now) (A.Reaches automaton.now) input.now cursor }
    requires none { IsTrue none_yet → input.now.anchored ≡ Anchored.No → HasNoneYet (A.built automaton.now) input.now cursor }
    requires open { cursor.at < input.now.span.end }
    ensures stands { StandsIn (A.built automaton.now) (A.Reaches automaton.now) input.now result }
    ensures from { result.from ≡ cursor.from }
    ensures on { ReadsFurther (A.built automaton.now) input.now cursor result steps.old steps.new }
{
    let is_free = input.get_anchored() == Anchored::No;
    if cursor.at < until && is_free && none_yet {
        return read_to_match(automaton, input, cursor, until, steps);
    }
    read_on(automaton, input, cursor, steps)
}

/// Walks from the start state over the rest of the span, from a place on. As long as it has met no match, it doesn't stop at a start
/// before `until`.
fn walk<A: Automaton>(
    automaton: &A,
    input: &Input<'_>,
    start: StateID,
    at: usize,
    until: usize,
    steps: &mut Steps,
) -> End<Option<Match>>
    requires starts { A.Reaches automaton.now input.now.anchored [] start }
    requires from { input.now.span.start ≤ at }
    requires to { at ≤ input.now.span.end }
    ensures says { WalkSays (A.built automaton.now) input.now at result }
    ensures free { (place : ℕ) → result ≡ End.Idle place → input.now.anchored ≡ Anchored.No }
    ensures work { IsWalkCost (A.built automaton.now) input.now at result steps.old steps.new }
    ensures looks { WalkLooks (A.built automaton.now) input.now at result steps.old steps.new }
{
    let first_wins = takes_first(automaton, input);
    let end = input.end();
    let mut best = None;
    let mut cursor = Cursor {
        sid: start,
        from: at,
        at,
    };
    loop {
        best = match_at(automaton, input, &cursor).or(best);
        let won = first_wins && best.is_some();
        if won || cursor.at == end || automaton.is_dead(cursor.sid) {
            return End::Found(best);
        }
        if best.is_none() && cursor.at > at && is_back(automaton, input, cursor.sid) {
            return End::Idle(cursor.at);
        }
        let none_yet = best.is_none();
        cursor = read_past_starts(automaton, input, cursor, none_yet, until, steps);
    }
}

/// The prefilter that a search may use: there is one, the search isn't anchored, and nothing matches at the start itself.
pub(crate) fn usable_prefilter<'a, A: Automaton>(
    automaton: &'a A,
    anchored: Anchored,
    start: StateID,
) -> Option<&'a Prefilter>
    requires { A.Reaches automaton.now anchored [] start }
    ensures { IsUsable (A.built automaton.now) (A.matches automaton.now) anchored start result }
{
    match anchored {
        Anchored::Yes => None,
        Anchored::No => {
            if automaton.is_match(start) {
                None
            } else {
                automaton.prefilter()
            }
        }
    }
}

/// Runs the prefilter on the rest of the span, to find where a match may start.
///
/// Its match is the result, except in an earliest search under a leftmost kind: there another one may end sooner.
fn candidate<A: Automaton>(
    automaton: &A,
    prefilter: &Prefilter,
    input: &Input<'_>,
    at: usize,
    steps: &mut Steps,
) -> End<Option<Match>>
    requires made { prefilter.now.dictionary ≡ (A.built automaton.now).dictionary }
    requires free { input.now.anchored ≡ Anchored.No }
    requires from { input.now.span.start ≤ at }
    requires to { at ≤ input.now.span.end }
    ensures says { CandidateEnds (A.built automaton.now) input.now at result }
    ensures work { IsCandidateCost (A.built automaton.now) input.now at result steps.old steps.new }
    ensures counts { CandidateCounts prefilter.now (A.built automaton.now) input.now at result
        steps.old steps.new }
{
    let kind = automaton.match_kind();
    let rest = Span {
        start: at,
        end: input.end(),
    };
    match prefilter.find_in_counted(input.haystack(), rest, steps) {
        Candidate::None => End::Found(None),
        Candidate::Match(found) => {
            if kind.asked(input.get_earliest()) == kind {
                End::Found(Some(found))
            } else {
                End::Idle(found.start())
            }
        }
        Candidate::PossibleStartOfMatch(place) => End::Idle(place),
    }
}

/// Walks over the rest of the span from a place on, or from the prefilter's candidate.
fn search_from_candidate<A: Automaton>(
    automaton: &A,
    prefilter: Option<&Prefilter>,
    input: &Input<'_>,
    start: StateID,
    at: usize,
    gain: &mut Gain,
    steps: &mut Steps,
) -> End<Option<Match>>
    requires made { IfSome prefilter (λ p. p.now.dictionary ≡ (A.built automaton.now).dictionary) }
    requires own { IfSome prefilter (λ p. (A.built automaton.now).prefilter ≡ Some p.now) }
    requires free { IfSome prefilter (λ _. input.now.anchored ≡ Anchored.No) }
    requires starts { A.Reaches automaton.now input.now.anchored [] start }
    requires from { input.now.span.start ≤ at }
    requires to { at ≤ input.now.span.end }
    ensures says { WalkSays (A.built automaton.now) input.now at result }
    ensures free { (place : ℕ) → result ≡ End.Idle place → input.now.anchored ≡ Anchored.No }
    ensures work { IsSearchCost (A.built automaton.now) input.now at result steps.old steps.new }
    ensures counts { SearchCounts (A.built automaton.now) input.now at result steps.old steps.new }
{
    let Some(prefilter) = prefilter else {
        return walk(automaton, input, start, at, input.end(), steps);
    };
    if automaton.match_kind() == MatchKind::Standard {
        if let Some(until) = gain.leaves(at) {
            return walk(automaton, input, start, at, until, steps);
        }
    }
    match candidate(automaton, prefilter, input, at, steps) {
        End::Found(found) => End::Found(found),
        End::Idle(place) => {
            gain.passed(place.saturating_sub(at));
            walk(automaton, input, start, place, place, steps)
        }
    }
}

/// The match of the span, if it has one.
pub(crate) fn search<A: Automaton>(
    automaton: &A,
    prefilter: Option<&Prefilter>,
    input: &Input<'_>,
    start: StateID,
    steps: &mut Steps,
) -> Option<Match>
    requires made { IfSome prefilter (λ p. p.now.dictionary ≡ (A.built automaton.now).dictionary) }
    requires own { IfSome prefilter (λ p. (A.built automaton.now).prefilter ≡ Some p.now) }
    requires free { IfSome prefilter (λ _. input.now.anchored ≡ Anchored.No) }
    requires starts { A.Reaches automaton.now input.now.anchored [] start }
    requires ordered { input.now.span.start ≤ input.now.span.end }
    ensures found { IsFound (A.built automaton.now) input.now result }
    ensures cost { IsFindCost (A.built automaton.now) input.now steps.old steps.new result }
{
    let mut at = input.start();
    let mut gain = Gain::new(COST);
    loop {
        match search_from_candidate(automaton, prefilter, input, start, at, &mut gain, steps) {
            End::Found(found) => return found,
            End::Idle(place) => at = place,
        }
    }
}

/// The prefilter that a search of the input may use: there is none for few bytes, or where matches are a few bytes apart.
fn prefilter_for<'a, A: Automaton>(
    automaton: &'a A,
    input: &Input<'_>,
    start: StateID,
) -> Option<&'a Prefilter>
    requires starts { A.Reaches automaton.now input.now.anchored [] start }
    requires ordered { input.now.span.start ≤ input.now.span.end }
    ensures usable { IfSome result (λ p. IsUsable (A.built automaton.now) (A.matches automaton.now)
        input.now.anchored start (Some p)) }
    ensures few { IsShort input.now → result ≡ None }
{
    if input.end() - input.start() < FEW {
        return None;
    }
    let prefilter = usable_prefilter(automaton, input.get_anchored(), start)?;
    if prefilter.finds_close() && automaton.reads_quickly() {
        return None;
    }
    Some(prefilter)
}

/// The match of the input, if it has one; counts what it does.
///
/// Returns an error if the automaton has no start for the input's anchoring, even where the search is over before it begins.
pub fn find<A: Automaton>(
    automaton: &A,
    input: &Input<'_>,
    steps: &mut Steps,
) -> Result<Option<Match>, MatchError>
    ensures answer { Finds (A.built automaton.now).dictionary (A.supports automaton.now) input.now result }
    ensures within { FindsWithin (A.built automaton.now).dictionary input.now result }
    ensures cost { CostsFind (A.built automaton.now) input.now steps.old steps.new result }
{
    let start = automaton.start_state(input.get_anchored())?;
    // as `is_done`, but `end` says also that the span ends within the haystack
    if input.start() > input.end() {
        return Ok(None);
    }
    if let Some(prefilter) = prefilter_for(automaton, input, start) {
        return Ok(search(automaton, Some(prefilter), input, start, steps));
    }
    Ok(plain::find(automaton, input, start, steps))
}
