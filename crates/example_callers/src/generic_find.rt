//! Searches for one match, by any automaton.
ghost use Rattle.std.specs.Prelude.{◌≡◌, ◌↔◌, ◌-◌, ◌<◌, false, length, option_map, IfOk, IfSome, IsTrue};
ghost use Rattle.ac_input.specs.declared.search.MatchKind.TheVariants.{Standard};
ghost use Rattle.ac_input.specs.Dictionary.{whole};
ghost use Rattle.ac_input.specs.Input.{IsSpanOf};
ghost use Rattle.aho_corasick.specs.Callers.{BeginsWithPattern, IsFirstEnd, IsMostBytes, OccursIn, first_in};
ghost use Rattle.example_callers.specs.Callers.{LiesIn, TwoLooks};

use ac_automaton::automaton::Automaton;
use ac_automaton::error::MatchError;
use ac_automaton::search::Search;
use ac_input::primitives::PatternID;
use ac_input::search::{Anchored, Input, Match, Span};
use ac_input::steps::Steps;

/// Whether any of the patterns occurs in the text.
pub fn contains_any<A: Search>(automaton: &A, text: &[u8]) -> Result<bool, MatchError>
    ensures { IfOk result (λ it. IsTrue it
        ↔ OccursIn (A.built automaton.now).dictionary text.now) }
{
    Ok(automaton.try_find(&Input::new(text))?.is_some())
}

/// The match of the text, where the automaton can search from any place.
pub fn first_match<A: Search>(automaton: &A, text: &[u8]) -> Option<Match>
    requires { A.supports automaton.now Anchored.No }
    ensures { result ≡ first_in (A.built automaton.now).dictionary text.now }
{
    automaton.try_find(&Input::new(text)).unwrap()
}

/// The same, by the method that an automaton may override.
pub fn found_by_search<A: Search>(automaton: &A, text: &[u8], steps: &mut Steps) -> Option<Match>
    requires { A.supports automaton.now Anchored.No }
    ensures { result ≡ first_in (A.built automaton.now).dictionary text.now }
{
    automaton.search(&Input::new(text), steps).unwrap()
}

/// Whether one of the patterns begins the text, by an anchored search.
pub fn begins_with_any<A: Search>(automaton: &A, text: &[u8]) -> bool
    requires { A.supports automaton.now Anchored.Yes }
    ensures { IsTrue result
        ↔ BeginsWithPattern (A.built automaton.now).dictionary text.now }
{
    let input = Input::new(text).anchored(Anchored::Yes);
    automaton.try_find(&input).unwrap().is_some()
}

/// The least place at which an occurrence ends, by an earliest search.
pub fn first_end<A: Search>(automaton: &A, text: &[u8]) -> Option<usize>
    requires { A.supports automaton.now Anchored.No }
    ensures { IsFirstEnd (whole (A.built automaton.now).dictionary text.now false) result }
{
    let input = Input::new(text).earliest(true);
    let found = automaton.try_find(&input).unwrap()?;
    Some(found.end())
}

/// The match of a part of the text. It lies in that part.
pub fn match_in<A: Search>(automaton: &A, text: &[u8], part: Span) -> Option<Match>
    requires supports { A.supports automaton.now Anchored.No }
    requires span { IsSpanOf text.now part }
    ensures { IfSome result (LiesIn part) }
{
    automaton.try_find(&Input::new(text).span(part)).unwrap()
}

/// The match of the text, and what it costs: two looks at states for each byte of the text at most, and under the standard kind
/// for each byte up to the match's end.
pub fn first_match_counted<A: Search>(
    automaton: &A,
    text: &[u8],
    steps: &mut Steps,
) -> Option<Match>
    requires { A.supports automaton.now Anchored.No }
    ensures linear { TwoLooks steps.old steps.new (length text.now) }
    ensures early { (A.built automaton.now).dictionary.kind ≡ Standard
        → IfSome result (λ o. TwoLooks steps.old steps.new o.end) }
{
    automaton
        .try_find_counted(&Input::new(text), steps)
        .unwrap()
}

/// Whether the text is long enough for a match: no pattern occurs in a text that is shorter than the shortest one.
pub fn may_match<A: Automaton>(automaton: &A, text: &[u8]) -> bool
    ensures { OccursIn (A.built automaton.now).dictionary text.now → IsTrue result }
{
    text.len() >= automaton.min_pattern_len()
}

/// How many bytes an occurrence has at most. If you cut a text, hold back this many bytes, and you lose none.
pub fn most_bytes<A: Automaton>(automaton: &A) -> usize
    ensures { IsMostBytes (A.built automaton.now).dictionary result }
{
    automaton.max_pattern_len()
}

/// The pattern of this number, if there is one.
pub fn numbered<A: Automaton>(automaton: &A, number: usize) -> Option<PatternID>
    ensures { IfSome result (λ p. p < length (A.built automaton.now).dictionary.patterns) }
{
    if number < automaton.patterns_len() {
        PatternID::new(number).ok()
    } else {
        None
    }
}

/// How many bytes the first match has, as many as its pattern.
pub fn match_len<A: Search>(automaton: &A, text: &[u8]) -> Option<usize>
    requires { A.supports automaton.now Anchored.No }
    ensures { result ≡ option_map (λ o. o.end - o.start)
        (first_in (A.built automaton.now).dictionary text.now) }
{
    let found = first_match(automaton, text)?;
    Some(automaton.pattern_len(found.pattern()))
}

/// The match of the text by two automata of the same patterns, pairing and kind. It is the same, with a prefilter or without.
pub fn find_by_both<A: Search, B: Search>(
    one: &A,
    other: &B,
    text: &[u8],
) -> (Option<Match>, Option<Match>)
    requires same { (A.built one.now).dictionary ≡ (B.built other.now).dictionary }
    requires one { A.supports one.now Anchored.No }
    requires other { B.supports other.now Anchored.No }
    ensures { result.0 ≡ result.1 }
{
    (first_match(one, text), first_match(other, text))
}

/// The bytes of the first match.
pub fn first_text<'h, A: Search>(
    automaton: &A,
    text: &'h [u8],
) -> Result<Option<&'h [u8]>, MatchError> {
    match automaton.try_find(&Input::new(text))? {
        Some(found) => Ok(Some(&text[found.start()..found.end()])),
        None => Ok(None),
    }
}
