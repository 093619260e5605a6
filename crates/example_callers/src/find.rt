//! Searches for one match.
ghost use Rattle.std.specs.Prelude.{◌≡◌, ◌↔◌, length, IfOk, IsTrue};
ghost use Rattle.aho_corasick.specs.AhoCorasick.{as_built, supported_by};
ghost use Rattle.aho_corasick.specs.Callers.{BeginsWithPattern, OccursIn, first_in};
ghost use Rattle.example_callers.specs.Callers.{TwoLooks};

use aho_corasick::{AhoCorasick, Anchored, Input, Match, MatchError, Steps};

/// Whether any of the patterns occurs in the text.
pub fn contains_any(ac: &AhoCorasick, text: &[u8]) -> bool
    requires { supported_by ac.now Anchored.No }
    ensures { IsTrue result ↔ OccursIn (as_built ac.now).dictionary text.now }
{
    ac.is_match(Input::new(text))
}

/// The match of the text.
pub fn first_match(ac: &AhoCorasick, text: &[u8]) -> Option<Match>
    requires { supported_by ac.now Anchored.No }
    ensures { result ≡ first_in (as_built ac.now).dictionary text.now }
{
    ac.find(Input::new(text))
}

/// Whether one of the patterns begins the text, where the automaton serves anchored searches.
pub fn begins_with_any(ac: &AhoCorasick, text: &[u8]) -> Result<bool, MatchError>
    ensures { IfOk result (λ it. IsTrue it
        ↔ BeginsWithPattern (as_built ac.now).dictionary text.now) }
{
    let found = ac.try_find(Input::new(text).anchored(Anchored::Yes))?;
    Ok(found.is_some())
}

/// The match of the text, and what it costs: two looks at states for each byte of the text at most.
pub fn first_match_counted(
    ac: &AhoCorasick,
    text: &[u8],
    steps: &mut Steps,
) -> Result<Option<Match>, MatchError>
    ensures { IfOk result (λ found. TwoLooks steps.old steps.new (length text.now)) }
{
    ac.try_find_counted(Input::new(text), steps)
}

/// The part of the text that the first match covers.
pub fn first_text<'t>(ac: &AhoCorasick, text: &'t str) -> Option<&'t str>
    requires { supported_by ac.now Anchored.No }
{
    let found = ac.find(Input::from(text))?;
    text.get(found.range())
}

/// The match that begins at this place. It is an error where the automaton has no start for anchored searches.
pub fn match_at(ac: &AhoCorasick, text: &str, place: usize) -> Result<Option<Match>, MatchError> {
    if place > text.len() {
        return Ok(None);
    }
    let input = Input::from(text)
        .range(place..text.len())
        .anchored(Anchored::Yes);
    ac.try_find(input)
}

/// Where the first occurrence ends, whatever the match kind. The work is counted, for a contract.
pub fn first_end(
    ac: &AhoCorasick,
    text: &str,
    steps: &mut Steps,
) -> Result<Option<usize>, MatchError> {
    let found = ac.try_find_counted(Input::from(text).earliest(true), steps)?;
    Ok(found.map(|found| found.end()))
}
