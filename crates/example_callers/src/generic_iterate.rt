//! Going over all matches, by any automaton.
ghost use Rattle.std.specs.Prelude.{◌≡◌, ◌≤◌, length, IfOk};
ghost use Rattle.ac_input.specs.declared.search.MatchKind.TheVariants.{Standard};
ghost use Rattle.ac_automaton.specs.InMemory.Replace.{matches_in};
ghost use Rattle.example_callers.specs.Callers.{TwoLooks, bytes_in};

use ac_automaton::error::{MatchError, ReplaceError};
use ac_automaton::search::Search;
use ac_input::search::{Anchored, Input, Match};
use ac_input::steps::Steps;
use std::alloc::{AllocError, Global};

/// All matches of the text, one after another. They are the same where the text is read ahead.
pub fn all_matches<A: Search>(
    automaton: &A,
    alloc: Global,
    text: &[u8],
    ahead: bool,
) -> Result<Vec<Match>, AllocError>
    requires { A.supports automaton.now Anchored.No }
    ensures { IfOk result (λ v. v.items ≡ matches_in (A.built automaton.now) text.now) }
{
    let input = Input::new(text);
    if ahead {
        automaton.try_find_iter_ahead(input).unwrap().collect(alloc)
    } else {
        automaton.try_find_iter(input).unwrap().collect(alloc)
    }
}

/// How many matches the text has.
pub fn count_matches<A: Search>(automaton: &A, text: &[u8]) -> usize
    requires { A.supports automaton.now Anchored.No }
    ensures { result ≡ length (matches_in (A.built automaton.now) text.now) }
{
    automaton.try_find_iter(Input::new(text)).unwrap().count()
}

/// How many bytes of the text lie in matches. Matches never overlap, so they are no more than the text has.
pub fn bytes_matched<A: Search>(automaton: &A, text: &[u8]) -> Result<usize, MatchError>
    ensures value { IfOk result
        (λ n. n ≡ bytes_in (matches_in (A.built automaton.now) text.now)) }
    ensures within { IfOk result (λ n. n ≤ length text.now) }
{
    let mut bytes = 0;
    for found in automaton.try_find_iter(Input::new(text))? {
        bytes += found.len();
    }
    Ok(bytes)
}

/// Goes over all matches of the text. Under the standard kind that takes two looks at states for each byte at most, however many
/// matches there are.
pub fn pass_matches<A: Search>(automaton: &A, text: &[u8], steps: &mut Steps)
    requires supports { A.supports automaton.now Anchored.No }
    requires standard { (A.built automaton.now).dictionary.kind ≡ Standard }
    ensures { TwoLooks steps.old steps.new (length text.now) }
{
    let mut matches = automaton.try_find_iter(Input::new(text)).unwrap();
    while let Some(_) = matches.next_counted(steps) {}
}

/// The same of a text that is read ahead: a look counts when it is made, and none is made twice.
pub fn pass_matches_ahead<A: Search>(automaton: &A, text: &[u8], steps: &mut Steps)
    requires supports { A.supports automaton.now Anchored.No }
    requires standard { (A.built automaton.now).dictionary.kind ≡ Standard }
    ensures { TwoLooks steps.old steps.new (length text.now) }
{
    let input = Input::new(text);
    let mut matches = automaton.try_find_iter_ahead(input).unwrap();
    while let Some(_) = matches.next_counted(steps) {}
}

/// The bytes of each match.
pub fn texts<'h, A: Search>(
    automaton: &A,
    alloc: Global,
    text: &'h [u8],
) -> Result<Vec<&'h [u8]>, ReplaceError> {
    let mut texts = Vec::new(alloc);
    for found in automaton.try_find_iter(Input::new(text))? {
        texts.push(found.span().of(text)).map_err(AllocError::from)?;
    }
    Ok(texts)
}

/// The name of each match's pattern, where each pattern has one.
pub fn names<'n, A: Search>(
    automaton: &A,
    alloc: Global,
    names: &[&'n str],
    text: &[u8],
) -> Result<Vec<&'n str>, ReplaceError>
    requires { length names.now ≡ length (A.built automaton.now).dictionary.patterns }
{
    let mut found_names = Vec::new(alloc);
    for found in automaton.try_find_iter(Input::new(text))? {
        found_names
            .push(*found.pattern().of(names))
            .map_err(AllocError::from)?;
    }
    Ok(found_names)
}

/// How many matches there are, and how many bytes the longest has.
pub fn count_and_longest<A: Search>(
    automaton: &A,
    text: &[u8],
) -> Result<(usize, usize), MatchError> {
    let count = automaton.try_find_iter(Input::new(text))?.count();
    let mut longest = 0;
    for found in automaton.try_find_iter(Input::new(text))? {
        longest = found.len().max(longest);
    }
    Ok((count, longest))
}
