//! One match after another.
ghost use Rattle.std.specs.Prelude.{◌≡◌, length, IfOk};
ghost use Rattle.ac_input.specs.Same.{IsUnpaired};
ghost use Rattle.ac_literal.specs.Packed.{search_kind};
ghost use Rattle.ac_automaton.specs.InMemory.Replace.{matches_in};
ghost use Rattle.aho_corasick.specs.AhoCorasick.{as_built, supported_by};

use ac_literal::packed::Searcher;
use aho_corasick::laws::packed_walks_alike;
use aho_corasick::{AhoCorasick, Anchored, Input, Match, MatchError, PatternID, ReplaceError};
use std::alloc::{AllocError, Global};

/// All matches of the text, one after another.
pub fn all_matches(ac: &AhoCorasick, alloc: Global, text: &[u8]) -> Result<Vec<Match>, AllocError>
    requires { supported_by ac.now Anchored.No }
    ensures { IfOk result (λ v. v.items ≡ matches_in (as_built ac.now) text.now) }
{
    ac.find_iter(Input::new(text)).collect(alloc)
}

/// The same matches, of a text that is read ahead.
pub fn all_matches_ahead(
    ac: &AhoCorasick,
    alloc: Global,
    text: &[u8],
) -> Result<Vec<Match>, AllocError>
    requires { supported_by ac.now Anchored.No }
    ensures { IfOk result (λ v. v.items ≡ matches_in (as_built ac.now) text.now) }
{
    ac.find_iter_ahead(Input::new(text)).collect(alloc)
}

/// How many matches the text has.
pub fn count_matches(ac: &AhoCorasick, text: &[u8]) -> Result<usize, MatchError>
    ensures { IfOk result (λ count. count ≡ length (matches_in (as_built ac.now) text.now)) }
{
    Ok(ac.try_find_iter(Input::new(text))?.count())
}

/// The same, of a text that is read ahead.
pub fn count_matches_ahead(ac: &AhoCorasick, text: &[u8]) -> Result<usize, MatchError>
    ensures { IfOk result (λ count. count ≡ length (matches_in (as_built ac.now) text.now)) }
{
    Ok(ac.try_find_iter_ahead(Input::new(text))?.count())
}

/// How many matches the text has, by packed search and by the automaton of the same patterns and kind: as many.
pub fn count_by_both(ac: &AhoCorasick, searcher: &Searcher, text: &[u8]) -> (usize, usize)
    requires supports { supported_by ac.now Anchored.No }
    requires same { searcher.now.patterns ≡ (as_built ac.now).dictionary.patterns }
    requires kind { search_kind searcher.now.kind ≡ (as_built ac.now).dictionary.kind }
    requires unpaired { IsUnpaired (as_built ac.now).dictionary.pairing }
    ensures { result.0 ≡ result.1 }
{
    packed_walks_alike();
    let found = ac.find_iter(Input::new(text)).count();
    (searcher.find_iter(text).count(), found)
}

/// The pattern of each match, and where the match starts and ends.
pub fn places(
    ac: &AhoCorasick,
    alloc: Global,
    text: &str,
) -> Result<Vec<(PatternID, usize, usize)>, AllocError>
    requires { supported_by ac.now Anchored.No }
{
    let mut places = Vec::new(alloc);
    for found in ac.find_iter(Input::from(text)) {
        places.push((found.pattern(), found.start(), found.end()))?;
    }
    Ok(places)
}

/// The matches that follow one another from the start of the text on, without a gap.
pub fn adjacent(ac: &AhoCorasick, alloc: Global, text: &str) -> Result<Vec<Match>, ReplaceError> {
    let input = Input::from(text).anchored(Anchored::Yes);
    let found = ac.try_find_iter(input)?.collect(alloc)?;
    Ok(found)
}
