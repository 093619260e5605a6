//! Overlapping occurrences.
ghost use Rattle.std.specs.Prelude.{◌≡◌, ◌↔◌, false, slice_get, IfOk, IsTrue};
ghost use Rattle.ac_input.specs.declared.search.MatchKind.TheVariants.{Standard};
ghost use Rattle.ac_input.specs.Dictionary.{whole};
ghost use Rattle.ac_input.specs.Input.{whole_of};
ghost use Rattle.ac_input.specs.Listing.{IsListing};
ghost use Rattle.ac_automaton.specs.Automaton.{listing_in};
ghost use Rattle.aho_corasick.specs.AhoCorasick.{as_built, kind_of, supported_by};

use aho_corasick::{
    AhoCorasick, Anchored, Input, Match, MatchError, MatchKind, OverlappingState, PatternID,
};
use std::alloc::{AllocError, Global};

/// All occurrences in the text, overlapping ones too, each once, by end, start and number.
pub fn all_occurrences(
    ac: &AhoCorasick,
    alloc: Global,
    text: &[u8],
) -> Result<Vec<Match>, AllocError>
    requires supports { supported_by ac.now Anchored.No }
    requires standard { (as_built ac.now).dictionary.kind ≡ Standard }
    ensures { IfOk result
        (λ v. IsListing (whole (as_built ac.now).dictionary text.now false) v.items) }
{
    ac.find_overlapping_iter(Input::new(text)).collect(alloc)
}

/// Whether the occurrences in the text can be listed: that needs the standard kind, and a start for unanchored searches.
pub fn has_listing(ac: &AhoCorasick, text: &[u8]) -> bool
    ensures { IsTrue result
        ↔ supported_by ac.now Anchored.No × (kind_of ac.now ≡ Standard) }
{
    ac.try_find_overlapping_iter(Input::new(text)).is_ok()
}

/// The occurrence of this index, counted from 0, by calls that go on from where the last one stood.
pub fn occurrence(ac: &AhoCorasick, text: &[u8], index: usize) -> Option<Match>
    requires supports { supported_by ac.now Anchored.No }
    requires standard { (as_built ac.now).dictionary.kind ≡ Standard }
    ensures { result ≡ slice_get (listing_in (as_built ac.now) (whole_of text.now)) index }
{
    let mut state = OverlappingState::start();
    for _ in 0..index {
        ac.find_overlapping(Input::new(text), &mut state);
    }
    ac.find_overlapping(Input::new(text), &mut state);
    state.get_match()
}

/// The first occurrence in the text: of those that end first the one that starts first.
pub fn first_occurrence(ac: &AhoCorasick, text: &[u8]) -> Result<Option<Match>, MatchError>
    ensures { IfOk result
        (λ it. it ≡ slice_get (listing_in (as_built ac.now) (whole_of text.now)) 0) }
{
    let mut state = OverlappingState::start();
    ac.try_find_overlapping(Input::new(text), &mut state)?;
    Ok(state.get_match())
}

/// The pattern of each occurrence, overlapping ones too.
pub fn all_patterns(
    ac: &AhoCorasick,
    alloc: Global,
    text: &str,
) -> Result<Vec<PatternID>, AllocError>
    requires can { supported_by ac.now Anchored.No }
    requires standard { kind_of ac.now ≡ MatchKind.Standard }
{
    ac.find_overlapping_iter(Input::from(text))
        .map(|found| found.pattern())
        .collect(alloc)
}

/// How many occurrences there are, overlapping ones too. It is an error where the automaton can't list them.
pub fn count_all(ac: &AhoCorasick, text: &str) -> Result<u64, MatchError> {
    let mut count: u64 = 0;
    for _ in ac.try_find_overlapping_iter(Input::from(text))? {
        count = count.saturating_add(1);
    }
    Ok(count)
}

/// The second occurrence, by a state that goes on from the first.
pub fn second(ac: &AhoCorasick, text: &str) -> Option<Match>
    requires can { supported_by ac.now Anchored.No }
    requires standard { kind_of ac.now ≡ MatchKind.Standard }
{
    let mut state = OverlappingState::start();
    ac.find_overlapping(Input::from(text), &mut state);
    ac.find_overlapping(Input::from(text), &mut state);
    state.get_match()
}
