//! Overlapping searches, by any automaton.
ghost use Rattle.std.specs.Prelude.{◌≡◌, ◌↔◌, false, length, slice_get, IfOk, IsTrue};
ghost use Rattle.ac_input.specs.declared.search.MatchKind.TheVariants.{Standard};
ghost use Rattle.ac_input.specs.Dictionary.{whole};
ghost use Rattle.ac_input.specs.Input.{whole_of};
ghost use Rattle.ac_input.specs.Listing.{IsListing};
ghost use Rattle.ac_automaton.specs.Automaton.{listing_in};
ghost use Rattle.example_callers.specs.Callers.{TwoLooks};

use ac_automaton::automaton::Automaton;
use ac_automaton::error::{MatchError, ReplaceError};
use ac_automaton::overlapping::OverlappingState;
use ac_automaton::search::Search;
use ac_input::search::{Anchored, Input, Match, MatchKind};
use ac_input::steps::Steps;
use std::alloc::{AllocError, Global};

/// Whether the automaton is of the kind that can show all occurrences.
pub fn can_list<A: Automaton>(automaton: &A) -> bool
    ensures { IsTrue result ↔ ((A.built automaton.now).dictionary.kind ≡ Standard) }
{
    matches!(automaton.match_kind(), MatchKind::Standard)
}

/// All occurrences in the text, overlapping ones too, each once, by end, start and number.
pub fn all_occurrences<A: Search>(
    automaton: &A,
    alloc: Global,
    text: &[u8],
) -> Result<Vec<Match>, AllocError>
    requires supports { A.supports automaton.now Anchored.No }
    requires standard { (A.built automaton.now).dictionary.kind ≡ Standard }
    ensures { IfOk result (λ v. IsListing
        (whole (A.built automaton.now).dictionary text.now false) v.items) }
{
    automaton
        .try_find_overlapping_iter(Input::new(text))
        .unwrap()
        .collect(alloc)
}

/// The occurrence of this index, counted from 0, by calls that go on from where the last one stood.
pub fn occurrence<A: Search>(automaton: &A, text: &[u8], index: usize) -> Option<Match>
    requires supports { A.supports automaton.now Anchored.No }
    requires standard { (A.built automaton.now).dictionary.kind ≡ Standard }
    ensures { result ≡ slice_get (listing_in (A.built automaton.now) (whole_of text.now)) index }
{
    let input = Input::new(text);
    let mut state = OverlappingState::start();
    for _ in 0..index {
        automaton.try_find_overlapping(&input, &mut state).unwrap();
    }
    automaton.try_find_overlapping(&input, &mut state).unwrap();
    state.get_match()
}

/// Goes over all occurrences in the text. That takes two looks at states for each byte at most, however many there are.
pub fn pass_occurrences<A: Search>(automaton: &A, text: &[u8], steps: &mut Steps)
    requires supports { A.supports automaton.now Anchored.No }
    requires standard { (A.built automaton.now).dictionary.kind ≡ Standard }
    ensures { TwoLooks steps.old steps.new (length text.now) }
{
    let mut occurrences = automaton
        .try_find_overlapping_iter(Input::new(text))
        .unwrap();
    while let Some(_) = occurrences.next_counted(steps) {}
}

/// Counts how often each pattern occurs, overlapping occurrences too, up to `u64::MAX`.
pub fn add_frequencies<A: Search>(
    automaton: &A,
    text: &[u8],
    counts: &mut [u64],
) -> Result<(), MatchError>
    requires { length counts.old ≡ length (A.built automaton.now).dictionary.patterns }
{
    for found in automaton.try_find_overlapping_iter(Input::new(text))? {
        let pattern = found.pattern().as_usize();
        counts[pattern] = counts[pattern].saturating_add(1);
    }
    Ok(())
}

/// The bytes of each occurrence, overlapping ones too.
pub fn overlapping_texts<'h, A: Search>(
    automaton: &A,
    alloc: Global,
    text: &'h [u8],
) -> Result<Vec<&'h [u8]>, ReplaceError> {
    let mut texts = Vec::new(alloc);
    for found in automaton.try_find_overlapping_iter(Input::new(text))? {
        texts.push(&text[found.range()]).map_err(AllocError::from)?;
    }
    Ok(texts)
}
