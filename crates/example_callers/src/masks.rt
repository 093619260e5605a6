//! Masks, and whole words.
ghost use Rattle.std.specs.Prelude.{◌≡◌, ◌≤◌, None, IfOk, false, length};
ghost use Rattle.ac_input.specs.declared.search.MatchKind.TheVariants.{LeftmostLongest, Standard};
ghost use Rattle.ac_input.specs.Dictionary.{whole};
ghost use Rattle.ac_input.specs.Walk.{IsPickAmong};
ghost use Rattle.ac_input.specs.Word.{OccursWhole};
ghost use Rattle.ac_automaton.specs.Masking.{masked_in};
ghost use Rattle.aho_corasick.specs.AhoCorasick.{as_built, kind_of, supported_by};

use aho_corasick::{AhoCorasick, Anchored, Match, MatchError, MatchKind, Steps};

/// Hides each occurrence in the text behind stars.
pub fn hide(ac: &AhoCorasick, text: &mut [u8])
    requires supports { supported_by ac.now Anchored.No }
    requires standard { kind_of ac.now ≡ Standard }
    ensures { text.new ≡ masked_in (as_built ac.now) 42 text.old }
{
    ac.mask(text, b'*');
}

/// The first whole word of the text, the longest of those that begin there.
pub fn first_word(ac: &AhoCorasick, text: &[u8]) -> Result<Option<Match>, MatchError>
    ensures { IfOk result
        (IsPickAmong OccursWhole LeftmostLongest (whole (as_built ac.now).dictionary text.now false) 0 None) }
{
    let mut words = ac.try_find_word_iter(MatchKind::LeftmostLongest, text)?;
    let mut steps = Steps::new();
    Ok(words.next_counted(&mut steps))
}

/// The next whole word of a caller who keeps a place, and the place to go on from.
pub fn next_word(
    ac: &AhoCorasick,
    kind: MatchKind,
    text: &[u8],
    place: usize,
) -> Result<(Option<Match>, usize), MatchError>
    requires { place ≤ length text.now }
    ensures next { IfOk result
        (λ r. IsPickAmong OccursWhole kind (whole (as_built ac.now).dictionary text.now false) place None r.0) }
    ensures within { IfOk result (λ r. r.1 ≤ length text.now) }
{
    let mut words = ac.try_find_word_iter_from(kind, text, place)?;
    let word = words.next_counted(&mut Steps::new());
    Ok((word, words.place()))
}
