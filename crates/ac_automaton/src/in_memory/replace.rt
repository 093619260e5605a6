//! Replacement in memory.
//!
//! The matches of a haystack are taken one after another, as [`FindIter`](crate::iter::FindIter) returns them, or its whole words, as
//! [`FindWordIter`](crate::in_memory::words::FindWordIter) does. The text between two of them is copied, and the replacement is put
//! in place of the match. The result is one piece of memory, at first as large as the haystack; it grows as any `Vec` does if the
//! replacements are longer than what they replace.
//!
//! In a text a match may begin or end within a character, if a pattern isn't text itself. Such a match is skipped, so that the
//! result stays text.
ghost use Rattle.std.specs.Prelude.{◌≡◌, ◌+◌, ◌++◌, [], ◌∷◌, get_or, length, map, slice_range, IfOk, IfSome, IsTrue};
ghost use Rattle.std.specs.Iterator.{YieldsFirst};
ghost use Rattle.ac_automaton.specs.InMemory.Replace.{IsForMatches, LieInOrder, TakesMatches, RepliesAt, ReplacesText, ReplacesBytes, ReplacesTextWith, ReplacesBytesWith, cuts_none, text_left_of};
ghost use Rattle.ac_automaton.specs.InMemory.Words.Replace.{ReplacesWholeWords};

use crate::automaton::Automaton;
use crate::error::ReplaceError;
use crate::in_memory::iter::FindIter;
use crate::in_memory::words::find_word_iter;
use crate::search::Search;
use ac_input::search::{Input, Match, MatchKind};
use std::alloc::{AllocError, Global};

/// Appends the haystack from a place to a match, and the replacement of its pattern.
fn push_replaced(
    replaced: &mut Vec<u8>,
    haystack: &[u8],
    at: usize,
    found: &Match,
    replacements: &[&[u8]],
) -> Result<(), AllocError>
    requires lies { LieInOrder (length replacements.now) (length haystack.now) at (found.now ∷ []) }
    ensures { IfOk result (λ _. replaced.new.items
        ≡ (replaced.old.items ++ slice_range haystack.now at found.now.start)
        ++ get_or (map (λ r. r.now) replacements.now) found.now.pattern []) }
{
    replaced.extend_from_slice(&haystack[at..found.start()])?;
    replaced.extend_from_slice(replacements[found.pattern().as_usize()])
}

/// The haystack with each match replaced by the replacement of its pattern.
pub fn replace_all_bytes<A: Search>(
    automaton: &A,
    alloc: Global,
    haystack: &[u8],
    replacements: &[&[u8]],
) -> Result<Vec<u8>, ReplaceError>
    requires { length replacements.now ≡ length (A.built automaton.now).dictionary.patterns }
    ensures { ReplacesBytes (A.built automaton.now) (A.supports automaton.now) haystack.now
        replacements.now result }
{
    let mut matches = automaton.try_find_iter(Input::new(haystack))?;
    let mut replaced = Vec::with_capacity(alloc, haystack.len())?;
    let mut at = 0;
    while let Some(found) = matches.next() {
        push_replaced(&mut replaced, haystack, at, &found, replacements)?;
        at = found.end();
    }
    replaced.extend_from_slice(&haystack[at..])?;
    Ok(replaced)
}

/// The haystack with each of its whole words under a kind replaced by the replacement of its pattern.
pub(crate) fn replace_words<A: Search>(
    automaton: &A,
    kind: MatchKind,
    alloc: Global,
    haystack: &[u8],
    replacements: &[&[u8]],
) -> Result<Vec<u8>, ReplaceError>
    requires { length replacements.now ≡ length (A.built automaton.now).dictionary.patterns }
    ensures { ReplacesWholeWords (A.built automaton.now) (A.supports automaton.now) kind haystack.now
        replacements.now result }
{
    let mut words = find_word_iter(automaton, kind, haystack)?;
    let mut replaced = Vec::with_capacity(alloc, haystack.len())?;
    let mut at = 0;
    while let Some(found) = words.next() {
        push_replaced(&mut replaced, haystack, at, &found, replacements)?;
        at = found.end();
    }
    replaced.extend_from_slice(&haystack[at..])?;
    Ok(replaced)
}

/// Whether the match begins and ends between characters of the text.
fn is_whole(text: &str, found: &Match) -> bool
    ensures { result ≡ cuts_none text.now found.now }
{
    text.is_char_boundary(found.start()) && text.is_char_boundary(found.end())
}

/// The next match that begins and ends between characters of the text.
fn next_whole<A: Search>(matches: &mut FindIter<'_, '_, A>, text: &str) -> Option<Match>
    ensures gives { YieldsFirst (text_left_of text.now) matches.old result matches.new }
    ensures whole { IfSome result (λ found. IsTrue (cuts_none text.now found)) }
{
    while let Some(found) = matches.next() {
        if is_whole(text, &found) {
            return Some(found);
        }
    }
    None
}

/// The text with each match that cuts no character replaced by the replacement of its pattern.
pub fn replace_all<A: Search>(
    automaton: &A,
    alloc: Global,
    haystack: &str,
    replacements: &[&str],
) -> Result<String, ReplaceError>
    requires { length replacements.now ≡ length (A.built automaton.now).dictionary.patterns }
    ensures { ReplacesText (A.built automaton.now) (A.supports automaton.now) haystack.now
        replacements.now result }
{
    let mut matches = automaton.try_find_iter(Input::new(haystack.as_bytes()))?;
    let mut replaced = String::with_capacity(alloc, haystack.len())?;
    let mut at = 0;
    while let Some(found) = next_whole(&mut matches, haystack) {
        replaced.push_str(&haystack[at..found.start()])?;
        replaced.push_str(replacements[found.pattern().as_usize()])?;
        at = found.end();
    }
    replaced.push_str(&haystack[at..])?;
    Ok(replaced)
}

/// Appends the haystack to the destination, and in place of each match what the closure appends. Once the closure returns `false`
/// it is not called again, and the rest is copied.
pub fn replace_all_with_bytes<A: Search, F>(
    automaton: &A,
    haystack: &[u8],
    dst: &mut Vec<u8>,
    mut replace_with: F,
) -> Result<(), ReplaceError>
where
    F: FnMut(&Match, &[u8], &mut Vec<u8>) -> Result<bool, AllocError>,
    requires { IsForMatches F.FnMut (length (A.built automaton.now).dictionary.patterns)
        replace_with }
    ensures { ReplacesBytesWith F.FnMut (A.built automaton.now) (A.supports automaton.now)
        haystack.now replace_with dst.old dst.new result }
{
    let mut matches = automaton.try_find_iter(Input::new(haystack))?;
    let mut at = 0;
    while let Some(found) = matches.next() {
        dst.extend_from_slice(&haystack[at..found.start()])?;
        at = found.end();
        let goes_on = replace_with(&found, &haystack[found.start()..at], dst)?;
        if !goes_on {
            dst.extend_from_slice(&haystack[at..])?;
            return Ok(());
        }
    }
    dst.extend_from_slice(&haystack[at..])?;
    Ok(())
}

/// Calls the closure at a match of a text.
// A function of its own, since in a loop that slices the text the check states a goal for such a call that the code does not need.
fn call<F>(f: &mut F, found: &Match, matched: &str, dst: &mut String) -> Result<bool, AllocError>
where
    F: FnMut(&Match, &str, &mut String) -> Result<bool, AllocError>,
    requires { TakesMatches F.FnMut (found.now.pattern + 1) f.old }
    ensures { RepliesAt F.FnMut f.old found.now matched.now dst.old result
        f.new dst.new }
{
    f(found, matched, dst)
}

/// Appends the text to the destination, and in place of each match that cuts no character what the closure appends. Once the
/// closure returns `false` it is not called again, and the rest is copied.
pub fn replace_all_with<A: Search, F>(
    automaton: &A,
    haystack: &str,
    dst: &mut String,
    mut replace_with: F,
) -> Result<(), ReplaceError>
where
    F: FnMut(&Match, &str, &mut String) -> Result<bool, AllocError>,
    requires { IsForMatches F.FnMut (length (A.built automaton.now).dictionary.patterns)
        replace_with }
    ensures { ReplacesTextWith F.FnMut (A.built automaton.now) (A.supports automaton.now)
        haystack.now replace_with dst.old dst.new result }
{
    let mut matches = automaton.try_find_iter(Input::new(haystack.as_bytes()))?;
    let mut at = 0;
    while let Some(found) = next_whole(&mut matches, haystack) {
        dst.push_str(&haystack[at..found.start()])?;
        at = found.end();
        let matched = &haystack[found.start()..at];
        let goes_on = call(&mut replace_with, &found, matched, dst)?;
        if !goes_on {
            dst.push_str(&haystack[at..])?;
            return Ok(());
        }
    }
    dst.push_str(&haystack[at..])?;
    Ok(())
}
