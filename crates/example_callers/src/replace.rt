//! Replacement in memory.
ghost use Rattle.std.specs.Prelude.{◌≡◌, ◌++◌, length, map, IfOk, OnOk};
ghost use Rattle.std.specs.String.{string_bytes};
ghost use Rattle.ac_input.specs.Same.{IsUnpaired};
ghost use Rattle.aho_corasick.specs.AhoCorasick.{as_built, supported_by, pattern_count};
ghost use Rattle.aho_corasick.specs.Callers.{KeepsUnmatched};
ghost use Rattle.example_callers.specs.Callers.{AddsOne};

use aho_corasick::{AhoCorasick, Anchored, PatternID, ReplaceError};
use std::alloc::{AllocError, Global};

/// The text with each match replaced. A text in which no pattern occurs is unchanged.
pub fn replaced_text(
    ac: &AhoCorasick,
    alloc: Global,
    text: &str,
    replacements: &[&str],
) -> Result<String, AllocError>
    requires supports { supported_by ac.now Anchored.No }
    requires one_each { length replacements.now ≡ pattern_count ac.now }
    ensures { IfOk result
        (λ it. KeepsUnmatched (as_built ac.now) text.now (string_bytes it)) }
{
    ac.replace_all(alloc, text, replacements)
}

/// The same, where the automaton may serve anchored searches alone.
pub fn try_replaced_text(
    ac: &AhoCorasick,
    alloc: Global,
    text: &str,
    replacements: &[&str],
) -> Result<String, ReplaceError>
    requires { length replacements.now ≡ pattern_count ac.now }
    ensures { IfOk result
        (λ it. KeepsUnmatched (as_built ac.now) text.now (string_bytes it)) }
{
    ac.try_replace_all(alloc, text, replacements)
}

/// The bytes with each match exchanged for its pattern. Where no byte is paired, they stay as they are.
pub fn replaced_by_itself(
    ac: &AhoCorasick,
    alloc: Global,
    bytes: &[u8],
    patterns: &[&[u8]],
) -> Result<Vec<u8>, AllocError>
    requires supports { supported_by ac.now Anchored.No }
    requires same { map (λ p. p.now) patterns.now ≡ (as_built ac.now).dictionary.patterns }
    requires unpaired { IsUnpaired (as_built ac.now).dictionary.pairing }
    ensures { IfOk result (λ replaced. replaced.items ≡ bytes.now) }
{
    ac.replace_all_bytes(alloc, bytes, patterns)
}

/// The same, where the automaton may serve anchored searches alone.
pub fn try_replaced_by_itself(
    ac: &AhoCorasick,
    alloc: Global,
    bytes: &[u8],
    patterns: &[&[u8]],
) -> Result<Vec<u8>, ReplaceError>
    requires same { map (λ p. p.now) patterns.now ≡ (as_built ac.now).dictionary.patterns }
    requires unpaired { IsUnpaired (as_built ac.now).dictionary.pairing }
    ensures { IfOk result (λ replaced. replaced.items ≡ bytes.now) }
{
    ac.try_replace_all_bytes(alloc, bytes, patterns)
}

/// Appends the text to the destination, with its first match exchanged for the replacement: the closure ends the replacement there.
pub fn append_first_replaced(
    ac: &AhoCorasick,
    alloc: Global,
    text: &str,
    replacement: &str,
    dst: &mut String,
) -> Result<(), AllocError>
    requires { supported_by ac.now Anchored.No }
    ensures { OnOk result
        (AddsOne (as_built ac.now) text.now replacement.now dst.old dst.new) }
{
    ac.replace_all_with(alloc, text, dst, |_, _, dst| {
        dst.push_str(replacement)?;
        Ok(false)
    })
}

/// The same, where the automaton may serve anchored searches alone.
pub fn try_append_first_replaced(
    ac: &AhoCorasick,
    alloc: Global,
    text: &str,
    replacement: &str,
    dst: &mut String,
) -> Result<(), ReplaceError>
    ensures { OnOk result
        (AddsOne (as_built ac.now) text.now replacement.now dst.old dst.new) }
{
    ac.try_replace_all_with(alloc, text, dst, |_, _, dst| {
        dst.push_str(replacement)?;
        Ok(false)
    })
}

/// Appends the bytes to the destination, each match by a closure that appends what matched.
pub fn append_matched(
    ac: &AhoCorasick,
    alloc: Global,
    bytes: &[u8],
    dst: &mut Vec<u8>,
) -> Result<(), AllocError>
    requires { supported_by ac.now Anchored.No }
    ensures { OnOk result (dst.new.items ≡ dst.old.items ++ bytes.now) }
{
    ac.replace_all_with_bytes(alloc, bytes, dst, |_, matched, dst| {
        dst.extend_from_slice(matched)?;
        Ok(true)
    })
}

/// The same, where the automaton may serve anchored searches alone.
pub fn try_append_matched(
    ac: &AhoCorasick,
    alloc: Global,
    bytes: &[u8],
    dst: &mut Vec<u8>,
) -> Result<(), ReplaceError>
    ensures { OnOk result (dst.new.items ≡ dst.old.items ++ bytes.now) }
{
    ac.try_replace_all_with_bytes(alloc, bytes, dst, |_, matched, dst| {
        dst.extend_from_slice(matched)?;
        Ok(true)
    })
}

/// The text with each match masked.
pub fn masked(ac: &AhoCorasick, alloc: Global, text: &str) -> Result<String, AllocError>
    requires { supported_by ac.now Anchored.No }
{
    let masks = vec![in alloc; "***"; ac.patterns_len()]?;
    ac.replace_all(alloc, text, &masks)
}

/// The bytes without those of the matches.
pub fn without(ac: &AhoCorasick, alloc: Global, bytes: &[u8]) -> Result<Vec<u8>, AllocError>
    requires { supported_by ac.now Anchored.No }
{
    let nothing: &[u8] = b"";
    let replacements = vec![in alloc; nothing; ac.patterns_len()]?;
    ac.replace_all_bytes(alloc, bytes, &replacements)
}

/// The text with each match replaced, where there is a replacement for each pattern.
pub fn replaced(
    ac: &AhoCorasick,
    alloc: Global,
    text: &str,
    replacements: &[&str],
) -> Result<Option<String>, ReplaceError> {
    if replacements.len() != ac.patterns_len() {
        return Ok(None);
    }
    Ok(Some(ac.try_replace_all(alloc, text, replacements)?))
}

/// Appends the text to the destination, with each match in brackets.
pub fn bracketed(
    ac: &AhoCorasick,
    alloc: Global,
    text: &str,
    dst: &mut String,
) -> Result<(), AllocError>
    requires { supported_by ac.now Anchored.No }
{
    ac.replace_all_with(alloc, text, dst, |_, matched, dst| {
        dst.push('[')?;
        dst.push_str(matched)?;
        dst.push(']')?;
        Ok(true)
    })
}

/// Appends the text to the destination, with a mark for each match up to the first one of the pattern `last`.
pub fn marked_up_to(
    ac: &AhoCorasick,
    alloc: Global,
    text: &str,
    dst: &mut String,
    last: PatternID,
) -> Result<(), ReplaceError> {
    ac.try_replace_all_with(alloc, text, dst, |found, _, dst| {
        dst.push('*')?;
        Ok(found.pattern() != last)
    })
}

/// Appends the bytes to the destination, with the number of its pattern for each match.
pub fn numbered(
    ac: &AhoCorasick,
    alloc: Global,
    bytes: &[u8],
    dst: &mut Vec<u8>,
) -> Result<(), ReplaceError> {
    ac.try_replace_all_with_bytes(alloc, bytes, dst, |found, _, dst| {
        dst.extend_from_slice(&found.pattern().as_u32().to_be_bytes())?;
        Ok(true)
    })
}
