//! Replacement in memory.
ghost use Rattle.std.specs.Prelude.{◌≡◌, ◌++◌, length, map, IfOk, OnOk};
ghost use Rattle.std.specs.String.{string_bytes};
ghost use Rattle.ac_input.specs.Same.{IsUnpaired};
ghost use Rattle.aho_corasick.specs.Callers.{KeepsUnmatched};
ghost use Rattle.example_callers.specs.Callers.{AddsOne};

use ac_automaton::error::ReplaceError;
use ac_automaton::search::Search;
use std::alloc::Global;

/// The bytes with each match exchanged for its pattern. Where no byte is paired, they stay as they are.
pub fn replaced_by_itself<A: Search>(
    automaton: &A,
    alloc: Global,
    bytes: &[u8],
    patterns: &[&[u8]],
) -> Result<Vec<u8>, ReplaceError>
    requires same { map (λ p. p.now) patterns.now ≡ (A.built automaton.now).dictionary.patterns }
    requires unpaired { IsUnpaired (A.built automaton.now).dictionary.pairing }
    ensures { IfOk result (λ replaced. replaced.items ≡ bytes.now) }
{
    automaton.try_replace_all_bytes(alloc, bytes, patterns)
}

/// The text with each match replaced. A text in which no pattern occurs is unchanged.
pub fn replaced_text<A: Search>(
    automaton: &A,
    alloc: Global,
    text: &str,
    replacements: &[&str],
) -> Result<String, ReplaceError>
    requires { length replacements.now ≡ length (A.built automaton.now).dictionary.patterns }
    ensures { IfOk result
        (λ it. KeepsUnmatched (A.built automaton.now) text.now (string_bytes it)) }
{
    automaton.try_replace_all(alloc, text, replacements)
}

/// Appends the text to the destination, with its first match exchanged for the replacement: the closure ends the replacement there.
pub fn append_first_replaced<A: Search>(
    automaton: &A,
    alloc: Global,
    text: &str,
    replacement: &str,
    dst: &mut String,
) -> Result<(), ReplaceError>
    ensures { OnOk result
        (AddsOne (A.built automaton.now) text.now replacement.now dst.old dst.new) }
{
    automaton.try_replace_all_with(alloc, text, dst, |_, _, dst| {
        dst.push_str(replacement)?;
        Ok(false)
    })
}

/// Appends the bytes to the destination, each match by a closure that appends what matched.
pub fn append_matched<A: Search>(
    automaton: &A,
    alloc: Global,
    bytes: &[u8],
    dst: &mut Vec<u8>,
) -> Result<(), ReplaceError>
    ensures { OnOk result (dst.new.items ≡ dst.old.items ++ bytes.now) }
{
    automaton.try_replace_all_with_bytes(alloc, bytes, dst, |_, matched, dst| {
        dst.extend_from_slice(matched)?;
        Ok(true)
    })
}
