//! The lines of a rule file of text with escapes.
//!
//! A line is split into its sides as in plain text, and its TAB and its end are those that are written. Then in each side `\t` stands
//! for a tab, `\n` for a line feed, `\r` for a carriage return, `\\` for a backslash, `\0` for NUL, and `\xHH` for the byte of these two
//! hex digits, of either case. Any other backslash makes the line a bad one. So a pattern or a replacement can have every byte.
ghost use Rattle.std.specs.Prelude.{◌≡◌, ◌↔◌, ◌≤◌, ◌∷◌, [], ℕ, List, IsTrue, IfNone, IfOk, IfSome};
ghost use Rattle.ac_input.specs.Rules.{BeginsWithByte, IsDigit, IsEscape, Spells, Unescapes};
ghost use Rattle.acsub.specs.Rules.File.{escaped_rules};
ghost use Rattle.acsub.specs.Rules.Lines.{BeginsWithFound, FindsLine};

use super::RuleLine;
use super::text::first_in_text;
use std::alloc::{AllocError, Global};

/// The rule with escapes that the bytes begin with, as it is written.
pub(crate) fn first_escaped(bytes: &[u8], tabbed: bool) -> Option<RuleLine<'_>>
    ensures { FindsLine escaped_rules tabbed bytes.now result }
{
    let line = first_in_text(bytes, tabbed)?;
    if is_escaped(line.pattern) && is_escaped(line.replacement) {
        Some(line)
    } else {
        None
    }
}

/// Whether a side stands for some bytes: each backslash begins an escape.
fn is_escaped(side: &[u8]) -> bool
    ensures { IsTrue result ↔ ((bytes : List ℕ) × Unescapes side.now bytes) }
{
    let mut rest = side;
    while let Some((_, after)) = first_byte(rest) {
        rest = after;
    }
    rest.is_empty()
}

/// The bytes that a side stands for. No side stands for more bytes than it has.
pub(crate) fn unescape(alloc: Global, side: &[u8]) -> Result<Vec<u8>, AllocError>
    requires { (bytes : List ℕ) × Unescapes side.now bytes }
    ensures { IfOk result (λ bytes. Unescapes side.now bytes.items) }
{
    let mut bytes = Vec::with_capacity(alloc, side.len())?;
    let mut rest = side;
    while let Some((byte, after)) = first_byte(rest) {
        bytes.push(byte)?;
        rest = after;
    }
    Ok(bytes)
}

/// The first byte that a side stands for, and what follows it.
fn first_byte(side: &[u8]) -> Option<(u8, &[u8])>
    ensures { BeginsWithFound side.now result }
{
    let (byte, rest) = split_first(side)?;
    if byte == b'\\' {
        escaped_byte(rest)
    } else {
        Some((byte, rest))
    }
}

/// The byte of an escape, by what follows its backslash, and what follows the escape.
fn escaped_byte(escape: &[u8]) -> Option<(u8, &[u8])>
    ensures { BeginsWithFound (92 ∷ escape.now) result }
{
    let (letter, rest) = split_first(escape)?;
    if letter == b'x' {
        return spelt_byte(rest);
    }
    let byte = escape_of(letter)?;
    Some((byte, rest))
}

/// The byte of the first two hex digits, and what follows them.
fn spelt_byte(digits: &[u8]) -> Option<(u8, &[u8])>
    ensures { BeginsWithFound (92 ∷ 120 ∷ digits.now) result }
{
    let (high, after) = split_first(digits)?;
    let (low, rest) = split_first(after)?;
    let byte = byte_of(high, low)?;
    Some((byte, rest))
}

/// The first byte, and what follows it.
fn split_first(bytes: &[u8]) -> Option<(u8, &[u8])>
    ensures none { IfNone result (bytes.now ≡ []) }
    ensures some { IfSome result (λ parts. bytes.now ≡ parts.0 ∷ parts.1.now) }
{
    if bytes.is_empty() {
        None
    } else {
        Some((bytes[0], &bytes[1..]))
    }
}

/// The byte that a backslash and this letter stand for.
fn escape_of(letter: u8) -> Option<u8>
    ensures none { IfNone result ((byte : ℕ) → ¬ IsEscape letter byte) }
    ensures some { IfSome result (λ byte. IsEscape letter byte) }
{
    match letter {
        b't' => Some(b'\t'),
        b'n' => Some(b'\n'),
        b'r' => Some(b'\r'),
        b'\\' => Some(b'\\'),
        b'0' => Some(0),
        _ => None,
    }
}

/// The byte of two hex digits.
fn byte_of(high: u8, low: u8) -> Option<u8>
    ensures none { IfNone result ((byte : ℕ) → ¬ Spells (high ∷ low ∷ []) (byte ∷ [])) }
    ensures some { IfSome result (λ byte. Spells (high ∷ low ∷ []) (byte ∷ [])) }
{
    let high = digit_of(high)?;
    let low = digit_of(low)?;
    Some(16 * high + low)
}

/// The value of a hex digit of either case.
fn digit_of(digit: u8) -> Option<u8>
    ensures none { IfNone result ((value : ℕ) → ¬ IsDigit digit value) }
    ensures some { IfSome result (λ value. IsDigit digit value × (value ≤ 15)) }
{
    match digit {
        b'0'..=b'9' => Some(digit - b'0'),
        b'a'..=b'f' => Some(digit - b'a' + 10),
        b'A'..=b'F' => Some(digit - b'A' + 10),
        _ => None,
    }
}
