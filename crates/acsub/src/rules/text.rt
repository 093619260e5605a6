//! The lines of a rule file of plain text.
//!
//! Each line is `pattern TAB replacement`, or a pattern alone, whose replacement is empty. Each byte stands for itself: there are no
//! escapes and no comments. LF ends a line, and the last line may lack it. A CR at the end of a line is no part of its sides. An
//! empty pattern or a second TAB makes the line a bad one.
//!
//! All lines of a file have a TAB, or none has, and the first one that differs from line 1 is a bad one. Among replacements a pattern
//! alone is mostly a comment, or has a space in the place of its TAB, and would delete text. A deletion there is `pattern TAB`.
//!
//! A file that begins with a byte order mark, or has a NUL in its first line, has a bad line 1: the mark would be a part of its first
//! pattern, and patterns in UTF-16 find nothing in UTF-8.
ghost use Rattle.std.specs.Prelude.{◌≡◌, ◌↔◌, ◌++◌, ℕ, List, Contains, IsTrue};
ghost use Rattle.ac_input.specs.Rules.{AreSidesOf, BeginsWithWritten, HasMark, IsForeign, IsWrittenAs};
ghost use Rattle.acsub.specs.Rules.File.{FirstLineHas, text_rules};
ghost use Rattle.acsub.specs.Rules.Lines.{FindsLine};

use super::{RuleLine, split_at_byte};

/// Whether the bytes are no plain text.
pub(crate) fn is_foreign(bytes: &[u8]) -> bool
    ensures { IsTrue result ↔ IsForeign bytes.now }
{
    has_mark(bytes) || first_line_has(bytes, 0)
}

/// Whether the bytes begin with a byte order mark, of UTF-8 or of UTF-16.
fn has_mark(bytes: &[u8]) -> bool
    ensures { IsTrue result ↔ HasMark bytes.now }
{
    begins_with(bytes, b"\xEF\xBB\xBF")
        || begins_with(bytes, b"\xFF\xFE")
        || begins_with(bytes, b"\xFE\xFF")
}

/// Whether the bytes begin with the front.
fn begins_with(bytes: &[u8], front: &[u8]) -> bool
    ensures { IsTrue result ↔ ((more : List ℕ) × (bytes.now ≡ front.now ++ more)) }
{
    bytes.starts_with(front)
}

/// Whether the first line has the byte.
pub(crate) fn first_line_has(bytes: &[u8], byte: u8) -> bool
    ensures { IsTrue result ↔ FirstLineHas byte bytes.now }
{
    let (written, _) = first_written(bytes);
    has_byte(written, byte)
}

/// Whether the bytes have this one.
fn has_byte(bytes: &[u8], byte: u8) -> bool
    ensures { IsTrue result ↔ Contains bytes.now byte }
{
    match split_at_byte(bytes, byte) {
        Some(_) => true,
        None => false,
    }
}

/// Whether a line has a TAB exactly if the lines of its file do, which are `tabbed` then.
fn is_even(line: &[u8], tabbed: bool) -> bool
    ensures { IsTrue result ↔ (IsTrue tabbed ↔ Contains line.now 9) }
{
    if tabbed {
        has_byte(line, b'\t')
    } else {
        !has_byte(line, b'\t')
    }
}

/// The rule of plain text that the bytes begin with, if their first line has a TAB exactly if it is to be `tabbed`.
pub(crate) fn first_in_text(bytes: &[u8], tabbed: bool) -> Option<RuleLine<'_>>
    ensures { FindsLine text_rules tabbed bytes.now result }
{
    let (written, rest) = first_written(bytes);
    if !is_even(written, tabbed) {
        return None;
    }
    let (pattern, replacement) = sides_of(without_return(written));
    if pattern.is_empty() {
        return None;
    }
    match split_at_byte(replacement, b'\t') {
        Some(_) => None,
        None => Some(RuleLine {
            pattern,
            replacement,
            rest,
        }),
    }
}

/// The line that the bytes begin with, as it is written, and what follows it.
fn first_written(bytes: &[u8]) -> (&[u8], &[u8])
    ensures { BeginsWithWritten bytes.now result.0.now result.1.now }
{
    match split_at_byte(bytes, b'\n') {
        Some(parts) => parts,
        None => (bytes, &bytes[bytes.len()..]),
    }
}

/// A line without the one CR at its end, if it has one.
fn without_return(written: &[u8]) -> &[u8]
    ensures { IsWrittenAs result.now written.now }
{
    match written.strip_suffix(b"\r") {
        Some(line) => line,
        None => written,
    }
}

/// What stands before the first TAB of a line, and what after it; with no TAB, the line and nothing.
fn sides_of(line: &[u8]) -> (&[u8], &[u8])
    ensures { AreSidesOf line.now (result.0.now, result.1.now) }
{
    match split_at_byte(line, b'\t') {
        Some(parts) => parts,
        None => (line, &line[line.len()..]),
    }
}
