//! Which arguments don't go together, though clap takes each of them.
//!
//! A command line with such a mistake is bad words. Each mistake has a name, by which its hint says what to write.
ghost use Rattle.std.specs.Prelude.{◌≡◌, not};
ghost use Rattle.std.specs.List.{list_any};
ghost use Rattle.clap.specs.Walk.{is_empty, texts};
ghost use Rattle.acsub.specs.Args.Misuse.{ends_side, has_break, has_breaks, is_hex_escaped, is_uncounted, is_unpaired, is_unreplaced, misuse_of, rewrites};
ghost use Rattle.acsub.specs.Args.Values.{files_in, rows_in, values_in};

use crate::args::{count_of, has_values, is_given, is_mode};
use clap::ArgMatches;

/// What is wrong with arguments that don't go together.
#[derive(Clone, Copy)]
pub enum Misuse {
    /// There is neither RULES nor `-e`.
    NoRules,
    /// There are replacements, and the mode replaces nothing.
    Unreplaced,
    /// There are replacements, but not one for each pattern.
    Unpaired,
    /// A pattern or a replacement has a TAB, LF or CR, which would end it in a rule file.
    Broken,
    /// Escapes are for text, and the rules are of hex.
    HexEscaped,
    /// No file is given that could be rewritten.
    NoFile,
    /// The mode lists, and rewrites nothing.
    Unwritten,
    /// What matches is to be counted, and no input is read.
    Uncounted,
}

/// The first misuse, in the order of [`Misuse`].
pub fn misuse_of(matches: &ArgMatches<'_>) -> Option<Misuse>
    ensures { result ≡ misuse_of (rows_in matches.now) }
{
    let has_patterns = has_values(matches, "pattern");
    let in_place = is_given(matches, "in-place");
    if !has_patterns && !has_values(matches, "rules") {
        Some(Misuse::NoRules)
    } else if is_unreplaced(matches) {
        Some(Misuse::Unreplaced)
    } else if is_unpaired(matches) {
        Some(Misuse::Unpaired)
    } else if has_breaks(matches) {
        Some(Misuse::Broken)
    } else if is_hex_escaped(matches) {
        Some(Misuse::HexEscaped)
    } else if in_place && !has_file(matches) {
        Some(Misuse::NoFile)
    } else if in_place && !rewrites(matches) {
        Some(Misuse::Unwritten)
    } else if is_uncounted(matches) {
        Some(Misuse::Uncounted)
    } else {
        None
    }
}

// Whether there are replacements, and the mode replaces nothing.
fn is_unreplaced(matches: &ArgMatches<'_>) -> bool
    ensures { result ≡ is_unreplaced (rows_in matches.now) }
{
    has_values(matches, "replacement") && !is_mode(matches, "replace")
}

// Whether there are replacements, but not one for each pattern.
fn is_unpaired(matches: &ArgMatches<'_>) -> bool
    ensures { result ≡ is_unpaired (rows_in matches.now) }
{
    let replacements = count_of(matches, "replacement");
    replacements != 0 && replacements != count_of(matches, "pattern")
}

// Whether a given pattern or replacement has a byte that ends it in a rule file.
fn has_breaks(matches: &ArgMatches<'_>) -> bool
    ensures { result ≡ has_breaks (rows_in matches.now) }
{
    has_break_in(matches, "pattern") || has_break_in(matches, "replacement")
}

// Whether a value of the argument has such a byte.
fn has_break_in(matches: &ArgMatches<'_>, id: &str) -> bool
    ensures { result ≡ has_break (values_in id.now (rows_in matches.now)) }
{
    match matches.get_strs(id) {
        Some(sides) => has_break(sides),
        None => false,
    }
}

// Whether one of the texts has a TAB, LF or CR.
fn has_break(sides: &[&str]) -> bool
    ensures { result ≡ has_break (texts sides.now) }
{
    for side in sides {
        if breaks(side.as_bytes()) {
            return true;
        }
    }
    false
}

// Whether there is a TAB, LF or CR.
fn breaks(side: &[u8]) -> bool
    ensures { result ≡ list_any ends_side side.now }
{
    for byte in side {
        if ends_side(*byte) {
            return true;
        }
    }
    false
}

fn ends_side(byte: u8) -> bool
    ensures { result ≡ ends_side byte }
{
    byte == b'\t' || byte == b'\n' || byte == b'\r'
}

// Whether escapes are asked for in rules of hex.
fn is_hex_escaped(matches: &ArgMatches<'_>) -> bool
    ensures { result ≡ is_hex_escaped (rows_in matches.now) }
{
    is_given(matches, "escapes") && !is_given(matches, "text") && !has_values(matches, "pattern")
}

// Whether there is a file to search.
fn has_file(matches: &ArgMatches<'_>) -> bool
    ensures { result ≡ not (is_empty (files_in (rows_in matches.now))) }
{
    has_values(matches, "file") || (has_values(matches, "pattern") && has_values(matches, "rules"))
}

// Whether the mode writes the input anew.
fn rewrites(matches: &ArgMatches<'_>) -> bool
    ensures { result ≡ rewrites (rows_in matches.now) }
{
    is_mode(matches, "replace") || is_mode(matches, "mask")
}

// Whether what matches is to be counted, though the rules alone are looked at.
fn is_uncounted(matches: &ArgMatches<'_>) -> bool
    ensures { result ≡ is_uncounted (rows_in matches.now) }
{
    is_given(matches, "check") && (is_given(matches, "count") || is_given(matches, "fail-if-none"))
}
