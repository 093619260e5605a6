//! What is wrong with arguments that clap takes: the value of `--with` or of `--pairs`, or that they don't go together.
use crate::args::count_of;
use crate::args::misuse::{Misuse, misuse_of};
use clap::ArgMatches;
use std::alloc::{AllocError, Global};

/// The hint where clap takes the arguments, and a value is bad, or they don't go together.
pub fn hint_for(alloc: Global, matches: &ArgMatches<'_>) -> Result<String, AllocError> {
    match (matches.get_str("mode"), matches.get_str("with")) {
        (Some("mask"), Some(hex)) if !is_byte(hex) => {
            format!(in alloc; "--with takes a byte as two hex digits, as 23 for #, not '{hex}'")
        }
        (Some("mask"), _) | (_, None) => match misuse_of(matches) {
            Some(misuse) => misuse_hint(alloc, misuse, matches),
            None => pairs_hint(alloc, matches),
        },
        _ => String::from_str(
            alloc,
            "--with goes with mode mask alone; leave it out, or give mode mask",
        ),
    }
}

/// The hint where arguments don't go together.
fn misuse_hint(
    alloc: Global,
    misuse: Misuse,
    matches: &ArgMatches<'_>,
) -> Result<String, AllocError> {
    let hint = match misuse {
        Misuse::NoRules => {
            "there are no rules; write acsub MODE RULES [OPTION..] [FILE..], or -e PATTERN in place of RULES"
        }
        Misuse::Unreplaced => "-r goes with mode replace alone; leave it out, or give mode replace",
        Misuse::Unpaired => return unpaired_hint(alloc, matches),
        Misuse::Broken => {
            "a pattern of -e or a replacement of -r has a TAB, LF or CR; write \\t, \\n or \\r, and give --escapes"
        }
        Misuse::HexEscaped => "--escapes goes with --text or -e; in hex any byte is two digits",
        Misuse::NoFile =>
            "-i rewrites each FILE, and there is none; give the files after RULES, or --fold for letters in either case",
        Misuse::Unwritten =>
            "-i goes with modes replace and mask; list and overlap rewrite nothing",
        Misuse::Uncounted =>
            "--check reads no input, so nothing is counted; leave --count and --fail-if-none out",
    };
    String::from_str(alloc, hint)
}

/// The hint where there isn't one `-r` for each `-e`.
fn unpaired_hint(alloc: Global, matches: &ArgMatches<'_>) -> Result<String, AllocError> {
    let patterns = count_of(matches, "pattern");
    let replacements = count_of(matches, "replacement");
    if patterns == 0 {
        String::from_str(
            alloc,
            "-r goes with -e; the replacements of RULES stand in it",
        )
    } else {
        format!(in alloc;
            "-e stands {patterns} times and -r {replacements}; give one -r for each -e, or none"
        )
    }
}

/// Whether a text is two hex digits.
fn is_byte(hex: &str) -> bool {
    hex.len() == 2 && hex.as_bytes().iter().all(|digit| digit.is_ascii_hexdigit())
}

/// The hint where `--pairs` stands beside `--fold`, or its value is bad.
fn pairs_hint(alloc: Global, matches: &ArgMatches<'_>) -> Result<String, AllocError> {
    if matches.get_flag("fold") {
        return String::from_str(
            alloc,
            "--fold and --pairs exclude each other; --pairs can name letters too, as 4161 for A and a",
        );
    }
    let hex = matches.get_str("pairs").unwrap_or("");
    format!(in alloc; "--pairs takes four hex digits a pair, as 3031 for 0 and 1, not '{hex}'")
}
