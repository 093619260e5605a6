//! Options that there aren't: what serves in the place of those that other programs have, and which option may be meant.
use std::alloc::{AllocError, Global};

/// The hint for a word that is no option, by the text with which clap refuses it, and by where all are listed.
pub fn hint_for(alloc: Global, word: &str, text: &str, see: &str) -> Result<String, AllocError> {
    if let Some(instead) = in_place_of(word).or(in_place_of_grep(word)) {
        return format!(in alloc; "there is no option '{word}'; {instead}");
    }
    match word.as_bytes() {
        [b'-', b'0'..=b'9', ..] => {
            format!(in alloc;
                "'{word}' is no option; --dense-depth takes a whole number from 0 to 2147483646"
            )
        }
        [b'-', b'-', ..] => match near_name(word, text) {
            Some(name) => {
                format!(in alloc; "there is no option '{word}'; a similar one is '{name}'{see}")
            }
            None => format!(in alloc; "there is no option '{word}'{see}"),
        },
        _ => {
            format!(in alloc;
                "there is no option '{word}'; a pattern that begins with - is written -e=-.., and a path ./-..{see}"
            )
        }
    }
}

/// What serves in the place of an option that programs for files have.
fn in_place_of(option: &str) -> Option<&'static str> {
    match option {
        "--ignore-case" | "--case-insensitive" => Some(
            "--fold matches ASCII letters in either case",
        ),
        "--dry-run" | "--preview" => Some(
            "a run without -i changes no file, and diff FILE - shows what it would change",
        ),
        "-R" | "--recursive" => Some(
            "no folder is searched; name its files by a glob, or by find .. -exec acsub .. {} +",
        ),
        "-f" | "--file" => Some(
            "the rule file stands after the mode, as in acsub list RULES --text",
        ),
        "--replace" | "--list" | "--overlap" | "--mask" => Some(
            "a mode stands first, and without --",
        ),
        "--output" => Some("the text goes to standard output; put > FILE after the arguments"),
        "-b" | "--backup" => Some("-i leaves no copy of the old text; copy the file before"),
        "-." => Some("-i takes no suffix, as it leaves no copy; copy the file before"),
        _ => None,
    }
}

/// What serves in the place of an option that programs for lines and patterns have.
fn in_place_of_grep(option: &str) -> Option<&'static str> {
    match option {
        "-w" | "--word-regexp" => Some("--word counts whole words alone"),
        "-c" => Some("--count says on standard error how much matched"),
        "-o" | "--only-matching" => Some(
            "mode list writes where each match is, and the rules have its text",
        ),
        "-v" | "--invert-match" => Some(
            "no mode writes what doesn't match; the version is -V or --version",
        ),
        "-n" | "--line-number" => Some("list counts places in bytes, and no lines"),
        "-q" | "--quiet" => Some(
            "list .. --fail-if-none > /dev/null says by its status whether anything matched",
        ),
        "-F" | "--fixed-strings" => Some("each pattern is plain bytes; leave it out"),
        "-E" | "-P" | "--regex" | "--regexp" => Some(
            "each pattern is plain bytes, and no regular expression",
        ),
        "-g" | "--global" => Some("every match is taken; leave it out"),
        _ => None,
    }
}

/// The option that clap names, if it may well be meant: clap names the nearest one, however far that is.
fn near_name<'t>(word: &str, text: &'t str) -> Option<&'t str> {
    let rest = text.split_once("a similar argument exists: '")?.1;
    let name = rest.split_once("'")?.0;
    if is_near(word.as_bytes(), name.as_bytes()) {
        Some(name)
    } else {
        None
    }
}

/// Whether the name begins with the word, or between what both begin with and what both end with two letters at most differ.
fn is_near(word: &[u8], name: &[u8]) -> bool {
    let front = same_in_front(word, name);
    let same = front.saturating_add(same_at_end(word, name));
    let differs = word.len().max(name.len()).saturating_sub(same);
    differs <= 2 || front == word.len()
}

/// How many bytes both begin with.
fn same_in_front(word: &[u8], name: &[u8]) -> usize {
    word.iter()
        .zip(name)
        .take_while(|pair| pair.0 == pair.1)
        .count()
}

/// How many bytes both end with.
fn same_at_end(word: &[u8], name: &[u8]) -> usize {
    word.iter()
        .rev()
        .zip(name.iter().rev())
        .take_while(|pair| pair.0 == pair.1)
        .count()
}
