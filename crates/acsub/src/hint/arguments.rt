//! What is wrong with arguments that are no command line, and what to write.
//!
//! clap says why it refuses them. Where it takes them, the value of an option is bad, or arguments don't go together.
use super::{foreign, values};
use crate::args::taken;
use clap::error::ErrorKind;
use std::alloc::{AllocError, Global};

/// Where all arguments are listed.
const SEE: &str = "; see acsub --help";

/// The hint for arguments that are bad.
pub fn hint_for(alloc: Global, words: &[String]) -> Result<Option<String>, AllocError> {
    match taken(alloc, words) {
        Some(Ok(matches)) => Ok(Some(values::hint_for(alloc, &matches)?)),
        Some(Err(error)) if error.kind() == ErrorKind::OutOfMemory => Ok(None),
        Some(Err(error)) => {
            let text = error.to_string(alloc)?;
            Ok(Some(refused(alloc, words, error.kind(), text.as_str())?))
        }
        None => Ok(None),
    }
}

/// Why clap refuses the arguments, by its text, and what to write.
fn refused(
    alloc: Global,
    words: &[String],
    kind: ErrorKind,
    text: &str,
) -> Result<String, AllocError> {
    if let Some((option, value)) = hyphened(words) {
        if kind == ErrorKind::UnknownArgument || kind == ErrorKind::InvalidValue {
            return format!(in alloc;
                "a text that begins with - follows a =: for the text {value} write {option}={value}"
            );
        }
    }
    match kind {
        ErrorKind::MissingRequiredArgument => String::from_str(
            alloc,
            "there is no mode; write acsub MODE RULES [OPTION..] [FILE..], and see acsub --help",
        ),
        ErrorKind::UnknownArgument => match quoted(text, "unexpected argument '", "' found") {
            Some(word) => foreign::hint_for(alloc, word, text, SEE),
            None => reworded(alloc, text, SEE),
        },
        ErrorKind::InvalidValue => match quoted(text, "invalid value '", "' for '<MODE>'") {
            Some(word) => no_mode(alloc, words, word, text),
            None => reworded(alloc, text, SEE),
        },
        ErrorKind::ValueValidation => reworded(
            alloc,
            text,
            "; N is a whole number from 0 to 2147483646",
        ),
        ErrorKind::ArgumentConflict => reworded(alloc, text, "; give it once"),
        _ => reworded(alloc, text, SEE),
    }
}

/// What stands between two texts in the first line of clap's reason, if that begins with the first of them.
fn quoted<'t>(text: &'t str, before: &str, after: &str) -> Option<&'t str> {
    let reason = text.lines().next()?.strip_prefix("error: ")?;
    Some(reason.strip_prefix(before)?.split_once(after)?.0)
}

/// The hint where the first word that belongs to no option is no mode. Two such words may be meant as `sd` takes them.
fn no_mode(alloc: Global, words: &[String], word: &str, text: &str) -> Result<String, AllocError> {
    if word == "help" || word == "version" {
        return format!(in alloc; "there is no mode '{word}'; write acsub --{word}");
    }
    match words {
        [_, first, second, ..] if first.as_str() == word && !text.contains("tip: ") => {
            let after = instead_of(alloc, word, second.as_str())?;
            reworded(alloc, text, after.as_str())
        }
        _ => reworded(alloc, text, SEE),
    }
}

/// What to write where two words may be a text and its replacement. They are named if a shell takes both as they are.
fn instead_of(alloc: Global, pattern: &str, replacement: &str) -> Result<String, AllocError> {
    if is_plain(pattern.as_bytes()) && is_plain(replacement.as_bytes()) {
        format!(in alloc;
            "; to replace one text by another write acsub replace -e {pattern} -r {replacement}"
        )
    } else {
        String::from_str(alloc, SEE)
    }
}

/// Whether a shell takes a word as it is, and it is no option.
fn is_plain(word: &[u8]) -> bool {
    !word.is_empty()
        && !word.starts_with(b"-")
        && word.iter().all(|byte| byte.is_ascii_alphanumeric() || b"-_./,:@+".contains(byte))
}

/// The first `-e` or `-r` that is followed by a word which begins with `-`, and that word. clap takes none as a value.
fn hyphened(words: &[String]) -> Option<(&str, &str)> {
    for (option, value) in words.iter().zip(words.iter().skip(1)) {
        if takes_text(option.as_str()) && begins_with_hyphen(value.as_bytes()) {
            return Some((option.as_str(), value.as_str()));
        }
    }
    None
}

/// Whether the value of an option is a text: a pattern or a replacement.
fn takes_text(option: &str) -> bool {
    match option {
        "-e" | "--pattern" | "-r" | "--replacement" => true,
        _ => false,
    }
}

/// Whether a word begins with `-`, and is neither `-` nor `--`.
fn begins_with_hyphen(word: &[u8]) -> bool {
    match word {
        [b'-'] | [b'-', b'-'] => false,
        [b'-', ..] => true,
        _ => false,
    }
}

/// clap's reason and its tips on one line, and what follows them.
fn reworded(alloc: Global, text: &str, after: &str) -> Result<String, AllocError> {
    let mut line = String::new(alloc);
    push_reason(&mut line, text)?;
    for part in text.lines() {
        if let Some(tip) = part.trim().strip_prefix("tip: ") {
            line.push_str("; ")?;
            line.push_str(tip)?;
        }
    }
    line.push_str(after)?;
    Ok(line)
}

/// Adds clap's reason: its first lines, up to an empty one, with a space between, without the word `error:`.
fn push_reason(line: &mut String, text: &str) -> Result<(), AllocError> {
    for part in text.strip_prefix("error: ").unwrap_or(text).lines() {
        if part.is_empty() {
            return Ok(());
        }
        if !line.is_empty() {
            line.push_str(" ")?;
        }
        line.push_str(part.trim())?;
    }
    Ok(())
}
