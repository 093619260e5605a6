//! What a person may do about an error.
//!
//! A program reads the line of an error, so that line stands alone. Where standard error is a terminal, or `ACSUB_HINTS` in the
//! environment asks for it, `main` writes a second line: what is wrong with the arguments, the settings, the rules or a FILE, or what
//! takes less memory. The hint is made anew after the run, from the arguments and the rule file, so no run pays for it. The file is read
//! again only if it is a regular one: to open a pipe or a terminal again would wait for its writer. Rules of standard input are gone.
//! The texts are held by tests: no clause names them.
mod arguments;
mod files;
mod foreign;
mod given;
mod mask;
mod values;

use crate::args::settings::{Engine, Mode, finds_early};
use crate::args::{Source, Words, WordsFault, read_words};
use crate::given::rule_file;
use crate::rules::{Form, RuleError, read_rules};
use crate::task::streams;
use ac_input::pairing::PairingError;
use ac_input::search::MatchKind;
use std::alloc::{AllocError, Global};
use std::io::{self, Read, Write};
use std::process::ExitCode;
use std::rt::{Env, Files};
use std::{env, fs};

/// Whether a hint is to be written: as `ACSUB_HINTS` in the environment says, or else where a person reads the line, on a terminal.
pub fn is_asked_for<R: Env + Alloc>(rt: &R, on_terminal: bool) -> bool {
    match env::var(rt, "ACSUB_HINTS") {
        Ok(value) => match value.as_str() {
            "1" | "yes" | "true" => true,
            "0" | "no" | "false" => false,
            _ => on_terminal,
        },
        Err(_) => on_terminal,
    }
}

/// Writes a hint after the line of an error, if there is one for this status. There are no arguments where one of them is no text. A
/// write that fails, and out of memory, leave the hint out.
pub fn write_hint<F: Files, E: Write>(
    rt: &F,
    alloc: Global,
    words: Option<&[String]>,
    code: ExitCode,
    errors: &mut E,
) {
    let hint = match words {
        Some(words) => hint_for(rt, alloc, words, code),
        None => hint_of(alloc, no_text(code)),
    };
    if let Ok(Some(hint)) = hint {
        let _ = writeln!(errors, "acsub: hint: {hint}");
    }
}

/// The hint where the arguments can't be had as text: one of them is none, unless memory ran out.
fn no_text(code: ExitCode) -> Option<&'static str> {
    if code == ExitCode::from(2) {
        Some(
            "an argument isn't UTF-8; give a file of such a name as /dev/fd/3, and 3< FILE after the arguments",
        )
    } else {
        None
    }
}

/// The hint for these arguments and the status of their run.
fn hint_for<F: Files>(
    rt: &F,
    alloc: Global,
    words: &[String],
    code: ExitCode,
) -> Result<Option<String>, AllocError> {
    match read_words(alloc, words) {
        Ok(asked) => hint_for_asked(rt, alloc, &asked, code),
        Err(fault) => hint_for_fault(alloc, words, &fault),
    }
}

/// The hint for arguments that were understood.
fn hint_for_asked<F: Files>(
    rt: &F,
    alloc: Global,
    asked: &Words<'_>,
    code: ExitCode,
) -> Result<Option<String>, AllocError> {
    if code == ExitCode::from(3) {
        hint_for_rules(rt, alloc, asked)
    } else if code == ExitCode::from(4) {
        hint_for_refused(rt, alloc, asked)
    } else if code == ExitCode::from(5) {
        files::hint_for(rt, alloc, asked)
    } else {
        hint_of(alloc, hint_for_run(asked, code))
    }
}

/// The hint for arguments that were not.
fn hint_for_fault(
    alloc: Global,
    words: &[String],
    fault: &WordsFault,
) -> Result<Option<String>, AllocError> {
    match fault {
        WordsFault::Bad => arguments::hint_for(alloc, words),
        WordsFault::Pairing(error) => Ok(Some(hint_for_pairs(alloc, error)?)),
        _ => Ok(None),
    }
}

/// A fixed text as a hint.
fn hint_of(alloc: Global, text: Option<&str>) -> Result<Option<String>, AllocError> {
    match text {
        Some(text) => Ok(Some(String::from_str(alloc, text)?)),
        None => Ok(None),
    }
}

/// The hint where `--pairs` names a byte twice: the byte as `--pairs` spells it.
fn hint_for_pairs(alloc: Global, error: &PairingError) -> Result<String, AllocError> {
    let byte = match error {
        PairingError::Twice(byte) => *byte,
    };
    let mut hint = String::from_str(alloc, "--pairs names byte ")?;
    push_byte(&mut hint, byte)?;
    hint.push_str(" twice; a byte has one partner at most")?;
    Ok(hint)
}

/// Adds a byte in hex, and as a sign if it is one.
fn push_byte(line: &mut String, byte: u8) -> Result<(), AllocError> {
    let (high, low) = (byte / 16, byte % 16);
    write!(line, "{high:x}{low:x}")?;
    if byte.is_ascii_graphic() {
        let sign = char::from(byte);
        write!(line, " ('{sign}')")?;
    }
    Ok(())
}

/// The hint for a run whose settings were refused, or that was out of memory.
fn hint_for_run(asked: &Words<'_>, code: ExitCode) -> Option<&'static str> {
    if code == ExitCode::from(2) {
        hint_for_settings(asked)
    } else if code == ExitCode::from(7) {
        hint_for_memory(asked)
    } else {
        None
    }
}

/// Which options exclude one another.
fn hint_for_settings(asked: &Words<'_>) -> Option<&'static str> {
    let settings = &asked.settings;
    let is_standard = settings.kind == MatchKind::Standard;
    let is_packed = settings.engine == Engine::Packed;
    match settings.mode {
        Mode::Overlap if !is_standard => {
            Some("overlap and mask take every occurrence, whatever the kind: leave --kind out")
        }
        Mode::Overlap if is_packed => {
            Some("overlap and mask need an automaton: leave --engine packed out")
        }
        _ if is_packed && is_standard => {
            Some("beside --engine packed give --kind leftmost-first or --kind leftmost-longest")
        }
        _ if is_packed && !settings.pairing.is_none() => {
            Some("--engine packed can't be used with --fold or --pairs; every other engine can")
        }
        _ => None,
    }
}

/// What holds less, where the run held its input.
fn hint_for_memory(asked: &Words<'_>) -> Option<&'static str> {
    let settings = &asked.settings;
    let is_early = match settings.mode {
        Mode::Overlap => asked.stream,
        _ => finds_early(settings, streams(asked)),
    };
    if asked.word || asked.mask.is_some() || is_early {
        None
    } else if settings.engine == Engine::Packed {
        Some(
            "packed holds the whole input; another engine with --stream holds a part, if no pattern is empty",
        )
    } else {
        Some(
            "such a run holds the whole input; with --stream it holds a part, if no pattern is empty",
        )
    }
}

/// What is wrong with the rules. Those of standard input are gone.
fn hint_for_rules<F: Files>(
    rt: &F,
    alloc: Global,
    asked: &Words<'_>,
) -> Result<Option<String>, AllocError> {
    match asked.source {
        Source::File(path) => hint_for_file(rt, alloc, path, asked.form()),
        Source::Input => hint_of(alloc, Some(form_of(asked.form()))),
        Source::Given => given::hint_for(alloc, asked),
    }
}

/// Why the rules can't be masked by, or whole words of them be searched for. Those of a pipe and of standard input are gone.
fn hint_for_refused<F: Files>(
    rt: &F,
    alloc: Global,
    asked: &Words<'_>,
) -> Result<Option<String>, AllocError> {
    match asked.source {
        _ if asked.mask.is_none() && !asked.word => Ok(None),
        Source::File(path) => match fs::metadata(rt, path) {
            Ok(found) if found.is_file() => match bytes_of(rt, alloc, path) {
                Ok(bytes) => mask::hint_for(alloc, asked, bytes.as_slice()),
                Err(_) => Ok(None),
            },
            _ => Ok(None),
        },
        Source::Input => Ok(None),
        Source::Given => {
            let (patterns, by) = (asked.patterns.as_slice(), asked.replacements.as_slice());
            let file = rule_file(alloc, patterns, by)?;
            mask::hint_for(alloc, asked, file.as_slice())
        }
    }
}

/// Why the rule file can't be read, or what is wrong with its first bad line. Only a regular file is opened.
fn hint_for_file<F: Files>(
    rt: &F,
    alloc: Global,
    path: &str,
    form: Form,
) -> Result<Option<String>, AllocError> {
    match fs::metadata(rt, path) {
        _ if path.is_empty() => hint_of(alloc, Some("the path of the rule file is empty")),
        Ok(found) if found.is_dir() => Ok(Some(format!(in alloc; "{path} is a folder")?)),
        Ok(found) if !found.is_file() => hint_of(alloc, Some(form_of(form))),
        Ok(_) => match bytes_of(rt, alloc, path) {
            Ok(bytes) => hint_of(alloc, reason(alloc, form, bytes.as_slice())),
            Err(error) => Ok(Some(format!(in alloc; "{path}: {error}")?)),
        },
        Err(error) if path == "-" => Ok(Some(format!(in alloc;
            "-: {error}; RULES is standard input only beside a FILE, as else standard input is searched"
        )?)),
        Err(error) => Ok(Some(format!(in alloc; "{path}: {error}")?)),
    }
}

/// All bytes of a file.
fn bytes_of<F: Files>(rt: &F, alloc: Global, path: &str) -> io::Result<Vec<u8>> {
    let mut bytes = Vec::new(alloc);
    let mut file = fs::open(rt, path)?;
    file.read_to_end(&mut bytes)?;
    Ok(bytes)
}

/// What a rule is, where the bad line can't be looked at.
fn form_of(form: Form) -> &'static str {
    match form {
        Form::Hex => "a rule is hex TAB hex, two digits a byte; for plain text give --text",
        Form::Text => "a rule is pattern TAB replacement, or a pattern alone; no line is empty",
        Form::Escaped =>
            "a rule is pattern TAB replacement, or a pattern alone; a backslash begins \\t, \\n, \\r, \\\\, \\0 or \\xHH",
    }
}

/// Why the first bad line of a rule file is no rule.
fn reason(alloc: Global, form: Form, file: &[u8]) -> Option<&'static str> {
    let Err(RuleError::Line(number)) = read_rules(alloc, form, file) else {
        return None;
    };
    let (first, line) = (line_at(file, 1), line_at(file, number));
    match form {
        Form::Hex => Some(hex_reason(line)),
        _ if number == 1 => foreign_reason(line).or(Some(text_reason(first, line))),
        _ => Some(text_reason(first, line)),
    }
}

/// A line of the bytes, counted from 1, with its line feed.
fn line_at(bytes: &[u8], number: usize) -> &[u8] {
    match bytes
        .split_inclusive(|byte| *byte == b'\n')
        .nth(number.saturating_sub(1))
    {
        Some(line) => line,
        None => &[],
    }
}

/// Why a line is no rule of hex.
fn hex_reason(line: &[u8]) -> &'static str {
    if line.iter().any(|byte| !byte.is_ascii_hexdigit() && !b"\t\r\n".contains(byte)) {
        "a rule is hex TAB hex; for plain text give --text"
    } else if line.ends_with(b"\r\n") {
        "the line ends in CR LF; a line of hex ends in LF alone"
    } else if !line.ends_with(b"\n") {
        "the last line has no LF; a line of hex ends in LF"
    } else {
        "a rule is hex TAB hex, two digits a byte"
    }
}

/// Why a file is no plain text, by its first line.
fn foreign_reason(line: &[u8]) -> Option<&'static str> {
    match line {
        [0xEF, 0xBB, 0xBF, ..] => Some(
            "the file begins with a byte order mark; save it as UTF-8 without one",
        ),
        [0xFF, 0xFE, ..] | [0xFE, 0xFF, ..] => Some(
            "the file is in UTF-16; save it as UTF-8 without a byte order mark",
        ),
        _ if line.contains(&0) => Some(
            "line 1 has a NUL, as has a file in UTF-16; save it as UTF-8, or give a NUL as \\0 with --escapes",
        ),
        _ => None,
    }
}

/// Why a line of text is no rule. With at most one TAB, some pattern and a TAB exactly if line 1 has one, an escape is wrong.
fn text_reason(first: &[u8], line: &[u8]) -> &'static str {
    match line.first() {
        Some(b'\t') => "the line has no pattern before its TAB",
        Some(b'\n' | b'\r') => "the line is empty; a pattern has a byte at least",
        _ if first.contains(&b'\t') && !line.contains(&b'\t') =>
            "the line has no TAB, where line 1 has one; a rule that deletes is a pattern and a TAB",
        _ if line.contains(&b'\t') && !first.contains(&b'\t') =>
            "the line has a TAB, where line 1 has none; a rule that deletes is a pattern and a TAB",
        _ if line.iter().filter(|byte| **byte == b'\t').count() < 2 =>
            "a backslash is none of \\t, \\n, \\r, \\\\, \\0 and \\xHH; a backslash itself is \\\\",
        _ if has_lone_return(line) =>
            "the line has a CR and a second TAB; lines end in LF or CR LF, not in CR",
        _ => "the line has a second TAB; a rule is pattern TAB replacement",
    }
}

/// Whether a CR stands before another byte than the line feed.
fn has_lone_return(line: &[u8]) -> bool {
    match line.iter().position(|byte| *byte == b'\r') {
        Some(at) => at.saturating_add(2) < line.len(),
        None => false,
    }
}
