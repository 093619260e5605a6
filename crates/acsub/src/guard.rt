//! Files that a run must leave alone.
//!
//! Two files are the same where the system has them on one device under one number, whatever their paths are.
ghost use Rattle.std.specs.Prelude.{IfErr};
ghost use Rattle.acsub.specs.Folds.{SparesRules};

use crate::args::Source;
use crate::task::{STDIN, Task};
use crate::tool::Fault;
use std::fs::{self, Metadata};
use std::io::{self, Read};
use std::os::unix::fs::MetadataExt;
use std::rt::Files;
use std::str;
use std::time::Clock;

/// Where standard output is seen as a file.
const STDOUT: &str = "/dev/stdout";

/// Where the system says how far standard output has come, and how it was opened.
const STDOUT_INFO: &str = "/proc/self/fdinfo/1";

/// How many bytes of that are read; the first lines are shorter.
const INFO_ROOM: usize = 64;

/// The flag of a file that is only appended to.
const APPEND: u32 = 0o2000;

// ---- the rule file

/// Refuses a FILE that is the rule file, where FILEs are rewritten: the rules would be rewritten by themselves. All FILEs are looked
/// at, before any of them is touched.
pub fn spare_rules<F: Files + Clock + Drop + Eprint>(
    task: &Task<'_, '_, '_, F>,
) -> Result<(), Fault>
    ensures { IfErr result (SparesRules task.now.asked.now) }
{
    if !task.asked.in_place {
        return Ok(());
    }
    let Some(rules) = rule_file(task) else {
        return Ok(());
    };
    for path in task.asked.files.as_slice() {
        if is_at(task.rt(), path, &rules) {
            return Err(Fault::OwnRules(String::from_str(task.alloc, path)?));
        }
    }
    Ok(())
}

/// What the system knows of the rule file; nothing where there is none.
fn rule_file<F: Files + Clock + Drop + Eprint>(task: &Task<'_, '_, '_, F>) -> Option<Metadata> {
    match task.asked.source {
        Source::File(path) => fs::metadata(task.rt(), path).ok(),
        Source::Input => fs::metadata(task.rt(), STDIN).ok(),
        Source::Given => None,
    }
}

// ---- the output

/// Whether standard input is the file that standard output goes on to write.
pub fn is_input_output<F: Files>(rt: &F) -> bool {
    is_output(rt, fs::metadata(rt, STDIN))
}

/// Whether an input is the file that standard output goes on to write, behind bytes that are there. What is written would be read
/// again, without an end.
pub fn is_output<F: Files>(rt: &F, input: io::Result<Metadata>) -> bool {
    match input {
        Ok(input) if input.is_file() && input.len() > 0 => {
            is_at(rt, STDOUT, &input) && writes_behind(rt)
        }
        _ => false,
    }
}

/// Whether standard output is appended to its file, or has come past its beginning.
fn writes_behind<F: Files>(rt: &F) -> bool {
    let mut room = [0; INFO_ROOM];
    let Ok(mut info) = fs::open(rt, STDOUT_INFO) else {
        return true;
    };
    match info.read(&mut room) {
        Ok(n) => match str::from_utf8(&room[..n]) {
            Ok(info) => !is_at_start(info),
            Err(_) => true,
        },
        Err(_) => true,
    }
}

/// Whether a file is at its beginning and isn't appended to, by the system's lines on it: its place, and its flags in octal.
fn is_at_start(info: &str) -> bool {
    let Some(rest) = info.strip_prefix("pos:\t0\nflags:\t") else {
        return false;
    };
    let Some((flags, _)) = rest.split_once('\n') else {
        return false;
    };
    match u32::from_str_radix(flags, 8) {
        Ok(flags) => flags & APPEND == 0,
        Err(_) => false,
    }
}

// ---- files

/// Whether this file is at a path.
fn is_at<F: Files>(rt: &F, path: &str, file: &Metadata) -> bool {
    match fs::metadata(rt, path) {
        Ok(about) => is_same(&about, file),
        Err(_) => false,
    }
}

/// Whether two files are the same.
fn is_same(one: &Metadata, other: &Metadata) -> bool {
    one.dev() == other.dev() && one.ino() == other.ino()
}
