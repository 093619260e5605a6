//! Rewrites FILEs in place.
//!
//! The text goes into a new file in the same folder, which then takes the old one's name. So at each moment, whatever happens, the
//! name has either all of the old bytes or all of the new ones. The new file gets the owner and the permissions of the old one; other
//! hard links keep the old bytes, and extended attributes and access lists are not copied. A symbolic link stays, and the file that it
//! leads to is rewritten.
//!
//! A file in which no byte changes is left alone. So the job first runs with a writer that compares its text with the file, up to the
//! first byte that differs, and only then into a new file. A file is read up to three times, then, and its text is made up to twice;
//! but nothing is created, and no folder is written to, for a file that stays as it is.
ghost use Rattle.acsub.specs.Jobs.{IsJobReady};
ghost use Rattle.acsub.specs.InPlace.{Compares, CreatesIn, FillsNew, Places, ReplacesFile, RewritesFile, WritesFile};

use crate::comparing::{Comparing, PIECE};
use crate::error::RunError;
use crate::files::{FileFault, Stop, open_fault, run_over, stop_for};
use crate::job::Job;
use crate::progress::Metered;
use crate::steps::{create, keep_owner, permit, rename, sync};
use crate::swap::Swap;
use crate::tally::Tally;
use crate::task::Task;
use crate::tool::Fault;
use ac_automaton::watched::Watched;
use std::alloc::AllocError;
use std::fs::{self, Metadata, OpenFile};
use std::io::{self, ErrorKind};
use std::rt::Files;
use std::time::Clock;

/// How many symbolic links are followed, one after another; the system follows as many.
const LINKS: usize = 40;

/// How many names are tried for a new file.
const NAMES: usize = 1000;

/// Rewrites a file, unless no byte changes.
pub fn rewrite<F: Files + Clock + Drop + Eprint>(
    task: &Task<'_, '_, '_, F>,
    job: &Job<'_>,
    path: &str,
    tally: &mut Tally,
    swap: &mut Swap,
) -> Result<(), Stop>
    requires { IsJobReady job.now }
    ensures { RewritesFile F F.File.remaining F.File.contents job.now (tally.old, swap.old) (tally.new, swap.new) result }
{
    if path == "-" {
        return Err(Stop::File(FileFault::NotRegular));
    }
    let target = follow(task, path)?;
    let target = target.as_str();
    if compare(task, job, target, tally)? {
        Ok(())
    } else {
        replace_file(task, job, target, tally, swap)
    }
}

// ---- which file it is

/// The path of the regular file that a path names, also by symbolic links. It is made of the path as it was given: the path from the
/// root may have names that aren't UTF-8.
fn follow<F: Files + Clock + Drop + Eprint>(
    task: &Task<'_, '_, '_, F>,
    path: &str,
) -> Result<String, Stop> {
    let mut target = String::from_str(task.alloc, path)?;
    for _ in 0..LINKS {
        match fs::symlink_metadata(task.rt(), target.as_str()) {
            Ok(about) if about.is_symlink() => {}
            Ok(about) if about.is_file() => return Ok(target),
            Ok(_) => return Err(Stop::File(FileFault::NotRegular)),
            Err(error) => return Err(unopened(&error)),
        }
        target = target_of(task, target.as_str())?;
    }
    Err(Stop::File(FileFault::Unreadable))
}

/// The path that a symbolic link leads to: from the root, or from the link's own folder.
fn target_of<F: Files + Clock + Drop + Eprint>(
    task: &Task<'_, '_, '_, F>,
    link: &str,
) -> Result<String, Stop> {
    let target = match task.rt().read_link(task.alloc, link) {
        Ok(target) => target,
        Err(error) => return Err(unopened(&error)),
    };
    let target = target.as_str();
    match link.rsplit_once('/') {
        Some((folder, _)) if !target.starts_with('/') => {
            Ok(format!(in task.alloc; "{folder}/{target}")?)
        }
        _ => Ok(String::from_str(task.alloc, target)?),
    }
}

/// Why a file can't be opened: memory ran out, or anything else.
fn unopened(error: &io::Error) -> Stop {
    if error.kind() == ErrorKind::OutOfMemory {
        Stop::All(Fault::Run(RunError::Memory))
    } else {
        Stop::File(open_fault(error))
    }
}

/// Opens a file for reading.
fn open<F: Files>(rt: &F, path: &str) -> Result<F::File, Stop> {
    match fs::open(rt, path) {
        Ok(file) => Ok(file),
        Err(error) => Err(unopened(&error)),
    }
}

impl From<AllocError> for Stop {
    fn from(_error: AllocError) -> Stop {
        Stop::All(Fault::Run(RunError::Memory))
    }
}

// ---- whether a byte changes

/// Whether the job changes no byte of a file. Then what it found is counted.
fn compare<F: Files + Clock + Drop + Eprint>(
    task: &Task<'_, '_, '_, F>,
    job: &Job<'_>,
    target: &str,
    tally: &mut Tally,
) -> Result<bool, Stop>
    requires { IsJobReady job.now }
    ensures { Compares F F.File.remaining job.now tally.old tally.new result }
{
    let mut found = *tally;
    let input = open(task.rt(), target)?;
    task.start_file(&input);
    let mut input = task.watch(input)?;
    let piece = vec![in task.alloc; 0; PIECE]?;
    let mut output = Watched::new(Comparing::new(piece, open(task.rt(), target)?));
    let ran = run_over(task, job, &mut input, &mut output, &mut found);
    let mut compared = output.into_inner();
    match ran {
        Ok(()) if compared.is_same() => {
            *tally = found;
            Ok(true)
        }
        Ok(()) | Err(RunError::Write(_) | RunError::WriteZero) => Ok(false),
        Err(error) => Err(stop_for(error)),
    }
}

// ---- the new file

/// Makes the new file and puts it in the old one's place; where that fails the new file is removed.
fn replace_file<F: Files + Clock + Drop + Eprint>(
    task: &Task<'_, '_, '_, F>,
    job: &Job<'_>,
    target: &str,
    tally: &mut Tally,
    swap: &mut Swap,
) -> Result<(), Stop>
    requires { IsJobReady job.now }
    ensures { ReplacesFile F F.File.remaining F.File.contents job.now (tally.old, swap.old) (tally.new, swap.new) result }
{
    let folder = match target.rsplit_once('/') {
        Some((folder, _)) => folder,
        None => ".",
    };
    let (new, file) = create_in(task, folder, swap)?;
    match fill(task, job, target, new.as_str(), file, tally, swap) {
        Ok(_) => {
            sync_folder(task, folder);
            Ok(())
        }
        Err(stop) => {
            let _ = fs::remove_file(task.rt(), new.as_str());
            Err(stop)
        }
    }
}

/// Makes a new file in a folder, which nobody else may read.
fn create_in<F: Files + Clock + Drop + Eprint>(
    task: &Task<'_, '_, '_, F>,
    folder: &str,
    swap: &mut Swap,
) -> Result<(String, F::File), Stop>
    ensures { CreatesIn swap.old swap.new result }
{
    for n in 0..NAMES {
        let path = format!(in task.alloc; "{folder}/.acsub-{n}")?;
        match create(task.rt(), path.as_str(), swap) {
            Ok(file) => return Ok((path, file)),
            Err(error) if error.kind() == ErrorKind::AlreadyExists => {}
            Err(_) => break,
        }
    }
    Err(Stop::File(FileFault::Unwritable))
}

/// Writes the text of the old file into the new one, gives it the old one's owner and permissions, and puts it in its place. Returns
/// the new file. Only then is counted what was found.
fn fill<F: Files + Clock + Drop + Eprint>(
    task: &Task<'_, '_, '_, F>,
    job: &Job<'_>,
    target: &str,
    new: &str,
    file: F::File,
    tally: &mut Tally,
    swap: &mut Swap,
) -> Result<F::File, Stop>
    requires { IsJobReady job.now }
    ensures { FillsNew F F.File.remaining F.File.contents job.now file (tally.old, swap.old) (tally.new, swap.new) result }
{
    let input = open(task.rt(), target)?;
    let Ok(about) = input.metadata() else {
        return Err(Stop::File(FileFault::Unreadable));
    };
    task.start_file(&input);
    let mut output = task.watch(file)?;
    let mut found = *tally;
    let written = write_text(task, job, input, &mut output, &mut found);
    written?;
    let file = output.into_inner().into_inner();
    match place(task, &about, new, &file, target, swap) {
        Ok(()) => {
            *tally = found;
            Ok(file)
        }
        Err(fault) => Err(Stop::File(fault)),
    }
}

/// Writes all of the text that the job makes of the input into the new file.
fn write_text<F: Files + Clock + Drop + Eprint>(
    task: &Task<'_, '_, '_, F>,
    job: &Job<'_>,
    input: F::File,
    output: &mut Watched<Metered<F::File, F>>,
    tally: &mut Tally,
) -> Result<(), Stop>
    requires { IsJobReady job.now }
    ensures { WritesFile F F.File.remaining F.File.contents job.now (output.old, tally.old) (output.new, tally.new) result }
{
    let mut input = task.watch(input)?;
    match run_over(task, job, &mut input, output, tally) {
        Ok(()) => Ok(()),
        Err(RunError::Write(_) | RunError::WriteZero) => Err(Stop::File(FileFault::Unwritable)),
        Err(error) => Err(stop_for(error)),
    }
}

/// Gives the new file the old one's owner and permissions, and then its name.
fn place<F: Files + Clock + Drop + Eprint>(
    task: &Task<'_, '_, '_, F>,
    about: &Metadata,
    new: &str,
    file: &F::File,
    target: &str,
    swap: &mut Swap,
) -> Result<(), FileFault>
    ensures { Places swap.old swap.new result }
{
    let Ok(own) = file.metadata() else {
        return Err(FileFault::Unwritable);
    };
    if keep_owner(task.rt(), new, &own, about, swap).is_err() {
        return Err(FileFault::Owner);
    }
    if permit(task.rt(), new, about, swap).is_err() {
        return Err(FileFault::Unwritable);
    }
    if sync(file, swap).is_err() {
        return Err(FileFault::Unwritable);
    }
    match rename(task.rt(), new, target, swap) {
        Ok(()) => Ok(()),
        Err(_) => Err(FileFault::Unwritable),
    }
}

/// Makes the new name last. The file has its place already, so a failure is no fault.
fn sync_folder<F: Files + Clock + Drop + Eprint>(task: &Task<'_, '_, '_, F>, folder: &str) {
    if let Ok(folder) = fs::open(task.rt(), folder) {
        let _ = folder.sync_all();
    }
}
