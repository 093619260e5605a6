//! Runs over FILEs.
//!
//! The job is made once, and each FILE is an input of its own: it is opened, run over and closed before the next. A FILE that can't be
//! read is named on the error stream, and the others go on. What else stops a run ends them all. The FILE `-` is standard input; a
//! second `-` is empty, since nothing is read after its end.
ghost use Rattle.std.specs.Prelude.{◌≡◌, ◌<◌, OnOk, Some, false};
ghost use Rattle.std.specs.Io.KnownBytes.{Appends};
ghost use Rattle.std.specs.IoError.{error_kind};
ghost use Rattle.clap.specs.Walk.{texts};
ghost use Rattle.acsub.specs.Jobs.{IsJobReady};
ghost use Rattle.acsub.specs.Files.{file_status, open_fault, read_fault, stop_for};
ghost use Rattle.acsub.specs.Folds.{IsBlank, Notes, RunsAll, RunsFiles, StaysQuiet, Visits, count_line_of, fault_line, labels};
ghost use Rattle.acsub.specs.Visits.{IsCountOf, RunsJob, RunsOne, RunsPath, VisitsFile};

use crate::args::Words;
use crate::args::settings::Mode;
use crate::error::RunError;
use crate::guard::{is_input_output, is_output, spare_rules};
use crate::in_place::rewrite;
use crate::job::Job;
use crate::labelled::Labelled;
use crate::rules::Rules;
use crate::swap::Swap;
use crate::tally::Tally;
use crate::task::Task;
use crate::tool::{Fault, what_was_found};
use ac_automaton::output::Output;
use ac_automaton::watched::Watched;
use std::fmt::Display;
use std::fs::OpenFile;
use std::io::{self, ErrorKind, Read, Write, empty};
use std::rt::Files;
use std::time::Clock;
use std::{fmt, fs};

/// What keeps a FILE from being read or written, while the others go on.
#[derive(Clone, Copy)]
pub enum FileFault {
    /// There is none of this name.
    Missing,
    /// It is a folder.
    Folder,
    /// It may not be read.
    Denied,
    /// It can't be opened, for another reason.
    Unreadable,
    /// It is the file that standard output goes on to write.
    Output,
    /// A read failed.
    Read,
    /// It is to be rewritten, and is no regular file.
    NotRegular,
    /// The new file can't have the old one's owner.
    Owner,
    /// The new file can't be written, or can't take the old one's place.
    Unwritable,
}

impl FileFault {
    /// The status with which the program ends if this is the first fault.
    pub fn status(&self) -> u8
        ensures value { result ≡ file_status self.now }
        ensures some { 0 < result }
    {
        match self {
            FileFault::Owner | FileFault::Unwritable => 6,
            _ => 5,
        }
    }
}

impl Display for FileFault {
    ghost use Rattle.acsub.specs.Folds.{file_text};

    ghost output = { λ fault. Some (file_text fault) };

    fn fmt<W: fmt::Write>(&self, f: &mut fmt::Formatter<W>) -> fmt::Result {
        match self {
            FileFault::Missing => write!(f, "No such file or directory"),
            FileFault::Folder => write!(f, "Is a directory"),
            FileFault::Denied => write!(f, "Permission denied"),
            FileFault::Unreadable => write!(f, "cannot be read"),
            FileFault::Output => write!(f, "input file is output file"),
            FileFault::Read => write!(f, "read failed"),
            FileFault::NotRegular => write!(f, "not a regular file"),
            FileFault::Owner => write!(f, "owner cannot be kept"),
            FileFault::Unwritable => write!(f, "cannot be written"),
        }
    }
}

/// Why a FILE wasn't run over to its end.
#[derive(Drop)]
pub enum Stop {
    /// Something is wrong with it; the others go on.
    File(FileFault),
    /// Something that ends the program.
    All(Fault),
}

impl From<FileFault> for Stop {
    fn from(fault: FileFault) -> Stop {
        Stop::File(fault)
    }
}

/// What keeps a FILE from being opened.
pub fn open_fault(error: &io::Error) -> FileFault
    ensures { result ≡ open_fault (error_kind error.now) }
{
    match error.kind() {
        ErrorKind::NotFound => FileFault::Missing,
        ErrorKind::IsADirectory => FileFault::Folder,
        ErrorKind::PermissionDenied => FileFault::Denied,
        _ => FileFault::Unreadable,
    }
}

/// What a read of a FILE failed for: a folder can be opened, and not read.
fn read_fault(error: &io::Error) -> FileFault
    ensures { result ≡ read_fault (error_kind error.now) }
{
    if error.kind() == ErrorKind::IsADirectory {
        FileFault::Folder
    } else {
        FileFault::Read
    }
}

/// Why a run over a FILE stopped.
pub fn stop_for(error: RunError) -> Stop
    ensures { result ≡ stop_for error }
{
    match error {
        RunError::Read(error) => Stop::File(read_fault(&error)),
        error => Stop::All(Fault::Run(error)),
    }
}

/// What the runs over all inputs came to.
#[derive(Drop)]
pub struct Report {
    /// How much was found.
    pub tally: Tally,
    /// The status of the first FILE that could not be read or written; 0 where there is none.
    pub status: u8,
    /// How new files took the place of others.
    pub swap: Swap,
}

impl Report {
    /// Nothing was run over yet.
    pub fn new() -> Report
        ensures { IsBlank result }
    {
        Report {
            tally: Tally::new(),
            status: 0,
            swap: Swap::none(),
        }
    }
}

/// Runs by these rules over all FILEs. Where they are to be rewritten none of them may be the rule file.
pub fn run_files<F: Files + Clock + Drop + Eprint, R: Read, W: Write, E: Write>(
    task: &Task<'_, '_, '_, F>,
    rules: &Rules,
    reader: &mut Watched<R>,
    writer: &mut Watched<W>,
    errors: &mut E,
    report: &mut Report,
) -> Result<(), Fault>
    requires { report.old.status ≡ 0 }
    ensures ran { RunsFiles F F.File.remaining F.File.contents R.remaining W.contents task.now.asked.now rules.now
        (reader.old, writer.old, errors.old, report.old) (reader.new, writer.new, errors.new, report.new) result }
    ensures quiet { OnOk result (report.new.status ≡ 0 → StaysQuiet task.now.asked.now errors.old errors.new) }
{
    let job = task.job(rules)?;
    spare_rules(task)?;
    visit_all(
        task,
        &job,
        task.asked.files.as_slice(),
        reader,
        writer,
        errors,
        report,
    )
}

/// Visits FILEs, one after another.
fn visit_all<F: Files + Clock + Drop + Eprint, R: Read, W: Write, E: Write>(
    task: &Task<'_, '_, '_, F>,
    job: &Job<'_>,
    paths: &[&str],
    reader: &mut Watched<R>,
    writer: &mut Watched<W>,
    errors: &mut E,
    report: &mut Report,
) -> Result<(), Fault>
    requires ready { IsJobReady job.now }
    requires fine { report.old.status ≡ 0 }
    ensures ran { RunsAll F F.File.remaining F.File.contents R.remaining W.contents task.now.asked.now job.now
        (texts paths.now) (reader.old, writer.old, errors.old, report.old)
        (reader.new, writer.new, errors.new, report.new) result }
    ensures quiet { OnOk result (report.new.status ≡ 0 → StaysQuiet task.now.asked.now errors.old errors.new) }
{
    for path in paths {
        let before = report.tally.found();
        let visited = visit(task, job, path, reader, writer, report);
        task.meter.stop();
        match visited {
            Ok(()) => {}
            Err(Stop::File(fault)) => note(path, fault, errors, report),
            Err(Stop::All(fault)) => return Err(fault),
        }
        let found = report.tally.found().saturating_sub(before);
        tell_count(task.asked, path, found, errors);
    }
    Ok(())
}

/// Says how much was found in one of several FILEs, if something was, and that is asked for.
fn tell_count<E: Write>(asked: &Words<'_>, path: &str, found: u64, errors: &mut E)
    ensures { StaysQuiet asked.now errors.old errors.new }
{
    if asked.count && asked.files.len() > 1 && found > 0 {
        let _ = write_count_of(path, asked.mask, found, errors);
    }
}

/// Writes the line that says how much was found in a FILE.
fn write_count_of<E: Write>(
    path: &str,
    mask: Option<u8>,
    found: u64,
    errors: &mut E,
) -> io::Result<()>
    ensures { OnOk result (Appends (E.contents errors.old) (E.contents errors.new)
        (count_line_of path.now mask found)) }
{
    let what = what_was_found(mask, found);
    writeln!(errors, "acsub: {path}: {found} {what}")
}

/// Names a FILE on the error stream, and keeps the status of the first.
fn note<E: Write>(path: &str, fault: FileFault, errors: &mut E, report: &mut Report)
    ensures { Notes fault report.old report.new }
{
    let _ = write_note(path, fault, errors);
    if report.status == 0 {
        report.status = fault.status();
    }
}

/// Writes the line of a FILE's fault.
fn write_note<E: Write>(path: &str, fault: FileFault, errors: &mut E) -> io::Result<()>
    ensures { OnOk result (Appends (E.contents errors.old) (E.contents errors.new) (fault_line path.now fault)) }
{
    writeln!(errors, "acsub: {path}: {fault}")
}

/// Rewrites a FILE, or writes what the job makes of it.
fn visit<F: Files + Clock + Drop + Eprint, R: Read, W: Write>(
    task: &Task<'_, '_, '_, F>,
    job: &Job<'_>,
    path: &str,
    reader: &mut Watched<R>,
    writer: &mut Watched<W>,
    report: &mut Report,
) -> Result<(), Stop>
    requires { IsJobReady job.now }
    ensures { Visits F F.File.remaining F.File.contents R.remaining W.contents task.now.asked.now job.now path.now
        (reader.old, writer.old, report.old) (reader.new, writer.new, report.new) result }
{
    if task.asked.in_place {
        rewrite(task, job, path, &mut report.tally, &mut report.swap)
    } else if is_labelled(task.asked) {
        let Ok(output) = Output::new(task.alloc) else {
            return Err(Stop::All(Fault::Run(RunError::Memory)));
        };
        let mut lines = Watched::new(Labelled::new(output, path, writer));
        run_input(task, job, path, reader, &mut lines, &mut report.tally)
    } else {
        run_input(task, job, path, reader, writer, &mut report.tally)
    }
}

/// Whether each line is to have the path of its FILE.
fn is_labelled(asked: &Words<'_>) -> bool
    ensures { result ≡ labels asked.now }
{
    match (asked.mask, asked.settings.mode) {
        (None, Mode::List | Mode::Overlap) => asked.files.len() > 1,
        _ => false,
    }
}

/// Runs over standard input or a file, as the path says.
fn run_input<F: Files + Clock + Drop + Eprint, R: Read, W: Write>(
    task: &Task<'_, '_, '_, F>,
    job: &Job<'_>,
    path: &str,
    reader: &mut Watched<R>,
    writer: &mut Watched<W>,
    tally: &mut Tally,
) -> Result<(), Stop>
    requires { IsJobReady job.now }
    ensures { RunsPath F F.File.remaining R.remaining W.contents job.now path.now
        (reader.old, writer.old, tally.old) (reader.new, writer.new, tally.new) result }
{
    if path != "-" {
        return run_file(task, job, path, writer, tally);
    }
    if reader.ended() {
        let mut nothing = Watched::new(empty());
        return run_one(task, job, &mut nothing, writer, tally);
    }
    if is_input_output(task.rt()) {
        return Err(Stop::File(FileFault::Output));
    }
    task.start_input();
    run_one(task, job, reader, writer, tally)
}

/// Opens a file and runs over it.
fn run_file<F: Files + Clock + Drop + Eprint, W: Write>(
    task: &Task<'_, '_, '_, F>,
    job: &Job<'_>,
    path: &str,
    writer: &mut Watched<W>,
    tally: &mut Tally,
) -> Result<(), Stop>
    requires { IsJobReady job.now }
    ensures { VisitsFile F F.File.remaining W.contents job.now (writer.old, tally.old) (writer.new, tally.new) result }
{
    let file = match fs::open(task.rt(), path) {
        Ok(file) => file,
        Err(error) => return Err(Stop::File(open_fault(&error))),
    };
    if is_output(task.rt(), file.metadata()) {
        return Err(Stop::File(FileFault::Output));
    }
    task.start_file(&file);
    let Ok(mut input) = task.watch(file) else {
        return Err(Stop::All(Fault::Run(RunError::Memory)));
    };
    run_one(task, job, &mut input, writer, tally)
}

/// Runs over an input; a failed read is the FILE's.
fn run_one<F: Files + Clock + Drop + Eprint, R: Read, W: Write>(
    task: &Task<'_, '_, '_, F>,
    job: &Job<'_>,
    reader: &mut Watched<R>,
    writer: &mut Watched<W>,
    tally: &mut Tally,
) -> Result<(), Stop>
    requires open { reader.old.ended ≡ false }
    requires ready { IsJobReady job.now }
    ensures { RunsOne R.remaining W.contents job.now (reader.old, writer.old, tally.old)
        (reader.new, writer.new, tally.new) result }
{
    match run_over(task, job, reader, writer, tally) {
        Ok(()) => Ok(()),
        Err(error) => Err(stop_for(error)),
    }
}

/// Runs over an input, and counts what is found. Of a run that stopped, what was found before is counted.
pub fn run_over<F: Files + Clock + Drop + Eprint, R: Read, W: Write>(
    task: &Task<'_, '_, '_, F>,
    job: &Job<'_>,
    reader: &mut Watched<R>,
    writer: &mut Watched<W>,
    tally: &mut Tally,
) -> Result<(), RunError>
    requires open { reader.old.ended ≡ false }
    requires ready { IsJobReady job.now }
    ensures { RunsJob R.remaining W.contents job.now (reader.old, writer.old, tally.old)
        (reader.new, writer.new, tally.new) result }
{
    task.meter.watch_mask(task.counted_mask());
    let mut found = Tally::new();
    let ran = job.run(task.alloc, reader, writer, &mut found);
    let more = found_by(task, job, found.found(), ran.is_ok());
    tally.add(more);
    ran
}

/// How much a run found: so many matches, or the bytes that it masked, if it came to its end.
fn found_by<F: Files + Clock + Drop + Eprint>(
    task: &Task<'_, '_, '_, F>,
    job: &Job<'_>,
    found: u64,
    is_whole: bool,
) -> u64
    ensures { IsCountOf job.now found result }
{
    match job {
        Job::Mask(_) if is_whole => task.meter.masked(),
        _ => found,
    }
}
