//! The whole program: words in, a status out.
//!
//! [`program`] takes the words as the system gives them, and [`tool`] does the rest. It reads the words, then the whole rule file,
//! then runs over a reader and a writer, and flushes the writer. Requested help, or the version, is written and flushed like the text of a run.
//!
//! A fault is reported by one line on the error stream, and by the status. Faults are found in this order: words, rule file, run,
//! flush. After a fault of the run the writer is still flushed, and the fault of the run is the one that is reported.
ghost use Rattle.std.specs.Prelude.{◌≡◌, ◌≢◌, ◌↔◌, ◌⊎◌, ℕ, Err, false, map, string_bytes, IfOk, OnOk};
ghost use Rattle.std.specs.Io.KnownBytes.{Appends};
ghost use Rattle.std.specs.IoError.{error_kind};
ghost use Rattle.std.specs.Process.{exit_status};
ghost use Rattle.std.specs.Vec.Iter.{into_iter_items};
ghost use Rattle.acsub.specs.Ends.{EndsAsked, EndsProgram, EndsTool};
ghost use Rattle.acsub.specs.Outcome.{AnswersFile, AnswersHelp, AnswersUnasked, Collects, EndsOne, CountsByFile, CountsByRules, Finishes, RanByFile, RanByRules, ReadsFile, ReadsRuleText, Speaks, SpeaksOf, WritesWholeText, concluded, count_line, told_as};
ghost use Rattle.acsub.specs.Tally.{found_text};
ghost use Rattle.acsub.specs.FilesOutcome.{AnswersFiles, EndsFiles, HasFiles, RunsByText};
ghost use Rattle.acsub.specs.Early.{as_early};
ghost use Rattle.acsub.specs.Given.{form_wanted};
ghost use Rattle.acsub.specs.Rules.File.{grammar_of};
ghost use Rattle.acsub.specs.declared.args.Source.TheVariants as sources;
ghost use Rattle.acsub.specs.declared.early.EarlyError.TheVariants as early;
ghost use Rattle.acsub.specs.declared.error.RunError.TheVariants.{Rule};
ghost use Rattle.acsub.specs.declared.rules.RuleError.TheVariants.{Line};
ghost use Rattle.acsub.specs.Tool.{IsFaultOf, WritesLine, status_of};

use crate::args::{Source, Words, WordsFault, read_words};
use crate::check::{job_for, report_of};
use crate::early::{EarlyError, Refusal};
use crate::error::RunError;
use crate::files::{Report, run_files, run_over};
use crate::given::rule_file;
use crate::guard::is_input_output;
use crate::input::read_whole;
use crate::progress::Meter;
use crate::rules::{Rules, read_rules};
use crate::run::unread;
use crate::stream::told;
use crate::tally::Tally;
use crate::task::Task;
use ac_automaton::watched::{Watched, write_whole};
use ac_input::pairing::PairingError;
use std::alloc::{AllocError, Global};
use std::env::Args;
use std::io::{ErrorKind, Read, Write};
use std::process::ExitCode;
use std::rc::Rc;
use std::rt::Files;
use std::time::Clock;
use std::{fmt, fs, io};

/// Why the program ends with another status than 0.
#[derive(Drop)]
pub enum Fault {
    /// The words are not those of a command line.
    Words,
    /// A FILE that is to be rewritten is the rule file; its path.
    OwnRules(String),
    /// The pairs name a byte twice.
    Pairs(PairingError),
    /// The rule file cannot be read.
    RuleFile,
    /// Standard input is the file that standard output goes on to write.
    Output,
    /// The rules don't suit a mask, or a run for whole words.
    Refused(Refusal),
    /// The run stopped.
    Run(RunError),
    /// What was written cannot be flushed.
    Flush,
}

impl Fault {
    /// The status with which the program ends.
    pub fn status(&self) -> u8
        ensures { result ≡ status_of self.now }
    {
        match self {
            Fault::Words | Fault::OwnRules(_) | Fault::Pairs(_) => 2,
            Fault::RuleFile => 3,
            Fault::Output => 5,
            Fault::Refused(refusal) => refusal.status(),
            Fault::Run(RunError::Rule(_)) => 3,
            Fault::Run(RunError::Setting(_)) => 2,
            Fault::Run(RunError::Build(_)) => 4,
            Fault::Run(RunError::Read(_)) => 5,
            Fault::Run(RunError::Write(_)) => 6,
            Fault::Run(RunError::WriteZero) => 6,
            Fault::Run(RunError::Memory) => 7,
            Fault::Run(RunError::Position) => 8,
            Fault::Flush => 6,
        }
    }
}

impl fmt::Display for Fault {
    ghost use Rattle.std.specs.Prelude.{Some};
    ghost use Rattle.acsub.specs.Tool.{fault_text};

    ghost output = { λ fault. Some (fault_text fault) };

    fn fmt<W: fmt::Write>(&self, f: &mut fmt::Formatter<W>) -> fmt::Result {
        match self {
            Fault::Words => write!(f, "bad words"),
            Fault::OwnRules(path) => write!(f, "{path}: is the rule file"),
            Fault::Pairs(error) => write!(f, "setting: {error}"),
            Fault::RuleFile => write!(f, "rules: file cannot be read"),
            Fault::Output => write!(f, "input file is output file"),
            Fault::Refused(refusal) => write!(f, "{refusal}"),
            Fault::Run(error) => write!(f, "{error}"),
            Fault::Flush => write!(f, "flush failed"),
        }
    }
}

impl From<RunError> for Fault {
    ghost use Rattle.acsub.specs.declared.tool.Fault.TheVariants.{Run};

    ghost from_gives = { λ error fault. fault ≡ Run error };

    fn from(error: RunError) -> Fault {
        Fault::Run(error)
    }
}

impl From<AllocError> for Fault {
    ghost use Rattle.acsub.specs.declared.tool.Fault.TheVariants.{Run};
    ghost use Rattle.acsub.specs.declared.error.RunError.TheVariants.{Memory};

    ghost from_gives = { λ _ fault. fault ≡ Run Memory };

    fn from(_error: AllocError) -> Fault {
        Fault::Run(RunError::Memory)
    }
}

impl From<EarlyError> for Fault {
    ghost use Rattle.acsub.specs.Tool.{early_fault};

    ghost from_gives = { λ error fault. fault ≡ early_fault error };

    fn from(error: EarlyError) -> Fault {
        match error {
            EarlyError::Refused(refusal) => Fault::Refused(refusal),
            EarlyError::Run(error) => Fault::Run(error),
        }
    }
}

/// The program, on the words that the system gives: the whole of `main` but the standard streams.
///
/// Words that are no text are bad words.
pub fn program<F: Files + Clock + Drop + Eprint, R: Read, W: Write, E: Write>(
    meter: &Rc<Meter<F>>,
    alloc: Global,
    words: io::Result<Args>,
    reader: &mut Watched<R>,
    writer: &mut Watched<W>,
    errors: &mut E,
) -> ExitCode
    requires { reader.old.ended ≡ false }
    ensures ended { EndsProgram F F.File.remaining F.File.contents R.remaining W.contents
        (reader.old, writer.old, errors.old) (reader.new, writer.new, errors.new) words (exit_status result) }
    ensures quiet { exit_status result ≡ 0 → (errors.new ≡ errors.old) ⊎ IfOk words (λ all. SpeaksOf (into_iter_items all)) }
{
    let status = match collect(alloc, words) {
        Ok(words) => tool(meter, alloc, words.as_slice(), reader, writer, errors),
        Err(why) => tell(&why, errors),
    };
    ExitCode::from(status)
}

/// The words in their order.
fn collect(alloc: Global, words: io::Result<Args>) -> Result<Vec<String>, Fault>
    ensures { Collects words result }
{
    let words = match words {
        Ok(words) => words,
        Err(error) => return Err(fault_of(&error, Fault::Words)),
    };
    match words.collect(alloc) {
        Ok(words) => Ok(words),
        Err(_) => Err(Fault::Run(RunError::Memory)),
    }
}

/// The words in their order, for a hint, if they can be had.
pub fn collected(alloc: Global, words: io::Result<Args>) -> Option<Vec<String>> {
    words.ok()?.collect(alloc).ok()
}

/// Runs the program, of which the first word is the name, and returns its status. A fault is one line on the error stream; where
/// that can't be written, the status stands alone.
pub fn tool<F: Files + Clock + Drop + Eprint, R: Read, W: Write, E: Write>(
    meter: &Rc<Meter<F>>,
    alloc: Global,
    words: &[String],
    reader: &mut Watched<R>,
    writer: &mut Watched<W>,
    errors: &mut E,
) -> u8
    requires { reader.old.ended ≡ false }
    // The status is that of an outcome, which goes with the words, with what was read and written, and with the flush.
    ensures ended { EndsTool F F.File.remaining F.File.contents R.remaining W.contents
        (reader.old, writer.old, errors.old) (reader.new, writer.new, errors.new) words.now result }
    ensures quiet { result ≡ 0 → (errors.new ≡ errors.old) ⊎ SpeaksOf words.now }
{
    match read_words(alloc, words) {
        Ok(asked) => {
            let task = Task {
                alloc,
                asked: &asked,
                meter,
            };
            serve(&task, reader, writer, errors)
        }
        Err(fault) => match answer(alloc, &fault, writer) {
            Ok(()) => 0,
            Err(fault) => tell(&fault, errors),
        },
    }
}

/// Writes the line of a fault, and returns its status.
///
/// No contract says what was written where a write of the line fails, since std's `Write` says nothing of that.
pub fn tell<E: Write>(fault: &Fault, errors: &mut E) -> u8
    ensures { result ≡ status_of fault.now }
{
    let _ = write_line(fault, errors);
    fault.status()
}

/// Writes the line of a fault.
fn write_line<E: Write>(fault: &Fault, errors: &mut E) -> io::Result<()>
    ensures { WritesLine E.contents errors.old errors.new fault.now result }
{
    writeln!(errors, "acsub: {fault}")
}

/// Shows the help, where the words ask for it; otherwise they are no command line.
fn answer<W: Write>(alloc: Global, fault: &WordsFault, writer: &mut Watched<W>) -> Result<(), Fault>
    ensures { AnswersUnasked W.contents writer.old writer.new fault.now result }
{
    match fault {
        WordsFault::Help(help) => show_help(alloc, help, writer),
        WordsFault::Bad => Err(Fault::Words),
        WordsFault::Memory => Err(Fault::Run(RunError::Memory)),
        WordsFault::Pairing(error) => Err(Fault::Pairs(*error)),
    }
}

/// Does what was asked for, and returns the status.
fn serve<F: Files + Clock + Drop + Eprint, R: Read, W: Write, E: Write>(
    task: &Task<'_, '_, '_, F>,
    reader: &mut Watched<R>,
    writer: &mut Watched<W>,
    errors: &mut E,
) -> u8
    requires { reader.old.ended ≡ false }
    ensures ended { EndsAsked F F.File.remaining F.File.contents R.remaining W.contents
        (reader.old, writer.old, errors.old) (reader.new, writer.new, errors.new) task.now.asked.now result }
    ensures quiet { result ≡ 0 → (errors.new ≡ errors.old) ⊎ Speaks task.now.asked.now }
{
    if task.has_one_input() {
        serve_one(task, reader, writer, errors)
    } else {
        serve_all(task, reader, writer, errors)
    }
}

/// Runs over standard input, and returns the status.
fn serve_one<F: Files + Clock + Drop + Eprint, R: Read, W: Write, E: Write>(
    task: &Task<'_, '_, '_, F>,
    reader: &mut Watched<R>,
    writer: &mut Watched<W>,
    errors: &mut E,
) -> u8
    requires { reader.old.ended ≡ false }
    ensures ended { EndsOne F.File.remaining R.remaining W.contents
        (reader.old, writer.old) (reader.new, writer.new) task.now.asked.now result }
    ensures quiet { result ≡ 0 → (errors.new ≡ errors.old) ⊎ Speaks task.now.asked.now }
{
    let mut tally = Tally::new();
    match run_alone(task, reader, writer, &mut tally) {
        Ok(()) => conclude(task.asked, tally.found(), 0, errors),
        Err(fault) => tell(&fault, errors),
    }
}

/// Runs over all FILEs, or reports on the rules, and returns the status.
fn serve_all<F: Files + Clock + Drop + Eprint, R: Read, W: Write, E: Write>(
    task: &Task<'_, '_, '_, F>,
    reader: &mut Watched<R>,
    writer: &mut Watched<W>,
    errors: &mut E,
) -> u8
    requires { reader.old.ended ≡ false }
    ensures ended { HasFiles task.now.asked.now → EndsFiles F F.File.remaining F.File.contents R.remaining W.contents
        task.now.asked.now (reader.old, writer.old, errors.old) (reader.new, writer.new) result }
    ensures quiet { result ≡ 0 → (errors.new ≡ errors.old) ⊎ Speaks task.now.asked.now }
{
    let mut report = Report::new();
    match run_all(task, reader, writer, errors, &mut report) {
        Ok(()) => conclude(task.asked, report.tally.found(), report.status, errors),
        Err(fault) => tell(&fault, errors),
    }
}

/// Reads the rules, runs over standard input, and flushes.
fn run_alone<F: Files + Clock + Drop + Eprint, R: Read, W: Write>(
    task: &Task<'_, '_, '_, F>,
    reader: &mut Watched<R>,
    writer: &mut Watched<W>,
    tally: &mut Tally,
) -> Result<(), Fault>
    requires open { reader.old.ended ≡ false }
    requires fresh { tally.old.found ≡ 0 }
    ensures { AnswersFile F.File.remaining R.remaining W.contents
        (reader.old, writer.old) (reader.new, writer.new) task.now.asked.now tally.new result }
{
    if is_input_output(task.rt()) {
        return Err(Fault::Output);
    }
    match read_rule_file(task) {
        Ok(file) => {
            let ran = run_by_file(task, file.as_slice(), reader, writer, tally);
            finish(told_as(ran), writer)
        }
        Err(fault) => Err(fault),
    }
}

/// The run over standard input that is asked for, by the bytes of the rules.
fn run_by_file<F: Files + Clock + Drop + Eprint, R: Read, W: Write>(
    task: &Task<'_, '_, '_, F>,
    file: &[u8],
    reader: &mut Watched<R>,
    writer: &mut Watched<W>,
    tally: &mut Tally,
) -> Result<(), EarlyError>
    requires open { reader.old.ended ≡ false }
    requires fresh { tally.old.found ≡ 0 }
    ensures ran { RanByFile R.remaining W.contents task.now.asked.now (reader.old, writer.old) (reader.new, writer.new)
        file.now result }
    ensures counts { OnOk result (CountsByFile task.now.asked.now file.now reader.old reader.new tally.new) }
    ensures fault { (n : ℕ) → (result ≡ Err (early.Run (Rule (Line n)))) ↔ (grammar_of (form_wanted task.now.asked.now)).bad file.now n }
{
    match read_rules(task.alloc, task.asked.form(), file) {
        Ok(rules) => run_by_rules(task, &rules, reader, writer, tally),
        Err(error) => Err(EarlyError::Run(unread(error))),
    }
}

/// The run over standard input that is asked for, by these rules.
fn run_by_rules<F: Files + Clock + Drop + Eprint, R: Read, W: Write>(
    task: &Task<'_, '_, '_, F>,
    rules: &Rules,
    reader: &mut Watched<R>,
    writer: &mut Watched<W>,
    tally: &mut Tally,
) -> Result<(), EarlyError>
    requires { reader.old.ended ≡ false }
    ensures ran { RanByRules R.remaining W.contents task.now.asked.now (reader.old, writer.old) (reader.new, writer.new)
        rules.now result }
    ensures counts { OnOk result
        (CountsByRules task.now.asked.now rules.now reader.old reader.new tally.old tally.new) }
{
    match task.job(rules) {
        Ok(job) => {
            task.start_input();
            let ran = run_over(task, &job, reader, writer, tally);
            task.meter.stop();
            as_early(ran)
        }
        Err(error) => Err(error),
    }
}

/// The result of a job that ran.
fn as_early(ran: Result<(), RunError>) -> Result<(), EarlyError>
    ensures { result ≡ as_early ran }
{
    match ran {
        Ok(()) => Ok(()),
        Err(error) => Err(EarlyError::Run(error)),
    }
}

/// The result of a run as an outcome of the program.
fn told_as(ran: Result<(), EarlyError>) -> Result<(), Fault>
    ensures { result ≡ told_as ran }
{
    match ran {
        Ok(()) => Ok(()),
        Err(error) => Err(Fault::from(error)),
    }
}

/// Reads the rules, runs over all FILEs or reports on the rules, and flushes.
fn run_all<F: Files + Clock + Drop + Eprint, R: Read, W: Write, E: Write>(
    task: &Task<'_, '_, '_, F>,
    reader: &mut Watched<R>,
    writer: &mut Watched<W>,
    errors: &mut E,
    report: &mut Report,
) -> Result<(), Fault>
    requires open { reader.old.ended ≡ false }
    requires fine { report.old.status ≡ 0 }
    ensures ran { HasFiles task.now.asked.now → AnswersFiles F F.File.remaining F.File.contents R.remaining W.contents
        task.now.asked.now (reader.old, writer.old, errors.old, report.old)
        (reader.new, writer.new, errors.new, report.new) result }
    ensures quiet { OnOk result (report.new.status ≡ 0 → (errors.new ≡ errors.old) ⊎ Speaks task.now.asked.now) }
{
    let file = read_rule_text(task, reader)?;
    let ran = run_by_text(task, file.as_slice(), reader, writer, errors, report);
    finish(ran, writer)
}

/// The bytes of the rules, which may be on standard input.
fn read_rule_text<F: Files + Clock + Drop + Eprint, R: Read>(
    task: &Task<'_, '_, '_, F>,
    reader: &mut Watched<R>,
) -> Result<Vec<u8>, Fault>
    requires { reader.old.ended ≡ false }
    ensures { task.now.asked.now.source ≢ sources.Input
        → ReadsRuleText F.File.remaining task.now.asked.now result × (reader.new ≡ reader.old) }
{
    match task.asked.source {
        Source::Input => read_input(task.alloc, reader),
        _ => read_rule_file(task),
    }
}

/// Runs over all FILEs or reports on the rules, by the bytes of the rules.
fn run_by_text<F: Files + Clock + Drop + Eprint, R: Read, W: Write, E: Write>(
    task: &Task<'_, '_, '_, F>,
    file: &[u8],
    reader: &mut Watched<R>,
    writer: &mut Watched<W>,
    errors: &mut E,
    report: &mut Report,
) -> Result<(), Fault>
    requires { report.old.status ≡ 0 }
    ensures ran { task.now.asked.now.check ≡ false
        → RunsByText F F.File.remaining F.File.contents R.remaining W.contents task.now.asked.now
        (reader.old, writer.old, errors.old, report.old) (reader.new, writer.new, errors.new, report.new)
        file.now result }
    ensures quiet { OnOk result (report.new.status ≡ 0 → (errors.new ≡ errors.old) ⊎ Speaks task.now.asked.now) }
{
    match read_rules(task.alloc, task.asked.form(), file) {
        Ok(rules) if task.asked.check => report_on(task, &rules, writer),
        Ok(rules) => run_files(task, &rules, reader, writer, errors, report),
        Err(error) => Err(Fault::Run(unread(error))),
    }
}

/// Writes what is odd about rules by which a job can be made.
fn report_on<F: Files + Clock + Drop + Eprint, W: Write>(
    task: &Task<'_, '_, '_, F>,
    rules: &Rules,
    writer: &mut Watched<W>,
) -> Result<(), Fault> {
    let job = job_for(task.alloc, task.asked, rules)?;
    let text = report_of(task.alloc, task.asked, &job, rules)?;
    Ok(write_text(text.as_str(), writer)?)
}

/// The status where no fault ended the runs; and the line that says how much was found, if it is asked for.
fn conclude<E: Write>(asked: &Words<'_>, found: u64, status: u8, errors: &mut E) -> u8
    ensures status { result ≡ concluded asked.now found status }
    ensures quiet { (errors.new ≡ errors.old) ⊎ Speaks asked.now }
{
    if asked.count {
        let _ = write_count(asked.mask, found, errors);
    }
    if status == 0 && asked.fail_if_none && found == 0 {
        1
    } else {
        status
    }
}

/// Writes the line that says how much was found.
fn write_count<E: Write>(mask: Option<u8>, found: u64, errors: &mut E) -> io::Result<()>
    ensures { OnOk result (Appends (E.contents errors.old) (E.contents errors.new) (count_line mask found)) }
{
    let what = what_was_found(mask, found);
    writeln!(errors, "acsub: {found} {what}")
}

/// What is counted: matches, or the bytes of a mask.
pub fn what_was_found(mask: Option<u8>, found: u64) -> &'static str
    ensures { result.now ≡ found_text mask found }
{
    match mask {
        None if found == 1 => "match",
        None => "matches",
        Some(_) if found == 1 => "masked byte",
        Some(_) => "masked bytes",
    }
}

/// Shows the help or the version, and flushes. No contract of clap says which text it is.
fn show_help<W: Write>(
    alloc: Global,
    help: &clap::Error,
    writer: &mut Watched<W>,
) -> Result<(), Fault>
    ensures { AnswersHelp W.contents writer.old writer.new result }
{
    let Ok(text) = help.to_string(alloc) else {
        return Err(Fault::Run(RunError::Memory));
    };
    match write_text(text.as_str(), writer) {
        Ok(()) => finish(Ok(()), writer),
        Err(error) => finish(Err(Fault::Run(error)), writer),
    }
}

/// Writes a whole text.
fn write_text<W: Write>(text: &str, writer: &mut Watched<W>) -> Result<(), RunError>
    ensures { WritesWholeText W.contents text.now writer.old writer.new result }
{
    told(write_whole(writer, text.as_bytes()))
}

/// Flushes the writer after a run. A fault of the run is reported before one of the flush.
fn finish<W: Write>(ran: Result<(), Fault>, writer: &mut Watched<W>) -> Result<(), Fault>
    ensures { Finishes W.contents ran writer.old writer.new result }
{
    let flushed = writer.flush();
    ran?;
    match flushed {
        Ok(()) => Ok(()),
        Err(_) => Err(Fault::Flush),
    }
}

/// The bytes of the rules: of a file, or of the arguments. Without a FILE `-` is the path of a file.
fn read_rule_file<F: Files + Clock + Drop + Eprint>(
    task: &Task<'_, '_, '_, F>,
) -> Result<Vec<u8>, Fault>
    ensures { ReadsRuleText F.File.remaining task.now.asked.now result }
{
    let asked = task.asked;
    match asked.source {
        Source::File(path) => read_file(task.rt(), task.alloc, path),
        Source::Input => read_file(task.rt(), task.alloc, "-"),
        Source::Given => {
            let (patterns, by) = (asked.patterns.as_slice(), asked.replacements.as_slice());
            match rule_file(task.alloc, patterns, by) {
                Ok(bytes) => Ok(bytes),
                Err(_) => Err(Fault::Run(RunError::Memory)),
            }
        }
    }
}

/// The bytes of the rules on standard input.
fn read_input<R: Read>(alloc: Global, reader: &mut Watched<R>) -> Result<Vec<u8>, Fault>
    requires { reader.old.ended ≡ false }
{
    match read_whole(alloc, reader) {
        Ok(bytes) => Ok(bytes),
        Err(RunError::Read(_)) => Err(Fault::RuleFile),
        Err(error) => Err(Fault::Run(error)),
    }
}

/// All bytes of a file.
fn read_file<F: Files>(rt: &F, alloc: Global, path: &str) -> Result<Vec<u8>, Fault>
    ensures { ReadsFile F.File.remaining result }
{
    let mut bytes = Vec::new(alloc);
    match fs::open(rt, path) {
        Ok(mut file) => match file.read_to_end(&mut bytes) {
            Ok(_) => Ok(bytes),
            Err(error) => Err(fault_of(&error, Fault::RuleFile)),
        },
        Err(error) => Err(fault_of(&error, Fault::RuleFile)),
    }
}

/// The fault for an error of the system: out of memory as such, and else the other fault.
fn fault_of(error: &io::Error, other: Fault) -> Fault
    ensures { IsFaultOf (error_kind error.now) other result }
{
    if error.kind() == ErrorKind::OutOfMemory {
        Fault::Run(RunError::Memory)
    } else {
        other
    }
}
