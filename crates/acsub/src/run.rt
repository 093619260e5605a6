//! A run: rules and settings in, an input read to its end, its text written.
//!
//! [`run`] takes a rule file of hex. The program goes by [`run_prepared`], over each of its inputs.
//!
//! Under the standard kind no later byte can change a match. So a run that replaces or lists such matches, none of them empty,
//! writes while it reads. Everything that is decided is written before each read; at most as many bytes are held back as the
//! longest pattern has.
//!
//! A run that is asked for a stream does so under every kind, and for a list of all that overlap. Under a leftmost kind a match is
//! held back until it is decided: no byte that follows can change it. That is a wish about time: packed search and an empty pattern
//! hold the input as before.
//!
//! Every other run holds its input and writes only after it has read all of it. It takes all the memory that it needs before the
//! read that finds the end. Then it searches, by packed search if the settings name it and otherwise by an automaton, and writes
//! the text as it is found.
//!
//! Either way a run that is out of memory stops before anything is written. The engine and its settings change nothing of the
//! text, which [`runs_write_alike`] states.
ghost use Rattle.std.specs.Prelude.{◌≡◌, ◌↔◌, List, ℕ, [], false, length, Err, OnOk};
ghost use Rattle.ac_input.specs.Rules.{FirstBadLine, IsRuleFile};
ghost use Rattle.acsub.specs.Matches.{IsHeldCost};
ghost use Rattle.acsub.specs.Plan.{plan_of};
ghost use Rattle.acsub.specs.Run.{CostsIn, CostsRun, IsPrepared, Ran, RanRules, WroteText, not_read};
ghost use Rattle.acsub.specs.Run.RunLaws.{RunsWriteAlike};
ghost use Rattle.acsub.specs.Run.Sending.{SendsText};
ghost use Rattle.acsub.specs.Tally.{Counts, grown, plan_matches};
ghost use Rattle.acsub.specs.Args.Settings.{IsAccepted};
ghost use Rattle.acsub.specs.declared.error.RunError.TheVariants.{Rule};
ghost use Rattle.acsub.specs.declared.rules.RuleError.TheVariants.{Line};

use crate::args::settings::{Mode, Settings};
use crate::error::RunError;
use crate::input::read_whole;
use crate::prepared::{Prepared, prepare};
use crate::rewrite::{send_list, send_replaced};
use crate::rules::{Form, RuleError, Rules, read_rules};
use crate::stream::{stream_text, told};
use crate::tally::Tally;
use ac_automaton::error::StreamError;
use ac_automaton::output::Output;
use ac_automaton::watched::Watched;
use ac_input::steps::Steps;
use std::alloc::Global;
use std::io::{Read, Write};

/// Reads the input to its end, and writes the text that settings and rules make of it.
///
/// It takes memory for the rules and what is built of them, and for one buffer for the text. Where the text is written while the
/// input is read, it takes one more buffer, of 64 KiB or eight of the longest pattern; otherwise memory for the whole input. A run
/// costs about the input and the text. The writer isn't flushed.
pub fn run<R: Read, W: Write>(
    alloc: Global,
    settings: &Settings,
    rules: &[u8],
    reader: &mut Watched<R>,
    writer: &mut Watched<W>,
) -> Result<(), RunError>
    requires { reader.old.ended ≡ false }
    // Ok has written the text of all that was read.
    ensures written { OnOk result (WroteText settings.now (IsRuleFile rules.now)
        (reader.old, writer.old) (reader.new, writer.new)) }
    // What was read and written, and with which result. While the text is written, no read gives more bytes than the buffer has room
    // for. A refusal has touched nothing.
    ensures answered { Ran R.remaining W.contents (reader.old, writer.old) (reader.new, writer.new)
        settings.now rules.now result }
    // The first bad line is reported whatever memory does.
    ensures fault { (n : ℕ) → (result ≡ Err (Rule (Line n))) ↔ FirstBadLine rules.now n }
{
    let mut steps = Steps::new();
    run_counted(alloc, settings, rules, reader, writer, &mut steps)
}

/// The same, and counts what it does. Packed search counts nothing.
pub fn run_counted<R: Read, W: Write>(
    alloc: Global,
    settings: &Settings,
    rules: &[u8],
    reader: &mut Watched<R>,
    writer: &mut Watched<W>,
    steps: &mut Steps,
) -> Result<(), RunError>
    requires { reader.old.ended ≡ false }
    ensures answered { Ran R.remaining W.contents (reader.old, writer.old) (reader.new, writer.new)
        settings.now rules.now result }
    ensures fault { (n : ℕ) → (result ≡ Err (Rule (Line n))) ↔ FirstBadLine rules.now n }
    ensures cost { CostsIn (IsRuleFile rules.now) (plan_of false settings.now) reader.old reader.new
        steps.old steps.new result }
{
    match read_rules(alloc, Form::Hex, rules) {
        Ok(rules) => run_rules(alloc, settings, &rules, reader, writer, steps),
        Err(error) => Err(unread(error)),
    }
}

/// The same, by rules that have been read.
fn run_rules<R: Read, W: Write>(
    alloc: Global,
    settings: &Settings,
    rules: &Rules,
    reader: &mut Watched<R>,
    writer: &mut Watched<W>,
    steps: &mut Steps,
) -> Result<(), RunError>
    requires { reader.old.ended ≡ false }
    ensures answered { RanRules R.remaining W.contents (reader.old, writer.old) (reader.new, writer.new)
        (plan_of false settings.now rules.now) result }
    ensures cost { CostsRun (plan_of false settings.now rules.now) reader.old reader.new
        steps.old steps.new result }
{
    let prepared = prepare(alloc, settings, false, rules)?;
    let mut tally = Tally::new();
    run_prepared(alloc, &prepared, reader, writer, steps, &mut tally)
}

/// The same, by what was prepared before: one build serves any number of inputs. Counts the matches in each, too.
///
/// Where a stream was asked for, it writes while it reads under a leftmost kind too, and so does a list of all that overlap, unless
/// packed search finds the matches or a pattern is empty. It writes the same text.
///
/// Before each read it has written everything that is decided, of all that overlap each line. Under a leftmost kind it holds back at
/// most as many bytes as the longest pattern has; it may look at each byte once more, read ahead in vain, and after each match at so
/// many bytes and one again. Under the standard kind it looks at no byte again.
pub fn run_prepared<R: Read, W: Write>(
    alloc: Global,
    prepared: &Prepared<'_>,
    reader: &mut Watched<R>,
    writer: &mut Watched<W>,
    steps: &mut Steps,
    tally: &mut Tally,
) -> Result<(), RunError>
    requires open { reader.old.ended ≡ false }
    requires prepared { IsPrepared prepared.now }
    ensures answered { RanRules R.remaining W.contents (reader.old, writer.old) (reader.new, writer.new)
        prepared.now result }
    ensures cost { CostsRun prepared.now reader.old reader.new steps.old steps.new result }
    ensures counts { OnOk result (Counts (plan_matches prepared.now) reader.old reader.new tally.old tally.new) }
{
    match prepared.streamed() {
        Some(automaton) => stream_text(alloc, prepared, automaton, reader, writer, steps, tally),
        None => {
            let mut output = Output::new(alloc)?;
            let input = read_whole(alloc, reader)?;
            let text = write_text(
                prepared,
                input.as_slice(),
                &mut output,
                writer,
                steps,
                tally,
            );
            told(text)
        }
    }
}

/// Two runs that return Ok by the same rules, mode, kind and pairing, and that read the same bytes, wrote the same bytes. Neither the
/// form of a rule file changes them, nor the engine and its settings, nor how the reads cut the input, nor whether the text was asked
/// for while it was read. The function does nothing: its contract is the law.
pub fn runs_write_alike()
    ensures { RunsWriteAlike }
{}

/// The error of a run that has no rules.
pub(crate) fn unread(error: RuleError) -> RunError
    ensures { result ≡ not_read error }
{
    match error {
        RuleError::Line(line) => RunError::Rule(RuleError::Line(line)),
        RuleError::Memory => RunError::Memory,
    }
}

/// Writes the text that a mode makes of the whole input.
fn write_text<W: Write>(
    prepared: &Prepared<'_>,
    input: &[u8],
    output: &mut Output,
    writer: &mut Watched<W>,
    steps: &mut Steps,
    tally: &mut Tally,
) -> Result<(), StreamError>
    requires accepted { IsAccepted prepared.now.settings prepared.now.rules }
    requires fresh { output.old ≡ [] }
    ensures sent { SendsText W.contents prepared.now input.now writer.old writer.new result }
    ensures cost { IsHeldCost prepared.now (length input.now) steps.old steps.new }
    ensures counts { OnOk result (tally.new.found
        ≡ grown tally.old.found (length (plan_matches prepared.now input.now))) }
{
    match prepared.mode() {
        Mode::Replace => {
            let mut picks = prepared.picks(input);
            let rules = prepared.rules();
            send_replaced(&mut picks, input, rules, output, writer, steps, tally)
        }
        Mode::List => send_list(&mut prepared.picks(input), output, writer, steps, tally),
        Mode::Overlap => send_list(
            &mut prepared.overlapping(input),
            output,
            writer,
            steps,
            tally,
        ),
    }
}
