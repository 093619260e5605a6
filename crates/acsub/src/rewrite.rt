//! The text of an input that lies in memory, written as it is found.
//!
//! Each function goes on from one match to the next, and sends what stands between and what is put in its place, and counts it. At
//! its end nothing is held back.
ghost use Rattle.std.specs.Prelude.{◌≡◌, [], length, OnOk};
ghost use Rattle.ac_automaton.specs.InMemory.Replace.{LieInOrder};
ghost use Rattle.acsub.specs.Matches.{KeepsCount, left_in};
ghost use Rattle.acsub.specs.Run.Sending.{SendsList, SendsReplaced};
ghost use Rattle.acsub.specs.Tally.{grown};

use crate::line::Line;
use crate::matches::Matches;
use crate::rules::Rules;
use crate::tally::Tally;
use ac_automaton::error::StreamError;
use ac_automaton::output::Output;
use ac_automaton::watched::Watched;
use ac_input::steps::Steps;
use std::io::Write;

/// Writes the input with each pick replaced.
pub fn send_replaced<W: Write>(
    picks: &mut Matches<'_>,
    input: &[u8],
    rules: &Rules,
    output: &mut Output,
    writer: &mut Watched<W>,
    steps: &mut Steps,
    tally: &mut Tally,
) -> Result<(), StreamError>
    requires lie { LieInOrder (length rules.now) (length input.now) 0 (left_in picks.old) }
    requires fresh { output.old ≡ [] }
    ensures sent { SendsReplaced W.contents input.now rules.now picks.old
        writer.old writer.new result }
    ensures cost { KeepsCount picks.old picks.new steps.old steps.new }
    ensures counts { OnOk result (tally.new.found ≡ grown tally.old.found (length (left_in picks.old))) }
{
    let mut at = 0;
    while let Some(found) = picks.next_counted(steps) {
        tally.add(1);
        output.send_exchanged(
            writer,
            &input[at..found.start()],
            rules.replacement(found.pattern().as_usize()),
        )?;
        at = found.end();
    }
    output.send_all(writer, &input[at..])
}

/// Writes a line for each match.
pub fn send_list<W: Write>(
    matches: &mut Matches<'_>,
    output: &mut Output,
    writer: &mut Watched<W>,
    steps: &mut Steps,
    tally: &mut Tally,
) -> Result<(), StreamError>
    requires { output.old ≡ [] }
    ensures sent { SendsList W.contents matches.old writer.old writer.new result }
    ensures cost { KeepsCount matches.old matches.new steps.old steps.new }
    ensures counts { OnOk result (tally.new.found ≡ grown tally.old.found (length (left_in matches.old))) }
{
    while let Some(found) = matches.next_counted(steps) {
        tally.add(1);
        output.send(writer, Line::new(&found).as_bytes())?;
    }
    output.send_held(writer)
}
