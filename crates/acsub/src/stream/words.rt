//! The text of the whole words of an input, written while the input is read.
ghost use Rattle.std.specs.Prelude.{◌≡◌, IfErr, OnOk, false};
ghost use Rattle.ac_automaton.specs.Stream.Devices.Moved.{NoneTouched};
ghost use Rattle.ac_automaton.specs.Stream.Replace.{CostsItems};
ghost use Rattle.ac_automaton.specs.Stream.WholeWords.{asked_for};
ghost use Rattle.aho_corasick.specs.AhoCorasick.{as_built};
ghost use Rattle.acsub.specs.Stream.{IfStreamMemory, IsNoRefusal};
ghost use Rattle.acsub.specs.Tally.{Counts, plan_words};
ghost use Rattle.acsub.specs.WordRun.{AreWordsReady, WritesWordText, sequence_of};

use super::list::{list_all_words, list_words};
use super::replace::replace_words;
use crate::args::settings::Mode;
use crate::tally::Tally;
use crate::word::PreparedWords;
use ac_automaton::error::StreamError;
use ac_automaton::watched::Watched;
use ac_input::steps::Steps;
use std::alloc::Global;
use std::io::{Read, Write};

/// Reads the input, and writes what the settings' mode makes of its whole words while it reads.
pub(crate) fn stream_words<R: Read, W: Write>(
    alloc: Global,
    prepared: &PreparedWords<'_>,
    reader: &mut Watched<R>,
    writer: &mut Watched<W>,
    steps: &mut Steps,
    tally: &mut Tally,
) -> Result<(), StreamError>
    requires open { reader.old.ended ≡ false }
    requires ready { AreWordsReady prepared.now }
    ensures writes { WritesWordText R.remaining W.contents (reader.old, writer.old) (reader.new, writer.new)
        prepared.now.settings prepared.now.rules.now result }
    ensures costs { CostsItems (sequence_of prepared.now.settings.mode)
        (asked_for prepared.now.settings.kind (as_built prepared.now.automaton)) reader.old reader.new
        steps.old steps.new result }
    ensures counts { OnOk result (Counts (plan_words prepared.now.settings prepared.now.rules.now)
        reader.old reader.new tally.old tally.new) }
    ensures memory { IfStreamMemory result
        (NoneTouched reader.old reader.new writer.old writer.new) }
    ensures accepted { IfErr result IsNoRefusal }
{
    let kind = prepared.settings.kind;
    let rules = prepared.rules;
    let engine = &prepared.automaton;
    match prepared.settings.mode {
        Mode::Replace => replace_words(alloc, kind, rules, engine, reader, writer, steps, tally),
        Mode::List => list_words(alloc, kind, engine, reader, writer, steps, tally),
        Mode::Overlap => list_all_words(alloc, engine, reader, writer, steps, tally),
    }
}
