//! A run for whole words: an occurrence counts only where neither the byte before it nor the one after it is a word byte.
//!
//! A word byte is an ASCII letter, a digit, `_`, or any byte that isn't ASCII. The ends of the input are none. Of the occurrences
//! that count the run makes what its mode says: it replaces the matches of the kind, lists them, or lists all that overlap.
//!
//! It always writes while it reads. Whether an occurrence is a whole word isn't known before the next byte is read, so before each read
//! it has written everything but the last bytes in which a word may still begin: no more than the longest pattern has, or one. It takes
//! memory for what is built of the rules, and for two buffers.
ghost use Rattle.std.specs.Prelude.{◌≡◌, IfOk, IfErr, OnOk, false};
ghost use Rattle.acsub.specs.Early.{IsUnready, as_early};
ghost use Rattle.acsub.specs.Tally.{Counts, plan_words};
ghost use Rattle.acsub.specs.WordRun.{AnswersWordRun, AreJobWords, AreWordsReady, CostsWordRun, IsSearchable, NotSearchable, for_words, word_demand};

use crate::args::settings::{Engine, Settings, check, has_empty_pattern};
use crate::early::{EarlyError, Refusal};
use crate::error::RunError;
use crate::prepared::automaton_for;
use crate::rules::Rules;
use crate::stream::told;
use crate::stream::words::stream_words;
use crate::tally::Tally;
use ac_automaton::watched::Watched;
use ac_input::search::MatchKind;
use ac_input::steps::Steps;
use aho_corasick::AhoCorasick;
use std::alloc::Global;
use std::io::{Read, Write};

/// What finds whole words, settled before an input is read. The automaton is of the standard kind, whatever the settings ask for.
#[derive(Drop)]
pub struct PreparedWords<'r> {
    pub(crate) settings: Settings,
    pub(crate) rules: &'r Rules,
    pub(crate) automaton: AhoCorasick,
}

/// Makes all that a run for words has before it reads, if the settings and the rules go together.
pub fn prepare_words<'r>(
    alloc: Global,
    settings: &Settings,
    rules: &'r Rules,
) -> Result<PreparedWords<'r>, EarlyError>
    ensures ready { IfOk result (AreJobWords settings.now rules.entry.now) }
    ensures refused { IfErr result (IsUnready (word_demand settings.now rules.entry.now)) }
{
    check_words(settings, rules)?;
    let automaton = automaton_for(alloc, &for_words(settings), rules)?;
    Ok(PreparedWords {
        settings: *settings,
        rules,
        automaton,
    })
}

/// Writes the text of an input by what was prepared before, and counts the words.
pub fn run_prepared_words<R: Read, W: Write>(
    alloc: Global,
    prepared: &PreparedWords<'_>,
    reader: &mut Watched<R>,
    writer: &mut Watched<W>,
    steps: &mut Steps,
    tally: &mut Tally,
) -> Result<(), RunError>
    requires open { reader.old.ended ≡ false }
    requires ready { AreWordsReady prepared.now }
    ensures answered { AnswersWordRun R.remaining W.contents (reader.old, writer.old) (reader.new, writer.new)
        prepared.now.settings prepared.now.rules.now (as_early result) }
    ensures cost { CostsWordRun prepared.now.settings prepared.now.rules.now reader.old reader.new
        steps.old steps.new (as_early result) }
    ensures counts { OnOk result (Counts (plan_words prepared.now.settings prepared.now.rules.now)
        reader.old reader.new tally.old tally.new) }
{
    told(stream_words(alloc, prepared, reader, writer, steps, tally))
}

/// Whether whole words can be searched for, by these settings and rules.
pub fn check_words(settings: &Settings, rules: &Rules) -> Result<(), EarlyError>
    ensures accepted { OnOk result (IsSearchable settings.now rules.now) }
    ensures refused { IfErr result (NotSearchable settings.now rules.now) }
{
    if let Err(error) = check(settings, rules) {
        return Err(EarlyError::Run(RunError::Setting(error)));
    }
    if settings.engine == Engine::Packed {
        return Err(EarlyError::Refused(Refusal::PackedWord));
    }
    if has_empty_pattern(rules) {
        return Err(EarlyError::Refused(Refusal::EmptyWord));
    }
    Ok(())
}

/// The settings by which the automaton is built: of the standard kind.
fn for_words(settings: &Settings) -> Settings
    ensures { result ≡ for_words settings.now }
{
    Settings {
        kind: MatchKind::Standard,
        ..*settings
    }
}
