//! A report on rules, for `--check`.
//!
//! The report counts the rules and those that replace by nothing, and names the shortest pattern and the longest. In mode `replace` it
//! names the first rules that replace by nothing. In modes `replace` and `list` it also names what a reader of the rules may not expect:
//!
//! - *Patterns that are never the match.* A pattern is the match of some text exactly if it is the first match in its own bytes: what
//!   is preferred to it there lies within these bytes, so it is preferred in every text. So each pattern is searched with the automaton
//!   of the kind, and the match that is found in its place is the reason. Under the standard kind that is a pattern that ends before
//!   it does, under leftmost-first one of an earlier line with which it begins, and under every kind an equal one of an earlier line.
//!   With `--word` only whole words are found, in the pattern too; of bytes that are the same a word byte is searched there, if one is.
//! - *Pairs that overlap*, of whose text a part may stay as it is or be matched otherwise ([`overlaps`]).
//!
//! In the other modes every occurrence counts, so neither is named. A line is that of the rule file, or the place among the arguments.
ghost use Rattle.std.specs.Prelude.{◌≡◌, IfErr, IfOk};
ghost use Rattle.acsub.specs.Jobs.{IsJobFor, IsJobReady, IsNoJob, reported};
ghost use Rattle.acsub.specs.declared.args.settings.Engine.TheVariants.{Noncontiguous};

mod overlaps;
mod trie;

use crate::args::Words;
use crate::args::settings::{Engine, Mode, Settings};
use crate::check::overlaps::{Pairs, find_pairs, is_word_byte};
use crate::early::EarlyError;
use crate::error::RunError;
use crate::job::Job;
use crate::prepared::automaton_for;
use crate::rules::Rules;
use ac_input::pairing::Pairing;
use ac_input::search::{Input, Match, MatchKind};
use aho_corasick::AhoCorasick;
use std::alloc::{AllocError, Global};

/// The most pairs that are named.
const NAMED: usize = 100;

/// The most rules that replace by nothing that are named.
const NAMED_DELETIONS: usize = 10;

/// The settings by which the job of a report is made. Where the choice of an automaton is left to its builder, that is a noncontiguous
/// NFA, from which the others are made: a build of one is refused for the same rules.
fn reported(settings: &Settings) -> Settings
    ensures { result ≡ reported settings.now }
{
    let engine = match settings.engine {
        Engine::Auto => Engine::Noncontiguous,
        Engine::Noncontiguous => Engine::Noncontiguous,
        Engine::Contiguous => Engine::Contiguous,
        Engine::Dfa => Engine::Dfa,
        Engine::Packed => Engine::Packed,
    };
    Settings {
        engine,
        ..*settings
    }
}

/// The job by which rules are reported on.
pub fn job_for<'r>(
    alloc: Global,
    asked: &Words<'_>,
    rules: &'r Rules,
) -> Result<Job<'r>, EarlyError>
    ensures made { IfOk result (IsJobFor asked.now.mask asked.now.word asked.now.stream (reported asked.now.settings) rules.entry.now) }
    ensures ready { IfOk result IsJobReady }
    ensures refused { IfErr result (IsNoJob asked.now.mask asked.now.word asked.now.stream (reported asked.now.settings) rules.entry.now) }
{
    let settings = reported(&asked.settings);
    Job::new(
        alloc,
        &settings,
        asked.stream,
        asked.word,
        asked.mask,
        rules,
    )
}

/// The report on rules, by a job that was made of them.
pub fn report_of(
    alloc: Global,
    asked: &Words<'_>,
    job: &Job<'_>,
    rules: &Rules,
) -> Result<String, RunError>
    requires { IsJobReady job.now }
{
    let mut report = String::new(alloc);
    write_counts(&mut report, rules)?;
    if asked.settings.mode == Mode::Replace {
        write_deletions(&mut report, rules)?;
    }
    if asked.mask.is_none() && asked.settings.mode != Mode::Overlap {
        write_hidden(&mut report, alloc, asked, job, rules)?;
        let pairs = find_pairs(alloc, rules, &asked.settings.pairing, asked.word)?;
        write_pairs(&mut report, &pairs)?;
    }
    Ok(report)
}

/// Writes how many rules there are, and how long.
fn write_counts(report: &mut String, rules: &Rules) -> Result<(), AllocError> {
    let mut empty = 0usize;
    let (mut shortest, mut longest) = (0, 0);
    for i in 0..rules.len() {
        if rules.replacement(i).is_empty() {
            empty = empty.saturating_add(1);
        }
        if length_of(rules, i) < length_of(rules, shortest) {
            shortest = i;
        }
        if length_of(rules, i) > length_of(rules, longest) {
            longest = i;
        }
    }
    writeln!(report, "rules: {}", rules.len())?;
    writeln!(report, "without replacement: {empty}")?;
    write_length(report, "shortest", rules, shortest)?;
    write_length(report, "longest", rules, longest)
}

/// How many bytes a pattern has; none where there is no such rule.
fn length_of(rules: &Rules, i: usize) -> usize {
    if i < rules.len() {
        rules.pattern(i).len()
    } else {
        0
    }
}

/// Writes how long a pattern is, if there is one.
fn write_length(
    report: &mut String,
    which: &str,
    rules: &Rules,
    i: usize,
) -> Result<(), AllocError> {
    if i >= rules.len() {
        return Ok(());
    }
    let length = rules.pattern(i).len();
    let unit = if length == 1 { "byte" } else { "bytes" };
    let line = line_of(i);
    writeln!(report, "{which} pattern: {length} {unit} (line {line})")
}

/// Writes a line for each of the first rules that replace by nothing, and how many more there are.
fn write_deletions(report: &mut String, rules: &Rules) -> Result<(), AllocError> {
    let mut found = 0usize;
    for i in 0..rules.len() {
        if rules.replacement(i).is_empty() {
            if found < NAMED_DELETIONS {
                let line = line_of(i);
                writeln!(report, "line {line} is replaced by nothing")?;
            }
            found = found.saturating_add(1);
        }
    }
    write_more(report, found.saturating_sub(NAMED_DELETIONS))
}

/// Writes how many more there are than were named, if there are.
fn write_more(report: &mut String, more: usize) -> Result<(), AllocError> {
    if more > 0 {
        writeln!(report, ".. and {more} more")
    } else {
        Ok(())
    }
}

/// The line of a rule.
fn line_of(i: usize) -> usize {
    i.saturating_add(1)
}

// ---- patterns that are never the match

/// Writes a line for each pattern that is never the match. Packed search keeps its kind, but a noncontiguous NFA serves it here.
fn write_hidden(
    report: &mut String,
    alloc: Global,
    asked: &Words<'_>,
    job: &Job<'_>,
    rules: &Rules,
) -> Result<(), RunError>
    requires { IsJobReady job.now }
{
    match job.automaton() {
        Some(automaton) => write_hidden_by(report, alloc, asked, automaton, rules),
        None => {
            let automaton = automaton_for(alloc, &searched(asked), rules)?;
            write_hidden_by(report, alloc, asked, &automaton, rules)
        }
    }
}

/// The settings by which patterns are searched that a packed search was made of.
fn searched(asked: &Words<'_>) -> Settings
    ensures { result ≡ (record asked.now.settings { engine = Noncontiguous }) }
{
    let mut settings = asked.settings;
    settings.engine = Engine::Noncontiguous;
    settings
}

/// The same, where this automaton finds the matches, or all occurrences for whole words.
fn write_hidden_by(
    report: &mut String,
    alloc: Global,
    asked: &Words<'_>,
    automaton: &AhoCorasick,
    rules: &Rules,
) -> Result<(), RunError> {
    for i in 0..rules.len() {
        if let Some(first) = first_in(alloc, automaton, asked, rules.pattern(i))? {
            let by = first.pattern().as_usize();
            if by != i {
                write_reason(report, i, &first, rules, asked.settings.kind)?;
            }
        }
    }
    Ok(())
}

/// The first match in these bytes, or the first whole word.
fn first_in(
    alloc: Global,
    automaton: &AhoCorasick,
    asked: &Words<'_>,
    bytes: &[u8],
) -> Result<Option<Match>, AllocError> {
    if asked.word {
        let spelled = spelled(alloc, &asked.settings.pairing, bytes)?;
        let kind = asked.settings.kind;
        match automaton.try_find_word_iter(kind, spelled.as_slice()) {
            Ok(mut words) => Ok(words.next()),
            Err(_) => Ok(None),
        }
    } else {
        Ok(automaton.try_find(Input::new(bytes)).ok().flatten())
    }
}

/// These bytes, each by the word byte that is the same, if there is one. The fewest whole words lie in them.
fn spelled(alloc: Global, pairing: &Pairing, bytes: &[u8]) -> Result<Vec<u8>, AllocError> {
    let mut spelled = Vec::with_capacity(alloc, bytes.len())?;
    for byte in bytes {
        let other = pairing.other(*byte);
        spelled.push(if is_word_byte(*byte) { *byte } else { other })?;
    }
    Ok(spelled)
}

/// Writes that a pattern is never the match, since another one is the first in it.
fn write_reason(
    report: &mut String,
    i: usize,
    first: &Match,
    rules: &Rules,
    kind: MatchKind,
) -> Result<(), AllocError> {
    let by = first.pattern().as_usize();
    let length = length_of(rules, i);
    let why = if first.end() >= length {
        "is the same"
    } else if kind == MatchKind::Standard {
        "lies in it and ends first"
    } else {
        "begins it and comes first"
    };
    let (line, other) = (line_of(i), line_of(by));
    writeln!(report, "line {line} is never found: line {other} {why}")
}

// ---- pairs that overlap

/// Writes a line for each of the first pairs, and how many more there are.
fn write_pairs(report: &mut String, pairs: &Pairs) -> Result<(), AllocError> {
    for (a, b) in pairs.all.iter().take(NAMED) {
        writeln!(report, "lines {} and {} overlap", line_of(*a), line_of(*b))?;
    }
    let more = pairs.all.len().saturating_sub(NAMED);
    if pairs.whole {
        write_more(report, more)
    } else {
        writeln!(report, ".. and at least {more} more")
    }
}
