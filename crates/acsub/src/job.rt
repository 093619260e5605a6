//! What the program does to each of its inputs: made once of settings and rules, then run over any number of inputs.
//!
//! The settings are checked and the automaton is built before the first input is read. A job that can't be made has touched
//! nothing.
ghost use Rattle.std.specs.Prelude.{◌≡◌, false, IfErr, IfNone, IfOk, IfSome, OnOk};
ghost use Rattle.acsub.specs.Jobs.{CountsJob, IsAutomatonOf, IsJobFor, IsJobReady, IsNoJob, LendsNone, MasksCleanly, RanJob};

use crate::args::settings::Settings;
use crate::early::EarlyError;
use crate::error::RunError;
use crate::mask::{Mask, PreparedMask, prepare_mask, run_prepared_mask};
use crate::prepared::{Prepared, prepare};
use crate::rules::Rules;
use crate::run::run_prepared;
use crate::tally::Tally;
use crate::word::{PreparedWords, prepare_words, run_prepared_words};
use ac_automaton::watched::Watched;
use ac_input::steps::Steps;
use aho_corasick::AhoCorasick;
use std::alloc::Global;
use std::io::{Read, Write};

/// What is done to an input.
#[derive(Drop)]
pub enum Job<'r> {
    /// Its matches are replaced or listed.
    Run(Prepared<'r>),
    /// It is masked.
    Mask(PreparedMask<'r>),
    /// Its whole words are replaced or listed.
    Words(PreparedWords<'r>),
}

impl<'r> Job<'r> {
    /// The job that masks, if a mask is asked for; or the one for whole words alone; or the one for all matches, which streams under
    /// every kind if asked to.
    pub fn new(
        alloc: Global,
        settings: &Settings,
        stream: bool,
        word: bool,
        mask: Option<u8>,
        rules: &'r Rules,
    ) -> Result<Job<'r>, EarlyError>
        ensures made { IfOk result (IsJobFor mask word stream settings.now rules.entry.now) }
        ensures ready { IfOk result IsJobReady }
        ensures refused { IfErr result (IsNoJob mask word stream settings.now rules.entry.now) }
    {
        match mask {
            Some(byte) => {
                let mask = Mask { byte, word };
                Ok(Job::Mask(prepare_mask(alloc, settings, mask, rules)?))
            }
            None if word => Ok(Job::Words(prepare_words(alloc, settings, rules)?)),
            None => Ok(Job::Run(prepare(alloc, settings, stream, rules)?)),
        }
    }

    /// The automaton that finds the matches, or all occurrences for whole words; none for packed search, and none for a mask.
    pub fn automaton(&self) -> Option<&AhoCorasick>
        requires { IsJobReady self.now }
        ensures serves { IfSome result (λ a. IsAutomatonOf self.now a.now) }
        ensures none { IfNone result (LendsNone self.now) }
    {
        match self {
            Job::Run(prepared) => prepared.automaton(),
            Job::Mask(_) => None,
            Job::Words(prepared) => Some(&prepared.automaton),
        }
    }

    /// Reads an input to its end, and writes what the job makes of it. Counts the matches, or the whole words; a mask counts nothing.
    /// After a mask no pattern occurs in what was written, or no whole word, where they alone are masked and the mask is a word byte.
    pub fn run<R: Read, W: Write>(
        &self,
        alloc: Global,
        reader: &mut Watched<R>,
        writer: &mut Watched<W>,
        tally: &mut Tally,
    ) -> Result<(), RunError>
        requires open { reader.old.ended ≡ false }
        requires ready { IsJobReady self.now }
        ensures ran { RanJob R.remaining W.contents (reader.old, writer.old) (reader.new, writer.new) self.now result }
        ensures clean { OnOk result (MasksCleanly self.now writer.old writer.new) }
        ensures counts { OnOk result (CountsJob self.now reader.old reader.new tally.old tally.new) }
    {
        let mut steps = Steps::new();
        match self {
            Job::Run(prepared) => {
                run_prepared(alloc, prepared, reader, writer, &mut steps, tally)
            }
            Job::Mask(prepared) => run_prepared_mask(alloc, prepared, reader, writer, &mut steps),
            Job::Words(prepared) => {
                run_prepared_words(alloc, prepared, reader, writer, &mut steps, tally)
            }
        }
    }
}
