//! What the program was asked for, and what serves it.
ghost use Rattle.std.specs.Prelude.{◌≡◌, ◌↔◌, IfErr, IfOk, IsTrue};
ghost use Rattle.acsub.specs.Outcome.{HasOneInput};
ghost use Rattle.acsub.specs.Files.{IsJobOf, IsNoJobOf, streams};
ghost use Rattle.acsub.specs.Jobs.{IsJobReady};
ghost use Rattle.acsub.specs.Visits.{IsWatched};

use crate::args::Words;
use crate::early::EarlyError;
use crate::job::Job;
use crate::progress::{Meter, Metered};
use crate::rules::Rules;
use ac_automaton::watched::Watched;
use std::alloc::{AllocError, Global};
use std::fs::{self, Metadata, OpenFile};
use std::io;
use std::rc::Rc;
use std::rt::Files;
use std::time::Clock;

/// Where standard input is seen as a file.
pub const STDIN: &str = "/dev/stdin";

/// Whether the text is to be written while the input is read. So it is where FILEs are rewritten, also unasked: the new file is removed
/// where a read fails.
pub fn streams(asked: &Words<'_>) -> bool
    ensures { result ≡ streams asked.now }
{
    asked.stream || asked.in_place
}

/// What was asked for, and what all runs of the program share.
#[derive(Drop)]
pub struct Task<'m, 'w, 't, F> {
    pub alloc: Global,
    pub asked: &'w Words<'t>,
    pub meter: &'m Rc<Meter<F>>,
}

impl<F: Files + Clock + Drop + Eprint> Task<'_, '_, '_, F> {
    /// What the program runs on.
    pub fn rt(&self) -> &F {
        self.meter.runtime()
    }

    /// A file that is watched, by the meter too.
    pub fn watch(&self, file: F::File) -> Result<Watched<Metered<F::File, F>>, AllocError>
        ensures { IfOk result (IsWatched file) }
    {
        Ok(Watched::new(Metered::new(file, self.meter.clone()?)))
    }

    /// Whether standard input alone is run over.
    pub fn has_one_input(&self) -> bool
        ensures { IsTrue result ↔ HasOneInput self.now.asked.now }
    {
        self.asked.files.is_empty() && !self.asked.check
    }

    /// The job that is asked for, by these rules.
    pub fn job<'r>(&self, rules: &'r Rules) -> Result<Job<'r>, EarlyError>
        ensures made { IfOk result (IsJobOf self.now.asked.now rules.entry.now) }
        ensures ready { IfOk result IsJobReady }
        ensures refused { IfErr result (IsNoJobOf self.now.asked.now rules.entry.now) }
    {
        let asked = self.asked;
        let (word, mask) = (asked.word, asked.mask);
        Job::new(
            self.alloc,
            &asked.settings,
            streams(asked),
            word,
            mask,
            rules,
        )
    }

    /// The mask whose bytes are to be counted: to count them takes time, so it is done only where their number is asked for.
    pub fn counted_mask(&self) -> Option<u8> {
        if self.asked.count || self.asked.fail_if_none {
            self.asked.mask
        } else {
            None
        }
    }

    /// Begins to show how far standard input is read, if that is asked for.
    pub fn start_input(&self) {
        if self.asked.progress {
            self.start(fs::metadata(self.rt(), STDIN));
        }
    }

    /// Begins to show how far a file is read, if that is asked for.
    pub fn start_file(&self, file: &F::File) {
        if self.asked.progress {
            self.start(file.metadata());
        }
    }

    /// Begins to show how far an input is read, if it is a file, whose size is known.
    fn start(&self, about: io::Result<Metadata>) {
        if let Ok(about) = about {
            if about.is_file() {
                self.meter.start(about.len());
            }
        }
    }
}
