//! `acsub` rewrites, masks or lists what it finds in a stream.
//!
//! It reads rules, each a pattern and its replacement, and an input. It writes the input with each match replaced, or with each
//! byte masked that lies in an occurrence, or a line for each match, or a line for each occurrence. Definitions alone fix that text:
//! the mode, the kind of match, the pairing of bytes, the mask and whether whole words alone count, and nothing else.
#![tactic(auto)]

mod args;
mod check;
mod comparing;
mod early;
mod error;
mod files;
mod given;
mod guard;
mod hint;
mod in_place;
mod input;
mod job;
mod labelled;
mod line;
mod mask;
mod matches;
mod prepared;
mod progress;
mod rewrite;
mod rules;
mod run;
mod steps;
mod stream;
mod swap;
mod tally;
mod task;
mod tool;
mod word;

use crate::error::RunError;
use crate::progress::{Meter, Metered};
use crate::tool::Fault;
use ac_automaton::watched::Watched;
use std::alloc::AllocError;
use std::env;
use std::io::{IsTerminal, Stderr, Stdin, Stdout};
use std::process::ExitCode;
use std::rc::Rc;

/// Runs the program over the standard streams.
fn main(rt: HostRuntime) -> ExitCode {
    let mut errors: Stderr = rt.stderr();
    match start(rt, &mut errors) {
        Ok(code) => code,
        Err(_) => ExitCode::from(tool::tell(&Fault::Run(RunError::Memory), &mut errors)),
    }
}

/// Gives [`tool::program`] the words and the standard streams, which their types keep apart: no contract can say which is which.
/// Where a person reads the line of an error, on a terminal or as `ACSUB_HINTS` says, a hint follows it.
fn start(rt: HostRuntime, errors: &mut Stderr) -> Result<ExitCode, AllocError> {
    let alloc = rt.alloc();
    let meter = Rc::new(alloc, Meter::new(rt, errors.is_terminal()))?;
    let rt = meter.runtime();
    let mut reader: Watched<Metered<Stdin, HostRuntime>> = Watched::new(Metered::new(
        rt.stdin(),
        meter.clone()?,
    ));
    let mut writer: Watched<Metered<Stdout, HostRuntime>> = Watched::new(Metered::new(
        rt.stdout(),
        meter.clone()?,
    ));
    let words = env::args(rt);
    let code = tool::program(&meter, alloc, words, &mut reader, &mut writer, errors);
    if code != ExitCode::SUCCESS && hint::is_asked_for(rt, errors.is_terminal()) {
        let words = tool::collected(alloc, env::args(rt));
        let words = words.as_ref().map(|words| words.as_slice());
        hint::write_hint(rt, alloc, words, code, errors);
    }
    Ok(code)
}
