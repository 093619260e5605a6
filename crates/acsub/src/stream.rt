//! The text of an input, written while the input is read.
//!
//! Under the standard kind a match that was found is never changed by what is read later. Under a leftmost kind it is held back until
//! it is decided. All that is decided is written before the next read, so a run over a pipe writes as soon as it can. It holds no
//! more than one buffer of the input and one of the text, and takes both before the first read. All that overlap in what was read
//! can't be changed by what is read later, either.
ghost use Rattle.std.specs.Prelude.{◌≡◌, IfErr, OnOk, false};
ghost use Rattle.acsub.specs.Finder.{IsServing};
ghost use Rattle.acsub.specs.Run.{CostsRun, RanRules};
ghost use Rattle.acsub.specs.Run.Transformed.{IsStreamed};
ghost use Rattle.acsub.specs.Args.Settings.{IsAccepted};
ghost use Rattle.acsub.specs.Stream.{IsNoRefusal, IsReturnedAs};
ghost use Rattle.acsub.specs.Tally.{Counts, plan_matches};

use crate::args::settings::Mode;
use crate::error::RunError;
use crate::prepared::Prepared;
use crate::tally::Tally;
use ac_automaton::error::StreamError;
use ac_automaton::watched::Watched;
use ac_input::steps::Steps;
use aho_corasick::AhoCorasick;
use std::alloc::Global;
use std::io::{Read, Write};

mod list;
mod replace;
pub(crate) mod words;

use list::{list_every, list_stream};
use replace::replace_stream;

/// Reads the input, and writes what the settings' mode makes of it while it reads.
pub fn stream_text<R: Read, W: Write>(
    alloc: Global,
    prepared: &Prepared<'_>,
    engine: &AhoCorasick,
    reader: &mut Watched<R>,
    writer: &mut Watched<W>,
    steps: &mut Steps,
    tally: &mut Tally,
) -> Result<(), RunError>
    requires open { reader.old.ended ≡ false }
    requires accepted { IsAccepted prepared.now.settings prepared.now.rules }
    requires serves { IsServing prepared.now.settings prepared.now.rules engine.now }
    requires streamed { IsStreamed prepared.now }
    ensures ran { RanRules R.remaining W.contents (reader.old, writer.old) (reader.new, writer.new)
        prepared.now result }
    ensures cost { CostsRun prepared.now reader.old reader.new steps.old steps.new result }
    ensures counts { OnOk result (Counts (plan_matches prepared.now) reader.old reader.new tally.old tally.new) }
{
    match prepared.mode() {
        Mode::Replace => {
            let rules = prepared.rules();
            let replaced = replace_stream(alloc, rules, engine, reader, writer, steps, tally);
            told(replaced)
        }
        Mode::List => told(list_stream(alloc, engine, reader, writer, steps, tally)),
        Mode::Overlap => told(list_every(alloc, engine, reader, writer, steps, tally)),
    }
}

/// The result of a run whose search of a stream, or whose write, returned this. No search is refused by then.
pub(crate) fn told(searched: Result<(), StreamError>) -> Result<(), RunError>
    requires { IfErr searched IsNoRefusal }
    ensures { IsReturnedAs searched result }
{
    match searched {
        Ok(()) => Ok(()),
        Err(StreamError::Config(_)) => unreachable!(),
        Err(StreamError::Read(error)) => Err(RunError::Read(error)),
        Err(StreamError::Write(error)) => Err(RunError::Write(error)),
        Err(StreamError::WriteZero) => Err(RunError::WriteZero),
        Err(StreamError::Memory) => Err(RunError::Memory),
        Err(StreamError::Position) => Err(RunError::Position),
    }
}
