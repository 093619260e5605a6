//! Replacement over a stream, where a closure writes what stands in place of each match.
//!
//! The closure is called with the match, its bytes and the writer, and may write to it what it likes. It finds there everything
//! that comes before the match, because nothing is gathered: the text before a match is written at once, then the closure is
//! called. The closure's first error ends the replacement and is returned unchanged.
//!
//! As in [`replace`](super::replace), everything before the cut is written before the next read, nothing is tried again, and
//! nothing is flushed. The one buffer is allocated before the first read, and no memory after that.
ghost use Rattle.std.specs.Prelude.{◌≡◌, false, length};
ghost use Rattle.ac_automaton.specs.InMemory.Replace.{IsForMatches};
ghost use Rattle.ac_automaton.specs.Stream.ReplaceWith.{ReplacesStreamWith};

use super::pump::pump_matches;
use super::sink::Sink;
use crate::error::StreamError;
use crate::search::Search;
use crate::stream::StreamKinds;
use crate::stream::devices::watched::{Watched, write_whole};
use ac_input::search::Match;
use ac_input::steps::Steps;
use std::alloc::Global;
use std::io::{Read, Write};

/// Calls a closure at each match.
#[derive(Drop)]
pub struct Calling<F> {
    f: F,
}

impl<W: Write, F> Sink<W> for Calling<F>
where
    F: FnMut(&Match, &[u8], &mut Watched<W>) -> Result<(), StreamError>,
{
    ghost use Rattle.ac_automaton.specs.Stream.SinkLaws.{calling-begins, calling-joins, calling-precedes};
    ghost use Rattle.ac_automaton.specs.Stream.ReplaceWith.{calling};

    ghost handling = { calling W.contents F.FnMut };

    fn pass(
        &mut self,
        writer: &mut Watched<W>,
        before: &[u8],
        item: &Match,
        matched: &[u8],
    ) -> Result<(), StreamError> {
        write_whole(writer, before)?;
        (self.f)(item, matched, writer)
    }

    fn take(&mut self, writer: &mut Watched<W>, bytes: &[u8]) -> Result<(), StreamError> {
        write_whole(writer, bytes)
    }

    ghost begins = { calling-begins };

    ghost joins = { calling-joins };

    ghost precedes = { calling-precedes };
}

/// Writes the input, and in place of each match what the closure writes. It accepts the standard kind alone.
pub fn replace_all_with<A: Search, R: Read, W: Write, F>(
    automaton: &A,
    alloc: Global,
    reader: &mut Watched<R>,
    writer: &mut Watched<W>,
    replace_with: F,
) -> Result<(), StreamError>
where
    F: FnMut(&Match, &[u8], &mut Watched<W>) -> Result<(), StreamError>,
    requires open { reader.old.ended ≡ false }
    requires ready { IsForMatches F.FnMut (length (A.built automaton.now).dictionary.patterns)
        replace_with }
    ensures { ReplacesStreamWith W.contents F.FnMut R.remaining (A.built automaton.now)
        (A.supports automaton.now) replace_with reader.old reader.new writer.old writer.new
        result }
{
    let mut steps = Steps::new();
    let mut sink = Calling { f: replace_with };
    let kinds = StreamKinds::OnlyStandard;
    pump_matches(
        automaton, kinds, alloc, reader, writer, &mut sink, &mut steps,
    )
}
