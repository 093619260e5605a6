//! The loop over a stream: reads it, searches it, and passes what it finds to a [`Sink`].
//!
//! An item that was found is never taken back, and one that is still to be found begins at the cut or after it. So before each read
//! everything before the cut is passed on, and nothing is held back. If none of the bytes read is live, that is all of them;
//! otherwise a waiting reader keeps back no more bytes than the longest pattern has, or one.
//!
//! Nothing is tried again.
ghost use Rattle.std.specs.Prelude.{◌≡◌, false, length};
ghost use Rattle.ac_automaton.specs.Stream.{GoesOn, IsOnCourse, fresh_progress};
ghost use Rattle.ac_automaton.specs.Stream.Pump.{PassesDecided, Pumps, PumpsMatches, PumpsOccurrences};
ghost use Rattle.ac_automaton.specs.Stream.Replace.{HasSearched, IsPlaced};
ghost use Rattle.ac_automaton.specs.Stream.WholeWords.{PumpsAllWords, PumpsWords};

use super::overlapping::ListingSearch;
use super::search::StreamSearch;
use super::sink::Sink;
use super::{ItemSearch, OverlappingWordSearch, StreamKinds, WordSearch};
use crate::error::StreamError;
use crate::search::Search;
use crate::stream::devices::watched::Watched;
use ac_input::search::MatchKind;
use ac_input::steps::Steps;
use std::alloc::Global;
use std::io::Read;

/// Passes on all that is decided, from a place up to the cut. Returns where the cut is.
fn pass_decided<S: ItemSearch, W, K: Sink<W>>(
    stream: &mut S,
    at: usize,
    sink: &mut K,
    writer: &mut Watched<W>,
    steps: &mut Steps,
) -> Result<usize, StreamError>
    requires placed { IsPlaced (S.progress stream.old) at }
    requires ready { K.handling.ready (length (S.progress stream.old).built.dictionary.patterns)
        (sink.old, writer.old) }
    ensures passes { PassesDecided K.handling (S.progress stream.old) (S.progress stream.new) at
        (sink.old, writer.old) (sink.new, writer.new) result }
    ensures goes { GoesOn (S.progress stream.old) (S.progress stream.new) steps.old steps.new }
{
    let mut passed = at;
    while let Some(item) = stream.next_held(steps) {
        let before = stream.between(passed, item.start());
        let matched = stream.between(item.start(), item.end());
        sink.pass(writer, before, &item, matched)?;
        passed = item.end();
    }
    let cut = stream.cut();
    sink.take(writer, stream.between(passed, cut))?;
    Ok(cut)
}

/// Reads a stream to its end. Before each read everything that is decided is passed on, and at the end the rest.
fn pump<S: ItemSearch, R: Read, W, K: Sink<W>>(
    stream: &mut S,
    reader: &mut Watched<R>,
    writer: &mut Watched<W>,
    sink: &mut K,
    steps: &mut Steps,
) -> Result<(), StreamError>
    requires fresh { S.progress stream.old ≡ fresh_progress (S.progress stream.old).built }
    requires course { IsOnCourse (S.progress stream.old) }
    requires open { reader.old.ended ≡ false }
    requires ready { K.handling.ready (length (S.progress stream.old).built.dictionary.patterns)
        (sink.old, writer.old) }
    requires settled { K.handling.settled (sink.old, writer.old) }
    ensures pumps { Pumps K.handling S.sequence R.remaining (S.progress stream.old).built reader.old reader.new
        (sink.old, writer.old) (sink.new, writer.new) result }
    ensures read { HasSearched (S.progress stream.old) (S.progress stream.new) reader.old reader.new steps.old steps.new
        result }
{
    let mut at = 0;
    while stream.read_on(reader, steps)? > 0 {
        at = pass_decided(stream, at, sink, writer, steps)?;
    }
    stream.close();
    let cut = pass_decided(stream, at, sink, writer, steps)?;
    sink.take(writer, stream.between(cut, stream.end()))
}

/// Passes the matches of a stream to a sink, of an automaton of one of these kinds; counts what it does.
pub(crate) fn pump_matches<A: Search, R: Read, W, K: Sink<W>>(
    automaton: &A,
    kinds: StreamKinds,
    alloc: Global,
    reader: &mut Watched<R>,
    writer: &mut Watched<W>,
    sink: &mut K,
    steps: &mut Steps,
) -> Result<(), StreamError>
    requires open { reader.old.ended ≡ false }
    requires ready { K.handling.ready (length (A.built automaton.now).dictionary.patterns)
        (sink.old, writer.old) }
    requires settled { K.handling.settled (sink.old, writer.old) }
    ensures { PumpsMatches K.handling R.remaining kinds (A.built automaton.now) (A.supports automaton.now)
        reader.old reader.new (sink.old, writer.old) (sink.new, writer.new) steps.old steps.new result }
{
    let mut stream = StreamSearch::new(automaton, kinds, alloc)?;
    pump(&mut stream, reader, writer, sink, steps)
}

/// Passes every occurrence in a stream to a sink; counts what it does.
pub(crate) fn pump_occurrences<A: Search, R: Read, W, K: Sink<W>>(
    automaton: &A,
    alloc: Global,
    reader: &mut Watched<R>,
    writer: &mut Watched<W>,
    sink: &mut K,
    steps: &mut Steps,
) -> Result<(), StreamError>
    requires open { reader.old.ended ≡ false }
    requires ready { K.handling.ready (length (A.built automaton.now).dictionary.patterns)
        (sink.old, writer.old) }
    requires settled { K.handling.settled (sink.old, writer.old) }
    ensures { PumpsOccurrences K.handling R.remaining (A.built automaton.now) (A.supports automaton.now)
        reader.old reader.new (sink.old, writer.old) (sink.new, writer.new) steps.old steps.new result }
{
    let mut stream = ListingSearch::new(automaton, alloc)?;
    pump(&mut stream, reader, writer, sink, steps)
}

/// Passes the whole words of a stream under a kind to a sink; counts what it does.
pub(crate) fn pump_words<A: Search, R: Read, W, K: Sink<W>>(
    automaton: &A,
    kind: MatchKind,
    alloc: Global,
    reader: &mut Watched<R>,
    writer: &mut Watched<W>,
    sink: &mut K,
    steps: &mut Steps,
) -> Result<(), StreamError>
    requires open { reader.old.ended ≡ false }
    requires ready { K.handling.ready (length (A.built automaton.now).dictionary.patterns)
        (sink.old, writer.old) }
    requires settled { K.handling.settled (sink.old, writer.old) }
    ensures { PumpsWords K.handling R.remaining kind (A.built automaton.now) (A.supports automaton.now)
        reader.old reader.new (sink.old, writer.old) (sink.new, writer.new) steps.old steps.new result }
{
    let mut stream = WordSearch::new(automaton, kind, alloc)?;
    pump(&mut stream, reader, writer, sink, steps)
}

/// Passes all whole words of a stream to a sink; counts what it does.
pub(crate) fn pump_all_words<A: Search, R: Read, W, K: Sink<W>>(
    automaton: &A,
    alloc: Global,
    reader: &mut Watched<R>,
    writer: &mut Watched<W>,
    sink: &mut K,
    steps: &mut Steps,
) -> Result<(), StreamError>
    requires open { reader.old.ended ≡ false }
    requires ready { K.handling.ready (length (A.built automaton.now).dictionary.patterns)
        (sink.old, writer.old) }
    requires settled { K.handling.settled (sink.old, writer.old) }
    ensures { PumpsAllWords K.handling R.remaining (A.built automaton.now) (A.supports automaton.now)
        reader.old reader.new (sink.old, writer.old) (sink.new, writer.new) steps.old steps.new result }
{
    let mut stream = OverlappingWordSearch::new(automaton, alloc)?;
    pump(&mut stream, reader, writer, sink, steps)
}
