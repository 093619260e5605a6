//! Replacement over a stream.
//!
//! The input is written with each match replaced by the replacement of its pattern, by the loop of [`pump`](super::pump). The output
//! is gathered into one buffer, which is sent before each read: a stream over a file makes about one write a read.
//!
//! Nothing is tried again, and nothing is flushed. Both buffers are allocated before the first read, and no memory after that.
ghost use Rattle.std.specs.Prelude.{◌≡◌, false, length, map};
ghost use Rattle.ac_automaton.specs.Stream.Overlapping.{AcceptsListing};
ghost use Rattle.ac_automaton.specs.Stream.Replace.{AcceptsStream, CostsStream, ReplacesStream};
ghost use Rattle.ac_automaton.specs.Stream.WholeWords.{CostsWordStream, ReplacesWords, asked_for};

use super::overlapping;
use super::pump::{pump_matches, pump_words};
use super::search::configured;
use super::sink::Sink;
use crate::error::StreamError;
use crate::search::Search;
use crate::stream::StreamKinds;
use crate::stream::devices::output::Output;
use crate::stream::devices::watched::Watched;
use ac_input::search::{Match, MatchKind};
use ac_input::steps::Steps;
use std::alloc::Global;
use std::io::{Read, Write};

/// Puts the replacement of its pattern in the place of each match.
#[derive(Drop)]
struct Replacements<'a, 'r> {
    replacements: &'a [&'r [u8]],
    output: Output,
}

impl<'a, 'r, W: Write> Sink<W> for Replacements<'a, 'r> {
    ghost use Rattle.std.specs.Prelude.{◌≡◌, length, map};
    ghost use Rattle.ac_automaton.specs.Stream.SinkLaws.{replacing-piecewise, sending-begins, sending-joins, sending-precedes};
    ghost use Rattle.ac_automaton.specs.Stream.Texts.{replacing, sending};

    ghost handling = { sending W.contents (λ k. k.output) (λ k. replacing (map (λ r. r.now) k.replacements.now))
        (λ patterns k. length k.replacements.now ≡ patterns) };

    fn pass(
        &mut self,
        writer: &mut Watched<W>,
        before: &[u8],
        item: &Match,
        matched: &[u8],
    ) -> Result<(), StreamError> {
        let replacement = self.replacements[item.pattern().as_usize()];
        self.output.send_exchanged(writer, before, replacement)
    }

    fn take(&mut self, writer: &mut Watched<W>, bytes: &[u8]) -> Result<(), StreamError> {
        self.output.send_all(writer, bytes)
    }

    ghost begins = { sending-begins (λ k. replacing-piecewise _) };

    ghost joins = { sending-joins (λ k. replacing-piecewise _) };

    ghost precedes = { sending-precedes (λ k. replacing-piecewise _) };
}

/// Writes the input with each match replaced by the replacement of its pattern, and counts what it does. It accepts these kinds.
pub fn replace_all_counted<A: Search, R: Read, W: Write>(
    automaton: &A,
    kinds: StreamKinds,
    alloc: Global,
    reader: &mut Watched<R>,
    writer: &mut Watched<W>,
    replacements: &[&[u8]],
    steps: &mut Steps,
) -> Result<(), StreamError>
    requires open { reader.old.ended ≡ false }
    requires one_each { length replacements.now
        ≡ length (A.built automaton.now).dictionary.patterns }
    ensures replaced { ReplacesStream R.remaining W.contents (A.built automaton.now)
        (map (λ r. r.now) replacements.now) reader.old reader.new writer.old writer.new result }
    ensures accepted { AcceptsStream kinds (A.built automaton.now) (A.supports automaton.now) result }
    ensures cost { CostsStream (A.built automaton.now) reader.old reader.new
        steps.old steps.new result }
{
    configured(automaton, kinds)?;
    let output = Output::new(alloc)?;
    let mut sink = Replacements {
        replacements,
        output,
    };
    pump_matches(automaton, kinds, alloc, reader, writer, &mut sink, steps)
}

/// Writes the input with each of its whole words under a kind replaced by the replacement of its pattern, and counts what it does.
pub fn replace_words_counted<A: Search, R: Read, W: Write>(
    automaton: &A,
    kind: MatchKind,
    alloc: Global,
    reader: &mut Watched<R>,
    writer: &mut Watched<W>,
    replacements: &[&[u8]],
    steps: &mut Steps,
) -> Result<(), StreamError>
    requires open { reader.old.ended ≡ false }
    requires one_each { length replacements.now
        ≡ length (A.built automaton.now).dictionary.patterns }
    ensures replaced { ReplacesWords R.remaining W.contents (asked_for kind (A.built automaton.now))
        (map (λ r. r.now) replacements.now) reader.old reader.new writer.old writer.new result }
    ensures accepted { AcceptsListing (A.built automaton.now) (A.supports automaton.now) result }
    ensures cost { CostsWordStream (asked_for kind (A.built automaton.now)) reader.old reader.new
        steps.old steps.new result }
{
    overlapping::configured(automaton)?;
    let output = Output::new(alloc)?;
    let mut sink = Replacements {
        replacements,
        output,
    };
    pump_words(automaton, kind, alloc, reader, writer, &mut sink, steps)
}
