//! A list over a stream: of its matches, or of all that overlap; or of its whole words, under a kind or all of them.
//!
//! It has no loop of its own. It is a [`Sink`], into which the engine pumps the stream: the sink writes a line for each
//! item that it is passed, and nothing of the text.
//!
//! A line for each match is written as soon as the match is decided. Under the standard kind no later byte can change it, so all
//! matches of what was read are listed before the next read. Under a leftmost kind a match waits until no byte that follows can
//! change it, or until the input ends. No later byte can change an occurrence that was met; whether it is a whole word, the byte after
//! it says. A reader that waits keeps no decided line back. The lines are gathered into one buffer, which is written before each read, so that a stream over a file makes about
//! one write a read.
//!
//! Both buffers are taken before the first read, and no memory after that. Nothing is tried again, and nothing is flushed.
ghost use Rattle.std.specs.Prelude.{◌≡◌, false, IfErr, OnOk};
ghost use Rattle.ac_automaton.specs.Stream.Devices.Moved.{NoneTouched};
ghost use Rattle.ac_automaton.specs.Stream.{AllWords, CanStream, Occurrences, Picks, Words, items_of};
ghost use Rattle.ac_automaton.specs.Stream.Replace.{CostsItems, CostsSearch};
ghost use Rattle.ac_automaton.specs.Stream.WholeWords.{asked_for};
ghost use Rattle.ac_automaton.specs.declared.stream.StreamKinds.TheVariants.{AnyKind, OnlyStandard};
ghost use Rattle.aho_corasick.specs.AhoCorasick.{as_built, supported_by};
ghost use Rattle.acsub.specs.Stream.{IfStreamMemory, IsNoRefusal};
ghost use Rattle.acsub.specs.Stream.StreamList.{ListsStream};
ghost use Rattle.acsub.specs.Tally.{Counts};

use crate::line::Line;
use crate::tally::Tally;
use ac_automaton::error::StreamError;
use ac_automaton::output::Output;
use ac_automaton::stream::StreamKinds;
use ac_automaton::stream::sink::Sink;
use ac_automaton::watched::Watched;
use ac_input::search::{Match, MatchKind};
use ac_input::steps::Steps;
use aho_corasick::AhoCorasick;
use std::alloc::Global;
use std::io::{Read, Write};

/// Writes a line for each item, and counts it.
#[derive(Drop)]
struct Lines {
    output: Output,
    tally: Tally,
}

impl<W: Write> Sink<W> for Lines {
    ghost use Rattle.std.specs.Prelude.{ℕ};
    ghost use Rattle.ac_automaton.specs.Stream.SinkLaws.{sending-begins, sending-joins, sending-precedes};
    ghost use Rattle.ac_automaton.specs.Stream.Texts.{sending};
    ghost use Rattle.acsub.specs.Stream.StreamList.{lines-piecewise, listing_lines};
    ghost use Rattle.acsub.specs.Tally.{tallying, grown};
    ghost use Rattle.std.proofs.Common.{ap, refl, ◌∙◌};

    ghost handling = { tallying (λ z. z.0.tally.found)
        (sending W.contents (λ k. k.output) (λ k. listing_lines) (λ patterns k. Unit {0})) };

    fn pass(
        &mut self,
        writer: &mut Watched<W>,
        _before: &[u8],
        item: &Match,
        _matched: &[u8],
    ) -> Result<(), StreamError> {
        self.tally.add(1);
        self.output.send(writer, Line::new(item).as_bytes())
    }

    fn take(&mut self, writer: &mut Watched<W>, _bytes: &[u8]) -> Result<(), StreamError> {
        self.output.send_held(writer)
    }

    ghost begins = { λ z. (sending-begins (λ k. lines-piecewise) z, refl) };

    ghost joins = { λ z mid last bytes more a b.
        (sending-joins (λ k. lines-piecewise) z mid last bytes more a.0 b.0, b.1 ∙ a.1) };

    ghost precedes = { λ z mid last bytes before matched o a b. (
      sending-precedes (λ k. lines-piecewise)
          z mid last bytes before matched o a.0 b.0,
      b.1 ∙ ap (λ n. grown n 1) a.1,
    ) };
}

/// Takes both buffers, and writes a line for each match of what is read.
pub(crate) fn list_stream<R: Read, W: Write>(
    alloc: Global,
    engine: &AhoCorasick,
    reader: &mut Watched<R>,
    writer: &mut Watched<W>,
    steps: &mut Steps,
    tally: &mut Tally,
) -> Result<(), StreamError>
    requires open { reader.old.ended ≡ false }
    requires can { CanStream AnyKind (as_built engine.now) (supported_by engine.now) }
    // All lines that are decided by what was read, before a read that failed; and no less than those that are decided by all pieces
    // but the last, before a write that failed.
    ensures lists { ListsStream Picks R.remaining W.contents (as_built engine.now)
        (reader.old, writer.old) (reader.new, writer.new) result }
    ensures costs { CostsSearch (as_built engine.now) reader.old reader.new
        steps.old steps.new result }
    ensures counts { OnOk result (Counts (items_of Picks (as_built engine.now).dictionary) reader.old reader.new
        tally.old tally.new) }
    ensures memory { IfStreamMemory result
        (NoneTouched reader.old reader.new writer.old writer.new) }
    ensures accepted { IfErr result IsNoRefusal }
{
    let output = Output::new(alloc)?;
    let mut lines = Lines {
        output,
        tally: *tally,
    };
    let kinds = StreamKinds::AnyKind;
    let listed = engine.try_stream_pump_matches(kinds, alloc, reader, writer, &mut lines, steps);
    *tally = lines.tally;
    listed
}

/// Takes both buffers, and writes a line for each occurrence in what is read.
pub(crate) fn list_every<R: Read, W: Write>(
    alloc: Global,
    engine: &AhoCorasick,
    reader: &mut Watched<R>,
    writer: &mut Watched<W>,
    steps: &mut Steps,
    tally: &mut Tally,
) -> Result<(), StreamError>
    requires open { reader.old.ended ≡ false }
    requires can { CanStream OnlyStandard (as_built engine.now) (supported_by engine.now) }
    // All lines of what was read, before a read that failed; and no less than those of all pieces but the last, before a write that
    // failed.
    ensures lists { ListsStream Occurrences R.remaining W.contents (as_built engine.now)
        (reader.old, writer.old) (reader.new, writer.new) result }
    ensures costs { CostsSearch (as_built engine.now) reader.old reader.new
        steps.old steps.new result }
    ensures counts { OnOk result (Counts (items_of Occurrences (as_built engine.now).dictionary) reader.old reader.new
        tally.old tally.new) }
    ensures memory { IfStreamMemory result
        (NoneTouched reader.old reader.new writer.old writer.new) }
    ensures accepted { IfErr result IsNoRefusal }
{
    let output = Output::new(alloc)?;
    let mut lines = Lines {
        output,
        tally: *tally,
    };
    let listed = engine.try_stream_pump_occurrences(alloc, reader, writer, &mut lines, steps);
    *tally = lines.tally;
    listed
}

/// Takes both buffers, and writes a line for each whole word under a kind in what is read.
pub(crate) fn list_words<R: Read, W: Write>(
    alloc: Global,
    kind: MatchKind,
    engine: &AhoCorasick,
    reader: &mut Watched<R>,
    writer: &mut Watched<W>,
    steps: &mut Steps,
    tally: &mut Tally,
) -> Result<(), StreamError>
    requires open { reader.old.ended ≡ false }
    requires can { CanStream OnlyStandard (as_built engine.now) (supported_by engine.now) }
    ensures lists { ListsStream Words R.remaining W.contents (asked_for kind (as_built engine.now))
        (reader.old, writer.old) (reader.new, writer.new) result }
    ensures costs { CostsItems Words (asked_for kind (as_built engine.now)) reader.old reader.new
        steps.old steps.new result }
    ensures counts { OnOk result (Counts (items_of Words (asked_for kind (as_built engine.now)).dictionary) reader.old reader.new
        tally.old tally.new) }
    ensures memory { IfStreamMemory result
        (NoneTouched reader.old reader.new writer.old writer.new) }
    ensures accepted { IfErr result IsNoRefusal }
{
    let output = Output::new(alloc)?;
    let mut lines = Lines {
        output,
        tally: *tally,
    };
    let listed = engine.try_stream_pump_words(kind, alloc, reader, writer, &mut lines, steps);
    *tally = lines.tally;
    listed
}

/// Takes both buffers, and writes a line for each whole word in what is read, overlapping ones too.
pub(crate) fn list_all_words<R: Read, W: Write>(
    alloc: Global,
    engine: &AhoCorasick,
    reader: &mut Watched<R>,
    writer: &mut Watched<W>,
    steps: &mut Steps,
    tally: &mut Tally,
) -> Result<(), StreamError>
    requires open { reader.old.ended ≡ false }
    requires can { CanStream OnlyStandard (as_built engine.now) (supported_by engine.now) }
    ensures lists { ListsStream AllWords R.remaining W.contents (as_built engine.now)
        (reader.old, writer.old) (reader.new, writer.new) result }
    ensures costs { CostsItems AllWords (as_built engine.now) reader.old reader.new
        steps.old steps.new result }
    ensures counts { OnOk result (Counts (items_of AllWords (as_built engine.now).dictionary) reader.old reader.new
        tally.old tally.new) }
    ensures memory { IfStreamMemory result
        (NoneTouched reader.old reader.new writer.old writer.new) }
    ensures accepted { IfErr result IsNoRefusal }
{
    let output = Output::new(alloc)?;
    let mut lines = Lines {
        output,
        tally: *tally,
    };
    let listed = engine.try_stream_pump_all_words(alloc, reader, writer, &mut lines, steps);
    *tally = lines.tally;
    listed
}
