//! Replacement over a stream that counts what it replaces: of its matches, or of its whole words.
//!
//! The text is that of [`AhoCorasick::try_stream_replace_all_any_kind_counted`], and is gathered and written as there. Both buffers are
//! taken before the first read, and no memory after that.
ghost use Rattle.std.specs.Prelude.{◌≡◌, false, IfErr, OnOk};
ghost use Rattle.ac_automaton.specs.Stream.{CanStream, Picks, Words, items_of};
ghost use Rattle.ac_automaton.specs.Stream.Replace.{CostsItems, ReplacesStream};
ghost use Rattle.ac_automaton.specs.Stream.WholeWords.{ReplacesWords, asked_for};
ghost use Rattle.ac_automaton.specs.declared.stream.StreamKinds.TheVariants.{AnyKind, OnlyStandard};
ghost use Rattle.aho_corasick.specs.AhoCorasick.{as_built, supported_by};
ghost use Rattle.acsub.specs.Rules.Sides.{replacements_of, rule_patterns};
ghost use Rattle.acsub.specs.Stream.{IsNoRefusal};
ghost use Rattle.acsub.specs.Tally.{Counts};

use crate::rules::Rules;
use crate::tally::Tally;
use ac_automaton::error::StreamError;
use ac_automaton::output::Output;
use ac_automaton::stream::StreamKinds;
use ac_automaton::stream::sink::Sink;
use ac_automaton::watched::Watched;
use ac_input::search::{Match, MatchKind};
use ac_input::steps::Steps;
use aho_corasick::AhoCorasick;
use std::alloc::Global;
use std::io::{Read, Write};

/// Puts the replacement of its pattern in the place of each item, and counts it.
#[derive(Drop)]
struct Replacements<'x> {
    replacements: &'x [&'x [u8]],
    output: Output,
    tally: Tally,
}

impl<'x, W: Write> Sink<W> for Replacements<'x> {
    ghost use Rattle.std.specs.Prelude.{◌≡◌, length, map};
    ghost use Rattle.ac_automaton.specs.Stream.SinkLaws.{replacing-piecewise, sending-begins, sending-joins, sending-precedes};
    ghost use Rattle.ac_automaton.specs.Stream.Texts.{replacing, sending};
    ghost use Rattle.acsub.specs.Tally.{tallying, grown};
    ghost use Rattle.std.proofs.Common.{ap, refl, ◌∙◌};

    ghost handling = { tallying (λ z. z.0.tally.found) (sending W.contents (λ k. k.output)
        (λ k. replacing (map (λ r. r.now) k.replacements.now)) (λ patterns k. length k.replacements.now ≡ patterns)) };

    fn pass(
        &mut self,
        writer: &mut Watched<W>,
        before: &[u8],
        item: &Match,
        _matched: &[u8],
    ) -> Result<(), StreamError> {
        self.tally.add(1);
        let replacement = self.replacements[item.pattern().as_usize()];
        self.output.send_exchanged(writer, before, replacement)
    }

    fn take(&mut self, writer: &mut Watched<W>, bytes: &[u8]) -> Result<(), StreamError> {
        self.output.send_all(writer, bytes)
    }

    ghost begins = { λ z. (sending-begins (λ k. replacing-piecewise _) z, refl) };

    ghost joins = { λ z mid last bytes more a b.
        (sending-joins (λ k. replacing-piecewise _) z mid last bytes more a.0 b.0, b.1 ∙ a.1) };

    ghost precedes = { λ z mid last bytes before matched o a b. (
      sending-precedes (λ k. replacing-piecewise _)
          z mid last bytes before matched o a.0 b.0,
      b.1 ∙ ap (λ n. grown n 1) a.1,
    ) };
}

/// Takes both buffers, and writes the input with each match replaced.
pub(crate) fn replace_stream<R: Read, W: Write>(
    alloc: Global,
    rules: &Rules,
    engine: &AhoCorasick,
    reader: &mut Watched<R>,
    writer: &mut Watched<W>,
    steps: &mut Steps,
    tally: &mut Tally,
) -> Result<(), StreamError>
    requires open { reader.old.ended ≡ false }
    requires can { CanStream AnyKind (as_built engine.now) (supported_by engine.now) }
    requires patterns { (as_built engine.now).dictionary.patterns ≡ rule_patterns rules.now }
    ensures replaced { ReplacesStream R.remaining W.contents (as_built engine.now) (replacements_of rules.now)
        reader.old reader.new writer.old writer.new result }
    ensures costs { CostsItems Picks (as_built engine.now) reader.old reader.new steps.old steps.new result }
    ensures counts { OnOk result (Counts (items_of Picks (as_built engine.now).dictionary) reader.old reader.new
        tally.old tally.new) }
    ensures accepted { IfErr result IsNoRefusal }
{
    let replacements = rules.replacements(alloc)?;
    let output = Output::new(alloc)?;
    let mut sink = Replacements {
        replacements: replacements.as_slice(),
        output,
        tally: *tally,
    };
    let kinds = StreamKinds::AnyKind;
    let replaced = engine.try_stream_pump_matches(kinds, alloc, reader, writer, &mut sink, steps);
    *tally = sink.tally;
    replaced
}

/// Takes both buffers, and writes the input with each whole word under a kind replaced.
pub(crate) fn replace_words<R: Read, W: Write>(
    alloc: Global,
    kind: MatchKind,
    rules: &Rules,
    engine: &AhoCorasick,
    reader: &mut Watched<R>,
    writer: &mut Watched<W>,
    steps: &mut Steps,
    tally: &mut Tally,
) -> Result<(), StreamError>
    requires open { reader.old.ended ≡ false }
    requires can { CanStream OnlyStandard (as_built engine.now) (supported_by engine.now) }
    requires patterns { (as_built engine.now).dictionary.patterns ≡ rule_patterns rules.now }
    ensures replaced { ReplacesWords R.remaining W.contents (asked_for kind (as_built engine.now))
        (replacements_of rules.now) reader.old reader.new writer.old writer.new result }
    ensures costs { CostsItems Words (asked_for kind (as_built engine.now)) reader.old reader.new
        steps.old steps.new result }
    ensures counts { OnOk result (Counts (items_of Words (asked_for kind (as_built engine.now)).dictionary)
        reader.old reader.new tally.old tally.new) }
    ensures accepted { IfErr result IsNoRefusal }
{
    let replacements = rules.replacements(alloc)?;
    let output = Output::new(alloc)?;
    let mut sink = Replacements {
        replacements: replacements.as_slice(),
        output,
        tally: *tally,
    };
    let replaced = engine.try_stream_pump_words(kind, alloc, reader, writer, &mut sink, steps);
    *tally = sink.tally;
    replaced
}
