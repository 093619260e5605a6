//! A run that masks: each byte of the input that lies in an occurrence of some pattern becomes one byte, the mask.
//!
//! All occurrences count, overlapping ones too. The mask is in no pattern, nor is its partner, so no pattern occurs in what a run
//! has written that returns Ok. A replacement promises no such thing: it takes the matches of a walk, and what overlaps them stays
//! in part. The replacements of the rules are not used. A mask has refusals of its own ([`check_mask`]), and none of the settings.
//!
//! Where whole words alone are masked, an occurrence beside a word byte stays. If the mask is a word byte, no whole word is left;
//! beside another one, such as a star, what was no word may have become one: of `a` and `-x` in `a-x` it leaves `*-x`.
//!
//! It always writes while it reads. Before each read it has written everything but the last bytes that may still be covered: fewer
//! than the longest pattern has. It takes memory for what is built of the rules, and for one buffer.
ghost use Rattle.std.specs.Prelude.{◌≡◌, ◌↔◌, IsTrue, OnOk, IfOk, IfErr, false};
ghost use Rattle.ac_automaton.specs.Stream.Overlapping.{AcceptsListing};
ghost use Rattle.aho_corasick.specs.AhoCorasick.{as_built, supported_by};
ghost use Rattle.acsub.specs.Early.{IsFirstRefusal, IsUnready, as_early};
ghost use Rattle.acsub.specs.Masked.{AnswersMask, CostsMaskRun, CostsMasking, IsInNoPattern, IsMaskOf, IsMaskReady, IsMaskRefusal, IsMaskable, MasksBy, mask_demand};

use crate::args::settings::{Engine, Settings, has_empty_pattern};
use crate::early::{EarlyError, Refusal};
use crate::error::RunError;
use crate::prepared::automaton_for;
use crate::rules::Rules;
use crate::stream::told;
use ac_automaton::error::StreamError;
use ac_automaton::watched::Watched;
use ac_input::search::MatchKind;
use ac_input::steps::Steps;
use aho_corasick::AhoCorasick;
use memchr::memchr2;
use std::alloc::Global;
use std::io::{Read, Write};

/// What masks: a byte, and whether whole words alone are masked.
#[derive(Clone, Copy)]
pub struct Mask {
    pub byte: u8,
    pub word: bool,
}

/// What masks, settled before an input is read.
#[derive(Drop)]
pub struct PreparedMask<'r> {
    settings: Settings,
    rules: &'r Rules,
    mask: Mask,
    automaton: AhoCorasick,
}

/// Makes all that a mask has before it reads, if the settings, the mask and the rules go together.
pub fn prepare_mask<'r>(
    alloc: Global,
    settings: &Settings,
    mask: Mask,
    rules: &'r Rules,
) -> Result<PreparedMask<'r>, EarlyError>
    ensures ready { IfOk result (IsMaskOf settings.now rules.entry.now mask) }
    ensures refused { IfErr result (IsUnready (mask_demand settings.now rules.entry.now mask.byte)) }
{
    check_mask(settings, mask.byte, rules)?;
    let automaton = automaton_for(alloc, settings, rules)?;
    Ok(PreparedMask {
        settings: *settings,
        rules,
        mask,
        automaton,
    })
}

/// Masks an input by what was prepared before.
pub fn run_prepared_mask<R: Read, W: Write>(
    alloc: Global,
    prepared: &PreparedMask<'_>,
    reader: &mut Watched<R>,
    writer: &mut Watched<W>,
    steps: &mut Steps,
) -> Result<(), RunError>
    requires open { reader.old.ended ≡ false }
    requires ready { IsMaskReady prepared.now }
    ensures answered { AnswersMask R.remaining W.contents (reader.old, writer.old) (reader.new, writer.new)
        prepared.now.settings prepared.now.rules.now prepared.now.mask (as_early result) }
    ensures cost { CostsMaskRun prepared.now.mask.word prepared.now.settings prepared.now.rules.now
        reader.old reader.new steps.old steps.new (as_early result) }
{
    let automaton = &prepared.automaton;
    told(mask_stream(alloc, prepared.mask, automaton, reader, writer, steps))
}

/// Masks the stream, each occurrence or whole words alone.
fn mask_stream<R: Read, W: Write>(
    alloc: Global,
    mask: Mask,
    automaton: &AhoCorasick,
    reader: &mut Watched<R>,
    writer: &mut Watched<W>,
    steps: &mut Steps,
) -> Result<(), StreamError>
    requires { reader.old.ended ≡ false }
    ensures masked { MasksBy mask.word R.remaining W.contents (as_built automaton.now) mask.byte reader.old reader.new
        writer.old writer.new result }
    ensures accepted { AcceptsListing (as_built automaton.now) (supported_by automaton.now) result }
    ensures cost { CostsMasking mask.word (as_built automaton.now) reader.old reader.new steps.old steps.new result }
{
    if mask.word {
        automaton.try_mask_words_stream_counted(alloc, reader, writer, mask.byte, steps)
    } else {
        automaton.try_mask_stream_counted(alloc, reader, writer, mask.byte, steps)
    }
}

/// Whether rules can be masked by, with these settings and this mask. Of several reasons against it, the first in the order of
/// [`Refusal`] is returned.
pub fn check_mask(settings: &Settings, mask: u8, rules: &Rules) -> Result<(), Refusal>
    ensures accepted { OnOk result (IsMaskable settings.now rules.now mask) }
    ensures refused { IfErr result (IsFirstRefusal (IsMaskRefusal settings.now rules.now mask)) }
{
    if settings.kind != MatchKind::Standard {
        return Err(Refusal::LeftmostMasked);
    }
    if settings.engine == Engine::Packed {
        return Err(Refusal::PackedMasked);
    }
    if rules.is_empty() {
        return Err(Refusal::NoRules);
    }
    if has_empty_pattern(rules) {
        return Err(Refusal::EmptyMasked);
    }
    if !is_in_no_pattern(settings, rules, mask) {
        return Err(Refusal::Occurs(mask));
    }
    Ok(())
}

/// Whether no pattern has the byte, or its partner.
fn is_in_no_pattern(settings: &Settings, rules: &Rules, byte: u8) -> bool
    ensures { IsTrue result ↔ IsInNoPattern settings.now rules.now byte }
{
    let partner = settings.pairing.other(byte);
    for i in 0..rules.len() {
        if memchr2(byte, partner, rules.pattern(i)).is_some() {
            return false;
        }
    }
    true
}
