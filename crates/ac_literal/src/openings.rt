//! Where a pattern may begin.
//!
//! A search that stands in the start waits for a pattern to begin. [`Openings`] finds the next place at which it may, in one of two
//! ways. [`Fronts`] look at the first bytes of each place, 32 places at a time. [`Grams`] look at every fifth place or so, for eight
//! bytes that are somewhere in a pattern; they find fewer places in vain where there are many patterns, or few different letters.
//!
//! To pass a place costs a fraction of what an automaton takes for a byte; but each place that is found leads the automaton to some
//! bytes, often in vain. So there are no openings for many patterns that are too short for grams, nor for patterns of one byte.
//! They take up to 8 KiB of the heap, however many patterns there are.
mod fingerprints;
mod fronts;

ghost use Rattle.std.specs.Prelude.{◌≡◌, ◌≤◌, length, IfOk, IfSome};
ghost use Rattle.ac_literal.specs.Grams.{HaveWindows};
ghost use Rattle.ac_literal.specs.Packed.{bytes_of, AreAsLong};

use crate::grams::choice::{Choice, MOST_PATTERNS};
use crate::grams::{Grams, SHORTEST};
use crate::openings::fronts::{Fronts, LIMIT, MOST};
use crate::prefilter::needles::FewBytes;
use crate::prefilter::rank::stops_within;
use ac_input::pairing::Pairing;
use std::alloc::{AllocError, Global};

/// How many bytes an opening has, at least; and by grams, at most.
const LEAST: usize = 2;

const MOST_BY_GRAMS: usize = 16;

/// How openings are found.
#[derive(Drop)]
pub enum Way {
    /// By the first bytes of each place.
    Fronts(Fronts),
    /// By sampled grams.
    Grams(Grams),
}

/// Finds the places at which some pattern may begin.
#[derive(Drop)]
pub struct Openings {
    way: Way,
    len: usize,
    /// Whether the patterns are made of so few letters that, in a text of these, a search is seldom in its start.
    few_letters: bool,
    ghost wide: { 2 ≤ len },
    ghost few: { len ≤ 16 },
}

/// How often a byte that begins a pattern may come in a thousand bytes, so that a scan for these bytes is faster.
const RARE: u32 = 5;

/// Whether a scan for the bytes that begin a pattern is faster than openings.
fn have_rare_starts(patterns: &[&[u8]], pairing: &Pairing) -> bool {
    let mut starts = FewBytes::None;
    for pattern in patterns {
        if let Some(byte) = pattern.first() {
            starts = starts.with(*byte).with(pairing.other(*byte));
        }
    }
    match starts {
        FewBytes::Some(needles) => stops_within(needles, RARE),
        _ => false,
    }
}

/// How many bytes all patterns have, up to a number.
fn len_of(patterns: &[&[u8]], most: usize) -> usize
    ensures few { result ≤ most }
    ensures short { AreAsLong result (bytes_of patterns.now) }
{
    let mut len = most;
    for pattern in patterns {
        len = len.min(pattern.len());
    }
    len
}

/// What the choice between grams and first bytes depends on.
fn choice_for(patterns: &[&[u8]]) -> Choice {
    let mut choice = Choice::new();
    for pattern in patterns {
        choice.add(pattern);
    }
    choice
}

/// The grams of the first `len` bytes of some patterns.
fn grams_of(alloc: Global, patterns: &[&[u8]], len: usize) -> Result<Grams, AllocError>
    requires long { 9 ≤ len }
    requires short { AreAsLong len (bytes_of patterns.now) }
    ensures { IfOk result
        (λ grams. HaveWindows grams len (bytes_of patterns.now) (length patterns.now)) }
{
    let mut grams = Grams::empty(alloc, len)?;
    for pattern in patterns {
        grams.add_rarest(&pattern[..len]);
    }
    Ok(grams)
}

impl Openings {
    ghost use Rattle.std.specs.Prelude.{IsTrue};
    ghost use Rattle.ac_input.specs.Dictionary.{Dictionary};
    ghost use Rattle.ac_input.specs.Opening.{HasNoOccurrence};
    ghost use Rattle.ac_literal.specs.Openings.{AreCopied, AreCopiedIfAny, AreOpenings, OpenAll, PassesOpenings};

    /// The openings of some patterns; none where they are too many, or too short, or where so rare bytes begin them that a scan for
    /// these is faster.
    pub fn new(
        alloc: Global,
        patterns: &[&[u8]],
        pairing: &Pairing,
    ) -> Result<Option<Openings>, AllocError>
        ensures { IfOk result (λ made. IfSome made (OpenAll (bytes_of patterns.now) pairing.now)) }
    {
        if patterns.is_empty() || patterns.len() > MOST_PATTERNS {
            return Ok(None);
        }
        if have_rare_starts(patterns, pairing) {
            return Ok(None);
        }
        match Openings::by_grams(alloc, patterns, pairing)? {
            Some(openings) => Ok(Some(openings)),
            None => Ok(Openings::by_fronts(patterns, pairing)),
        }
    }

    /// Openings that are found by grams, where those find fewer places; only where no byte is paired.
    fn by_grams(
        alloc: Global,
        patterns: &[&[u8]],
        pairing: &Pairing,
    ) -> Result<Option<Openings>, AllocError>
        ensures { IfOk result (λ made. IfSome made (OpenAll (bytes_of patterns.now) pairing.now)) }
    {
        let len = len_of(patterns, MOST_BY_GRAMS);
        if len < SHORTEST || !pairing.is_none() {
            return Ok(None);
        }
        let choice = choice_for(patterns);
        if !choice.takes_grams() {
            return Ok(None);
        }
        Ok(Some(Openings {
            way: Way::Grams(grams_of(alloc, patterns, len)?),
            len,
            few_letters: choice.has_few_letters(),
        }))
    }

    /// Openings that are found by first bytes.
    fn by_fronts(patterns: &[&[u8]], pairing: &Pairing) -> Option<Openings>
        ensures { IfSome result (OpenAll (bytes_of patterns.now) pairing.now) }
    {
        let len = len_of(patterns, MOST);
        if len < LEAST || patterns.len() > LIMIT {
            return None;
        }
        Some(Openings {
            way: Way::Fronts(Fronts::new(patterns, pairing, len)),
            len,
            few_letters: false,
        })
    }

    /// The same in memory from `alloc`.
    pub fn clone(&self, alloc: Global) -> Result<Openings, AllocError>
        ensures { IfOk result (AreCopied self.now) }
    {
        let way = match &self.way {
            Way::Fronts(fronts) => Way::Fronts(*fronts),
            Way::Grams(grams) => Way::Grams(grams.clone(alloc)?),
        };
        Ok(Openings {
            way,
            len: self.len,
            few_letters: self.few_letters,
        })
    }

    /// The same openings in memory from `alloc`, if there are any.
    pub fn clone_any(alloc: Global, held: &Option<Openings>) -> Result<Option<Openings>, AllocError>
        ensures { IfOk result (AreCopiedIfAny held.now) }
    {
        match held {
            Some(openings) => Ok(Some(openings.clone(alloc)?)),
            None => Ok(None),
        }
    }

    /// How many bytes of memory they take, besides themselves.
    pub fn memory_usage(&self) -> usize {
        match &self.way {
            Way::Fronts(_) => 0,
            Way::Grams(grams) => grams.memory_usage(),
        }
    }

    /// How many bytes an opening has.
    #[inline]
    pub fn len(&self) -> usize
        ensures { result ≡ self.now.len }
    {
        self.len
    }

    /// Whether few places are found in vain, however many patterns there are, and after each a search is soon in its start again.
    pub fn are_sparse(&self) -> bool {
        matches!(self.way, Way::Grams(_)) && !self.few_letters
    }

    /// How many bytes at the front may be passed: up to the next place at which a pattern may begin, or up to the last ones.
    #[inline]
    pub fn pass(&self, bytes: &[u8]) -> usize
        ensures within { result ≤ length bytes.now }
        ensures passed { PassesOpenings self.now bytes.now result }
    {
        match &self.way {
            Way::Fronts(fronts) => fronts.pass(bytes),
            Way::Grams(grams) => grams.pass(bytes),
        }
    }

    /// Whether no pattern can begin at any place of these bytes, so that none occurs in them.
    pub fn rule_out(&self, bytes: &[u8]) -> bool
        ensures { IsTrue result
            → (m : Dictionary) → AreOpenings m self.now → HasNoOccurrence m bytes.now }
    {
        bytes.len() < self.len || self.pass(bytes) > bytes.len() - self.len
    }
}
