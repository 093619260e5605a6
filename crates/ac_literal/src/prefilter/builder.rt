//! Collects patterns, and chooses how candidates are found.
//!
//! As patterns come, each way of finding candidates collects what it needs: the one pattern, the patterns of packed search, the
//! bytes that patterns begin with, and rare bytes. When a prefilter is built, one of the ways that serve is chosen, as the page
//! above says. An empty pattern lies everywhere, so once one comes nothing more is collected, and no prefilter is built.
ghost use Rattle.std.specs.Prelude.{◌≡◌, ◌<◌, [], length, option_map, IfOk, IfSome, IsSome, OnOk, OnErr, MatchOption, IsTrue};
ghost use Rattle.ac_input.specs.Same.{IsUnpaired};
ghost use Rattle.ac_input.specs.Pairing.{IsFolded};
ghost use Rattle.ac_input.specs.Dictionary.{Dictionary};
ghost use Rattle.ac_literal.specs.Packed.{search_kind, added};
ghost use Rattle.ac_literal.specs.Prefilter.{IsDemanded, IsPrefilterOf, MemmemServes};
ghost use Rattle.ac_literal.specs.Prefilter.Builder.{IsPackedSoFar, IsCollected, AddsMemmem, AddsStart, AddsPattern, BuildsWhere, BuildsPacked, BuildsStartBytes, TakesOne};
ghost use Rattle.ac_input.specs.Limits.{with_pattern};
ghost use Rattle.ac_literal.specs.Prefilter.Strategies.{AreRareOf};

use crate::packed;
use crate::prefilter::Prefilter;
use crate::prefilter::needles::{FewBytes, Needles};
use crate::prefilter::rank::{STOPS_ALONE, STOPS_BESIDE_PACKED, Singles, stops, stops_within};
use crate::prefilter::rare_bytes::RareBytesBuilder;
use crate::prefilter::strategy::{RareBytes, Strategy};
use ac_input::history::Pieces;
use ac_input::pairing::Pairing;
use ac_input::search::MatchKind;
use memchr::memmem;
use std::alloc::{AllocError, Global};
use std::marker::Model;

/// The one pattern, as long as there is one.
#[derive(Drop)]
pub enum MemmemBuilder {
    None,
    One(Vec<u8>),
    Several,
}

impl MemmemBuilder {
    /// With one more pattern, which is kept if it is the first.
    fn with(&self, alloc: Global, pattern: &[u8]) -> Result<MemmemBuilder, AllocError>
        ensures { IfOk result (AddsMemmem self.now pattern.now) }
    {
        Ok(match self {
            MemmemBuilder::None => MemmemBuilder::One(pattern.to_vec(alloc)?),
            MemmemBuilder::One(_) | MemmemBuilder::Several => MemmemBuilder::Several,
        })
    }
}

/// The packed search of the kind, if it has one.
fn packed_kind(kind: MatchKind) -> Option<packed::MatchKind>
    ensures { MatchOption result (kind ≡ MatchKind.Standard)
        (λ leftmost. search_kind leftmost ≡ kind) }
{
    match kind {
        MatchKind::Standard => None,
        MatchKind::LeftmostFirst => Some(packed::MatchKind::LeftmostFirst),
        MatchKind::LeftmostLongest => Some(packed::MatchKind::LeftmostLongest),
    }
}

/// The builder of packed search, if it may serve. It takes no memory yet.
fn packed_builder(alloc: Global, kind: MatchKind, pairing: &Pairing) -> Option<packed::Builder>
    ensures { IsPackedSoFar (record { patterns = []; pairing = pairing.now; kind = kind }) result }
{
    let leftmost = packed_kind(kind)?;
    if !pairing.is_none() {
        return None;
    }
    let mut config = packed::Config::new();
    config.match_kind(leftmost);
    Some(config.builder(alloc))
}

/// One more pattern for packed search, if it may serve.
fn add_packed(packed: &mut Option<packed::Builder>, pattern: &[u8]) -> Result<(), AllocError>
    ensures ok { OnOk result (packed.new ≡ option_map (λ b. added b pattern.now) packed.old) }
    ensures err { OnErr result (packed.new ≡ packed.old) }
{
    match packed {
        Some(builder) => builder.try_add(pattern),
        None => Ok(()),
    }
}

/// The first bytes of patterns, with those of one more pattern.
fn starts_with(few: FewBytes, pairing: &Pairing, pattern: &[u8]) -> FewBytes
    requires { 0 < length pattern.now }
    ensures { AddsStart pairing.now few pattern.now result }
{
    let first = pattern[0];
    few.with(first).with(pairing.other(first))
}

/// What is collected of patterns, none of which is empty.
#[derive(Drop)]
pub struct Builders {
    memmem: MemmemBuilder,
    packed: Option<packed::Builder>,
    start_bytes: FewBytes,
    rare_bytes: RareBytesBuilder,
}

impl Builders {
    /// Of no pattern.
    fn new(alloc: Global, kind: MatchKind, pairing: &Pairing) -> Builders
        ensures { IsCollected
            (record { patterns = []; pairing = pairing.now; kind = kind }) result }
    {
        Builders {
            memmem: MemmemBuilder::None,
            packed: packed_builder(alloc, kind, pairing),
            start_bytes: FewBytes::None,
            rare_bytes: RareBytesBuilder::new(),
        }
    }

    /// With one more pattern. If memory runs out, nothing changes.
    fn add(&mut self, alloc: Global, pairing: &Pairing, pattern: &[u8]) -> Result<(), AllocError>
        requires { 0 < length pattern.now }
        ensures ok { OnOk result (AddsPattern pairing.now self.old pattern.now self.new) }
        ensures err { OnErr result (self.new ≡ self.old) }
    {
        let memmem = self.memmem.with(alloc, pattern)?;
        add_packed(&mut self.packed, pattern)?;
        self.memmem = memmem;
        self.start_bytes = starts_with(self.start_bytes, pairing, pattern);
        self.rare_bytes = self.rare_bytes.with(pairing, pattern);
        Ok(())
    }

    /// The search for the one pattern, if it serves.
    fn build_memmem(&self, alloc: Global, pairing: &Pairing) -> Result<Option<Strategy>, AllocError>
        ensures { IfOk result (BuildsWhere MemmemServes pairing.now self.now) }
    {
        match &self.memmem {
            MemmemBuilder::One(pattern) if pairing.is_none() => Ok(Some(Strategy::Memmem(
                memmem::Finder::new(pattern).into_owned(alloc)?,
            ))),
            _ => Ok(None),
        }
    }

    /// Packed search, if it serves.
    fn build_packed(&self) -> Result<Option<Strategy>, AllocError>
        ensures { IfOk result (BuildsPacked self.now) }
    {
        let Some(builder) = &self.packed else {
            return Ok(None);
        };
        let Some(searcher) = builder.build()? else {
            return Ok(None);
        };
        Ok(Some(Strategy::Packed(searcher)))
    }

    /// The bytes that patterns begin with, if a scan for them serves.
    fn build_start_bytes(&self) -> Option<Needles>
        ensures { BuildsStartBytes self.now result }
    {
        let FewBytes::Some(needles) = self.start_bytes else {
            return None;
        };
        if needles.is_ascii() {
            Some(needles)
        } else {
            None
        }
    }

    /// Rare bytes, if a scan for them serves.
    fn build_rare_bytes(&self) -> Option<RareBytes>
        ensures { (m : Dictionary) → IsCollected m self.now → IfSome result (AreRareOf m) }
    {
        let FewBytes::Some(needles) = self.rare_bytes.few else {
            return None;
        };
        if !self.rare_bytes.is_short {
            return None;
        }
        Some(RareBytes {
            needles,
            distances: self.rare_bytes.distances,
        })
    }

    /// Whether packed search has patterns to look for.
    fn has_packed(&self) -> bool {
        match &self.packed {
            Some(builder) => builder.len() > 0,
            None => false,
        }
    }

    /// Whether there is a scan for bytes that is preferred to packed search, or to no prefilter.
    fn prefers(&self, scan: &Option<Strategy>) -> bool
        ensures { IsTrue result → IsSome scan.now }
    {
        let limit = if self.has_packed() {
            STOPS_BESIDE_PACKED
        } else {
            STOPS_ALONE
        };
        scans_within(scan, limit)
    }

    /// How candidates are found, if there is a way.
    fn build(&self, alloc: Global, pairing: &Pairing) -> Result<Option<Strategy>, AllocError>
        ensures { IfOk result (BuildsWhere IsDemanded pairing.now self.now) }
    {
        if let Some(strategy) = self.build_memmem(alloc, pairing)? {
            return Ok(Some(strategy));
        }
        let starts = self.build_start_bytes();
        let scan = rarer(starts, self.build_rare_bytes());
        if self.prefers(&scan) {
            return Ok(scan);
        }
        if let Some(strategy) = self.build_packed()? {
            return Ok(Some(strategy));
        }
        if starts.is_none() {
            return Ok(None);
        }
        Ok(scan)
    }
}

/// Of two scans for bytes, the one that is estimated to stop more rarely. On a tie start bytes are chosen, since they need no step
/// back.
fn rarer(starts: Option<Needles>, rare: Option<RareBytes>) -> Option<Strategy>
    ensures { TakesOne starts rare result }
{
    match (starts, rare) {
        (Some(needles), Some(rare)) if stops(rare.needles) < stops(needles) => {
            Some(Strategy::RareBytes(rare))
        }
        (Some(needles), _) => Some(Strategy::StartBytes(needles)),
        (None, Some(rare)) => Some(Strategy::RareBytes(rare)),
        (None, None) => None,
    }
}

/// Whether there is a scan for bytes, and it is estimated to stop at most this often in a thousand bytes.
fn scans_within(scan: &Option<Strategy>, limit: u32) -> bool
    ensures { IsTrue result → IsSome scan.now }
{
    match scan {
        Some(Strategy::StartBytes(needles)) => stops_within(*needles, limit),
        Some(Strategy::RareBytes(rare)) => stops_within(rare.needles, limit),
        _ => false,
    }
}

/// Collects the patterns of a prefilter, in the order of their numbers.
///
/// It takes memory from the allocator that it was made with: for a copy of the first pattern, and for what packed search keeps. It
/// may build several times, and take more patterns in between.
#[derive(Drop)]
pub struct PrefilterBuilder {
    alloc: Global,
    kind: MatchKind,
    pairing: Pairing,
    patterns: Pieces,
    has_empty: bool,
    singles: Singles,
    builders: Builders,
}

impl Model for PrefilterBuilder {
    ghost use Rattle.ac_input.specs.Dictionary.{Dictionary};
    ghost use Rattle.ac_literal.specs.Prefilter.Builder.{IsBuilder};

    ghost Value = { Dictionary };

    ghost view = { λ b.
        record { patterns = b.patterns.items; pairing = b.pairing; kind = b.kind } };

    ghost invariant = { λ b.
        IsBuilder
        (record { patterns = b.patterns.items; pairing = b.pairing; kind = b.kind })
        b.has_empty b.builders };
}

impl PrefilterBuilder {
    /// A builder with no pattern, for searches of this kind, where no byte is paired. It takes no memory yet, and takes it from
    /// `alloc` later.
    pub fn new(alloc: Global, kind: MatchKind) -> PrefilterBuilder
        ensures kind { result.kind ≡ kind }
        ensures patterns { result.patterns ≡ [] }
        ensures pairing { IsUnpaired result.pairing }
    {
        PrefilterBuilder::with_pairing(alloc, kind, Pairing::none())
    }

    /// A builder with no pattern and this pairing.
    fn with_pairing(alloc: Global, kind: MatchKind, pairing: Pairing) -> PrefilterBuilder
        ensures { result ≡ record { patterns = []; pairing = pairing; kind = kind } }
    {
        PrefilterBuilder {
            alloc,
            kind,
            pairing,
            patterns: Pieces::empty(),
            has_empty: false,
            singles: Singles::new(),
            builders: Builders::new(alloc, kind, &pairing),
        }
    }

    /// Whether ASCII letters count as the same in their two cases. It sets the whole pairing: the last call of this or of
    /// [`PrefilterBuilder::pairing`] decides.
    pub fn ascii_case_insensitive(&mut self, yes: bool) -> &mut PrefilterBuilder
        requires { self.old.patterns ≡ [] }
        ensures same { result.ghost_name ≡ self.entry.ghost_name }
        ensures rest { result.now ≡ record self.old { pairing = result.now.pairing } }
        ensures pairing { IsFolded yes result.now.pairing }
    {
        let pairing = if yes {
            Pairing::ascii()
        } else {
            Pairing::none()
        };
        self.pairing(pairing)
    }

    /// Which bytes stand for one another. At first none does.
    pub fn pairing(&mut self, pairing: Pairing) -> &mut PrefilterBuilder
        requires { self.old.patterns ≡ [] }
        ensures same { result.ghost_name ≡ self.entry.ghost_name }
        ensures value { result.now ≡ record self.old { pairing = pairing } }
    {
        *self = PrefilterBuilder::with_pairing(self.alloc, self.kind, pairing);
        self
    }

    /// Adds a pattern. If memory runs out, the builder is unchanged.
    pub fn add(&mut self, pattern: &[u8]) -> Result<&mut PrefilterBuilder, AllocError>
        ensures same { IfOk result (λ b. b.ghost_name ≡ self.entry.ghost_name) }
        ensures value { IfOk result (λ b. b.now ≡ with_pattern self.old pattern.now) }
    {
        self.try_add(pattern)?;
        Ok(self)
    }

    /// The same as [`PrefilterBuilder::add`], for a caller that goes on when memory has run out.
    pub fn try_add(&mut self, pattern: &[u8]) -> Result<(), AllocError>
        ensures ok { OnOk result (self.new ≡ with_pattern self.old pattern.now) }
        ensures err { OnErr result (self.new ≡ self.old) }
    {
        if pattern.is_empty() {
            self.has_empty = true;
        } else if !self.has_empty {
            self.builders.add(self.alloc, &self.pairing, pattern)?;
        }
        self.singles.add(&self.pairing, pattern);
        self.patterns = self.patterns.and(pattern);
        Ok(())
    }

    /// The prefilter of the patterns, if one serves.
    ///
    /// It takes memory for a copy of the patterns that the prefilter searches for, and none where it scans for bytes.
    pub fn build(&self) -> Result<Option<Prefilter>, AllocError>
        ensures made { IfOk result (λ made. IfSome made (IsPrefilterOf self.now)) }
        ensures demanded { IfOk result (λ made. IsDemanded self.now → IsSome made) }
    {
        if self.has_empty {
            return Ok(None);
        }
        let Some(strategy) = self.builders.build(self.alloc, &self.pairing)? else {
            return Ok(None);
        };
        Ok(Some(Prefilter {
            kind: self.kind,
            pairing: self.pairing,
            patterns: self.patterns.same(),
            strategy,
            close: self.singles.are_close(),
        }))
    }
}
