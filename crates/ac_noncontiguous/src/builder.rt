//! How an automaton is built: the settings, and the build.
//!
//! The settings say which of several overlapping occurrences is the match, which bytes stand for one another, whether searches
//! have a prefilter, and up to which depth states keep a row of next states. The last two change no result.
//!
//! A build enters the patterns into a trie, links each of its states to its failure, and makes the tables from both. Each part is
//! freed when nothing more is asked of it. Where most states have one child, a build takes some 70 bytes a state at once, of which
//! 41 remain.
//!
//! It takes time and memory in proportion to the bytes of all patterns, to the rows, and to the lists of the states. A row has
//! four bytes for each class of bytes. Under the standard kind a state in which a pattern ends repeats the list of its failure:
//! the n patterns `a`, `aa`, `aaa` and so on have n (n + 1) / 2 entries, of four bytes each. Under a leftmost kind such a state
//! has no failure, and each pattern is stored once.
ghost use Rattle.std.specs.Prelude.{◌≡◌, Some, IfOk, IfErr, OnOk};
ghost use Rattle.ac_input.specs.Dictionary.{Dictionary};
ghost use Rattle.ac_input.specs.Pairing.{IsFolded};
ghost use Rattle.ac_input.specs.Limits.{IsWithinLimits};
ghost use Rattle.ac_noncontiguous.specs.Builder.{AreDefaultSettings, AreCompiled, ByDefault, HasRowsBy, IsBuiltOf, IsHeld, dictionary_by, noncontiguous_dense_depth};
ghost use Rattle.ac_noncontiguous.specs.Trie.Kept.{IsTrieOf};
ghost use Rattle.ac_noncontiguous.specs.Nfa.{AreRowsBelow};
ghost use Rattle.ac_noncontiguous.specs.Nfa.Reads.{built_as};
ghost use Rattle.ac_noncontiguous.specs.Standing.{IsBuildRefused};

use crate::error::BuildError;
use crate::links::Links;
use crate::nfa::NFA;
use crate::nfa::pattern_lens::PatternLens;
use crate::nfa::tables::Tables;
use crate::settings::{Settings, case_pairing};
use crate::trie::Trie;
use ac_input::pairing::Pairing;
use ac_input::search::MatchKind;
use ac_literal::openings::Openings;
use ac_literal::prefilter::{Prefilter, PrefilterBuilder};
use std::alloc::{AllocError, Global};
use std::marker::Model;

/// To which depth states keep a row by default: the starts, and those of one byte and of two.
const DENSE_DEPTH: usize = 3;

/// The settings of an automaton. A builder may build several times.
///
/// ```text
/// let mut builder = Builder::new();
/// builder.match_kind(MatchKind::LeftmostFirst).ascii_case_insensitive(true);
/// let nfa = builder.build(alloc, &[b"fox", b"dog"])?;
/// ```
#[derive(Clone, Drop)]
pub struct Builder {
    settings: Settings,
}

impl Model for Builder {
    ghost use Rattle.ac_noncontiguous.specs.declared.settings.Settings.{Settings};

    ghost Value = { Settings };

    ghost view = { λ b. b.settings };

    ghost inverse = { λ s. record { settings = s } };
}

impl Default for Builder {
    ghost use Rattle.ac_noncontiguous.specs.Builder.{AreDefaultSettings};

    ghost is_default = { AreDefaultSettings };

    fn default() -> Builder {
        Builder::new()
    }
}

impl From<Settings> for Builder {
    ghost from_gives = { λ settings made. made ≡ settings };

    /// A builder with these settings, of which the start kind, the classes and the memory for rows change nothing here.
    fn from(settings: Settings) -> Builder {
        Builder { settings }
    }
}

impl Builder {
    /// Standard matches, no byte paired, a prefilter wanted, and rows for states of up to two bytes. It takes no memory.
    pub fn new() -> Builder
        ensures { AreDefaultSettings result }
    {
        Builder {
            settings: Settings::new(),
        }
    }

    /// Sets which of several overlapping occurrences is the match.
    pub fn match_kind(&mut self, kind: MatchKind) -> &mut Builder
        ensures same { result.ghost_name ≡ self.entry.ghost_name }
        ensures value { result.now ≡ record self.old { match_kind = kind } }
    {
        self.settings.match_kind = kind;
        self
    }

    /// Sets whether ASCII letters count as the same in their two cases. It sets the whole pairing: the last call of this or of
    /// [`Builder::pairing`] decides.
    pub fn ascii_case_insensitive(&mut self, yes: bool) -> &mut Builder
        ensures same { result.ghost_name ≡ self.entry.ghost_name }
        ensures rest { result.now ≡ record self.old { pairing = result.now.pairing } }
        ensures pairing { IsFolded yes result.now.pairing }
    {
        self.pairing(case_pairing(yes))
    }

    /// Sets which bytes stand for one another. At first none does.
    pub fn pairing(&mut self, pairing: Pairing) -> &mut Builder
        ensures same { result.ghost_name ≡ self.entry.ghost_name }
        ensures value { result.now ≡ record self.old { pairing = pairing } }
    {
        self.settings.pairing = pairing;
        self
    }

    /// Sets to which depth states keep a row: those to which fewer bytes lead. At first it is 3.
    ///
    /// It changes no result. A look-up in a row takes three loads and follows no failure; elsewhere it takes a binary search, and
    /// another one for each failure that it follows. A row takes four bytes for each class of bytes, so at most 1 KiB. Any depth is
    /// accepted; there are at most 256 states of one byte, and 65,536 of two. Take 0 for an automaton from which another one is
    /// made.
    pub fn dense_depth(&mut self, depth: usize) -> &mut Builder
        ensures same { result.ghost_name ≡ self.entry.ghost_name }
        ensures value { result.now ≡ record self.old { dense_depth = Some depth } }
    {
        self.settings.dense_depth = Some(depth);
        self
    }

    /// Sets whether searches have a prefilter, if one serves. At first they have.
    ///
    /// It changes no result. A prefilter passes quickly over bytes where no match begins, which pays if matches are rare. It has
    /// copies of the patterns if it searches for them, and else takes some 256 bytes. Without one the automaton still passes over
    /// bytes that begin no pattern.
    pub fn prefilter(&mut self, yes: bool) -> &mut Builder
        ensures same { result.ghost_name ≡ self.entry.ghost_name }
        ensures value { result.now ≡ record self.old { prefilter = yes } }
    {
        self.settings.prefilter = yes;
        self
    }

    /// A builder of prefilters with the patterns, under these settings.
    fn collect(&self, alloc: Global, patterns: &[&[u8]]) -> Result<PrefilterBuilder, AllocError>
        ensures { IfOk result (λ builder. builder ≡ dictionary_by self.now patterns.now) }
    {
        let mut builder = PrefilterBuilder::new(alloc, self.settings.match_kind);
        builder.pairing(self.settings.pairing);
        for pattern in patterns {
            builder.try_add(*pattern)?;
        }
        Ok(builder)
    }

    /// The prefilter of the patterns, if one is wanted and serves.
    fn build_prefilter(
        &self,
        alloc: Global,
        patterns: &[&[u8]],
    ) -> Result<Option<Prefilter>, AllocError>
        ensures { IfOk result
            (IsHeld self.now.prefilter (dictionary_by self.now patterns.now)) }
    {
        if !self.settings.prefilter {
            return Ok(None);
        }
        self.collect(alloc, patterns)?.build()
    }

    /// Builds the automaton of the patterns, which are numbered from 0 in this order.
    ///
    /// Of the three automata it is built soonest, so it suits patterns that are searched for once. The others are made from it.
    /// There is no condition on the patterns: there may be none, and they may be empty or equal.
    ///
    /// # Errors
    ///
    /// Returns an error only in these cases: there are more patterns than
    /// [`PatternID::LIMIT`](ac_input::primitives::PatternID::LIMIT); a pattern has more bytes than the greatest number; more
    /// states than that limit are needed (four, and one for each different non-empty beginning of the patterns that are entered; a
    /// byte and its partner count as one); or memory runs out. If several limits are passed, the first pattern that passes one
    /// decides.
    ///
    /// # Cost
    ///
    /// Time and memory are in proportion to the bytes of all patterns, to the rows, and to the lists of the states. A state takes
    /// 32 bytes, and each transition 8; the dead state and both starts have 256 transitions. [The module](crate::builder) says
    /// when lists are long: bound the patterns of a stranger under the standard kind.
    pub fn build(&self, alloc: Global, patterns: &[&[u8]]) -> Result<NFA, BuildError>
        ensures built { IfOk result (λ nfa. IsBuiltOf self.now patterns.now (built_as nfa)) }
        ensures rows { IfOk result (HasRowsBy self.now) }
        ensures refused { IfErr result (IsBuildRefused (dictionary_by self.now patterns.now)) }
    {
        let tables = self.build_tables(alloc, patterns)?;
        let lens = PatternLens::of(alloc, patterns)?;
        let prefilter = self.build_prefilter(alloc, patterns)?;
        let settings = &self.settings;
        let openings = Openings::new(alloc, patterns, &settings.pairing)?;
        Ok(NFA::from_parts(
            tables,
            lens,
            prefilter,
            openings,
            settings.pairing,
            settings.match_kind,
        ))
    }

    /// The tables of the patterns, which pass no limit.
    fn build_tables(&self, alloc: Global, patterns: &[&[u8]]) -> Result<Tables, BuildError>
        ensures made { IfOk result (AreCompiled (dictionary_by self.now patterns.now)) }
        ensures rows { IfOk result (AreRowsBelow (noncontiguous_dense_depth self.now)) }
        ensures within { OnOk result (IsWithinLimits (dictionary_by self.now patterns.now)) }
        ensures refused { IfErr result (IsBuildRefused (dictionary_by self.now patterns.now)) }
    {
        let settings = &self.settings;
        let trie = Trie::from_patterns(alloc, patterns, settings.pairing, settings.match_kind)?;
        Ok(tables_of(alloc, trie, self.row_depth())?)
    }

    /// Below which depth states have a row.
    fn row_depth(&self) -> usize
        ensures { result ≡ noncontiguous_dense_depth self.now }
    {
        self.settings.dense_depth.unwrap_or(DENSE_DEPTH)
    }
}

impl NFA {
    /// Builds the automaton of the patterns with the default settings: standard matches, no byte paired.
    ///
    /// Its errors and its cost are those of [`Builder::build`].
    pub fn new(alloc: Global, patterns: &[&[u8]]) -> Result<NFA, BuildError>
        ensures built { IfOk result (λ nfa. ByDefault (λ s. IsBuiltOf s patterns.now (built_as nfa))) }
        ensures rows { IfOk result (λ nfa. ByDefault (λ s. HasRowsBy s nfa)) }
        ensures refused { IfErr result
            (λ error. ByDefault (λ s. IsBuildRefused (dictionary_by s patterns.now) error)) }
    {
        Builder::new().build(alloc, patterns)
    }

    /// A builder with the default settings. It takes no memory.
    pub fn builder() -> Builder
        ensures { AreDefaultSettings result }
    {
        Builder::new()
    }
}

/// The tables of a trie. They have rows for states less deep than `dense_depth`, which changes no result.
fn tables_of(alloc: Global, trie: Trie, dense_depth: usize) -> Result<Tables, AllocError>
    requires { (m : Dictionary) × IsTrieOf m trie }
    ensures made { IfOk result
        (λ tables. (m : Dictionary) → IsTrieOf m trie → AreCompiled m tables) }
    ensures rows { IfOk result (AreRowsBelow dense_depth) }
{
    let order = trie.breadth_first(alloc)?;
    let links = Links::of(alloc, &trie, &order)?;
    let trie = trie.without_hints(alloc);
    Tables::from_trie(alloc, trie, order, links, dense_depth)
}
