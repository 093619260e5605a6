//! How a DFA is built: the settings, and the build.
//!
//! A DFA is made from a noncontiguous automaton, state by state. Besides the settings of that one, a builder sets for which
//! searches there is a start, and whether bytes that lead alike share an entry of a row. It takes time and memory in proportion to
//! the table: the number of states times the stride, twice that with both starts.
ghost use Rattle.std.specs.Prelude.{◌≡◌, IfOk, IfErr};
ghost use Rattle.ac_input.specs.Pairing.{IsFolded};
ghost use Rattle.ac_tables.specs.Dfa.Builder.{IsDfaOf, IsDfaBuilt, IsDfaBuildRefused, IsTooLargeOr};
ghost use Rattle.ac_noncontiguous.specs.Builder.{AreDefaultSettings, ByDefault};
ghost use Rattle.ac_noncontiguous.specs.Nfa.Reads.{dictionary};
ghost use Rattle.ac_tables.specs.Dfa.Made.{IsTableFor, IsTableRefused};

use crate::dfa::DFA;
use crate::dfa::fill::Filler;
use crate::dfa::lists::Lists;
use crate::dfa::numbers::{Numbers, check_size, rows};
use crate::dfa::table::Table;
use crate::source::{classes_of, source_of};
use ac_automaton::automaton::Automaton;
use ac_automaton::skip::clone_prefilter;
use ac_input::pairing::Pairing;
use ac_input::search::{Anchored, MatchKind, StartKind};
use ac_literal::openings::Openings;
use ac_noncontiguous::error::BuildError;
use ac_noncontiguous::nfa::NFA;
use ac_noncontiguous::settings::{Settings, case_pairing};
use std::alloc::Global;
use std::marker::Model;

/// The settings of a DFA. A builder may build several times.
///
/// ```text
/// let mut builder = Builder::new();
/// builder.match_kind(MatchKind::LeftmostFirst).start_kind(StartKind::Both);
/// let dfa = builder.build(alloc, &[b"fox", b"dog"])?;
/// ```
#[derive(Clone, Drop)]
pub struct Builder {
    settings: Settings,
}

impl Model for Builder {
    ghost use Rattle.ac_noncontiguous.specs.declared.settings.Settings.{Settings};

    ghost Value = { Settings };

    ghost view = { λ b. b.settings };

    ghost inverse = { λ s. record { settings = s } };
}

impl Default for Builder {
    ghost use Rattle.ac_noncontiguous.specs.Builder.{AreDefaultSettings};

    ghost is_default = { AreDefaultSettings };

    fn default() -> Builder {
        Builder::new()
    }
}

impl From<Settings> for Builder {
    ghost from_gives = { λ settings made. made ≡ settings };

    /// A builder with these settings, of which the depth and the memory for rows change nothing here.
    fn from(settings: Settings) -> Builder {
        Builder { settings }
    }
}

impl Table {
    /// The table of an automaton, for these searches, with its classes of bytes or without.
    fn of(alloc: Global, nfa: &NFA, kind: StartKind, classed: bool) -> Result<Table, BuildError>
        ensures made { IfOk result (IsTableFor nfa.now kind classed) }
        ensures refused { IfErr result (IsTableRefused nfa.now kind classed) }
    {
        let special = nfa.special();
        let classes = classes_of(nfa, classed)?;
        let stride = classes.stride();
        let rows = rows(kind, nfa.state_len());
        check_size(rows, stride)?;
        let numbers = Numbers {
            kind,
            start: special.start_unanchored_id,
            stride,
        };
        let filler = Filler {
            nfa,
            classes: &classes,
            numbers,
        };
        let trans = filler.filled(alloc, rows)?;
        let lists = Lists::of(alloc, nfa)?;
        Ok(Table {
            trans,
            lists,
            stride2: classes.stride2(),
            start: numbers.number(Anchored::No, special.start_unanchored_id),
            start_anchored: numbers.number(Anchored::Yes, special.start_anchored_id),
            max_match: numbers.number(Anchored::Yes, special.max_match_id),
            kind,
            classes,
        })
    }
}

impl Builder {
    /// Standard matches, no byte paired, a prefilter wanted, a start for unanchored searches alone, and bytes in classes. It takes
    /// no memory.
    pub fn new() -> Builder
        ensures { AreDefaultSettings result }
    {
        Builder {
            settings: Settings::new(),
        }
    }

    /// Sets which of several overlapping occurrences is the match.
    pub fn match_kind(&mut self, kind: MatchKind) -> &mut Builder
        ensures same { result.ghost_name ≡ self.entry.ghost_name }
        ensures value { result.now ≡ record self.old { match_kind = kind } }
    {
        self.settings.match_kind = kind;
        self
    }

    /// Sets whether ASCII letters count as the same in their two cases. It sets the whole pairing: of this call and
    /// [`Builder::pairing`] the last one decides.
    pub fn ascii_case_insensitive(&mut self, yes: bool) -> &mut Builder
        ensures same { result.ghost_name ≡ self.entry.ghost_name }
        ensures rest { result.now ≡ record self.old { pairing = result.now.pairing } }
        ensures pairing { IsFolded yes result.now.pairing }
    {
        self.pairing(case_pairing(yes))
    }

    /// Sets which bytes stand for one another. At first none does.
    pub fn pairing(&mut self, pairing: Pairing) -> &mut Builder
        ensures same { result.ghost_name ≡ self.entry.ghost_name }
        ensures value { result.now ≡ record self.old { pairing = pairing } }
    {
        self.settings.pairing = pairing;
        self
    }

    /// Sets whether searches have a prefilter, if one serves. At first they have. It changes no result.
    pub fn prefilter(&mut self, yes: bool) -> &mut Builder
        ensures same { result.ghost_name ≡ self.entry.ghost_name }
        ensures value { result.now ≡ record self.old { prefilter = yes } }
    {
        self.settings.prefilter = yes;
        self
    }

    /// Sets for which searches there is a start. At first it is unanchored ones alone. A search of the other anchoring is refused.
    /// With both the table is about twice as large.
    pub fn start_kind(&mut self, kind: StartKind) -> &mut Builder
        ensures same { result.ghost_name ≡ self.entry.ghost_name }
        ensures value { result.now ≡ record self.old { start_kind = kind } }
    {
        self.settings.start_kind = kind;
        self
    }

    /// Sets whether bytes that lead alike share an entry of each row. At first they do. It changes no result. Without classes a row
    /// has 256 entries, 1 KiB, and a look-up doesn't load the byte's class.
    pub fn byte_classes(&mut self, yes: bool) -> &mut Builder
        ensures same { result.ghost_name ≡ self.entry.ghost_name }
        ensures value { result.now ≡ record self.old { byte_classes = yes } }
    {
        self.settings.byte_classes = yes;
        self
    }

    /// Builds the DFA of a noncontiguous automaton. Of the settings only [`Builder::start_kind`] and [`Builder::byte_classes`]
    /// count; kind, pairing and prefilter are those of the automaton.
    ///
    /// # Errors
    ///
    /// Returns an error if the last row would begin past [`GREATEST`](ac_input::primitives::GREATEST), before it takes any memory,
    /// or if memory runs out; for no other reason.
    ///
    /// # Cost
    ///
    /// Time and memory are in proportion to the table: a row for each state, twice that with both starts. A row takes four bytes
    /// for each class of bytes, rounded up to a power of two of classes: 1 KiB if the patterns have many different bytes. There is
    /// a state for each byte of the patterns that doesn't stand in a beginning which they share. So a hundred patterns of a
    /// thousand bytes may take 100,000 rows, some 100 MB. The limit alone allows a table of 8 GiB: bound the bytes of patterns that
    /// come from a stranger, or take a contiguous automaton.
    pub fn build_from_noncontiguous(&self, alloc: Global, nfa: &NFA) -> Result<DFA, BuildError>
        ensures built { IfOk result (IsDfaOf self.now nfa.now) }
        ensures refused { IfErr result (IsTooLargeOr self.now (dictionary nfa.now) (λ _. ⊥)) }
    {
        let settings = &self.settings;
        let table = Table::of(alloc, nfa, settings.start_kind, settings.byte_classes)?;
        let lens = nfa.pattern_lens().clone(alloc)?;
        let prefilter = clone_prefilter(alloc, nfa.prefilter())?;
        let openings = Openings::clone_any(alloc, nfa.openings())?;
        let mut dfa = DFA::from_parts(
            table,
            lens,
            prefilter,
            openings,
            *nfa.pairing(),
            nfa.match_kind(),
        );
        let lanes = !dfa.skips.pass_many(dfa.lens.len());
        dfa.set_lanes(lanes);
        Ok(dfa)
    }

    /// Builds the DFA of the patterns, which are numbered from 0 in this order.
    ///
    /// It searches fastest of the three, takes the most memory, and is built slowest. There is no condition on the patterns: there
    /// may be none, and they may be empty or equal.
    ///
    /// # Errors
    ///
    /// Returns an error if the noncontiguous automaton can't be built, or if the table would be too large.
    ///
    /// # Cost
    ///
    /// It makes a noncontiguous automaton without rows first, and frees it at the end: until then both take memory. So a build
    /// costs what [that one](ac_noncontiguous::builder) costs and what [`Builder::build_from_noncontiguous`] does, which is far more
    /// where the patterns are long.
    pub fn build(&self, alloc: Global, patterns: &[&[u8]]) -> Result<DFA, BuildError>
        ensures built { IfOk result (IsDfaBuilt self.now patterns.now) }
        ensures refused { IfErr result (IsDfaBuildRefused self.now patterns.now) }
    {
        let nfa = source_of(alloc, self.settings, patterns)?;
        self.build_from_noncontiguous(alloc, &nfa)
    }
}

impl DFA {
    /// Builds the DFA of the patterns by the settings that a builder has at first: standard matches, no byte paired, unanchored
    /// searches.
    ///
    /// Its errors and its cost are those of [`Builder::build`].
    pub fn new(alloc: Global, patterns: &[&[u8]]) -> Result<DFA, BuildError>
        ensures built { IfOk result (λ dfa. ByDefault (λ s. IsDfaBuilt s patterns.now dfa)) }
        ensures refused { IfErr result
            (λ error. ByDefault (λ s. IsDfaBuildRefused s patterns.now error)) }
    {
        Builder::new().build(alloc, patterns)
    }

    /// A builder with the settings that it has at first. It takes no memory.
    pub fn builder() -> Builder
        ensures { AreDefaultSettings result }
    {
        Builder::new()
    }
}
