//! How a contiguous automaton is built: the settings, and the build.
//!
//! It is made from a noncontiguous automaton, state by state: first all places are found, then the words are written with their
//! final numbers. It takes time and memory in proportion to the transitions and lists of that automaton, and `alphabet_len` words
//! more for each dense state. Rows beside them take what the rows of a DFA do, and are made only where that is little.
ghost use Rattle.std.specs.Prelude.{◌≡◌, Some, IfOk, IfErr, Bool};
ghost use Rattle.ac_input.specs.Pairing.{IsFolded};
ghost use Rattle.ac_noncontiguous.specs.Builder.{AreDefaultSettings, ByDefault};
ghost use Rattle.ac_noncontiguous.specs.Nfa.Reads.{dictionary};
ghost use Rattle.ac_tables.specs.Contiguous.Build.{IsRefusedFor};
ghost use Rattle.ac_tables.specs.Contiguous.Builder.{IsLaidOf, IsMadeFrom, IsRefusedFrom, IsContiguousBuilt, IsContiguousBuildRefused};
ghost use Rattle.ac_tables.specs.Source.{AreServing, AreClassesFor};

use crate::contiguous::NFA;
use crate::contiguous::filled::rows_of;
use crate::contiguous::places::lay_out;
use crate::contiguous::rows::Rows;
use crate::contiguous::states::words;
use crate::contiguous::table::Table;
use crate::source::{classes_of, source_of};
use ac_automaton::automaton::Automaton;
use ac_automaton::skip::clone_prefilter;
use ac_input::alphabet::ByteClasses;
use ac_input::pairing::Pairing;
use ac_input::search::MatchKind;
use ac_literal::openings::Openings;
use ac_noncontiguous::error::BuildError;
use ac_noncontiguous::nfa;
pub use ac_noncontiguous::settings::ROW_MEMORY;
use ac_noncontiguous::settings::{Settings, case_pairing};
use std::alloc::Global;
use std::marker::Model;

/// To which depth states are dense where nothing else is set: the starts, and those of one byte.
const DENSE_DEPTH: usize = 2;

/// Which part of the memory for rows those of the states near the start may take, where rows for all states would take too much.
const NEAR_PART: usize = 2;

/// The words of an automaton, and its rows, if there are any.
#[derive(Drop)]
struct Laid {
    table: Table,
    rows: Option<Rows>,
}

/// The words and the rows of the automaton. States less deep than this depth are dense, and rows take at most so many bytes.
fn lay(
    alloc: Global,
    nfa: &nfa::NFA,
    dense_depth: usize,
    row_memory: usize,
    classes: ByteClasses,
) -> Result<Laid, BuildError>
    requires chosen { (classed : Bool) × AreClassesFor nfa.now classed classes }
    requires serve { AreServing (dictionary nfa.now) classes }
    ensures made { IfOk result (IsLaidOf nfa.now dense_depth row_memory classes) }
    ensures refused { IfErr result (IsRefusedFor nfa.now dense_depth classes) }
{
    let special = nfa.special();
    let layout = lay_out(alloc, nfa, dense_depth, &classes)?;
    let words = words(
        alloc,
        nfa,
        dense_depth,
        &classes,
        &layout.places,
        layout.words_len,
    )?;
    let start = layout.places[special.start_unanchored_id.as_usize()];
    let start_anchored = layout.places[special.start_anchored_id.as_usize()];
    let max_match = layout.places[special.max_match_id.as_usize()];
    let rows = rows_of(alloc, nfa, &classes, layout.places, row_memory)?;
    let table = Table {
        alphabet_len: classes.alphabet_len(),
        start,
        start_anchored,
        max_match,
        words,
        classes,
    };
    Ok(Laid { table, rows })
}

/// The settings of a contiguous automaton. A builder may build several times.
///
/// ```text
/// let mut builder = Builder::new();
/// builder.match_kind(MatchKind::LeftmostFirst).dense_depth(3);
/// let nfa = builder.build(alloc, &[b"fox", b"dog"])?;
/// ```
#[derive(Clone, Drop)]
pub struct Builder {
    settings: Settings,
}

impl Model for Builder {
    ghost use Rattle.ac_noncontiguous.specs.declared.settings.Settings.{Settings};

    ghost Value = { Settings };

    ghost view = { λ b. b.settings };

    ghost inverse = { λ s. record { settings = s } };
}

impl Default for Builder {
    ghost use Rattle.ac_noncontiguous.specs.Builder.{AreDefaultSettings};

    ghost is_default = { AreDefaultSettings };

    fn default() -> Builder {
        Builder::new()
    }
}

impl From<Settings> for Builder {
    ghost from_gives = { λ settings made. made ≡ settings };

    /// A builder with these settings, of which the start kind changes nothing here.
    fn from(settings: Settings) -> Builder {
        Builder { settings }
    }
}

impl Builder {
    /// Standard matches, no byte paired, a prefilter wanted, dense states of less than two bytes, and bytes put into classes. It
    /// takes no memory.
    pub fn new() -> Builder
        ensures { AreDefaultSettings result }
    {
        Builder {
            settings: Settings::new(),
        }
    }

    /// Sets which of several overlapping occurrences is the match.
    pub fn match_kind(&mut self, kind: MatchKind) -> &mut Builder
        ensures same { result.ghost_name ≡ self.entry.ghost_name }
        ensures value { result.now ≡ record self.old { match_kind = kind } }
    {
        self.settings.match_kind = kind;
        self
    }

    /// Sets whether ASCII letters count as the same in their two cases. It sets the whole pairing: of this call and
    /// [`Builder::pairing`] the last one decides.
    pub fn ascii_case_insensitive(&mut self, yes: bool) -> &mut Builder
        ensures same { result.ghost_name ≡ self.entry.ghost_name }
        ensures rest { result.now ≡ record self.old { pairing = result.now.pairing } }
        ensures pairing { IsFolded yes result.now.pairing }
    {
        self.pairing(case_pairing(yes))
    }

    /// Sets which bytes stand for one another. At first none does.
    pub fn pairing(&mut self, pairing: Pairing) -> &mut Builder
        ensures same { result.ghost_name ≡ self.entry.ghost_name }
        ensures value { result.now ≡ record self.old { pairing = pairing } }
    {
        self.settings.pairing = pairing;
        self
    }

    /// Sets whether searches have a prefilter, if one serves. At first they have. It changes no result.
    pub fn prefilter(&mut self, yes: bool) -> &mut Builder
        ensures same { result.ghost_name ≡ self.entry.ghost_name }
        ensures value { result.now ≡ record self.old { prefilter = yes } }
    {
        self.settings.prefilter = yes;
        self
    }

    /// Sets to which depth states are dense: those to which fewer bytes lead. At first it is 2.
    ///
    /// It changes no result. A dense state has an entry of four bytes for each class of bytes, so that a look-up there takes two
    /// loads. Any depth is accepted. A great one makes nearly all states dense: then the automaton is about as large as a DFA,
    /// and its build may fail as that of a DFA does.
    pub fn dense_depth(&mut self, depth: usize) -> &mut Builder
        ensures same { result.ghost_name ≡ self.entry.ghost_name }
        ensures value { result.now ≡ record self.old { dense_depth = Some depth } }
    {
        self.settings.dense_depth = Some(depth);
        self
    }

    /// Sets whether bytes that no state distinguishes are put into one class. At first they are. It changes no result. Without
    /// classes a dense state has 256 entries, 1 KiB.
    pub fn byte_classes(&mut self, yes: bool) -> &mut Builder
        ensures same { result.ghost_name ≡ self.entry.ghost_name }
        ensures value { result.now ≡ record self.old { byte_classes = yes } }
    {
        self.settings.byte_classes = yes;
        self
    }

    /// Sets how many bytes of memory rows may take. At first it is [`ROW_MEMORY`], 16 MiB; 0 is for none.
    ///
    /// It changes no result. With rows an unanchored search looks at one state for a byte, as a DFA does, and is about as fast. There
    /// are rows for all states exactly if they take no more than this, and have at most 2147483646 entries. They take four bytes for
    /// each state, for each state and each class of bytes, rounded up to a power of two of classes, and for every four words. Else
    /// states near the start may have rows, to a depth of 16 and in half of this memory at most: a search looks at one state for a
    /// byte there.
    pub fn row_memory(&mut self, bytes: usize) -> &mut Builder
        ensures same { result.ghost_name ≡ self.entry.ghost_name }
        ensures value { result.now ≡ record self.old { row_memory = bytes } }
    {
        self.settings.row_memory = bytes;
        self
    }

    /// Builds the contiguous automaton that finds what this one finds, and has its prefilter.
    ///
    /// Of the settings only [`Builder::dense_depth`], [`Builder::byte_classes`] and [`Builder::row_memory`] count here.
    ///
    /// # Errors
    ///
    /// Returns an error if the first word of a state would be past the greatest number, before memory for the words is taken, or
    /// if memory runs out; for no other reason.
    ///
    /// # Cost
    ///
    /// Time and memory are in proportion to the words. A state takes two words of four bytes, and one for each pattern that
    /// matches. A sparse state takes five more bytes for each transition, rounded up to whole words; a dense one a word for each
    /// class. Before the words, the places of all states are laid out, four bytes each, and freed at the end.
    pub fn build_from_noncontiguous(&self, alloc: Global, nfa: &nfa::NFA) -> Result<NFA, BuildError>
        ensures made { IfOk result (IsMadeFrom self.now nfa.now) }
        ensures refused { IfErr result (IsRefusedFrom self.now nfa.now) }
    {
        let settings = &self.settings;
        let classes = classes_of(nfa, settings.byte_classes)?;
        let pairing = *nfa.pairing();
        let dense_depth = settings.dense_depth.unwrap_or(DENSE_DEPTH);
        let laid = lay(alloc, nfa, dense_depth, settings.row_memory, classes)?;
        let lens = nfa.pattern_lens().clone(alloc)?;
        let prefilter = clone_prefilter(alloc, nfa.prefilter())?;
        let openings = Openings::clone_any(alloc, nfa.openings())?;
        let kind = nfa.match_kind();
        let mut made = NFA::from_parts(
            laid.table, laid.rows, lens, prefilter, openings, pairing, kind,
        );
        made.add_near(alloc, settings.row_memory / NEAR_PART)?;
        let lanes = made.pays_for_lanes();
        made.set_lanes(lanes);
        Ok(made)
    }

    /// Builds the automaton of the patterns, which are numbered from 0 in this order.
    ///
    /// It takes the least memory of the three. There is no condition on the patterns: there may be none, and they may be empty or
    /// equal.
    ///
    /// # Errors
    ///
    /// Returns an error if a noncontiguous automaton of the patterns can't be built, or if the first word of a state would be past
    /// the greatest number.
    ///
    /// # Cost
    ///
    /// It makes a noncontiguous automaton without rows first, and frees it at the end: until then both take memory. So a build
    /// costs what [that one](ac_noncontiguous::builder) costs and what [`Builder::build_from_noncontiguous`] does.
    pub fn build(&self, alloc: Global, patterns: &[&[u8]]) -> Result<NFA, BuildError>
        ensures built { IfOk result (IsContiguousBuilt self.now patterns.now) }
        ensures refused { IfErr result (IsContiguousBuildRefused self.now patterns.now) }
    {
        let nfa = source_of(alloc, self.settings, patterns)?;
        self.build_from_noncontiguous(alloc, &nfa)
    }
}

impl NFA {
    /// Builds the automaton of the patterns by the settings that a builder has at first: standard matches, no byte paired.
    ///
    /// Its errors and its cost are those of [`Builder::build`].
    pub fn new(alloc: Global, patterns: &[&[u8]]) -> Result<NFA, BuildError>
        ensures built { IfOk result (λ nfa. ByDefault (λ s. IsContiguousBuilt s patterns.now nfa)) }
        ensures refused { IfErr result
            (λ error. ByDefault (λ s. IsContiguousBuildRefused s patterns.now error)) }
    {
        Builder::new().build(alloc, patterns)
    }

    /// A builder with the settings that it has at first. It takes no memory.
    pub fn builder() -> Builder
        ensures { AreDefaultSettings result }
    {
        Builder::new()
    }

    /// The words, one state after another. See [the module](crate::contiguous) for how they are laid out.
    pub fn words(&self) -> &[u32]
        ensures { result.now ≡ self.now.table.words.items }
    {
        &self.table.words
    }
}
