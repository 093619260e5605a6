//! The contiguous automaton: all states in one vector of 32-bit words.
//!
//! It has the states of the noncontiguous automaton, and follows failures as that one does. But a state is a few neighbouring words,
//! and its number is the place of the first of them. So a look-up reads one or two lines of the cache, and the whole takes about
//! half the memory. A DFA is faster still, and takes many times as much.
//!
//! Where they take little memory, there are rows beside the words, as those of a DFA: all failures are followed beforehand. A search
//! that isn't anchored reads on by them, and is about as fast as by a DFA. How much memory they may take is a setting of the
//! [builder](Builder::row_memory). Where rows for all states would take more, states near the start alone may have some, since a search
//! spends most of its time there. Rows change no result and no number of a state.
//!
//! The words of a state are, in this order:
//!
//! - Its kind, in the low eight bits. It is 255 if the state has an entry for each class of bytes, and 254 if it has a single
//!   transition and no pattern; the class of that one stands in the next eight bits. Otherwise it says how many transitions
//!   there are.
//! - The state to which it fails.
//! - Its transitions. With an entry for each class: the next states, 1 where a class leads nowhere. A single one: the next state. Else
//!   their classes, four in a word from the lowest bits up, where the last class fills the last word; and then the next states.
//! - Its patterns, if some match: of one its number with the highest bit set, of several how many there are and then their numbers.
//!
//! The states nearest to the start have an entry for each class, since a search spends most of its time there.
//!
//! The patterns `b`, `abc` and `abcd` have six classes: the bytes below `a`, then `a`, `b`, `c` and `d`, and those above. Their words:
//!
//! ```text
//! state           place  kind  fail  transitions       patterns
//! dead                0   255     0  0 0 0 0 0 0
//! b                   8   255    30  1 1 1 1 1 1       2147483648
//! ab                 17     1     8  50529027 22       2147483648
//! abc                22     1    30  67372036 27       2147483649
//! abcd               27     0    30                    2147483650
//! start              30   255     0  30 46 8 30 30 30
//! anchored start     38   255     0  1 46 8 1 1 1
//! a                  46   255    30  1 1 17 1 1 1
//! ```
//!
//! In the start class 1, that of `a`, leads to the state at 46, and class 2 from there to the one at 17. That state matches `b`.
//! It has one transition: 50529027 is four times class 3, so `c` leads on to 22. Any other byte is looked up at its failure, the
//! state at 8.
mod automaton;
pub mod builder;
mod by_near;
mod by_rows;
mod copies;
mod filled;
mod layout;
mod near;
mod places;
mod reads;
mod rows;
mod states;
mod table;
mod words;

ghost use Rattle.std.specs.Prelude.{◌≡◌, None, IfSome, IsTrue, is_some};
ghost use Rattle.std.proofs.Props.{props};
ghost use Rattle.ac_input.specs.Dictionary.{dictionary_of};
ghost use Rattle.ac_input.specs.Limits.{IsWithinLimits};
ghost use Rattle.ac_input.specs.Pairing.{IsPairing};
ghost use Rattle.ac_noncontiguous.specs.Nfa.{IsHeldFor};
ghost use Rattle.ac_automaton.specs.Skip.{last_special_of};
ghost use Rattle.ac_literal.specs.Openings.{AreOpenings};
ghost use Rattle.ac_automaton.specs.Starters.{SkipsBelow};
ghost use Rattle.ac_tables.specs.Contiguous.Near.{AreNearRows};
ghost use Rattle.ac_tables.specs.Contiguous.Table.{AreSomeStates, AreContiguousParts};
ghost use Rattle.ac_tables.specs.Contiguous.WordReads.{IsIdleAt};
ghost use Rattle.ac_tables.specs.Source.{ShareClasses};

use crate::contiguous::rows::Rows;
use crate::contiguous::table::Table;
use crate::source::unused;
use ac_automaton::skip::{Skips, last_special};
use ac_input::alphabet::ByteSet;
use ac_input::pairing::Pairing;
use ac_input::primitives::StateID;
use ac_input::search::MatchKind;
use ac_literal::openings::Openings;
use ac_literal::prefilter::Prefilter;
use ac_noncontiguous::nfa::pattern_lens::PatternLens;
pub use builder::Builder;

/// A contiguous automaton.
#[derive(Drop)]
pub struct NFA {
    table: Table,
    /// Where each byte leads, all failures followed, if the rows are small enough.
    rows: Option<Rows>,
    /// The same for the states near the start, if the rows of all states aren't small enough.
    near: Option<Rows>,
    skips: Skips,
    lens: PatternLens,
    /// The last state at which a search has more to do than to read on.
    max_special: StateID,
    /// Bytes that no pattern has; each shares its class with another.
    unused: ByteSet,
    /// Whether it reads ahead of a search.
    lanes: bool,
    prefilter: Option<Prefilter>,
    pairing: Pairing,
    kind: MatchKind,
    ghost paired: { IsPairing pairing },
    ghost shared: { ∥ ShareClasses table.classes unused ∥₁ },
    ghost within: { ∥ IsWithinLimits (dictionary_of lens pairing kind) ∥₁ },
    ghost stands: { AreSomeStates (dictionary_of lens pairing kind) table rows },
    ghost near_lead: { ∥ IfSome near (AreNearRows (dictionary_of lens pairing kind) table) ∥₁ },
    ghost begins: { skips.start ≡ table.start },
    ghost idle: { ∥ SkipsBelow (IsIdleAt table) 256 skips.starters ∥₁ },
    ghost special: { max_special ≡ last_special_of prefilter table.start_anchored table.max_match },
    ghost opened: { ∥ IfSome skips.openings (AreOpenings (dictionary_of lens pairing kind)) ∥₁ },
    ghost held: { IsHeldFor (dictionary_of lens pairing kind) prefilter } by { Prim.hlevel props },
}

impl NFA {
    ghost use Rattle.ac_tables.specs.Contiguous.Reads.{IsContiguousMadeOf, contiguous_dictionary};

    /// The automaton of these words, rows, patterns and settings.
    pub(crate) fn from_parts(
        table: Table,
        rows: Option<Rows>,
        lens: PatternLens,
        prefilter: Option<Prefilter>,
        openings: Option<Openings>,
        pairing: Pairing,
        kind: MatchKind,
    ) -> NFA
        requires parts { AreContiguousParts (dictionary_of lens pairing kind) table rows prefilter }
        requires opened { ∥ IfSome openings (AreOpenings (dictionary_of lens pairing kind)) ∥₁ }
        ensures made { IsContiguousMadeOf (dictionary_of lens pairing kind) table rows prefilter result }
        ensures alone { result.near ≡ None }
    {
        let max_special = last_special(&prefilter, table.start_anchored, table.max_match);
        let skips = Skips {
            start: table.start,
            openings,
            starters: table.starters(),
        };
        let unused = unused(&table.classes);
        NFA {
            table,
            rows,
            near: None,
            skips,
            lens,
            max_special,
            unused,
            lanes: false,
            prefilter,
            pairing,
            kind,
        }
    }

    /// Sets whether it reads ahead of a search.
    fn set_lanes(&mut self, lanes: bool)
        ensures made { IsContiguousMadeOf (contiguous_dictionary self.old) self.old.table self.old.rows self.old.prefilter
            self.new }
        ensures value { self.new.lanes ≡ lanes }
        ensures near { self.new.near ≡ self.old.near }
    {
        self.lanes = lanes;
    }

    /// Whether it pays to read ahead: there are rows for all states, and nothing passes bytes faster than several walks read them.
    fn pays_for_lanes(&self) -> bool
        ensures { IsTrue result → IsTrue (is_some self.now.rows) }
    {
        self.rows.is_some() && !self.skips.pass_many(self.lens.len())
    }
}
