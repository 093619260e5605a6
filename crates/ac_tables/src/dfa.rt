//! The DFA.
//!
//! It is the noncontiguous automaton with all failures followed beforehand: for each state and each class of bytes a table has the
//! next state. So a search looks at one state for a byte, and a look-up is the byte's class, one addition and one load. It is the
//! fastest automaton, takes the most memory, and takes longest to build.
//!
//! The rows stand in one vector, one after another. Each is as long as the least power of two that is enough for the classes, the
//! stride. The number of a state is where its row begins. The rows come in the order of the noncontiguous automaton: the dead
//! state, the fail state, the states that match, the unanchored start, the anchored start, the others. So one comparison of
//! numbers decides whether a search has more to do at a state than to read on.
//!
//! Of the patterns `b`, `abc` and `abcd` there are 9 states and 6 classes: one for each of `a`, `b`, `c` and `d`, one for the bytes
//! before them and one for those after them. The stride is 8, and the table has 72 entries. Of each row the last two are never
//! read, and no search comes to the fail state or to the start of the other anchoring:
//!
//! ```text
//! number  state             before   a   b   c   d  after
//!      0  dead                   0   0   0   0   0      0
//!      8  fail
//!     16  b                     48  64  16  48  48     48  matches b
//!     24  ab                    48  64  16  32  48     48  matches b
//!     32  abc                   48  64  16  48  40     48  matches abc
//!     40  abcd                  48  64  16  48  48     48  matches abcd
//!     48  unanchored start      48  64  16  48  48     48
//!     56  anchored start
//!     64  a                     48  64  24  48  48     48
//! ```
//!
//! With both start kinds each state has two rows, one after the other, but for the first two states and the starts: 14 rows, 112
//! entries. The second is for anchored searches; there a byte that leads to no longer state leads to the dead one. Where bytes
//! aren't put into classes a row has 256 entries, and the 9 states have 2304.
//!
//! A build takes time and memory in proportion to the table. It fails, before it takes any, if the last row would begin past the
//! greatest number of a state.
mod automaton;
pub mod builder;
pub(crate) mod fill;
mod lists;
pub(crate) mod numbers;
mod table;

ghost use Rattle.std.specs.Prelude.{◌≡◌, false, IfOk, IfSome};
ghost use Rattle.std.proofs.Props.{props};
ghost use Rattle.ac_input.specs.Dictionary.{dictionary_of};
ghost use Rattle.ac_input.specs.Pairing.{IsPairing};
ghost use Rattle.ac_noncontiguous.specs.Nfa.{IsHeldFor};
ghost use Rattle.ac_automaton.specs.Skip.{last_special_of};
ghost use Rattle.ac_literal.specs.Openings.{AreOpenings};
ghost use Rattle.ac_automaton.specs.Starters.{SkipsBelow};
ghost use Rattle.ac_tables.specs.Dfa.Lookups.{IsIdleIn};
ghost use Rattle.ac_tables.specs.Dfa.Table.{AreDfaParts, AreDfaRows, stride_of};
ghost use Rattle.ac_tables.specs.Source.{ShareClasses};
ghost use Rattle.ac_automaton.specs.Named.{Naming};

use crate::dfa::table::Table;
use crate::source::unused;
use ac_automaton::skip::{Skips, clone_prefilter, last_special};
use ac_input::alphabet::ByteSet;
use ac_input::pairing::Pairing;
use ac_input::primitives::StateID;
use ac_input::search::{MatchKind, StartKind};
use ac_literal::openings::Openings;
use ac_literal::prefilter::Prefilter;
use ac_noncontiguous::nfa::pattern_lens::PatternLens;
pub use builder::Builder;
use std::alloc::{AllocError, Global};

/// A deterministic automaton.
#[derive(Drop)]
pub struct DFA {
    table: Table,
    skips: Skips,
    lens: PatternLens,
    /// The last state at which a search has more to do than to read on.
    max_special: StateID,
    /// Bytes that no pattern has; each shares its class with another.
    unused: ByteSet,
    /// Whether it reads ahead of a search.
    lanes: bool,
    prefilter: Option<Prefilter>,
    pairing: Pairing,
    kind: MatchKind,
    ghost paired: { IsPairing pairing },
    ghost shared: { ∥ ShareClasses table.classes unused ∥₁ },
    ghost stands: { ∥ ((names : Naming) × AreDfaRows (dictionary_of lens pairing kind) table names) ∥₁ },
    ghost special: { max_special ≡ last_special_of prefilter table.start_anchored table.max_match },
    ghost begins: { skips.start ≡ table.start },
    ghost idle: { ∥ SkipsBelow (IsIdleIn table) 256 skips.starters ∥₁ },
    ghost opened: { ∥ IfSome skips.openings (AreOpenings (dictionary_of lens pairing kind)) ∥₁ },
    ghost held: { IsHeldFor (dictionary_of lens pairing kind) prefilter } by { Prim.hlevel props },
}

impl DFA {
    ghost use Rattle.ac_tables.specs.Dfa.Builder.{IsDfaCopy, states_in};
    ghost use Rattle.ac_tables.specs.Dfa.Reads.{IsDfaMadeOf, dfa_dictionary};

    /// The automaton of this table, these patterns and settings.
    pub(crate) fn from_parts(
        table: Table,
        lens: PatternLens,
        prefilter: Option<Prefilter>,
        openings: Option<Openings>,
        pairing: Pairing,
        kind: MatchKind,
    ) -> DFA
        requires parts { AreDfaParts (dictionary_of lens pairing kind) table prefilter }
        requires opened { ∥ IfSome openings (AreOpenings (dictionary_of lens pairing kind)) ∥₁ }
        ensures { IsDfaMadeOf (dictionary_of lens pairing kind) table prefilter false result }
    {
        let max_special = last_special(&prefilter, table.start_anchored, table.max_match);
        let skips = Skips {
            start: table.start,
            openings,
            starters: table.starters(),
        };
        let unused = unused(&table.classes);
        DFA {
            table,
            skips,
            lens,
            max_special,
            unused,
            lanes: false,
            prefilter,
            pairing,
            kind,
        }
    }

    /// Sets whether it reads ahead of a search.
    fn set_lanes(&mut self, lanes: bool)
        ensures { IsDfaMadeOf (dfa_dictionary self.old) self.old.table self.old.prefilter lanes self.new }
    {
        self.lanes = lanes;
    }

    /// The next states, a row for each state, and in it an entry for each class of bytes.
    pub fn transitions(&self) -> &[StateID]
        ensures { result.now ≡ self.now.table.trans.items }
    {
        &self.table.trans
    }

    /// How many entries a row has: the least power of two that is enough for the classes.
    pub fn stride(&self) -> usize
        ensures { result ≡ stride_of self.now.table }
    {
        1 << self.table.stride2
    }

    /// How many rows there are.
    pub fn state_len(&self) -> usize
        ensures { result ≡ states_in self.now }
    {
        self.table.trans.len() >> self.table.stride2
    }

    /// For which searches there is a start.
    pub fn start_kind(&self) -> StartKind
        ensures { result ≡ self.now.table.kind }
    {
        self.table.kind
    }

    /// A copy of the automaton, in memory from `alloc`.
    pub fn clone(&self, alloc: Global) -> Result<DFA, AllocError>
        ensures { IfOk result (IsDfaCopy self.now) }
    {
        let table = self.table.clone(alloc)?;
        let lens = self.lens.clone(alloc)?;
        let prefilter = clone_prefilter(alloc, self.prefilter.as_ref())?;
        let openings = Openings::clone_any(alloc, &self.skips.openings)?;
        let mut copy = DFA::from_parts(table, lens, prefilter, openings, self.pairing, self.kind);
        copy.set_lanes(self.lanes);
        Ok(copy)
    }
}
