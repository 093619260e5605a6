//! The noncontiguous automaton.
//!
//! It is the trie of the patterns, with a failure link from each state, for bytes for which the state has no transition: the link
//! leads to the state of the longest proper suffix that may still grow into a match. A search looks at one state for a byte, and
//! at one more for each link that it follows. Each link gives up bytes that were read, so there are at most two looks a byte,
//! amortised. Near the start, where most bytes are read, states keep rows in which the links are followed already: there a byte
//! takes one look.
//!
//! It is the automaton that is built first, fast to build and small. The others are made from it by calls that return for each state
//! where its bytes lead, to which state it fails, and which patterns match there. A state is a number below [`NFA::state_len`].
//!
//! The states are numbered so: 0 is the dead one, which is never left; 1 is the fail state, which stands for no state where a byte
//! leads to none; then come the states that match, the unanchored start and the anchored one, and all others. Where the empty
//! pattern is there, both starts match too.
mod automaton;
pub mod pattern_lens;
pub(crate) mod tables;

ghost use Rattle.std.specs.Prelude.{◌≡◌, ◌+◌, ◌<◌, IfOk, IfSome, List, ℕ};
ghost use Rattle.std.proofs.Props.{props};
ghost use Rattle.ac_automaton.specs.Skip.{last_special_of};
ghost use Rattle.ac_literal.specs.Openings.{AreOpenings};
ghost use Rattle.ac_automaton.specs.Starters.{SkipsBelow};
ghost use Rattle.ac_input.specs.Alphabet.Classes.{AreByteClasses, ClassesLeadAlike};
ghost use Rattle.ac_input.specs.Dictionary.{dictionary_of};
ghost use Rattle.ac_input.specs.Limits.{IsWithinLimits};
ghost use Rattle.ac_input.specs.Pairing.{IsPairing};
ghost use Rattle.ac_noncontiguous.specs.Nfa.{IsHeldFor, AreParts, AreTables};
ghost use Rattle.ac_noncontiguous.specs.Nfa.Lookups.{IsIdle};

use crate::nfa::pattern_lens::PatternLens;
use crate::nfa::tables::{Tables, Transition, slice_from};
use ac_automaton::skip::{Skips, clone_prefilter, last_special};
use ac_input::alphabet::ByteClasses;
use ac_input::pairing::Pairing;
use ac_input::primitives::{PatternID, StateID};
use ac_input::search::{Anchored, MatchKind};
use ac_input::steps::Steps;
use ac_literal::openings::Openings;
use ac_literal::prefilter::Prefilter;
use std::alloc::{AllocError, Global};
use std::marker::Model;
pub use tables::FAIL;

/// A noncontiguous automaton.
#[derive(Drop)]
pub struct NFA {
    tables: Tables,
    skips: Skips,
    lens: PatternLens,
    /// The last state at which a search has more to do than to read on.
    max_special: StateID,
    prefilter: Option<Prefilter>,
    pairing: Pairing,
    kind: MatchKind,
    ghost paired: { IsPairing pairing },
    ghost within: { ∥ IsWithinLimits (dictionary_of lens pairing kind) ∥₁ },
    ghost stands: { ∥ ((text : ℕ → List ℕ) × AreTables (dictionary_of lens pairing kind) text tables) ∥₁ },
    ghost classed: { ∥ AreByteClasses (dictionary_of lens pairing kind) tables.classes ∥₁ },
    ghost special: { max_special ≡ last_special_of prefilter (tables.start + 1) tables.max_match },
    ghost begins: { skips.start ≡ tables.start },
    ghost idle: { ∥ SkipsBelow (IsIdle tables) 256 skips.starters ∥₁ },
    ghost opened: { ∥ IfSome skips.openings (AreOpenings (dictionary_of lens pairing kind)) ∥₁ },
    ghost held: { IsHeldFor (dictionary_of lens pairing kind) prefilter } by { Prim.hlevel props },
}

impl NFA {
    ghost use Rattle.ac_noncontiguous.specs.Nfa.ReadCalls.{IsMadeOf};

    /// The automaton of these tables, patterns and settings.
    pub(crate) fn from_parts(
        tables: Tables,
        lens: PatternLens,
        prefilter: Option<Prefilter>,
        openings: Option<Openings>,
        pairing: Pairing,
        kind: MatchKind,
    ) -> NFA
        requires parts { AreParts (dictionary_of lens pairing kind) tables prefilter }
        requires opened { ∥ IfSome openings (AreOpenings (dictionary_of lens pairing kind)) ∥₁ }
        ensures { IsMadeOf (dictionary_of lens pairing kind) tables prefilter result }
    {
        let start_anchored = StateID::must(tables.start.one_more());
        let max_special = last_special(&prefilter, start_anchored, tables.max_match);
        let skips = Skips {
            start: tables.start,
            openings,
            starters: tables.starters(),
        };
        NFA {
            tables,
            skips,
            lens,
            max_special,
            prefilter,
            pairing,
            kind,
        }
    }
}

/// The numbers between the parts of the states.
#[derive(Clone, Copy, Debug, PartialEq, Eq)]
pub struct Special {
    /// The last state at which a search has more to do than to read on.
    pub max_special_id: StateID,
    /// The last state at which a pattern matches; 1 where there is none.
    pub max_match_id: StateID,
    /// The start of searches that aren't anchored.
    pub start_unanchored_id: StateID,
    /// The start of anchored searches.
    pub start_anchored_id: StateID,
}

/// The remaining patterns of a state. From [`NFA::iter_matches`].
#[derive(Drop)]
pub struct MatchIter<'a> {
    rest: &'a [PatternID],
}

impl<'a> Model for MatchIter<'a> {
    ghost use Rattle.std.specs.Prelude.{ℕ, List};

    ghost Value = { List ℕ };

    ghost view = { λ i. i.rest.now };
}

impl<'a> Iterator for MatchIter<'a> {
    ghost use Rattle.std.specs.Iterator.{YieldsFirst, item_count};

    type Item = PatternID;

    ghost next_gives = { YieldsFirst (λ rest. rest) };

    ghost remaining = { item_count (λ rest. rest) };

    fn next(&mut self) -> Option<PatternID> {
        let (first, rest) = self.rest.split_first()?;
        self.rest = rest;
        Some(*first)
    }
}

/// The remaining transitions of a state, in rising order of byte. From [`NFA::iter_trans`].
#[derive(Drop)]
pub struct TransIter<'a> {
    rest: &'a [Transition],
}

impl<'a> Model for TransIter<'a> {
    ghost use Rattle.std.specs.Prelude.{ℕ, List, map};
    ghost use Rattle.ac_noncontiguous.specs.Nfa.{edge_of};

    ghost Value = { List (ℕ × ℕ) };

    ghost view = { λ i. map edge_of i.rest.now };
}

impl<'a> Iterator for TransIter<'a> {
    ghost use Rattle.std.specs.Iterator.{YieldsFirst, item_count};

    type Item = (u8, StateID);

    ghost next_gives = { YieldsFirst (λ rest. rest) };

    ghost remaining = { item_count (λ rest. rest) };

    fn next(&mut self) -> Option<(u8, StateID)> {
        let (first, rest) = self.rest.split_first()?;
        self.rest = rest;
        Some((first.byte, first.next))
    }
}

impl NFA {
    ghost use Rattle.ac_noncontiguous.specs.Nfa.Reads.{built_as, dictionary, matches_at};
    ghost use Rattle.ac_noncontiguous.specs.Nfa.ReadCalls.{state_len, fail_in, depth_in, edges_in, classes_in, special_in, CountsIn, FailsIn, IsDeepIn, ListsIn, MayBeMet, LeadsIn, TextsBegin, AreRead, IsReadable, IsCopy, AreEdges, AreBounds, AreOrdered, OfTexts};

    /// How many states there are.
    pub fn state_len(&self) -> usize
        ensures value { result ≡ state_len self.now }
        ensures counted { CountsIn self.now result }
    {
        self.tables.states.len() - 1
    }

    /// The failure of the state, where a byte is looked up that leads nowhere from the state itself.
    pub fn fail(&self, sid: StateID) -> StateID
        requires { sid < state_len self.now }
        ensures value { result ≡ fail_in self.now sid }
        ensures fails { FailsIn self.now sid result }
    {
        self.tables.states[sid.as_usize()].fail
    }

    /// How many bytes lead to the state from a start.
    pub fn depth(&self, sid: StateID) -> usize
        requires { sid < state_len self.now }
        ensures value { result ≡ depth_in self.now sid }
        ensures deep { IsDeepIn self.now sid result }
    {
        self.tables.states[sid.as_usize()].depth as usize
    }

    /// The patterns that match at the state.
    pub fn match_list(&self, sid: StateID) -> &[PatternID]
        requires { sid < state_len self.now }
        ensures value { result.now ≡ matches_at self.now sid }
        ensures lists { ListsIn self.now sid result.now }
    {
        let state = &self.tables.states[sid.as_usize()];
        slice_from(
            &self.tables.matches,
            state.matches,
            state.matches_len as usize,
        )
    }

    /// The patterns that match at the state, one after another.
    pub fn iter_matches(&self, sid: StateID) -> MatchIter<'_>
        requires { sid < state_len self.now }
        ensures value { result ≡ matches_at self.now sid }
        ensures lists { ListsIn self.now sid result }
    {
        MatchIter {
            rest: self.match_list(sid),
        }
    }

    /// The transitions of the state, in rising order of byte.
    pub fn iter_trans(&self, sid: StateID) -> TransIter<'_>
        requires { sid < state_len self.now }
        ensures value { result ≡ edges_in self.now sid }
        ensures lead { AreEdges self.now sid (edges_in self.now sid) }
    {
        let at = sid.as_usize();
        let from = self.tables.states[at].transitions;
        let end = self.tables.states[at + 1].transitions;
        TransIter {
            rest: slice_from(&self.tables.transitions, from, end - from),
        }
    }

    /// The classes of the bytes: each byte of an entered pattern, and its partner, is one alone; other bytes share one with their
    /// neighbours.
    pub fn byte_classes(&self) -> &ByteClasses
        ensures value { result.now ≡ classes_in self.now }
        ensures classes { ∥ AreByteClasses (dictionary self.now) (classes_in self.now) ∥₁ }
        ensures alike { ClassesLeadAlike (dictionary self.now) (classes_in self.now) }
    {
        &self.tables.classes
    }

    /// The numbers between the parts of the states.
    ///
    /// Another automaton is made from this one by them first. So this call also promises what the others do, of every state at once.
    pub fn special(&self) -> Special
        ensures value { result ≡ special_in self.now }
        ensures order { OfTexts self.now (λ text. AreBounds self.now text result) }
        ensures whole { IsReadable self.now }
    {
        Special {
            max_special_id: self.max_special,
            max_match_id: self.tables.max_match,
            start_unanchored_id: self.tables.start,
            start_anchored_id: StateID::must(self.tables.start.one_more()),
        }
    }

    /// The state to which a byte leads from a state, where the search began with this anchoring: all failures are followed.
    ///
    /// It gives the step of a search from any state that a search may reach, the dead one included. It counts nothing.
    pub fn lead(&self, anchored: Anchored, sid: StateID, byte: u8) -> StateID
        requires { MayBeMet self.now anchored sid }
        ensures { LeadsIn self.now anchored sid byte result }
    {
        let mut steps = Steps::new();
        self.tables.next(anchored, sid, byte, &mut steps)
    }

    /// Each state from 2 on stands for a text: canonical bytes that begin an entered pattern. State 1 stands for none.
    pub fn states_stand(&self)
        ensures some { ∥ ((text : ℕ → List ℕ) × AreTables (dictionary self.now) text self.now.tables) ∥₁ }
        ensures begin { TextsBegin self.now }
        ensures within { ∥ IsWithinLimits (dictionary self.now) ∥₁ }
    {}

    /// Which states are read by searches: those from 2 on by their own texts, and the dead one by dead texts.
    pub fn states_are_read(&self)
        ensures { AreRead self.now }
    {}

    /// In which order the states come.
    pub fn states_are_ordered(&self)
        ensures { OfTexts self.now (AreOrdered self.now) }
    {}

    /// How long the patterns are.
    pub fn pattern_lens(&self) -> &PatternLens
        ensures { result.now ≡ (built_as self.now).dictionary.patterns }
    {
        &self.lens
    }

    /// Which bytes stand for one another.
    pub fn pairing(&self) -> &Pairing
        ensures value { result.now ≡ (built_as self.now).dictionary.pairing }
        ensures paired { IsPairing result.now }
    {
        &self.pairing
    }

    /// Where a pattern may begin, by its first bytes or by sampled grams; none where the patterns are too many or too short for either.
    pub fn openings(&self) -> &Option<Openings>
        ensures { ∥ IfSome result.now (AreOpenings (built_as self.now).dictionary) ∥₁ }
    {
        &self.skips.openings
    }

    /// A copy of the automaton, in memory from `alloc`.
    pub fn clone(&self, alloc: Global) -> Result<NFA, AllocError>
        ensures { IfOk result (IsCopy self.now) }
    {
        let prefilter = clone_prefilter(alloc, self.prefilter.as_ref())?;
        let lens = self.lens.clone(alloc)?;
        let tables = self.tables.clone(alloc)?;
        let openings = Openings::clone_any(alloc, &self.skips.openings)?;
        Ok(NFA::from_parts(tables, lens, prefilter, openings, self.pairing, self.kind))
    }

    /// How many bytes of memory it takes, besides itself.
    pub(crate) fn memory_of_parts(&self) -> usize {
        self.tables
            .memory_usage()
            .saturating_add(self.lens.memory_usage())
            .saturating_add(self.skips.memory_usage())
            .saturating_add(match &self.prefilter {
                Some(prefilter) => prefilter.memory_usage(),
                None => 0,
            })
    }
}
