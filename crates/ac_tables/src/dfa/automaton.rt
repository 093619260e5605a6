//! Searching with the DFA.
//!
//! Nearly all the time goes into one loop: the class of a byte, an addition, a load, and one comparison for all states at which there
//! is more to do than to read on. Where each byte is a class of its own, no class is loaded. An anchored search runs the same loop:
//! its start leads to rows of its own. Where the patterns are few, a search that stands in the start finds the next place at which one
//! may begin by its first bytes; where few bytes lead out of the start, it finds the next of these by `memchr`. Elsewhere a search
//! of a stream reads four parts of its bytes side by side.
ghost use Rattle.std.specs.Prelude.{[], ◌∷◌, IsTrue};
ghost use Rattle.ac_automaton.specs.Automaton.{IsReached, Leads, IsReadCost};
ghost use Rattle.ac_tables.specs.Dfa.Lookups.{ArePlain};
ghost use Rattle.ac_tables.specs.Dfa.Reads.{dfa_built_as, IsDfaRead};

use crate::dfa::DFA;
use crate::rows::is_plain;
use ac_automaton::ahead::{Note, Noted};
use ac_automaton::automaton::{Advance, Automaton};
use ac_automaton::error::MatchError;
use ac_automaton::lanes;
use ac_automaton::look::{Between, LookUp};
use ac_automaton::search::Search;
use ac_input::primitives::{PatternID, StateID};
use ac_input::search::{Anchored, MatchKind};
use ac_input::steps::Steps;
use ac_literal::prefilter::Prefilter;

impl DFA {
    /// The state after one more byte; it counts one look. Where each byte is a class of its own, a caller may say so.
    #[inline]
    fn step(
        &self,
        plain: bool,
        anchored: Anchored,
        sid: StateID,
        byte: u8,
        steps: &mut Steps,
    ) -> StateID
        requires reached { IsReached (IsDfaRead self.now anchored) sid }
        requires plain { IsTrue plain → ArePlain self.now.table.classes }
        ensures next { Leads (IsDfaRead self.now anchored) sid (byte ∷ []) result }
        ensures cost { IsReadCost (dfa_built_as self.now) (IsDfaRead self.now) anchored sid (byte ∷ []) steps.old steps.new }
    {
        steps.look();
        self.table.next(plain, sid, byte)
    }
}

impl LookUp for DFA {
    ghost use Rattle.ac_tables.specs.Dfa.Reads.{dfa_built_as, IsDfaRead, dfa_matches_at};

    ghost built = { dfa_built_as };

    ghost Reaches = { IsDfaRead };

    ghost matches = { dfa_matches_at };

    ghost tells = { λ dfa anchored text sid reads. reads.tells };

    #[inline(always)]
    fn look_up(&self, anchored: Anchored, sid: StateID, byte: u8, steps: &mut Steps) -> StateID {
        self.step(false, anchored, sid, byte, steps)
    }

    #[inline(always)]
    fn read_until(
        &self,
        anchored: Anchored,
        sid: StateID,
        bytes: &[u8],
        to: Between,
        steps: &mut Steps,
    ) -> Advance {
        let plain = is_plain(&self.table.classes);
        let mut current = sid;
        for (read, byte) in bytes.iter().enumerate() {
            current = self.step(plain, anchored, current, *byte, steps);
            if to.has(current) {
                return Advance {
                    sid: current,
                    taken: read + 1,
                };
            }
        }
        Advance {
            sid: current,
            taken: bytes.len(),
        }
    }
}

impl Automaton for DFA {
    ghost use Rattle.ac_tables.specs.Dfa.Reads.{dfa_built_as, dfa_supported_by, IsDfaRead, dfa_matches_at, is_dfa_start_at, is_dfa_special_at};

    ghost built = { dfa_built_as };

    ghost supports = { dfa_supported_by };

    ghost Reaches = { IsDfaRead };

    ghost matches = { dfa_matches_at };

    ghost starts = { is_dfa_start_at };

    ghost special = { is_dfa_special_at };

    ghost tells = { λ dfa anchored text sid reads. reads.tells };

    ghost stops = { λ dfa anchored text sid reads. reads.stops };

    fn start_state(&self, anchored: Anchored) -> Result<StateID, MatchError> {
        let (start, refusal) = match anchored {
            Anchored::No => (self.table.start, MatchError::invalid_input_unanchored()),
            Anchored::Yes => (
                self.table.start_anchored,
                MatchError::invalid_input_anchored(),
            ),
        };
        if self.table.serves(anchored) {
            Ok(start)
        } else {
            Err(refusal)
        }
    }

    #[inline]
    fn next_state_counted(
        &self,
        anchored: Anchored,
        sid: StateID,
        byte: u8,
        steps: &mut Steps,
    ) -> StateID {
        self.step(false, anchored, sid, byte, steps)
    }

    fn advance(
        &self,
        anchored: Anchored,
        sid: StateID,
        bytes: &[u8],
        steps: &mut Steps,
    ) -> Advance {
        let special = Between::new(0, self.max_special);
        self.skips
            .read_to(self, anchored, sid, bytes, special, steps)
    }

    fn advance_to_match(
        &self,
        anchored: Anchored,
        sid: StateID,
        bytes: &[u8],
        steps: &mut Steps,
    ) -> Advance {
        let matching = Between::new(1, self.table.max_match);
        self.skips
            .read_to(self, anchored, sid, bytes, matching, steps)
    }

    fn advance_alone(
        &self,
        anchored: Anchored,
        sid: StateID,
        bytes: &[u8],
        steps: &mut Steps,
    ) -> Advance {
        let matching = Between::new(1, self.table.max_match);
        self.read_until(anchored, sid, bytes, matching, steps)
    }

    fn note_ahead(
        &self,
        sid: StateID,
        bytes: &[u8],
        at: usize,
        len: usize,
        anew: Option<StateID>,
        notes: &mut [Note],
        steps: &mut Steps,
    ) -> Noted {
        if !self.lanes {
            return Noted::none();
        }
        let table = &self.table;
        lanes::note_ahead(
            self,
            table.start,
            table.max_match,
            &self.unused,
            sid,
            bytes,
            at,
            len,
            anew,
            notes,
            steps,
        )
    }

    fn has_lanes(&self) -> bool {
        self.lanes
    }

    #[inline]
    fn rules_out(&self, bytes: &[u8]) -> bool {
        self.skips.rule_out(bytes)
    }

    #[inline]
    fn is_special(&self, sid: StateID) -> bool {
        sid.as_u32() <= self.max_special.as_u32()
    }

    #[inline]
    fn is_dead(&self, sid: StateID) -> bool {
        sid.as_u32() == 0
    }

    #[inline]
    fn is_match(&self, sid: StateID) -> bool {
        sid.as_u32() != 0 && sid.as_u32() <= self.table.max_match.as_u32()
    }

    #[inline]
    fn is_start(&self, sid: StateID) -> bool {
        self.table.is_start(sid)
    }

    fn match_kind(&self) -> MatchKind {
        self.kind
    }

    fn match_len(&self, sid: StateID) -> usize {
        self.table.match_list(sid).len()
    }

    fn match_pattern(&self, sid: StateID, index: usize) -> PatternID {
        self.table.match_list(sid)[index]
    }

    fn patterns_len(&self) -> usize {
        self.lens.len()
    }

    fn pattern_len(&self, pattern: PatternID) -> usize {
        self.lens.pattern_len(pattern)
    }

    fn min_pattern_len(&self) -> usize {
        self.lens.shortest()
    }

    fn max_pattern_len(&self) -> usize {
        self.lens.longest()
    }

    fn memory_usage(&self) -> usize {
        self.table
            .memory_usage()
            .saturating_add(self.lens.memory_usage())
            .saturating_add(self.skips.memory_usage())
            .saturating_add(match &self.prefilter {
                Some(prefilter) => prefilter.memory_usage(),
                None => 0,
            })
    }

    fn prefilter(&self) -> Option<&Prefilter> {
        self.prefilter.as_ref()
    }
}

impl Search for DFA {}
