//! Searching with the automaton.
//!
//! Where the patterns are few, a search that stands in the start finds the next place at which one may begin by its first bytes;
//! where few bytes lead out of the start, it finds the next of these by `memchr`.

use crate::nfa::NFA;
use crate::nfa::tables::FAIL;
use ac_automaton::automaton::{Advance, Automaton};
use ac_automaton::error::MatchError;
use ac_automaton::look::{Between, LookUp};
use ac_automaton::search::Search;
use ac_input::primitives::{PatternID, StateID};
use ac_input::search::{Anchored, MatchKind};
use ac_input::steps::Steps;
use ac_literal::prefilter::Prefilter;

impl LookUp for NFA {
    ghost use Rattle.ac_noncontiguous.specs.Nfa.Reads.{built_as, IsRead, matches_at};

    ghost built = { built_as };

    ghost Reaches = { IsRead };

    ghost matches = { matches_at };

    ghost tells = { λ nfa anchored text sid reads. reads.tells };

    #[inline(always)]
    fn look_up(&self, anchored: Anchored, sid: StateID, byte: u8, steps: &mut Steps) -> StateID {
        self.tables.next(anchored, sid, byte, steps)
    }
}

impl Automaton for NFA {
    ghost use Rattle.ac_noncontiguous.specs.Nfa.Reads.{built_as, IsRead, matches_at, is_start_at, is_special_at};

    ghost built = { built_as };

    ghost supports = { λ nfa anchored. Unit {0} };

    ghost Reaches = { IsRead };

    ghost matches = { matches_at };

    ghost starts = { is_start_at };

    ghost special = { is_special_at };

    ghost tells = { λ nfa anchored text sid reads. reads.tells };

    ghost stops = { λ nfa anchored text sid reads. reads.stops };

    fn start_state(&self, anchored: Anchored) -> Result<StateID, MatchError> {
        Ok(match anchored {
            Anchored::No => self.tables.start,
            Anchored::Yes => StateID::must(self.tables.start.one_more()),
        })
    }

    #[inline]
    fn next_state_counted(
        &self,
        anchored: Anchored,
        sid: StateID,
        byte: u8,
        steps: &mut Steps,
    ) -> StateID {
        self.tables.next(anchored, sid, byte, steps)
    }

    fn advance(
        &self,
        anchored: Anchored,
        sid: StateID,
        bytes: &[u8],
        steps: &mut Steps,
    ) -> Advance {
        let special = Between::new(0, self.max_special);
        self.skips
            .read_to(self, anchored, sid, bytes, special, steps)
    }

    fn advance_to_match(
        &self,
        anchored: Anchored,
        sid: StateID,
        bytes: &[u8],
        steps: &mut Steps,
    ) -> Advance {
        let matching = Between::new(FAIL as u32 + 1, self.tables.max_match);
        self.skips
            .read_to(self, anchored, sid, bytes, matching, steps)
    }

    fn advance_alone(
        &self,
        anchored: Anchored,
        sid: StateID,
        bytes: &[u8],
        steps: &mut Steps,
    ) -> Advance {
        let matching = Between::new(FAIL as u32 + 1, self.tables.max_match);
        self.read_until(anchored, sid, bytes, matching, steps)
    }

    fn has_lanes(&self) -> bool {
        false
    }

    #[inline]
    fn reads_quickly(&self) -> bool {
        false
    }

    #[inline]
    fn rules_out(&self, bytes: &[u8]) -> bool {
        self.skips.rule_out(bytes)
    }

    #[inline]
    fn is_special(&self, sid: StateID) -> bool {
        sid.as_u32() <= self.max_special.as_u32()
    }

    #[inline]
    fn is_dead(&self, sid: StateID) -> bool {
        sid.as_u32() == 0
    }

    #[inline]
    fn is_match(&self, sid: StateID) -> bool {
        FAIL < sid.as_usize() && sid.as_u32() <= self.tables.max_match.as_u32()
    }

    #[inline]
    fn is_start(&self, sid: StateID) -> bool {
        let at = sid.as_u32();
        let start = self.tables.start.as_u32();
        at == start || at == start + 1
    }

    fn match_kind(&self) -> MatchKind {
        self.kind
    }

    fn match_len(&self, sid: StateID) -> usize {
        self.tables.states[sid.as_usize()].matches_len as usize
    }

    fn match_pattern(&self, sid: StateID, index: usize) -> PatternID {
        self.tables.matches[self.tables.states[sid.as_usize()].matches + index]
    }

    fn patterns_len(&self) -> usize {
        self.lens.len()
    }

    fn pattern_len(&self, pattern: PatternID) -> usize {
        self.lens.pattern_len(pattern)
    }

    fn min_pattern_len(&self) -> usize {
        self.lens.shortest()
    }

    fn max_pattern_len(&self) -> usize {
        self.lens.longest()
    }

    fn memory_usage(&self) -> usize {
        self.memory_of_parts()
    }

    fn prefilter(&self) -> Option<&Prefilter> {
        self.prefilter.as_ref()
    }
}

impl Search for NFA {}
