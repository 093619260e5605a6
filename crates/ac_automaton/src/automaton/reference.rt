//! A reference to an automaton is an automaton, so a generic that takes one takes a borrowed one too.
use super::{Advance, Automaton};
use crate::ahead::{Note, Noted};
use crate::error::MatchError;
use ac_input::primitives::{PatternID, StateID};
use ac_input::search::{Anchored, MatchKind};
use ac_input::steps::Steps;
use ac_literal::prefilter::Prefilter;

impl<'a, A: Automaton> Automaton for &'a A {
    ghost built = { λ a. A.built a.now };

    ghost supports = { λ a anchored. A.supports a.now anchored };

    ghost Reaches = { λ a anchored text sid. A.Reaches a.now anchored text sid };

    ghost matches = { λ a sid. A.matches a.now sid };

    ghost starts = { λ a sid. A.starts a.now sid };

    ghost special = { λ a sid. A.special a.now sid };

    fn start_state(&self, anchored: Anchored) -> Result<StateID, MatchError> {
        (**self).start_state(anchored)
    }

    fn next_state_counted(
        &self,
        anchored: Anchored,
        sid: StateID,
        byte: u8,
        steps: &mut Steps,
    ) -> StateID {
        (**self).next_state_counted(anchored, sid, byte, steps)
    }

    fn advance(
        &self,
        anchored: Anchored,
        sid: StateID,
        bytes: &[u8],
        steps: &mut Steps,
    ) -> Advance {
        (**self).advance(anchored, sid, bytes, steps)
    }

    fn advance_to_match(
        &self,
        anchored: Anchored,
        sid: StateID,
        bytes: &[u8],
        steps: &mut Steps,
    ) -> Advance {
        (**self).advance_to_match(anchored, sid, bytes, steps)
    }

    fn advance_alone(
        &self,
        anchored: Anchored,
        sid: StateID,
        bytes: &[u8],
        steps: &mut Steps,
    ) -> Advance {
        (**self).advance_alone(anchored, sid, bytes, steps)
    }

    fn note_ahead(
        &self,
        sid: StateID,
        bytes: &[u8],
        at: usize,
        len: usize,
        anew: Option<StateID>,
        notes: &mut [Note],
        steps: &mut Steps,
    ) -> Noted {
        (**self).note_ahead(sid, bytes, at, len, anew, notes, steps)
    }

    fn has_lanes(&self) -> bool {
        (**self).has_lanes()
    }

    fn reads_quickly(&self) -> bool {
        (**self).reads_quickly()
    }

    fn rules_out(&self, bytes: &[u8]) -> bool {
        (**self).rules_out(bytes)
    }

    fn is_special(&self, sid: StateID) -> bool {
        (**self).is_special(sid)
    }

    fn is_dead(&self, sid: StateID) -> bool {
        (**self).is_dead(sid)
    }

    fn is_match(&self, sid: StateID) -> bool {
        (**self).is_match(sid)
    }

    fn is_start(&self, sid: StateID) -> bool {
        (**self).is_start(sid)
    }

    fn match_kind(&self) -> MatchKind {
        (**self).match_kind()
    }

    fn match_len(&self, sid: StateID) -> usize {
        (**self).match_len(sid)
    }

    fn match_pattern(&self, sid: StateID, index: usize) -> PatternID {
        (**self).match_pattern(sid, index)
    }

    fn patterns_len(&self) -> usize {
        (**self).patterns_len()
    }

    fn pattern_len(&self, pattern: PatternID) -> usize {
        (**self).pattern_len(pattern)
    }

    fn min_pattern_len(&self) -> usize {
        (**self).min_pattern_len()
    }

    fn max_pattern_len(&self) -> usize {
        (**self).max_pattern_len()
    }

    fn memory_usage(&self) -> usize {
        (**self).memory_usage()
    }

    fn prefilter(&self) -> Option<&Prefilter> {
        (**self).prefilter()
    }

    ghost tells = { λ a anchored text sid reads. A.tells a.now anchored text sid reads };

    ghost stops = { λ a anchored text sid reads. A.stops a.now anchored text sid reads };
}
