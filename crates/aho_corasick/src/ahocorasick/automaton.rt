//! Searching by whichever automaton serves.
ghost use Rattle.std.specs.Prelude.{OnOk, IfErr, ◌≡◌};
ghost use Rattle.ac_input.specs.Dfa.{Serves};
ghost use Rattle.ac_automaton.specs.Automaton.{refusal_of};

use super::AhoCorasick;
use crate::engine::Engine;
use ac_automaton::ahead::{Ahead, Note, Noted};
use ac_automaton::automaton::{Advance, Automaton};
use ac_automaton::error::MatchError;
use ac_automaton::overlapping::{Position, Shown};
use ac_automaton::search::Search;
use ac_automaton::stream::Progress;
use ac_automaton::stream::overlapping::{ListPlace, Listed};
use ac_input::primitives::{PatternID, StateID};
use ac_input::search::{Anchored, Input, Match, MatchKind, StartKind};
use ac_input::steps::Steps;
use ac_literal::prefilter::Prefilter;

/// Refuses a search for which an automaton of the start kind has no start.
pub(super) fn enforce_anchored_consistency(
    have: StartKind,
    want: Anchored,
) -> Result<(), MatchError>
    ensures served { OnOk result (Serves have want) }
    ensures refused { IfErr result (λ error. ¬ (Serves have) want × (error ≡ refusal_of want)) }
{
    match (have, want) {
        (StartKind::Unanchored, Anchored::Yes) => Err(MatchError::invalid_input_anchored()),
        (StartKind::Anchored, Anchored::No) => Err(MatchError::invalid_input_unanchored()),
        _ => Ok(()),
    }
}

impl Automaton for AhoCorasick {
    ghost use Rattle.aho_corasick.specs.AhoCorasick.{serving_engine, as_built, supported_by};
    ghost use Rattle.aho_corasick.specs.Engine.{IsEngineRead, engine_matches_at, is_engine_special_at, is_engine_start_at};
    ghost use Rattle.aho_corasick.specs.EngineLaws.{read-tells, read-stops};

    ghost built = { as_built };

    ghost supports = { supported_by };

    ghost Reaches = { λ ac. IsEngineRead (serving_engine ac) };

    ghost matches = { λ ac. engine_matches_at (serving_engine ac) };

    ghost starts = { λ ac. is_engine_start_at (serving_engine ac) };

    ghost special = { λ ac. is_engine_special_at (serving_engine ac) };

    fn start_state(&self, anchored: Anchored) -> Result<StateID, MatchError> {
        enforce_anchored_consistency(self.start_kind, anchored)?;
        dispatch!(self.start_state(anchored))
    }

    #[inline]
    fn next_state_counted(
        &self,
        anchored: Anchored,
        sid: StateID,
        byte: u8,
        steps: &mut Steps,
    ) -> StateID {
        dispatch!(self.next_state_counted(anchored, sid, byte, steps))
    }

    #[inline]
    fn advance(
        &self,
        anchored: Anchored,
        sid: StateID,
        bytes: &[u8],
        steps: &mut Steps,
    ) -> Advance {
        dispatch!(self.advance(anchored, sid, bytes, steps))
    }

    #[inline]
    fn advance_to_match(
        &self,
        anchored: Anchored,
        sid: StateID,
        bytes: &[u8],
        steps: &mut Steps,
    ) -> Advance {
        dispatch!(self.advance_to_match(anchored, sid, bytes, steps))
    }

    #[inline]
    fn advance_alone(
        &self,
        anchored: Anchored,
        sid: StateID,
        bytes: &[u8],
        steps: &mut Steps,
    ) -> Advance {
        dispatch!(self.advance_alone(anchored, sid, bytes, steps))
    }

    fn note_ahead(
        &self,
        sid: StateID,
        bytes: &[u8],
        at: usize,
        len: usize,
        anew: Option<StateID>,
        notes: &mut [Note],
        steps: &mut Steps,
    ) -> Noted {
        dispatch!(self.note_ahead(sid, bytes, at, len, anew, notes, steps))
    }

    fn has_lanes(&self) -> bool {
        dispatch!(self.has_lanes())
    }

    fn reads_quickly(&self) -> bool {
        dispatch!(self.reads_quickly())
    }

    #[inline]
    fn rules_out(&self, bytes: &[u8]) -> bool {
        dispatch!(self.rules_out(bytes))
    }

    #[inline]
    fn is_special(&self, sid: StateID) -> bool {
        dispatch!(self.is_special(sid))
    }

    #[inline]
    fn is_dead(&self, sid: StateID) -> bool {
        dispatch!(self.is_dead(sid))
    }

    #[inline]
    fn is_match(&self, sid: StateID) -> bool {
        dispatch!(self.is_match(sid))
    }

    #[inline]
    fn is_start(&self, sid: StateID) -> bool {
        dispatch!(self.is_start(sid))
    }

    fn match_kind(&self) -> MatchKind {
        dispatch!(self.match_kind())
    }

    fn match_len(&self, sid: StateID) -> usize {
        dispatch!(self.match_len(sid))
    }

    fn match_pattern(&self, sid: StateID, index: usize) -> PatternID {
        dispatch!(self.match_pattern(sid, index))
    }

    fn patterns_len(&self) -> usize {
        dispatch!(self.patterns_len())
    }

    fn pattern_len(&self, pattern: PatternID) -> usize {
        dispatch!(self.pattern_len(pattern))
    }

    fn min_pattern_len(&self) -> usize {
        dispatch!(self.min_pattern_len())
    }

    fn max_pattern_len(&self) -> usize {
        dispatch!(self.max_pattern_len())
    }

    fn memory_usage(&self) -> usize {
        dispatch!(self.memory_usage())
    }

    fn prefilter(&self) -> Option<&Prefilter> {
        dispatch!(self.prefilter())
    }

    ghost tells = { λ ac anchored text sid reads. read-tells (serving_engine ac) (as_built ac) ac.shared.value.same anchored text sid reads };

    ghost stops = { λ ac anchored text sid reads. read-stops (serving_engine ac) (as_built ac) ac.shared.value.same anchored text sid reads };
}

impl Search for AhoCorasick {
    fn search(&self, input: &Input<'_>, steps: &mut Steps) -> Result<Option<Match>, MatchError> {
        enforce_anchored_consistency(self.start_kind, input.get_anchored())?;
        dispatch!(self.search(input, steps))
    }

    fn search_ahead(
        &self,
        input: &Input<'_>,
        start: StateID,
        ahead: &mut Ahead,
        steps: &mut Steps,
    ) -> Option<Match> {
        dispatch!(self.search_ahead(input, start, ahead, steps))
    }

    fn search_overlapping(
        &self,
        input: &Input<'_>,
        start: StateID,
        place: Position,
        steps: &mut Steps,
    ) -> Shown {
        dispatch!(self.search_overlapping(input, start, place, steps))
    }

    fn search_overlapping_ahead(
        &self,
        input: &Input<'_>,
        place: Position,
        ahead: &mut Ahead,
        steps: &mut Steps,
    ) -> Shown {
        dispatch!(self.search_overlapping_ahead(input, place, ahead, steps))
    }

    fn search_stream(
        &self,
        start: StateID,
        progress: &mut Progress,
        held: &[u8],
        ahead: &mut Ahead,
        steps: &mut Steps,
    ) -> Option<Match> {
        dispatch!(self.search_stream(start, progress, held, ahead, steps))
    }

    fn search_stream_overlapping(
        &self,
        place: &ListPlace,
        held: &[u8],
        ahead: &mut Ahead,
        steps: &mut Steps,
    ) -> Listed {
        dispatch!(self.search_stream_overlapping(place, held, ahead, steps))
    }

    fn mask_from(
        &self,
        sid: StateID,
        bytes: &mut [u8],
        from: usize,
        mask: u8,
        steps: &mut Steps,
    ) -> StateID {
        dispatch!(self.mask_from(sid, bytes, from, mask, steps))
    }
}
