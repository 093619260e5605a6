//! Searching with the contiguous automaton.
//!
//! Where there are rows, a search that isn't anchored reads on by them: a look-up is the byte's class, an addition and a load. Where
//! only the states near the start have some, it reads the words of the others.
//!
//! Else a look-up loads the kind of the state and the class of the byte, and then one word, or some more where the classes are packed.
//! Where no transition has the byte, the failures are followed, out of the loop. One comparison tells all states at which there is more
//! to do than to read on. Where the patterns are few, a search that stands in the start finds the next place at which one may begin by
//! its first bytes; where few bytes lead out of the start, it finds the next of these by `memchr`. Elsewhere a search of a stream reads
//! four parts of its bytes side by side, where there are rows.
ghost use Rattle.std.specs.Prelude.{false, ◌≡◌, ◌<◌};
ghost use Rattle.ac_automaton.specs.Automaton.{IsReached};
ghost use Rattle.ac_automaton.specs.Named.{nowhere};
ghost use Rattle.ac_automaton.specs.Look.{ReadsTo};
ghost use Rattle.ac_input.specs.Input.{is_anchored};
ghost use Rattle.ac_input.specs.declared.search.Anchored.TheVariants.{No};
ghost use Rattle.ac_tables.specs.Contiguous.Reads.{contiguous_built_as, IsContiguousRead, IsMet, LooksUp};
ghost use Rattle.ac_tables.specs.Contiguous.WordReads.{ByteLeadsTo, FailsAt};

use crate::contiguous::NFA;
use crate::contiguous::layout::NOWHERE;
use ac_automaton::ahead::{Note, Noted};
use ac_automaton::automaton::{Advance, Automaton};
use ac_automaton::error::MatchError;
use ac_automaton::look::{Between, LookUp};
use ac_automaton::search::Search;
use ac_input::primitives::{PatternID, StateID};
use ac_input::search::{Anchored, MatchKind};
use ac_input::steps::Steps;
use ac_literal::prefilter::Prefilter;

impl NFA {
    /// The state that is asked where no transition has the byte.
    #[inline]
    pub(super) fn fail(&self, sid: StateID) -> StateID
        requires { IsMet self.now false sid }
        ensures { FailsAt self.now.table sid result }
    {
        StateID::must(self.table.words[sid.as_usize() + 1] as usize)
    }

    /// Where the byte leads from the states to which a state fails, one after another, where it leads to none from the state itself.
    ///
    /// Few bytes of most texts need it, so it stays out of the loops that call it.
    #[inline(never)]
    fn follow(&self, sid: StateID, byte: u8, steps: &mut Steps) -> StateID
        requires met { IsMet self.now false sid }
        requires stuck { ByteLeadsTo self.now.table sid byte nowhere }
        ensures { LooksUp self.now false 1 sid byte result steps.old steps.new }
    {
        let mut from = sid;
        loop {
            from = self.fail(from);
            steps.look();
            let next = self.table.step(from, byte);
            if next.as_u32() != NOWHERE {
                return next;
            }
        }
    }

    /// The state after one more byte, where the search began with this anchoring; and counts the states that it looks at.
    #[inline]
    pub(super) fn next(
        &self,
        anchored: Anchored,
        sid: StateID,
        byte: u8,
        steps: &mut Steps,
    ) -> StateID
        requires { IsMet self.now (is_anchored anchored) sid }
        ensures { LooksUp self.now (is_anchored anchored) 0 sid byte result steps.old steps.new }
    {
        steps.look();
        let next = self.table.step(sid, byte);
        if next.as_u32() != NOWHERE {
            return next;
        }
        match anchored {
            Anchored::No => self.follow(sid, byte, steps),
            Anchored::Yes => StateID::ZERO,
        }
    }

    /// Reads on to the first state between two numbers, these included, and passes bytes in the start: by the rows where there are some.
    #[inline(always)]
    fn read_skipping(
        &self,
        anchored: Anchored,
        sid: StateID,
        bytes: &[u8],
        to: Between,
        steps: &mut Steps,
    ) -> Advance
        requires reached { IsReached (IsContiguousRead self.now anchored) sid }
        requires stops { to.last < self.now.table.start → to.last ≡ self.now.table.max_match }
        ensures { ReadsTo (contiguous_built_as self.now) (IsContiguousRead self.now) anchored to sid
            bytes.now result steps.old steps.new }
    {
        if to.is_before(self.table.start) {
            if let (Some(rows), Anchored::No) = (&self.rows, anchored) {
                return self.skip_rows(rows, sid, bytes, to, steps);
            }
        }
        self.skips.read_to(self, anchored, sid, bytes, to, steps)
    }

    /// Reads on to the first state between two numbers, these included, or to the last byte, where not all states have rows.
    #[inline(always)]
    fn read_free(&self, sid: StateID, bytes: &[u8], to: Between, steps: &mut Steps) -> Advance
        requires { IsReached (IsContiguousRead self.now No) sid }
        ensures { ReadsTo (contiguous_built_as self.now) (IsContiguousRead self.now) No to sid
            bytes.now result steps.old steps.new }
    {
        match &self.near {
            Some(near) => self.read_near(near, sid, bytes, to, steps),
            None => self.read_words(Anchored::No, sid, bytes, to, steps),
        }
    }

    /// Reads on to the first state between two numbers, these included, or to the last byte, by the words.
    #[inline(always)]
    pub(super) fn read_words(
        &self,
        anchored: Anchored,
        sid: StateID,
        bytes: &[u8],
        to: Between,
        steps: &mut Steps,
    ) -> Advance
        requires { IsReached (IsContiguousRead self.now anchored) sid }
        ensures { ReadsTo (contiguous_built_as self.now) (IsContiguousRead self.now) anchored to sid
            bytes.now result steps.old steps.new }
    {
        let mut current = sid;
        for (read, byte) in bytes.iter().enumerate() {
            current = self.look_up(anchored, current, *byte, steps);
            if to.has(current) {
                return Advance {
                    sid: current,
                    taken: read + 1,
                };
            }
        }
        Advance {
            sid: current,
            taken: bytes.len(),
        }
    }
}

impl LookUp for NFA {
    ghost use Rattle.ac_tables.specs.Contiguous.Reads.{contiguous_built_as, IsContiguousRead, contiguous_matches_at};

    ghost built = { contiguous_built_as };

    ghost Reaches = { IsContiguousRead };

    ghost matches = { contiguous_matches_at };

    ghost tells = { λ nfa anchored text sid reads. reads.tells };

    #[inline(always)]
    fn look_up(&self, anchored: Anchored, sid: StateID, byte: u8, steps: &mut Steps) -> StateID {
        self.next(anchored, sid, byte, steps)
    }

    #[inline(always)]
    fn read_until(
        &self,
        anchored: Anchored,
        sid: StateID,
        bytes: &[u8],
        to: Between,
        steps: &mut Steps,
    ) -> Advance {
        match anchored {
            Anchored::No => match &self.rows {
                Some(rows) => self.read_rows(rows, sid, bytes, to, steps),
                None => self.read_free(sid, bytes, to, steps),
            },
            Anchored::Yes => self.read_words(anchored, sid, bytes, to, steps),
        }
    }
}

impl Automaton for NFA {
    ghost use Rattle.ac_tables.specs.Contiguous.Reads.{contiguous_built_as, IsContiguousRead, contiguous_matches_at, is_contiguous_start_at, is_contiguous_special_at};

    ghost built = { contiguous_built_as };

    ghost supports = { λ nfa anchored. Unit {0} };

    ghost Reaches = { IsContiguousRead };

    ghost matches = { contiguous_matches_at };

    ghost starts = { is_contiguous_start_at };

    ghost special = { is_contiguous_special_at };

    ghost tells = { λ nfa anchored text sid reads. reads.tells };

    ghost stops = { λ nfa anchored text sid reads. reads.stops };

    fn start_state(&self, anchored: Anchored) -> Result<StateID, MatchError> {
        Ok(match anchored {
            Anchored::No => self.table.start,
            Anchored::Yes => self.table.start_anchored,
        })
    }

    #[inline]
    fn next_state_counted(
        &self,
        anchored: Anchored,
        sid: StateID,
        byte: u8,
        steps: &mut Steps,
    ) -> StateID {
        self.next(anchored, sid, byte, steps)
    }

    fn advance(
        &self,
        anchored: Anchored,
        sid: StateID,
        bytes: &[u8],
        steps: &mut Steps,
    ) -> Advance {
        let special = Between::new(0, self.max_special);
        self.read_skipping(anchored, sid, bytes, special, steps)
    }

    fn advance_to_match(
        &self,
        anchored: Anchored,
        sid: StateID,
        bytes: &[u8],
        steps: &mut Steps,
    ) -> Advance {
        let matching = Between::new(1, self.table.max_match);
        self.read_skipping(anchored, sid, bytes, matching, steps)
    }

    fn advance_alone(
        &self,
        anchored: Anchored,
        sid: StateID,
        bytes: &[u8],
        steps: &mut Steps,
    ) -> Advance {
        let matching = Between::new(1, self.table.max_match);
        self.read_until(anchored, sid, bytes, matching, steps)
    }

    fn note_ahead(
        &self,
        sid: StateID,
        bytes: &[u8],
        at: usize,
        len: usize,
        anew: Option<StateID>,
        notes: &mut [Note],
        steps: &mut Steps,
    ) -> Noted {
        if !self.lanes {
            return Noted::none();
        }
        match &self.rows {
            Some(rows) => self.note_by_rows(rows, sid, bytes, at, len, anew, notes, steps),
            None => Noted::none(),
        }
    }

    fn has_lanes(&self) -> bool {
        self.lanes
    }

    #[inline]
    fn rules_out(&self, bytes: &[u8]) -> bool {
        self.skips.rule_out(bytes)
    }

    #[inline]
    fn is_special(&self, sid: StateID) -> bool {
        sid.as_u32() <= self.max_special.as_u32()
    }

    #[inline]
    fn is_dead(&self, sid: StateID) -> bool {
        sid.as_u32() == 0
    }

    #[inline]
    fn is_match(&self, sid: StateID) -> bool {
        NOWHERE < sid.as_u32() && sid.as_u32() <= self.table.max_match.as_u32()
    }

    #[inline]
    fn is_start(&self, sid: StateID) -> bool {
        let at = sid.as_u32();
        at == self.table.start.as_u32() || at == self.table.start_anchored.as_u32()
    }

    fn match_kind(&self) -> MatchKind {
        self.kind
    }

    fn match_len(&self, sid: StateID) -> usize {
        self.table.match_len(sid)
    }

    fn match_pattern(&self, sid: StateID, index: usize) -> PatternID {
        self.table.match_pattern(sid, index)
    }

    fn patterns_len(&self) -> usize {
        self.lens.len()
    }

    fn pattern_len(&self, pattern: PatternID) -> usize {
        self.lens.pattern_len(pattern)
    }

    fn min_pattern_len(&self) -> usize {
        self.lens.shortest()
    }

    fn max_pattern_len(&self) -> usize {
        self.lens.longest()
    }

    fn memory_usage(&self) -> usize {
        self.table
            .memory_usage()
            .saturating_add(self.lens.memory_usage())
            .saturating_add(self.skips.memory_usage())
            .saturating_add(match &self.rows {
                Some(rows) => rows.memory_usage(),
                None => 0,
            })
            .saturating_add(match &self.near {
                Some(near) => near.memory_usage(),
                None => 0,
            })
            .saturating_add(match &self.prefilter {
                Some(prefilter) => prefilter.memory_usage(),
                None => 0,
            })
    }

    fn prefilter(&self) -> Option<&Prefilter> {
        self.prefilter.as_ref()
    }
}

impl Search for NFA {}
