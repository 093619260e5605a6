//! The tables of the automaton, and how a search looks things up in them.
//!
//! The transitions of a state are one range of one vector, in rising order of byte, and so are its patterns; a state without
//! patterns of its own shares the range of its failure. States that few bytes lead to keep a row as well, with the next state for
//! each class of bytes, all failures followed: there a look-up is three loads (where the row begins, the class of the byte, and the
//! next state) and one look, whatever the byte. Elsewhere it is a binary search in the range and, where no transition has the byte,
//! the same from the failure.
//!
//! An anchored search follows no failures. By a row it takes the next state only if that is deeper than the state itself: such a
//! one is a state's own, since a failure's next state is no deeper than the state.
ghost use Rattle.std.specs.Prelude.{◌≡◌, ◌≤◌, ◌+◌, false, length, take, drop, IfOk, IfSome};
ghost use Rattle.ac_automaton.specs.Named.{nowhere};
ghost use Rattle.ac_automaton.specs.Starters.{SkipsBelow};
ghost use Rattle.ac_input.specs.Input.{is_anchored};
ghost use Rattle.ac_noncontiguous.specs.Nfa.{kept_of};
ghost use Rattle.ac_noncontiguous.specs.Nfa.Lookups.{IsKept, IsVisited, StepsTo, StepsOver, AreRisingIn, IsNextIn, own_next, LeadsNext, IsIdle, AreSame};

use ac_automaton::starters::Starters;
use ac_input::alphabet::ByteClasses;
use ac_input::primitives::{PatternID, StateID};
use ac_input::search::Anchored;
use ac_input::steps::Steps;
use std::alloc::{AllocError, Global};

/// The row entry of a state without a row.
pub(crate) const NO_ROW: u32 = u32::MAX;

/// What is stored for a state: 32 bytes.
#[derive(Clone, Copy, Debug)]
pub(crate) struct State {
    /// Where its transitions begin. They end where those of the next state begin.
    pub transitions: usize,
    /// Where its patterns begin.
    pub matches: usize,
    /// How many patterns match here.
    pub matches_len: u32,
    /// The failure, where a byte is looked up that no transition has.
    pub fail: StateID,
    /// How many bytes lead here from the start.
    pub depth: u32,
    /// Where its row begins, if it keeps one.
    pub row: u32,
}

/// Where one byte leads.
#[derive(Clone, Copy, Debug)]
pub(crate) struct Transition {
    /// The byte.
    pub byte: u8,
    /// The next state.
    pub next: StateID,
}

/// The tables. States are numbered so: the dead one (0), the one that stands for no state (1), those that match, the unanchored
/// start, the anchored start, the others.
#[derive(Drop)]
pub(crate) struct Tables {
    /// The states, and one entry more after them.
    pub states: Vec<State>,
    pub transitions: Vec<Transition>,
    pub rows: Vec<StateID>,
    pub classes: ByteClasses,
    pub matches: Vec<PatternID>,
    /// The unanchored start; the anchored one is the next state.
    pub start: StateID,
    /// The last state at which a pattern matches; 1 where there is none.
    pub max_match: StateID,
}

/// The number of the fail state, which stands for no state: where a byte leads nowhere, its next state is this one.
pub const FAIL: usize = 1;

/// This many items of a list, from a place on.
pub(crate) fn slice_from<T>(items: &[T], from: usize, len: usize) -> &[T]
    requires { from + len ≤ length items.now }
    ensures { result.now ≡ take len (drop from items.now) }
{
    let rest = &items[from..];
    &rest[..len]
}

impl Tables {
    /// The failure of a state, where a byte is looked up that no transition has.
    #[inline]
    pub(crate) fn fail(&self, sid: StateID) -> StateID
        requires { IsKept self.now sid }
        ensures { result ≡ (kept_of self.now.states.items sid).fail }
    {
        self.states[sid.as_usize()].fail
    }

    /// The next state of the transition that has the byte, by binary search; the fail state if none has it.
    #[inline]
    fn find(&self, from: usize, end: usize, byte: u8) -> StateID
        requires ordered { from ≤ end }
        requires within { end ≤ length self.now.transitions.items }
        requires rising { AreRisingIn self.now.transitions.items from end }
        ensures { IsNextIn self.now.transitions.items from end byte result }
    {
        let mut low = from;
        let mut high = end;
        while low < high {
            let middle = low + (high - low) / 2;
            let here = self.transitions[middle].byte;
            if here == byte {
                return self.transitions[middle].next;
            }
            if here < byte {
                low = middle + 1;
            } else {
                high = middle;
            }
        }
        StateID::must(FAIL)
    }

    /// How many bytes lead to a state from a start.
    #[inline]
    fn depth(&self, sid: StateID) -> u32
        requires { IsKept self.now sid }
        ensures { result ≡ (kept_of self.now.states.items sid).depth }
    {
        self.states[sid.as_usize()].depth
    }

    /// Where the byte leads from the state itself, by its transitions; the fail state where it leads to none.
    #[inline]
    fn step(&self, sid: StateID, byte: u8) -> StateID
        requires { IsKept self.now sid }
        ensures { StepsTo self.now sid byte result }
    {
        let at = sid.as_usize();
        self.find(
            self.states[at].transitions,
            self.states[at + 1].transitions,
            byte,
        )
    }

    /// Where the byte leads from the state, all failures followed, if the state keeps a row.
    #[inline(always)]
    fn step_by_row(&self, sid: StateID, byte: u8) -> Option<StateID>
        requires { IsKept self.now sid }
        ensures { IfSome result (StepsOver self.now sid byte) }
    {
        let row = self.states[sid.as_usize()].row;
        if row == NO_ROW {
            return None;
        }
        Some(self.rows[row as usize + self.classes.get(byte) as usize])
    }

    /// Where the byte leads from the states to which a state fails, one after another, where it leads to none from the state itself.
    ///
    /// Few bytes of most texts need it, so it stays out of the loops that call it.
    #[inline(never)]
    fn follow(&self, sid: StateID, byte: u8, steps: &mut Steps) -> StateID
        requires visited { IsVisited self.now false sid }
        requires stuck { StepsTo self.now sid byte nowhere }
        ensures { LeadsNext self.now false 1 sid byte result steps.old steps.new }
    {
        let mut from = sid;
        loop {
            from = self.fail(from);
            steps.look();
            if let Some(next) = self.step_by_row(from, byte) {
                return next;
            }
            let next = self.step(from, byte);
            if next.as_usize() != FAIL {
                return next;
            }
        }
    }

    /// The next state of a state that keeps no row.
    #[inline]
    fn next_by_range(
        &self,
        anchored: Anchored,
        sid: StateID,
        byte: u8,
        steps: &mut Steps,
    ) -> StateID
        requires { IsVisited self.now (is_anchored anchored) sid }
        ensures { LeadsNext self.now (is_anchored anchored) 0 sid byte result steps.old steps.new }
    {
        steps.look();
        let next = self.step(sid, byte);
        if next.as_usize() != FAIL {
            return next;
        }
        match anchored {
            Anchored::No => self.follow(sid, byte, steps),
            Anchored::Yes => StateID::ZERO,
        }
    }

    /// The state that follows one in an anchored search, by the next state of its row: that one if it is deeper, or else the dead one.
    #[inline]
    fn own(&self, sid: StateID, next: StateID) -> StateID
        requires { IsKept self.now sid × IsKept self.now next }
        ensures { result ≡ own_next self.now sid next }
    {
        if self.depth(next) > self.depth(sid) {
            next
        } else {
            StateID::ZERO
        }
    }

    /// The state after one more byte, where the search began with this anchoring. Counts the states that it looks at.
    #[inline]
    pub(crate) fn next(
        &self,
        anchored: Anchored,
        sid: StateID,
        byte: u8,
        steps: &mut Steps,
    ) -> StateID
        requires { IsVisited self.now (is_anchored anchored) sid }
        ensures { LeadsNext self.now (is_anchored anchored) 0 sid byte result steps.old steps.new }
    {
        match self.step_by_row(sid, byte) {
            Some(next) => {
                steps.look();
                match anchored {
                    Anchored::No => next,
                    Anchored::Yes => self.own(sid, next),
                }
            }
            None => self.next_by_range(anchored, sid, byte, steps),
        }
    }

    /// The bytes that lead from the start to another state. It makes one look-up for each byte.
    pub(crate) fn starters(&self) -> Starters
        requires { IsKept self.now self.now.start }
        ensures { SkipsBelow (IsIdle self.now) 256 result }
    {
        let start = self.start.as_u32();
        if start <= self.max_match.as_u32() {
            return Starters::Many;
        }
        let mut starters = Starters::None;
        for byte in 0..256usize {
            if self.step(self.start, byte as u8).as_u32() != start {
                starters = starters.with(byte as u8);
            }
        }
        starters
    }

    /// How many bytes of memory they take, besides themselves.
    pub(crate) fn memory_usage(&self) -> usize {
        (self.states.len().saturating_mul(32))
            .saturating_add(self.transitions.len().saturating_mul(8))
            .saturating_add(self.rows.len().saturating_mul(4))
            .saturating_add(self.matches.len().saturating_mul(4))
    }

    /// A copy, in memory from `alloc`.
    pub(crate) fn clone(&self, alloc: Global) -> Result<Tables, AllocError>
        ensures { IfOk result (AreSame self.now) }
    {
        Ok(Tables {
            states: Vec::from_slice(alloc, &self.states)?,
            transitions: Vec::from_slice(alloc, &self.transitions)?,
            rows: Vec::from_slice(alloc, &self.rows)?,
            classes: self.classes.clone()?,
            matches: Vec::from_slice(alloc, &self.matches)?,
            start: self.start,
            max_match: self.max_match,
        })
    }
}
