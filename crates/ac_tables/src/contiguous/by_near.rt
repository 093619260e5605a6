//! Reading on where only the states near the start have rows.
//!
//! An entry of such a row says which state is next by a number. Numbers below that of all entries are where rows begin. Any other one
//! is the place of a state without a row, with the number of all entries added. So one comparison tells where the next look-up reads:
//! in a row, one look for a byte, or in the words, as a search without rows does.
//!
//! No state at which a search stops may have a row. So the loop tests only states without one, and where some row is that of a state
//! to stop at, it is the words that are read.
ghost use Rattle.std.specs.Prelude.{◌≡◌, ◌+◌, ◌<◌, ◌≤◌, Some, IsTrue, length, slice_index};
ghost use Rattle.ac_input.specs.Number.{greatest_number};
ghost use Rattle.ac_input.specs.declared.search.Anchored.TheVariants.{No};
ghost use Rattle.ac_automaton.specs.Automaton.{IsReached};
ghost use Rattle.ac_automaton.specs.Look.{ReadsTo, is_between};
ghost use Rattle.ac_tables.specs.Contiguous.Near.{IsNumber, IsNumberOf, numbered_place};
ghost use Rattle.ac_tables.specs.Contiguous.NearReads.{LeadsByNumber};
ghost use Rattle.ac_tables.specs.Contiguous.Reads.{contiguous_built_as, IsContiguousRead};
ghost use Rattle.ac_tables.specs.Dfa.Lookups.{ArePlain};

use crate::contiguous::NFA;
use crate::contiguous::rows::Rows;
use crate::rows::{is_plain, next};
use ac_automaton::automaton::Advance;
use ac_automaton::look::{Between, LookUp};
use ac_input::primitives::StateID;
use ac_input::search::Anchored;
use ac_input::steps::Steps;

impl Rows {
    /// The number of the state at a place: where its row begins, if the index leads to one.
    #[inline]
    pub(super) fn number_of(&self, place: StateID) -> StateID
        requires { length self.now.trans.items + place ≤ greatest_number }
        ensures { IsNumberOf self.now place result }
    {
        match self.row_of(place) {
            Some(row) => row,
            None => StateID::must(self.trans.len() + place.as_usize()),
        }
    }

    /// The place of the state of a number.
    #[inline]
    fn place_of(&self, number: StateID) -> StateID
        requires { IsNumber self.now number }
        ensures { result ≡ numbered_place self.now number }
    {
        let entries = self.trans.len();
        if number.as_usize() < entries {
            self.place(number)
        } else {
            StateID::must(number.as_usize() - entries)
        }
    }

    /// Whether the state of a number is between two places, which no row's is.
    #[inline(always)]
    fn is_in(&self, to: Between, number: StateID) -> bool
        requires past { (0 < length self.now.places.items) × (to.last < slice_index self.now.places.items 0) }
        requires number { IsNumber self.now number }
        ensures { result ≡ is_between to (numbered_place self.now number) }
    {
        let entries = self.trans.len();
        if number.as_usize() < entries {
            return false;
        }
        to.has(StateID::must(number.as_usize() - entries))
    }

    /// Whether all states that have rows are past two places.
    #[inline]
    fn are_past(&self, to: Between) -> bool
        ensures { IsTrue result → (0 < length self.now.places.items) × (to.last < slice_index self.now.places.items 0) }
    {
        match self.places.first() {
            Some(place) => to.is_before(*place),
            None => false,
        }
    }
}

impl NFA {
    /// The number of the next state, where the state has no row.
    #[inline(never)]
    fn step_far(&self, near: &Rows, number: StateID, byte: u8, steps: &mut Steps) -> StateID
        requires held { self.now.near ≡ Some near.now }
        requires past { length near.now.trans.items ≤ number }
        requires reached { IsReached (IsContiguousRead self.now No) (numbered_place near.now number) }
        ensures { LeadsByNumber self.now near.now number byte result steps.old steps.new }
    {
        let place = StateID::must(number.as_usize() - near.trans.len());
        let next = self.look_up(Anchored::No, place, byte, steps);
        near.number_of(next)
    }

    /// The number of the next state: by the row of a state that has one, else by the words.
    #[inline(always)]
    fn step_near(
        &self,
        near: &Rows,
        plain: bool,
        number: StateID,
        byte: u8,
        steps: &mut Steps,
    ) -> StateID
        requires held { self.now.near ≡ Some near.now }
        requires alone { IsTrue plain → ArePlain self.now.table.classes }
        requires number { IsNumber near.now number }
        requires reached { IsReached (IsContiguousRead self.now No) (numbered_place near.now number) }
        ensures { LeadsByNumber self.now near.now number byte result steps.old steps.new }
    {
        if number.as_usize() < near.trans.len() {
            steps.look();
            return next(&near.trans, &self.table.classes, plain, number, byte);
        }
        self.step_far(near, number, byte, steps)
    }

    /// Reads on to the first state between two places, these included, or to the last byte. No row is that of such a state.
    #[inline(always)]
    fn read_past(
        &self,
        near: &Rows,
        sid: StateID,
        bytes: &[u8],
        to: Between,
        steps: &mut Steps,
    ) -> Advance
        requires held { self.now.near ≡ Some near.now }
        requires past { (0 < length near.now.places.items) × (to.last < slice_index near.now.places.items 0) }
        requires reached { IsReached (IsContiguousRead self.now No) sid }
        ensures { ReadsTo (contiguous_built_as self.now) (IsContiguousRead self.now) No to sid
            bytes.now result steps.old steps.new }
    {
        let plain = is_plain(&self.table.classes);
        let mut number = near.number_of(sid);
        for (read, byte) in bytes.iter().enumerate() {
            number = self.step_near(near, plain, number, *byte, steps);
            if near.is_in(to, number) {
                return Advance {
                    sid: near.place_of(number),
                    taken: read + 1,
                };
            }
        }
        Advance {
            sid: near.place_of(number),
            taken: bytes.len(),
        }
    }

    /// Reads on to the first state between two places, these included, or to the last byte, by the rows of the states near the start.
    #[inline(always)]
    pub(super) fn read_near(
        &self,
        near: &Rows,
        sid: StateID,
        bytes: &[u8],
        to: Between,
        steps: &mut Steps,
    ) -> Advance
        requires held { self.now.near ≡ Some near.now }
        requires reached { IsReached (IsContiguousRead self.now No) sid }
        ensures { ReadsTo (contiguous_built_as self.now) (IsContiguousRead self.now) No to sid
            bytes.now result steps.old steps.new }
    {
        if near.are_past(to) {
            return self.read_past(near, sid, bytes, to, steps);
        }
        self.read_words(Anchored::No, sid, bytes, to, steps)
    }
}
