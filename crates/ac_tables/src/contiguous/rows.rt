//! The rows: where each byte leads from each state in an unanchored search, all failures followed.
//!
//! There is a row for each state, in the order of their places, and in it an entry for each class of bytes: where the next state's
//! row begins. So a search by rows looks at one state for a byte, as a DFA does, and takes a place only where it stops.
//!
//! A search begins and stops at places. The row of a place is found by an index, which has an entry for every few words. The states
//! at which a search stops are nearly always those up to a start, or up to the last one before the starts: their rows are a range.
//! Where the row of a place or the range isn't found so, the search goes on by the words.
ghost use Rattle.std.specs.Prelude.{◌≡◌, ◌+◌, ◌*◌, ◌^◌, ◌<◌, ◌≤◌, length, IfOk};
ghost use Rattle.ac_input.specs.Number.{greatest_number};
ghost use Rattle.ac_tables.specs.Contiguous.Filled.{index_entries};
ghost use Rattle.ac_tables.specs.Contiguous.Cut.{Rise};

use ac_automaton::ahead::Note;
use ac_automaton::look::Between;
use ac_input::primitives::StateID;
use std::alloc::{AllocError, Global};

/// How many words share an entry of the index. No more than two states begin within them.
pub(super) const BLOCK: usize = 4;

/// How many bytes an entry takes, of a row, of the places or of the index.
pub(super) const ENTRY: usize = 4;

/// The rows. Each is as long as the least power of two that is enough for the classes.
#[derive(Drop)]
pub(crate) struct Rows {
    /// For each row and each class of bytes where the row of the next state begins.
    pub trans: Vec<StateID>,
    /// The place of each row's state.
    pub places: Vec<StateID>,
    /// For each block of words the first row whose state begins in it or after it.
    pub index: Vec<StateID>,
    /// The exponent of the stride: a row has two to it entries.
    pub stride2: usize,
    /// Which row is that of the unanchored start.
    pub start: StateID,
    ghost wide: { stride2 ≤ 8 },
    ghost len: { length trans.items ≡ length places.items * 2 ^ stride2 },
    ghost few: { length trans.items ≤ greatest_number },
    ghost rise: { Rise places.items },
}

/// How many entries the index has of rows whose states have these places.
pub(super) fn index_len(places: &[StateID]) -> usize
    requires { 0 < length places.now }
    ensures { result ≡ index_entries places.now }
{
    match places.last() {
        Some(place) => place.as_usize() / BLOCK + 1,
        None => 0,
    }
}

/// Adds a row to the index, for each block up to this one that has none yet.
fn push_to(index: &mut Vec<StateID>, block: usize, row: StateID) -> Result<(), AllocError>
    requires block { block ≤ greatest_number }
    requires before { length index.old.items ≤ block + 1 }
    ensures { IfOk result (λ _. length index.new.items ≡ block + 1) }
{
    for _ in index.len()..block + 1 {
        index.push(row)?;
    }
    Ok(())
}

/// The index of rows whose states have these places.
pub(super) fn index_of(alloc: Global, places: &[StateID]) -> Result<Vec<StateID>, AllocError>
    requires some { 0 < length places.now }
    requires few { length places.now ≤ greatest_number + 1 }
    requires rise { Rise places.now }
    ensures { IfOk result (λ index. length index.items ≡ index_entries places.now) }
{
    let mut index = Vec::with_capacity(alloc, index_len(places))?;
    for (row, place) in places.iter().enumerate() {
        push_to(&mut index, place.as_usize() / BLOCK, StateID::must(row))?;
    }
    Ok(index)
}

impl Rows {
    ghost use Rattle.std.specs.Prelude.{◌⊎◌, IsTrue, IfSome, map, take};
    ghost use Rattle.std.specs.List.{All};
    ghost use Rattle.ac_tables.specs.Contiguous.Cut.{AreBelow, AreNotBelow, IsCountBelow};
    ghost use Rattle.ac_tables.specs.Contiguous.Rows.{row_len, place_in_row, IsRowIn, AreRowsAt, IsLastUpTo, IsNoteOfRows, note_placed, AreRowsBetween, AreSameRows};

    /// How many entries a row has.
    #[inline]
    pub(super) fn stride(&self) -> usize
        ensures { result ≡ row_len self.now }
    {
        1 << self.stride2
    }

    /// Where the row begins of this number, if its state stands at the place.
    #[inline]
    fn row_at(&self, row: usize, place: StateID) -> Option<StateID>
        ensures { IfSome result (λ row. IsRowIn self.now row × (place_in_row self.now row ≡ place)) }
    {
        let found = *self.places.get(row)?;
        if found != place {
            return None;
        }
        Some(StateID::must(row * self.stride()))
    }

    /// Where the row begins of the state at a place, if the index leads to it.
    #[inline]
    pub(super) fn row_of(&self, place: StateID) -> Option<StateID>
        ensures { IfSome result (λ row. IsRowIn self.now row × (place_in_row self.now row ≡ place)) }
    {
        let start = self.row_at(self.start.as_usize(), place);
        if start.is_some() {
            return start;
        }
        let near = self.index.get(place.as_usize() / BLOCK)?.as_usize();
        let first = self.row_at(near, place);
        if first.is_some() {
            return first;
        }
        self.row_at(near + 1, place)
    }

    /// The place of the state whose row begins at a number.
    #[inline]
    pub(super) fn place(&self, row: StateID) -> StateID
        requires { IsRowIn self.now row }
        ensures { result ≡ place_in_row self.now row }
    {
        self.places[row.as_usize() >> self.stride2]
    }

    /// Whether the last of the first so many places is no greater than the last of two.
    #[inline]
    fn is_within(&self, to: Between, end: usize) -> bool
        requires some { 0 < end }
        requires within { end ≤ length self.now.places.items }
        ensures { IsTrue result → AreBelow self.now.places.items (to.last + 1) end }
    {
        !to.is_before(self.places[end - 1])
    }

    /// Whether the first of the other places is greater than that, if there is one.
    #[inline]
    fn is_past(&self, to: Between, end: usize) -> bool
        requires { end ≤ length self.now.places.items }
        ensures { IsTrue result → AreNotBelow self.now.places.items (to.last + 1) end }
    {
        if end == self.places.len() {
            return true;
        }
        to.is_before(self.places[end])
    }

    /// Whether exactly the first so many places, of which there are some, are no greater than the last of two.
    #[inline]
    fn is_end(&self, to: Between, end: usize) -> bool
        ensures { IsTrue result → (0 < end) × IsCountBelow self.now.places.items (to.last + 1) end }
    {
        if end == 0 || end > self.places.len() {
            return false;
        }
        self.is_within(to, end) && self.is_past(to, end)
    }

    /// How many places are less than the first of two, if the first place or the second one is between these.
    #[inline]
    fn first_of(&self, to: Between) -> Option<usize>
        ensures { IfSome result (λ first. IsCountBelow self.now.places.items to.first first) }
    {
        if self.places.len() < 2 {
            return None;
        }
        if to.has(self.places[0]) {
            return Some(0);
        }
        if to.has(self.places[1]) {
            return Some(1);
        }
        None
    }

    /// The rows of the states between two places, of which exactly the first so many are no greater than the last.
    #[inline]
    fn between_first(&self, to: Between, end: usize) -> Option<Between>
        requires some { 0 < end }
        requires end { IsCountBelow self.now.places.items (to.last + 1) end }
        ensures { IfSome result (AreRowsBetween self.now to) }
    {
        let first = self.first_of(to)?;
        let last = StateID::must((end - 1) * self.stride());
        Some(Between::new((first * self.stride()) as u32, last))
    }

    /// How many places are no greater than the last of two, if that is a start or the state before them.
    #[inline]
    fn end_of(&self, to: Between) -> Option<usize>
        ensures { IfSome result (λ end. (0 < end) × IsCountBelow self.now.places.items (to.last + 1) end) }
    {
        let start = self.start.as_usize();
        for end in start..start + 3 {
            if self.is_end(to, end) {
                return Some(end);
            }
        }
        None
    }

    /// The rows of the states between two places, where the last is a start or the state before them.
    #[inline]
    pub(super) fn between(&self, to: Between) -> Option<Between>
        ensures { IfSome result (AreRowsBetween self.now to) }
    {
        let end = self.end_of(to)?;
        self.between_first(to, end)
    }

    /// The last number of the rows of the states up to one, if that is a start or the state before them.
    pub(super) fn last_up_to(&self, sid: StateID) -> Option<StateID>
        ensures { IfSome result (IsLastUpTo self.now sid) }
    {
        let end = self.end_of(Between::new(0, sid))?;
        Some(StateID::must(end * self.stride() - 1))
    }

    /// The row of a state, if there is a state; none where its row isn't found.
    pub(super) fn rows_of(&self, state: Option<StateID>) -> Option<Option<StateID>>
        ensures { IfSome result (AreRowsAt self.now state) }
    {
        match state {
            Some(place) => Some(Some(self.row_of(place)?)),
            None => Some(None),
        }
    }

    /// Turns the first so many notes, which are of rows, into notes of places.
    pub(super) fn place_notes(&self, notes: &mut [Note], count: usize)
        requires few { count ≤ length notes.old }
        requires rows { All (IsNoteOfRows self.now) (take count notes.old) }
        ensures few { count ≤ length notes.new }
        ensures placed { take count notes.new ≡ map (note_placed self.now) (take count notes.old) }
    {
        for slot in 0..count {
            let note = notes[slot];
            notes[slot] = Note {
                from: note.from,
                len: note.len,
                sid: self.place(note.sid),
                next: self.place(note.next),
            };
        }
    }

    /// A copy, in memory from `alloc`.
    pub(super) fn clone(&self, alloc: Global) -> Result<Rows, AllocError>
        ensures { IfOk result (AreSameRows self.now) }
    {
        Ok(Rows {
            trans: Vec::from_slice(alloc, &self.trans)?,
            places: Vec::from_slice(alloc, &self.places)?,
            index: Vec::from_slice(alloc, &self.index)?,
            stride2: self.stride2,
            start: self.start,
        })
    }

    /// How many bytes of memory they take, beside themselves.
    pub(super) fn memory_usage(&self) -> usize {
        (self.trans.len().saturating_mul(ENTRY))
            .saturating_add(self.places.len().saturating_mul(ENTRY))
            .saturating_add(self.index.len().saturating_mul(ENTRY))
    }
}
