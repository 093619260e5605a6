//! How the rows of the states near the start are made, where rows for all states would take too much memory.
//!
//! The states are found from the start on, breadth first, to a depth of 16. Those past the start get rows, in the order of their places.
//! A byte that no transition of a state has leads where it does from the state's failure. That is less deep and nearly always has a row
//! before, which is copied; then an entry is put for each transition. So a state takes two look-ups for each transition that its words
//! list, and two for each class of bytes where they have an entry for each. Where the failure has no row before, a look-up finds each
//! entry, and follows as many failures as the state is deep, at most.
ghost use Rattle.std.specs.Prelude.{ℕ, ◌≡◌, ◌≢◌, ◌+◌, ◌*◌, ◌^◌, ◌<◌, ◌≤◌, false, None, length, slice_index, IfOk, IfSome};
ghost use Rattle.ac_input.specs.Alphabet.{alphabet_len, IsLeastExponent};
ghost use Rattle.ac_input.specs.Alphabet.Classes.{ClassesLeadAlike};
ghost use Rattle.ac_input.specs.Number.{greatest_number};
ghost use Rattle.ac_automaton.specs.Named.{nowhere};
ghost use Rattle.ac_tables.specs.Contiguous.Cut.{Rise};
ghost use Rattle.ac_tables.specs.Contiguous.Near.{AreNearRows, LeadsToNumber};
ghost use Rattle.ac_tables.specs.Contiguous.NearReads.{near_depth, AreFound, AreNextsFound, AreNearWithin, ArePlacesNear, AreBytesOf, FailsToNumber, HasCopiedRow, HasFilled, HasFilledAll, HasFilledTo, HasPut, HasRoomNear, AreBlank, IsFailureRow, IsMetWithin, IsNextFound};
ghost use Rattle.ac_tables.specs.Contiguous.Reads.{contiguous_dictionary, IsContiguousMadeOf, IsMet};
ghost use Rattle.ac_tables.specs.Contiguous.Rows.{row_len};
ghost use Rattle.ac_tables.specs.Contiguous.WordReads.{ByteLeadsTo, ListsEdges};

use crate::contiguous::NFA;
use crate::contiguous::layout::NOWHERE;
use crate::contiguous::rows::{BLOCK, ENTRY, Rows, index_of};
use ac_input::alphabet::ByteClasses;
use ac_input::primitives::{GREATEST, StateID};
use ac_input::search::Anchored;
use ac_input::steps::Steps;
use std::alloc::{AllocError, Global};

/// To which depth states have rows, at most. So an entry is found by no more than that many look-ups, whatever the patterns: one of a
/// million equal bytes has a chain of as many failures.
const DEEPEST: u32 = 16;

/// A byte of each class.
fn bytes_of(alloc: Global, classes: &ByteClasses) -> Result<Vec<u8>, AllocError>
    ensures { IfOk result (λ bytes. AreBytesOf classes.now bytes.items) }
{
    let len = classes.alphabet_len();
    let mut bytes = vec![in alloc; 0u8; len]?;
    for byte in 0..256usize {
        bytes[classes.get(byte as u8) as usize] = byte as u8;
    }
    Ok(bytes)
}

/// Whether a place isn't put after so many others, of which this is the last: it is none, isn't past that one, or there are enough.
fn is_left_out(next: StateID, last: StateID, len: usize, most: usize) -> bool
    ensures { result ≡ false → (next ≢ nowhere) × (last < next) × (len < most) }
{
    next.as_u32() == NOWHERE || next.as_u32() <= last.as_u32() || len >= most
}

/// Whether a place isn't put after so many that were found: it is none, it is the start's, or there are enough.
fn is_passed(next: StateID, start: StateID, len: usize, most: usize) -> bool
    ensures { result ≡ false → (next ≢ nowhere) × (len < most) }
{
    next.as_u32() == NOWHERE || next.as_u32() == start.as_u32() || len >= most
}

/// Rows for the states at these places, of two to this many entries each, with nothing in them.
fn blank(alloc: Global, places: Vec<StateID>, stride2: usize) -> Result<Rows, AllocError>
    requires some { 0 < length places.items }
    requires rise { Rise places.items }
    requires stride { stride2 ≤ 8 }
    requires few { length places.items * 2 ^ stride2 ≤ greatest_number }
    ensures { IfOk result (AreBlank places.items stride2) }
{
    let index = index_of(alloc, &places)?;
    let stride = 1usize << stride2;
    let trans = vec![in alloc; StateID::ZERO; places.len() * stride]?;
    Ok(Rows {
        trans,
        places,
        index,
        stride2,
        start: StateID::ZERO,
    })
}

impl Rows {
    /// Copies a row to one after it.
    fn copy_row(&mut self, from: usize, row: usize)
        requires before { from < row }
        requires within { row < length self.old.places.items }
        ensures { HasCopiedRow from row self.old self.new }
    {
        let stride = self.stride();
        let first = from * stride;
        self.trans.copy_within(first..first + stride, row * stride);
    }

    /// Puts a number into an entry.
    fn put(&mut self, at: usize, number: StateID)
        requires { at < length self.old.trans.items }
        ensures { HasPut at number self.old self.new }
    {
        self.trans[at] = number;
    }
}

impl NFA {
    /// How many states near the start may have rows of two to this many entries, if the rows take at most this many bytes, with the
    /// places and their index, and all numbers are small enough.
    fn most_near(&self, stride2: usize, memory: usize) -> usize
        requires { stride2 ≤ 8 }
        ensures { 0 < result → HasRoomNear self.now (2 ^ stride2) memory result }
    {
        let stride = 1usize << stride2;
        let words = self.table.words.len();
        let numbers = GREATEST.saturating_sub(words) / stride;
        let entries = (memory / ENTRY).saturating_sub(words / BLOCK + 1);
        numbers.min(entries / (stride + 1))
    }

    /// Where a byte leads by the transitions of a state; 1 where none has it.
    #[inline]
    fn child(&self, sid: StateID, byte: u8) -> StateID
        requires { IsMet self.now false sid }
        ensures leads { ByteLeadsTo self.now.table sid byte result }
        ensures met { result ≢ nowhere → IsMet self.now false result }
    {
        self.table.step(sid, byte)
    }

    /// Puts a place after those that were found, if a state other than the start stands there and fewer than so many were found.
    fn push_found(
        &self,
        next: StateID,
        most: usize,
        found: &mut Vec<StateID>,
    ) -> Result<(), AllocError>
        ensures { IfOk result (λ _. IsNextFound most next found.old.items found.new.items) }
    {
        let len = found.len();
        if is_passed(next, self.table.start, len, most) {
            return Ok(());
        }
        Ok(found.push(next)?)
    }

    /// Puts the place of the state to which a byte leads by the transitions of one after those that were found.
    fn push_child(
        &self,
        sid: StateID,
        byte: u8,
        most: usize,
        found: &mut Vec<StateID>,
    ) -> Result<(), AllocError>
        requires { IsMet self.now false sid }
        ensures { IfOk result (λ _. AreNextsFound self.now most sid found.old.items found.new.items) }
    {
        let next = self.child(sid, byte);
        self.push_found(next, most, found)
    }

    /// Puts the places of the next states of one after those that were found, where its words list so many transitions.
    fn push_listed(
        &self,
        sid: StateID,
        len: usize,
        bytes: &[u8],
        most: usize,
        found: &mut Vec<StateID>,
    ) -> Result<(), AllocError>
        requires met { IsMet self.now false sid }
        requires listed { ListsEdges self.now.table sid len }
        requires bytes { AreBytesOf self.now.table.classes bytes.now }
        ensures { IfOk result (λ _. AreNextsFound self.now most sid found.old.items found.new.items) }
    {
        for at in 0..len {
            let class = self.table.edge_class(sid, at);
            self.push_child(sid, bytes[class], most, found)?;
        }
        Ok(())
    }

    /// Puts the places of the next states of one after those that were found, where it has an entry for each class.
    fn push_all(
        &self,
        sid: StateID,
        bytes: &[u8],
        most: usize,
        found: &mut Vec<StateID>,
    ) -> Result<(), AllocError>
        requires { IsMet self.now false sid }
        ensures { IfOk result (λ _. AreNextsFound self.now most sid found.old.items found.new.items) }
    {
        for byte in bytes {
            self.push_child(sid, *byte, most, found)?;
        }
        Ok(())
    }

    /// Puts the places of the next states of one after those that were found.
    fn push_nexts(
        &self,
        sid: StateID,
        bytes: &[u8],
        most: usize,
        found: &mut Vec<StateID>,
    ) -> Result<(), AllocError>
        requires met { IsMet self.now false sid }
        requires bytes { AreBytesOf self.now.table.classes bytes.now }
        ensures { IfOk result (λ _. AreNextsFound self.now most sid found.old.items found.new.items) }
    {
        if found.len() >= most {
            return Ok(());
        }
        match self.table.edge_len(sid) {
            Some(len) => self.push_listed(sid, len, bytes, most, found),
            None => self.push_all(sid, bytes, most, found),
        }
    }

    /// Puts the places of the next states of one that was found after the others.
    fn push_after(
        &self,
        at: usize,
        bytes: &[u8],
        most: usize,
        found: &mut Vec<StateID>,
    ) -> Result<(), AllocError>
        requires within { at < length found.old.items }
        requires met { IsMet self.now false (slice_index found.old.items at) }
        requires bytes { AreBytesOf self.now.table.classes bytes.now }
        ensures { IfOk result
            (λ _. AreNextsFound self.now most (slice_index found.old.items at) found.old.items found.new.items) }
    {
        let sid = found[at];
        self.push_nexts(sid, bytes, most, found)
    }

    /// The places of states near the start, breadth first: so many of them at most, and none deeper than [`DEEPEST`].
    fn found_near(
        &self,
        alloc: Global,
        bytes: &[u8],
        most: usize,
    ) -> Result<Vec<StateID>, AllocError>
        requires some { 0 < most }
        requires bytes { AreBytesOf self.now.table.classes bytes.now }
        ensures { IfOk result (λ found. AreFound self.now most found.items) }
    {
        let mut found = Vec::new(alloc);
        found.push(self.table.start)?;
        let mut at = 0;
        let mut next_depth = 1;
        let mut depth = 0u32;
        while at < found.len() && depth < DEEPEST {
            self.push_after(at, bytes, most, &mut found)?;
            at += 1;
            if at == next_depth {
                next_depth = found.len();
                depth = depth.saturating_add(1);
            }
        }
        Ok(found)
    }

    /// Puts a place after the others, if it is past the last one and there are fewer than so many.
    fn push_next(
        &self,
        next: StateID,
        most: usize,
        places: &mut Vec<StateID>,
    ) -> Result<(), AllocError>
        requires near { ArePlacesNear self.now most places.old.items }
        requires met { next ≢ nowhere → IsMetWithin self.now near_depth next }
        ensures { IfOk result (λ _. ArePlacesNear self.now most places.new.items) }
    {
        let len = places.len();
        let last = places[len - 1];
        if is_left_out(next, last, len, most) {
            return Ok(());
        }
        Ok(places.push(next)?)
    }

    /// Puts those of some places after the others that are past them, in their order.
    fn push_rising(
        &self,
        found: &[StateID],
        most: usize,
        places: &mut Vec<StateID>,
    ) -> Result<(), AllocError>
        requires found { AreFound self.now most found.now }
        requires near { ArePlacesNear self.now most places.old.items }
        ensures { IfOk result (λ _. ArePlacesNear self.now most places.new.items) }
    {
        for place in found {
            self.push_next(*place, most, places)?;
        }
        Ok(())
    }

    /// The places of the states near the start that get rows, in their order: the start, and those found that are past it.
    fn places_near(
        &self,
        alloc: Global,
        bytes: &[u8],
        most: usize,
    ) -> Result<Vec<StateID>, AllocError>
        requires some { 0 < most }
        requires bytes { AreBytesOf self.now.table.classes bytes.now }
        ensures { IfOk result (λ places. ArePlacesNear self.now most places.items) }
    {
        let mut found = self.found_near(alloc, bytes, most)?;
        found.sort_unstable();
        let mut places = Vec::with_capacity(alloc, found.len())?;
        places.push(self.table.start)?;
        self.push_rising(&found, most, &mut places)?;
        Ok(places)
    }

    /// The number of the state to which a byte leads from the state at a place.
    fn number_after(&self, near: &Rows, place: StateID, byte: u8) -> StateID
        requires alone { self.now.rows ≡ None }
        requires met { IsMet self.now false place }
        requires room { length near.now.trans.items + length self.now.table.words.items ≤ greatest_number }
        ensures { LeadsToNumber (contiguous_dictionary self.now) self.now.table near.now.places.items
            (row_len near.now) place byte result }
    {
        let mut steps = Steps::new();
        let next = self.next(Anchored::No, place, byte, &mut steps);
        near.number_of(next)
    }

    /// The number of the state to which a byte leads from the state at a place, by that to which it leads from the failure.
    #[inline]
    fn number_over(&self, near: &Rows, place: StateID, byte: u8, failed: StateID) -> StateID
        requires alone { self.now.rows ≡ None }
        requires met { IsMet self.now false place }
        requires room { length near.now.trans.items + length self.now.table.words.items ≤ greatest_number }
        requires failed { FailsToNumber self.now near.now place byte failed }
        ensures { LeadsToNumber (contiguous_dictionary self.now) self.now.table near.now.places.items
            (row_len near.now) place byte result }
    {
        let next = self.child(place, byte);
        if next.as_u32() == NOWHERE {
            return failed;
        }
        near.number_of(next)
    }

    /// The row of the state to which the one of a row fails, if it comes before.
    fn failure_row(&self, near: &Rows, row: usize) -> Option<usize>
        requires { (row < length near.now.places.items) × IsMet self.now false (slice_index near.now.places.items row) }
        ensures { IfSome result (IsFailureRow self.now near.now row) }
    {
        let place = near.places[row];
        let fail = self.fail(place);
        let found = near.row_of(fail)?.as_usize() >> near.stride2;
        if found < row { Some(found) } else { None }
    }

    /// Fills a row by that of the state's failure and by the state's transitions, of which its words list so many.
    fn fill_listed(&self, bytes: &[u8], row: usize, from: usize, len: usize, near: &mut Rows)
        requires alone { self.now.rows ≡ None }
        requires met { (row < length near.old.places.items) × IsMet self.now false (slice_index near.old.places.items row) }
        requires room { length near.old.trans.items + length self.now.table.words.items ≤ greatest_number }
        requires letters { length bytes.now ≤ row_len near.old }
        requires bytes { AreBytesOf self.now.table.classes bytes.now }
        requires before { HasFilledTo self.now bytes.now row near.old near.old }
        requires failure { IsFailureRow self.now near.old row from }
        requires listed { ListsEdges self.now.table (slice_index near.old.places.items row) len }
        ensures { HasFilled self.now bytes.now row near.old near.new }
    {
        let place = near.places[row];
        near.copy_row(from, row);
        let first = row * near.stride();
        let failed = from * near.stride();
        for at in 0..len {
            let class = self.table.edge_class(place, at);
            let number = self.number_over(near, place, bytes[class], near.trans[failed + class]);
            near.put(first + class, number);
        }
    }

    /// Fills a row by that of the state's failure and by the state's transitions, with a look for each class.
    fn fill_over(&self, bytes: &[u8], row: usize, from: usize, near: &mut Rows)
        requires alone { self.now.rows ≡ None }
        requires met { (row < length near.old.places.items) × IsMet self.now false (slice_index near.old.places.items row) }
        requires room { length near.old.trans.items + length self.now.table.words.items ≤ greatest_number }
        requires letters { length bytes.now ≤ row_len near.old }
        requires before { HasFilledTo self.now bytes.now row near.old near.old }
        requires failure { IsFailureRow self.now near.old row from }
        ensures { HasFilled self.now bytes.now row near.old near.new }
    {
        let place = near.places[row];
        let first = row * near.stride();
        let failed = from * near.stride();
        for (class, byte) in bytes.iter().enumerate() {
            let number = self.number_over(near, place, *byte, near.trans[failed + class]);
            near.put(first + class, number);
        }
    }

    /// Fills a row by look-ups in the words.
    fn fill_alone(&self, bytes: &[u8], row: usize, near: &mut Rows)
        requires alone { self.now.rows ≡ None }
        requires met { (row < length near.old.places.items) × IsMet self.now false (slice_index near.old.places.items row) }
        requires room { length near.old.trans.items + length self.now.table.words.items ≤ greatest_number }
        requires letters { length bytes.now ≤ row_len near.old }
        ensures { HasFilled self.now bytes.now row near.old near.new }
    {
        let place = near.places[row];
        let first = row * near.stride();
        for (class, byte) in bytes.iter().enumerate() {
            let number = self.number_after(near, place, *byte);
            near.put(first + class, number);
        }
    }

    /// Fills a row: an entry for each of these bytes, in the order of their classes.
    fn fill_row(&self, bytes: &[u8], row: usize, near: &mut Rows)
        requires alone { self.now.rows ≡ None }
        requires met { (row < length near.old.places.items) × IsMet self.now false (slice_index near.old.places.items row) }
        requires room { length near.old.trans.items + length self.now.table.words.items ≤ greatest_number }
        requires letters { length bytes.now ≤ row_len near.old }
        requires bytes { AreBytesOf self.now.table.classes bytes.now }
        requires before { HasFilledTo self.now bytes.now row near.old near.old }
        ensures { HasFilled self.now bytes.now row near.old near.new }
    {
        let place = near.places[row];
        let Some(from) = self.failure_row(near, row) else {
            return self.fill_alone(bytes, row, near);
        };
        match self.table.edge_len(place) {
            Some(len) => self.fill_listed(bytes, row, from, len, near),
            None => self.fill_over(bytes, row, from, near),
        }
    }

    /// Fills all rows.
    fn fill(&self, bytes: &[u8], near: &mut Rows)
        requires alone { self.now.rows ≡ None }
        requires met { (i : ℕ) → i < length near.old.places.items → IsMet self.now false (slice_index near.old.places.items i) }
        requires room { length near.old.trans.items + length self.now.table.words.items ≤ greatest_number }
        requires letters { length bytes.now ≤ row_len near.old }
        requires bytes { AreBytesOf self.now.table.classes bytes.now }
        ensures { HasFilledAll self.now bytes.now near.old near.new }
    {
        for row in 0..near.places.len() {
            self.fill_row(bytes, row, near);
        }
    }

    /// The rows of as many states near the start as may have some, if they take at most this many bytes.
    fn rows_near(&self, alloc: Global, memory: usize) -> Result<Option<Rows>, AllocError>
        requires alone { self.now.rows ≡ None }
        requires alike { ClassesLeadAlike (contiguous_dictionary self.now) self.now.table.classes }
        ensures lead { IfOk result (λ near. ∥ IfSome near (AreNearRows (contiguous_dictionary self.now) self.now.table) ∥₁) }
        ensures within { IfOk result (λ near. IfSome near (AreNearWithin self.now memory)) }
    {
        let stride2 = self.table.classes.stride2();
        let most = self.most_near(stride2, memory);
        if most == 0 {
            return Ok(None);
        }
        let bytes = bytes_of(alloc, &self.table.classes)?;
        let places = self.places_near(alloc, &bytes, most)?;
        let mut near = blank(alloc, places, stride2)?;
        self.fill(&bytes, &mut near);
        Ok(Some(near))
    }

    /// The same automaton with other rows near the start, or none.
    pub(super) fn set_near(&mut self, near: Option<Rows>)
        requires { ∥ IfSome near (AreNearRows (contiguous_dictionary self.old) self.old.table) ∥₁ }
        ensures made { IsContiguousMadeOf (contiguous_dictionary self.old) self.old.table self.old.rows self.old.prefilter
            self.new }
        ensures near { self.new.near ≡ near }
    {
        self.near = near;
    }

    /// Makes rows for states near the start, where not all states have rows. They take at most this many bytes.
    pub(super) fn add_near(&mut self, alloc: Global, memory: usize) -> Result<(), AllocError>
        requires alike { ClassesLeadAlike (contiguous_dictionary self.old) self.old.table.classes }
        requires none { self.old.near ≡ None }
        ensures made { IfOk result (λ _. IsContiguousMadeOf (contiguous_dictionary self.old) self.old.table self.old.rows
            self.old.prefilter self.new) }
        ensures within { IfOk result (λ _. IfSome self.new.near (AreNearWithin self.new memory)) }
    {
        if self.rows.is_some() {
            return Ok(());
        }
        let near = self.rows_near(alloc, memory)?;
        self.set_near(near);
        Ok(())
    }
}
