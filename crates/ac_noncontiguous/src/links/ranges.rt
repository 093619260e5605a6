//! Where the patterns of each state stand in the list of the links.
//!
//! A state without patterns of its own has the range of its failure. So a range is stored once, and a state has its number: four
//! bytes a state, and 16 for each state in which a pattern ends.
ghost use Rattle.std.specs.Prelude.{◌≡◌, ℕ, ◌+◌, ◌<◌, length, slice_get, slice_index, slice_index_or, Some, IfOk};

use super::Range;
use ac_input::primitives::StateID;
use std::alloc::{AllocError, Global};

/// The ranges of the states.
#[derive(Drop)]
pub(crate) struct Ranges {
    /// For each state the number of its range.
    at: Vec<u32>,
    /// The ranges, of which the first one is empty.
    each: Vec<Range>,
    ghost within: { (i : ℕ) → i < length at.items → slice_index at.items i < length each.items },
    ghost first: { (0 < length each.items)
        × (slice_index_or each.items 0 (record { from = 0; len = 0 }) ≡ record { from = 0; len = 0 }) },
}

impl Ranges {
    ghost use Rattle.ac_noncontiguous.specs.Links.{by_state, no_range};
    ghost use Rattle.ac_noncontiguous.specs.Links.Lists.{IsRest};
    ghost use Rattle.ac_noncontiguous.specs.Links.Stored.{range_at, HasFewRanges, AreEmptyRanges, AddsRange, PointsTo, SetsRange};

    /// The empty range for each of this many states.
    pub(super) fn empty(alloc: Global, states: usize) -> Result<Ranges, AllocError>
        ensures { IfOk result (AreEmptyRanges states) }
    {
        let at = vec![in alloc; 0u32; states]?;
        let each = vec![in alloc; Range { from: 0, len: 0 }; 1]?;
        Ok(Ranges { at, each })
    }

    /// The range of the state.
    pub(crate) fn get(&self, id: StateID) -> Range
        requires { id < length (by_state self.now) }
        ensures { result ≡ slice_index_or (by_state self.now) id no_range }
    {
        self.range(self.at[id.as_usize()])
    }

    /// The range of this number.
    pub(super) fn range(&self, number: u32) -> Range
        requires { number < length self.now.each.items }
        ensures { result ≡ range_at self.now number }
    {
        self.each[number as usize]
    }

    /// The number of the range of the state's failure, or of the empty one.
    pub(super) fn rest(&self, fails: &[Option<StateID>], id: StateID) -> u32
        requires within { id < length fails.now }
        requires counted { length (by_state self.now) ≡ length fails.now }
        requires inner { (f : ℕ) → slice_get fails.now id ≡ Some (Some f) → f < length fails.now }
        ensures rest { IsRest fails.now (by_state self.now) id (range_at self.now result) }
        ensures within { result < length self.now.each.items }
    {
        let failure = fails[id.as_usize()];
        match failure {
            None => 0,
            Some(f) => self.at[f.as_usize()],
        }
    }

    /// Stores one more range, and returns its number.
    fn add(&mut self, range: Range) -> Result<u32, AllocError>
        requires { HasFewRanges self.old }
        ensures { IfOk result (AddsRange self.old self.new range) }
    {
        let number = self.each.len() as u32;
        self.each.push(range)?;
        Ok(number)
    }

    /// Gives the state the range of this number.
    fn point(&mut self, id: StateID, number: u32)
        requires number { number < length self.old.each.items }
        requires within { id < length (by_state self.old) }
        ensures { PointsTo self.old self.new id (range_at self.old number) }
    {
        self.at[id.as_usize()] = number;
    }

    /// Sets the range of the state. If it is the range of the number `like`, it isn't stored again.
    pub(super) fn set(&mut self, id: StateID, range: Range, like: u32) -> Result<(), AllocError>
        requires few { HasFewRanges self.old }
        requires within { id < length (by_state self.old) }
        requires like { like < length self.old.each.items }
        ensures { IfOk result (λ _. SetsRange self.old self.new id range) }
    {
        let known = self.range(like);
        if known.from == range.from && known.len == range.len {
            self.point(id, like);
            return Ok(());
        }
        let number = self.add(range)?;
        self.point(id, number);
        Ok(())
    }
}
