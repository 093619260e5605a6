//! The patterns that end in each state.
//!
//! A trie stores for each pattern the state in which it ends. A pass from the last pattern back makes a list for each state, in
//! rising order of number; it takes four bytes a state and four a pattern, and time in proportion to both.
ghost use Rattle.std.specs.Prelude.{◌<◌, length, IfOk};
ghost use Rattle.ac_noncontiguous.specs.Compiler.Assembly.{AreOwnOf};
ghost use Rattle.ac_noncontiguous.specs.Links.Own.{AppendsOwn};

use crate::trie::Trie;
use ac_input::primitives::{PatternID, StateID};
use std::alloc::{AllocError, Global};

/// For each state the first pattern that ends in it, and for each pattern the next one that ends in the same state; where there
/// is none, the number of patterns.
#[derive(Drop)]
pub(crate) struct OwnPatterns {
    first: Vec<u32>,
    next: Vec<u32>,
}

impl Trie {
    /// The patterns that end in each state.
    pub(crate) fn own_patterns(&self, alloc: Global) -> Result<OwnPatterns, AllocError>
        ensures { IfOk result (AreOwnOf self.now) }
    {
        let len = self.ends.len();
        let mut first = vec![in alloc; len as u32; self.states.len()]?;
        let mut next = vec![in alloc; 0u32; len]?;
        let mut from = len;
        while from > 0 {
            from -= 1;
            if let Some(id) = &self.ends[from] {
                let id = id.as_usize();
                next[from] = first[id];
                first[id] = from as u32;
            }
        }
        Ok(OwnPatterns { first, next })
    }

    /// Puts the patterns that end in the state after those of the list.
    pub(crate) fn push_own(
        &self,
        own: &OwnPatterns,
        id: StateID,
        list: &mut Vec<PatternID>,
    ) -> Result<(), AllocError>
        requires own { AreOwnOf self.now own.now }
        requires within { id < length self.now.states.items }
        ensures { IfOk result
            (λ _. AppendsOwn self.now.ends.items id list.old.items list.new.items) }
    {
        let mut at = own.first[id.as_usize()] as usize;
        while at < self.ends.len() {
            list.push(PatternID::must(at))?;
            at = own.next[at] as usize;
        }
        Ok(())
    }
}
