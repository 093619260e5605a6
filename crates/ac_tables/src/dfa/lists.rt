//! The patterns of the states that match: one vector, and where the list of each state ends.
ghost use Rattle.std.specs.Prelude.{IfOk};
ghost use Rattle.ac_tables.specs.Dfa.Copy.{AreSameLists};
ghost use Rattle.ac_tables.specs.Dfa.Lists.{IsListAdded, AreListsOf};

use ac_input::primitives::{PatternID, StateID};
use ac_noncontiguous::nfa::{FAIL, NFA};
use std::alloc::{AllocError, Global};

/// The number of the first state of the noncontiguous automaton that may match.
const FIRST: usize = FAIL + 1;

/// The lists, one after another.
#[derive(Drop)]
pub(crate) struct Lists {
    pub patterns: Vec<PatternID>,
    /// Where each list ends; the first begins at 0, and each other one where the one before it ends.
    pub ends: Vec<usize>,
}

impl Lists {
    /// Puts a list after the others.
    fn push(&mut self, list: &[PatternID]) -> Result<(), AllocError>
        ensures { IfOk result (λ _. IsListAdded list.now self.old self.new) }
    {
        self.patterns.extend_from_slice(list)?;
        self.ends.push(self.patterns.len())?;
        Ok(())
    }

    /// The lists of the states that match, in the order of the states.
    pub(super) fn of(alloc: Global, nfa: &NFA) -> Result<Lists, AllocError>
        ensures { IfOk result (AreListsOf nfa.now) }
    {
        let mut lists = Lists {
            patterns: Vec::new(alloc),
            ends: Vec::new(alloc),
        };
        for sid in FIRST..nfa.special().max_match_id.one_more() {
            lists.push(nfa.match_list(StateID::must(sid)))?;
        }
        Ok(lists)
    }

    /// A copy, in memory from `alloc`.
    pub(super) fn clone(&self, alloc: Global) -> Result<Lists, AllocError>
        ensures { IfOk result (AreSameLists self.now) }
    {
        Ok(Lists {
            patterns: Vec::from_slice(alloc, &self.patterns)?,
            ends: Vec::from_slice(alloc, &self.ends)?,
        })
    }
}
