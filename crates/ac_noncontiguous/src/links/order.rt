//! The states of a trie in order of their depth.
//!
//! A failure link leads to a state of lesser depth, so the links are computed breadth first. States are numbered as they were
//! added, one pattern after another; here they are put in order of their depth. A pass from the last state back makes a list of
//! the states of each depth, and the lists are read one after another. The time is in proportion to the states; the memory besides
//! the order, eight bytes a state, is freed.
ghost use Rattle.std.specs.Prelude.{◌+◌, ◌<◌, length, IfOk};
ghost use Rattle.ac_noncontiguous.specs.Links.Order.{AreLevels, AreInOrder, IsBreadthFirst};

use crate::trie::Trie;
use ac_input::primitives::StateID;
use std::alloc::{AllocError, Global};

/// For each depth its first state, and for each state the next one of its depth; where there is none, the number of states.
#[derive(Drop)]
struct Levels {
    first: Vec<u32>,
    next: Vec<u32>,
}

impl Trie {
    /// The states of each depth.
    fn levels(&self, alloc: Global) -> Result<Levels, AllocError>
        ensures { IfOk result
            (λ it. AreLevels self.now.states.items 0 it.first.items it.next.items) }
    {
        let len = self.states.len();
        let mut first = vec![in alloc; len as u32; len]?;
        let mut next = vec![in alloc; 0u32; len]?;
        let mut from = len;
        while from > 0 {
            from -= 1;
            let depth = self.states[from].depth as usize;
            next[from] = first[depth];
            first[depth] = from as u32;
        }
        Ok(Levels { first, next })
    }

    /// Puts the states of the depth after those of lesser depths.
    fn push_level(
        &self,
        levels: &Levels,
        depth: usize,
        order: &mut Vec<StateID>,
    ) -> Result<(), AllocError>
        requires levels { AreLevels self.now.states.items 0
            levels.now.first.items levels.now.next.items }
        requires depth_in { depth < length self.now.states.items }
        requires before { AreInOrder self.now.states.items depth 0 order.old.items }
        ensures { IfOk result
            (λ _. AreInOrder self.now.states.items (depth + 1) 0 order.new.items) }
    {
        let mut at = levels.first[depth] as usize;
        while at < self.states.len() {
            order.push(StateID::must(at))?;
            at = levels.next[at] as usize;
        }
        Ok(())
    }

    /// The states breadth first: in order of their depth, and those of one depth as they were added.
    pub(crate) fn breadth_first(&self, alloc: Global) -> Result<Vec<StateID>, AllocError>
        ensures { IfOk result (λ order. IsBreadthFirst self.now.states.items order.items) }
    {
        let levels = self.levels(alloc)?;
        let mut order = Vec::with_capacity(alloc, self.states.len())?;
        for depth in 0..self.states.len() {
            self.push_level(&levels, depth, &mut order)?;
        }
        Ok(order)
    }
}
