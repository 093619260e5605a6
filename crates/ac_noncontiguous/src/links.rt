//! To which state each state of a trie fails, and which patterns match there.
//!
//! The patterns of a state are its own, and then those of the state to which it fails. They are a range of one list: a state
//! without patterns of its own shares the range of its failure, and another one has a copy after its own. No pattern stands
//! twice in a range.
//!
//! The links are computed breadth first ([`order`]), since a state fails to one of lesser depth: first where each state fails
//! ([`failures`], over [`children`] put side by side), then its patterns ([`own`], and those of its failure), whose range is
//! stored ([`ranges`]).
ghost use Rattle.std.specs.Prelude.{◌+◌, ◌<◌, length, IfOk, ◌≤◌};
ghost use Rattle.ac_input.specs.Dictionary.{Dictionary};
ghost use Rattle.ac_noncontiguous.specs.Trie.Tree.{depth};
ghost use Rattle.ac_noncontiguous.specs.Trie.Kept.{IsTrieOf};
ghost use Rattle.ac_noncontiguous.specs.Compiler.Assembly.{AreOwnOf, AreLinksFor};
ghost use Rattle.ac_noncontiguous.specs.Links.Order.{IsBreadthFirst};
ghost use Rattle.ac_noncontiguous.specs.Links.{AreFails, AreLinks, in_range};
ghost use Rattle.ac_noncontiguous.specs.Links.Lists.{EndAbove, IsListed};
ghost use Rattle.ac_noncontiguous.specs.Links.Failures.{AreShallower};

mod children;
mod failures;
mod order;
pub(crate) mod own;
pub(crate) mod ranges;

use crate::links::own::OwnPatterns;
use crate::links::ranges::Ranges;
use crate::trie::Trie;
use ac_input::primitives::{PatternID, StateID};
use std::alloc::{AllocError, Global};

/// Some patterns of a list: from one place on, this many.
#[derive(Clone, Copy, Debug)]
pub(crate) struct Range {
    pub from: usize,
    pub len: u32,
}

/// For each state of a trie where it fails, and its patterns.
#[derive(Drop)]
pub(crate) struct Links {
    /// The state to which it fails, if not the dead one.
    pub fails: Vec<Option<StateID>>,
    /// Where its patterns stand.
    pub ranges: Ranges,
    /// The patterns.
    pub matches: Vec<PatternID>,
}

/// Lists the patterns of the state, its own and the rest, and returns where they stand.
fn push_list(
    trie: &Trie,
    own: &OwnPatterns,
    id: StateID,
    rest: &Range,
    matches: &mut Vec<PatternID>,
) -> Result<Range, AllocError>
    requires own { AreOwnOf trie.now own.now }
    requires within { id < length trie.now.states.items }
    requires inside { rest.now.from + rest.now.len ≤ length matches.old.items }
    requires above { EndAbove trie.now.states.items trie.now.ends.items
        (depth trie.now.states.items id) (in_range matches.old.items rest.now) }
    ensures { IfOk result (λ range.
        IsListed trie.now.ends.items id rest.now range matches.old.items matches.new.items) }
{
    let from = matches.len();
    trie.push_own(own, id, matches)?;
    if matches.len() == from {
        return Ok(*rest);
    }
    matches.extend_from_within(rest.from..rest.from + rest.len as usize)?;
    let len = (matches.len() - from) as u32;
    Ok(Range { from, len })
}

impl Links {
    /// The links of a trie. The order is that of [`breadth_first`](Trie::breadth_first).
    pub(crate) fn of(alloc: Global, trie: &Trie, order: &[StateID]) -> Result<Links, AllocError>
        requires { IsBreadthFirst trie.now.states.items order.now }
        ensures links { IfOk result (AreLinksFor trie.now) }
        ensures shallower { IfOk result (λ links. AreShallower trie.now.states.items links.fails.items) }
    {
        let fails = trie.failures(alloc, order)?;
        Links::from_fails(alloc, trie, order, fails)
    }

    /// The links of a trie of which the failures are known.
    fn from_fails(
        alloc: Global,
        trie: &Trie,
        order: &[StateID],
        fails: Vec<Option<StateID>>,
    ) -> Result<Links, AllocError>
        requires order { IsBreadthFirst trie.now.states.items order.now }
        requires shallower { AreShallower trie.now.states.items fails.items }
        ensures links { IfOk result (λ links. (m : Dictionary) → IsTrieOf m trie.now →
            AreFails m trie.now.states.items fails.items → AreLinks m trie.now.states.items links) }
        ensures shallower { IfOk result (λ links. AreShallower trie.now.states.items links.fails.items) }
    {
        let own = trie.own_patterns(alloc)?;
        let mut ranges = Ranges::empty(alloc, fails.len())?;
        let mut matches = Vec::new(alloc);
        for id in order {
            let rest = ranges.rest(&fails, *id);
            let range = push_list(trie, &own, *id, &ranges.range(rest), &mut matches)?;
            ranges.set(*id, range, rest)?;
        }
        Ok(Links {
            fails,
            ranges,
            matches,
        })
    }
}
