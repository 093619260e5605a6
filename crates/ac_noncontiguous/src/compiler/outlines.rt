//! Where the states fail and how deep they are, in the order of their numbers.
//!
//! The table of states takes nothing else from the trie and the failures. So eight bytes a state are noted, and the trie, the
//! failures and the numbers of its states are freed before the table is made.
ghost use Rattle.std.specs.Prelude.{◌≡◌, ◌<◌, length, IfOk};
ghost use Rattle.ac_noncontiguous.specs.Compiler.Numbering.{FitsTrie, IsNumbering};
ghost use Rattle.ac_noncontiguous.specs.Compiler.Assembly.{IsFailureOf, IsOutlineOf, AreOutlines};

use crate::compiler::numbering::Numbering;
use crate::links::Links;
use crate::trie::Trie;
use ac_input::primitives::StateID;
use std::alloc::{AllocError, Global};

/// Where a state fails, and its depth.
#[derive(Clone, Copy, Debug)]
pub(super) struct Outline {
    /// The number of the state to which it fails.
    pub fail: StateID,
    /// How many bytes lead to it from the start.
    pub depth: u32,
}

/// The number of the state to which the trie state fails: that of the dead one, if to none.
pub(super) fn failure(numbering: &Numbering, links: &Links, id: StateID) -> StateID
    requires within { id < length numbering.now.of.items }
    requires links { FitsTrie (length numbering.now.of.items) links.now }
    ensures { IsFailureOf numbering.now links.now id result }
{
    match &links.fails[id.as_usize()] {
        None => StateID::ZERO,
        Some(to) => numbering.of[to.as_usize()],
    }
}

/// The outline of the state.
fn outlined(trie: &Trie, numbering: &Numbering, links: &Links, state: usize) -> Outline
    requires numbering { IsNumbering (length trie.now.states.items) numbering.now }
    requires links { FitsTrie (length trie.now.states.items) links.now }
    requires within { state < length numbering.now.at.items }
    ensures { IsOutlineOf trie.now numbering.now links.now state result }
{
    if state < 2 {
        return Outline {
            fail: StateID::ZERO,
            depth: 0,
        };
    }
    let id = numbering.at[state];
    Outline {
        fail: failure(numbering, links, id),
        depth: trie.state(id).depth,
    }
}

/// The outlines of all states.
pub(super) fn outlines(
    alloc: Global,
    trie: &Trie,
    numbering: &Numbering,
    links: &Links,
) -> Result<Vec<Outline>, AllocError>
    requires numbering { IsNumbering (length trie.now.states.items) numbering.now }
    requires links { FitsTrie (length trie.now.states.items) links.now }
    ensures { IfOk result (λ outlines. AreOutlines trie.now numbering.now links.now
        (length numbering.now.at.items) outlines.items) }
{
    let len = numbering.at.len();
    let mut outlines = Vec::with_capacity(alloc, len)?;
    for state in 0..len {
        outlines.push(outlined(trie, numbering, links, state))?;
    }
    Ok(outlines)
}
