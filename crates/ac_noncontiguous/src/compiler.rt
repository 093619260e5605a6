//! How the tables of the automaton are made from the trie and its links.
//!
//! The states get their numbers first ([`numbering`]). Then they are laid out one after another in the order of these numbers: the
//! trie gives where each byte leads from a state ([`edges`]), and that becomes its transitions ([`transitions`]) and, near the
//! start, its row ([`rows`]). It takes time in proportion to the states, and keeps nothing but the tables.
//!
//! The table of states ([`states`]) is the largest, so it comes last, when the trie and the failures are freed: where each state
//! fails and how deep it is was noted before ([`outlines`]).
ghost use Rattle.std.specs.Prelude.{◌<◌, length, IfOk};
ghost use Rattle.ac_noncontiguous.specs.Links.{by_state};
ghost use Rattle.ac_noncontiguous.specs.Links.Failures.{AreShallower};
ghost use Rattle.ac_noncontiguous.specs.Links.Order.{IsBreadthFirst};
ghost use Rattle.ac_noncontiguous.specs.Nfa.{AreRowsBelow};
ghost use Rattle.ac_noncontiguous.specs.Compiler.Numbering.{FitsTrie};
ghost use Rattle.ac_noncontiguous.specs.Compiler.Assembly.{IsBack, AreTablesFor, AreClassedFor};

mod edges;
mod numbering;
mod outlines;
mod rows;
mod states;
mod transitions;

use crate::compiler::numbering::{Numbering, is_chosen};
use crate::compiler::outlines::outlines;
use crate::compiler::rows::{Rows, classes};
use crate::compiler::states::states;
use crate::compiler::transitions::Transitions;
use crate::links::Links;
use crate::nfa::tables::Tables;
use crate::trie::Trie;
use ac_input::primitives::StateID;
use ac_input::search::MatchKind;
use std::alloc::{AllocError, Global};

/// Where the bytes that begin no entered pattern lead from the unanchored start.
fn start_back(trie: &Trie, links: &Links, start: StateID) -> StateID
    requires { 0 < length (by_state links.now.ranges) }
    ensures { IsBack trie.now.kind (by_state links.now.ranges) start result }
{
    if trie.kind() != MatchKind::Standard && is_chosen(links, StateID::ZERO, true) {
        StateID::ZERO
    } else {
        start
    }
}

impl Tables {
    /// The tables for the trie and its links. States less deep than `dense_depth` keep a row as well; no result depends on it.
    pub(crate) fn from_trie(
        alloc: Global,
        trie: Trie,
        order: Vec<StateID>,
        links: Links,
        dense_depth: usize,
    ) -> Result<Tables, AllocError>
        requires order { IsBreadthFirst trie.states.items order.items }
        requires links { FitsTrie (length trie.states.items) links }
        requires shallower { AreShallower trie.states.items links.fails.items }
        ensures stands { IfOk result (AreTablesFor trie links) }
        ensures classed { IfOk result (AreClassedFor trie) }
        ensures rowed { IfOk result (AreRowsBelow dense_depth) }
    {
        let numbering = Numbering::new(alloc, &trie, &order, &links)?;
        let back = start_back(&trie, &links, numbering.start);
        let classes = classes(&trie);
        let layout = Transitions::new(alloc, &trie, &numbering, back)?;
        let rows = Rows::new(
            alloc,
            &trie,
            &numbering,
            &links,
            &order,
            back,
            &classes,
            dense_depth,
        )?;
        drop(order);
        let outlines = outlines(alloc, &trie, &numbering, &links)?;
        drop((trie, numbering.of, links.fails));
        let states = states(
            alloc,
            &outlines,
            &numbering.at,
            &links.ranges,
            &layout.offsets,
            &rows.offsets,
        )?;
        Ok(Tables {
            states,
            transitions: layout.transitions,
            rows: rows.rows,
            classes,
            matches: links.matches,
            start: numbering.start,
            max_match: numbering.max_match,
        })
    }
}
