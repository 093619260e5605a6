//! Copies of a contiguous automaton.
ghost use Rattle.std.specs.Prelude.{IfOk};
ghost use Rattle.ac_tables.specs.Contiguous.Build.{IsCopiedTable};
ghost use Rattle.ac_tables.specs.Contiguous.Builder.{IsContiguousCopy};
ghost use Rattle.ac_tables.specs.Contiguous.Rows.{AreSameIfAny};

use crate::contiguous::NFA;
use crate::contiguous::rows::Rows;
use crate::contiguous::table::Table;
use ac_automaton::skip::clone_prefilter;
use ac_literal::openings::Openings;
use std::alloc::{AllocError, Global};

/// A copy of the table.
fn clone_table(alloc: Global, table: &Table) -> Result<Table, AllocError>
    ensures { IfOk result (IsCopiedTable table.now) }
{
    Ok(Table {
        words: Vec::from_slice(alloc, &table.words)?,
        classes: table.classes.clone()?,
        alphabet_len: table.alphabet_len,
        start: table.start,
        start_anchored: table.start_anchored,
        max_match: table.max_match,
    })
}

/// A copy of the rows, if there are any.
fn clone_rows(alloc: Global, rows: &Option<Rows>) -> Result<Option<Rows>, AllocError>
    ensures { IfOk result (AreSameIfAny rows.now) }
{
    match rows {
        Some(rows) => Ok(Some(rows.clone(alloc)?)),
        None => Ok(None),
    }
}

impl NFA {
    /// A copy of the automaton, in memory from `alloc`.
    pub fn clone(&self, alloc: Global) -> Result<NFA, AllocError>
        ensures { IfOk result (IsContiguousCopy self.now) }
    {
        let prefilter = clone_prefilter(alloc, self.prefilter.as_ref())?;
        let lens = self.lens.clone(alloc)?;
        let table = clone_table(alloc, &self.table)?;
        let openings = Openings::clone_any(alloc, &self.skips.openings)?;
        let rows = clone_rows(alloc, &self.rows)?;
        let near = clone_rows(alloc, &self.near)?;
        let mut copy = NFA::from_parts(
            table,
            rows,
            lens,
            prefilter,
            openings,
            self.pairing,
            self.kind,
        );
        copy.set_near(near);
        copy.set_lanes(self.lanes);
        Ok(copy)
    }
}
