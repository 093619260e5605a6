//! Reading on by rows, where an automaton has some: one look for a byte.
ghost use Rattle.std.specs.Prelude.{◌≡◌, ◌<◌, ◌≤◌, Some, IsTrue, length};
ghost use Rattle.ac_tables.specs.Dfa.Lookups.{ArePlain};

use crate::contiguous::NFA;
use crate::contiguous::rows::Rows;
use crate::rows::{is_plain, next};
use ac_automaton::ahead::{Note, Noted};
use ac_automaton::automaton::Advance;
use ac_automaton::lanes::note_ahead;
use ac_automaton::look::{Between, LookUp};
use ac_input::primitives::StateID;
use ac_input::search::Anchored;
use ac_input::steps::Steps;

/// An automaton and its rows. Its states are the rows, and only unanchored searches come to them.
#[derive(Clone, Copy)]
struct ByRows<'a> {
    nfa: &'a NFA,
    rows: &'a Rows,
    /// Whether each byte is a class of its own.
    plain: bool,
    ghost held: { nfa.now.rows ≡ Some rows.now },
    ghost alone: { IsTrue plain → ArePlain nfa.now.table.classes },
}

impl<'a> LookUp for ByRows<'a> {
    ghost use Rattle.ac_tables.specs.Contiguous.ByRows.{by_rows_built_as, IsRowRead, row_matches_at};
    ghost use Rattle.ac_tables.specs.Contiguous.Reads.{contiguous_matches_at};
    ghost use Rattle.ac_tables.specs.Contiguous.Rows.{place_in_row};

    ghost built = { by_rows_built_as };

    ghost Reaches = { IsRowRead };

    ghost matches = { row_matches_at };

    ghost tells = { λ by anchored text row reads. reads.tells };

    #[inline(always)]
    fn look_up(&self, anchored: Anchored, sid: StateID, byte: u8, steps: &mut Steps) -> StateID {
        steps.look();
        next(
            &self.rows.trans,
            &self.nfa.table.classes,
            self.plain,
            sid,
            byte,
        )
    }
}

impl NFA {
    ghost use Rattle.std.specs.Prelude.{◌+◌, [], take, IfSome};
    ghost use Rattle.ac_automaton.specs.Ahead.{ReadsAhead};
    ghost use Rattle.ac_automaton.specs.Automaton.{IsReached};
    ghost use Rattle.ac_automaton.specs.Look.{ReadsTo};
    ghost use Rattle.ac_input.specs.declared.search.Anchored.TheVariants.{No};
    ghost use Rattle.ac_tables.specs.Contiguous.ByRows.{ReadsRows};
    ghost use Rattle.ac_tables.specs.Contiguous.Reads.{contiguous_built_as, contiguous_matches_at, IsContiguousRead};
    ghost use Rattle.ac_tables.specs.Contiguous.Rows.{IsRowIn, place_in_row};

    /// Reads on to the first state between two numbers, these included, or to the last byte, by the rows of the automaton.
    #[inline(always)]
    fn read_rows_from(
        &self,
        rows: &Rows,
        row: StateID,
        bytes: &[u8],
        two: Between,
        steps: &mut Steps,
    ) -> Advance
        requires held { self.now.rows ≡ Some rows.now }
        requires reached { IsReached (IsContiguousRead self.now No) (place_in_row rows.now row) }
        requires row { IsRowIn rows.now row }
        ensures { ReadsRows self.now rows.now row bytes.now two result steps.old steps.new }
    {
        let by = ByRows {
            nfa: self,
            rows,
            plain: is_plain(&self.table.classes),
        };
        let stop = by.read_until(Anchored::No, row, bytes, two, steps);
        Advance {
            sid: rows.place(stop.sid),
            taken: stop.taken,
        }
    }

    /// The same between two places, by the words where the rows of these aren't found.
    #[inline(always)]
    pub(super) fn read_rows(
        &self,
        rows: &Rows,
        sid: StateID,
        bytes: &[u8],
        to: Between,
        steps: &mut Steps,
    ) -> Advance
        requires held { self.now.rows ≡ Some rows.now }
        requires reached { IsReached (IsContiguousRead self.now No) sid }
        ensures { ReadsTo (contiguous_built_as self.now) (IsContiguousRead self.now) No to sid
            bytes.now result steps.old steps.new }
    {
        match rows.row_of(sid) {
            Some(row) => match rows.between(to) {
                Some(two) => self.read_rows_from(rows, row, bytes, two, steps),
                None => self.read_words(Anchored::No, sid, bytes, to, steps),
            },
            None => self.read_words(Anchored::No, sid, bytes, to, steps),
        }
    }

    /// Reads on to the first state between two places, these included, and passes bytes in the start; by the words where the rows of these
    /// states aren't found. The last place is that of the last state that matches, which is before the start.
    #[inline(always)]
    pub(super) fn skip_rows(
        &self,
        rows: &Rows,
        sid: StateID,
        bytes: &[u8],
        to: Between,
        steps: &mut Steps,
    ) -> Advance
        requires held { self.now.rows ≡ Some rows.now }
        requires reached { IsReached (IsContiguousRead self.now No) sid }
        requires before { to.last < self.now.table.start }
        requires last { to.last ≡ self.now.table.max_match }
        ensures { ReadsTo (contiguous_built_as self.now) (IsContiguousRead self.now) No to sid
            bytes.now result steps.old steps.new }
    {
        let found = (
            rows.row_of(sid),
            rows.row_of(self.table.start),
            rows.between(to),
        );
        let (Some(row), Some(start), Some(two)) = found else {
            return self.read_words(Anchored::No, sid, bytes, to, steps);
        };
        let by = ByRows {
            nfa: self,
            rows,
            plain: is_plain(&self.table.classes),
        };
        let stop = self
            .skips
            .read_to_from(&by, start, Anchored::No, row, bytes, two, steps);
        Advance {
            sid: rows.place(stop.sid),
            taken: stop.taken,
        }
    }

    /// Reads ahead of a search by the rows of the automaton, if its state and that in which it begins anew have one, and it is known
    /// which rows match.
    pub(super) fn note_by_rows(
        &self,
        rows: &Rows,
        sid: StateID,
        bytes: &[u8],
        at: usize,
        len: usize,
        anew: Option<StateID>,
        notes: &mut [Note],
        steps: &mut Steps,
    ) -> Noted
        requires held { self.now.rows ≡ Some rows.now }
        requires lanes { IsTrue self.now.lanes }
        requires reached { IsReached (IsContiguousRead self.now No) sid }
        requires begins { IfSome anew (IsContiguousRead self.now No []) }
        requires within { at + len ≤ length bytes.now }
        ensures few { result.notes ≤ length notes.new }
        ensures reads { ReadsAhead (contiguous_built_as self.now) (IsContiguousRead self.now No) (contiguous_matches_at self.now)
            anew sid bytes.now at len result.read (take result.notes notes.new) steps.old steps.new }
    {
        let Some(row) = rows.row_of(sid) else {
            return Noted::none();
        };
        let Some(start) = rows.row_of(self.table.start) else {
            return Noted::none();
        };
        let Some(last) = rows.last_up_to(self.table.max_match) else {
            return Noted::none();
        };
        let Some(from) = rows.rows_of(anew) else {
            return Noted::none();
        };
        let by = ByRows {
            nfa: self,
            rows,
            plain: is_plain(&self.table.classes),
        };
        let unused = &self.unused;
        let noted = note_ahead(
            &by, start, last, unused, row, bytes, at, len, from, notes, steps,
        );
        rows.place_notes(notes, noted.notes);
        noted
    }
}
