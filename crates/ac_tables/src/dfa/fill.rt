//! How the rows of a DFA are filled.
//!
//! In the row of a state stands for each class of bytes the next state, all failures followed. For unanchored searches it is the
//! row of the state's failure with the state's own transitions written over it: where a byte leads nowhere from a state, it leads
//! where it does from the failure. For anchored searches it has the transitions alone.
//!
//! A failure is less deep than its state, so rows are filled in order of depth. The states come in two runs, before the starts and
//! after them, in each of which depth never falls; so the runs are merged. It takes time in proportion to the table.
ghost use Rattle.std.specs.Prelude.{◌≡◌, ◌+◌};
ghost use Rattle.ac_noncontiguous.specs.Nfa.ReadCalls.{special_in};
ghost use Rattle.ac_tables.specs.Dfa.Filling.{IsFit};

use crate::dfa::numbers::Numbers;
use ac_input::alphabet::ByteClasses;
use ac_input::primitives::StateID;
use ac_input::search::{Anchored, StartKind};
use ac_noncontiguous::nfa::{FAIL, NFA};
use std::alloc::{AllocError, Global};

/// What the rows are filled from.
#[derive(Clone, Copy)]
pub(crate) struct Filler<'a> {
    pub nfa: &'a NFA,
    pub classes: &'a ByteClasses,
    pub numbers: Numbers,
    ghost starts: { numbers.start ≡ (special_in nfa.now).start_unanchored_id },
    ghost fit: { IsFit (record { nfa = nfa.now; kind = numbers.kind; classes = classes.now; stride = numbers.stride }) },
}

impl<'a> Filler<'a> {
    ghost use Rattle.std.specs.Prelude.{IfOk, ◌⊎◌, ◌<◌, ◌≤◌, length};
    ghost use Rattle.ac_input.specs.declared.search.Anchored.TheVariants.{No, Yes};
    ghost use Rattle.ac_input.specs.Dfa.{Serves, dfa_states};
    ghost use Rattle.ac_noncontiguous.specs.Nfa.ReadCalls.{state_len, MayBeMet, edges_in, AreEdges};
    ghost use Rattle.ac_tables.specs.Dfa.Filling.{number_in, entry_in, IsRowRight, IsUnwritten, AreRowsFilled, IsMerged};
    ghost use Rattle.ac_tables.specs.Dfa.Fill.{row_plan_of, HasRows, IsWrittenOver, IsOnlyRow, IsFailureFilled, IsRowFree, ArePairMet, AreAllRows};

    /// Where the row of a state begins.
    #[inline]
    fn place(&self, anchored: Anchored, sid: StateID) -> usize
        requires { sid < state_len self.now.nfa.now }
        ensures { result ≡ number_in (row_plan_of self.now) anchored sid }
    {
        self.numbers.number(anchored, sid).as_usize()
    }

    /// What is written for a transition to this state.
    #[inline]
    fn entry(&self, anchored: Anchored, next: StateID) -> StateID
        requires { next < state_len self.now.nfa.now }
        ensures { result ≡ entry_in (row_plan_of self.now) anchored next }
    {
        if next.as_usize() == FAIL {
            return StateID::ZERO;
        }
        self.numbers.number(anchored, next)
    }

    /// Writes the transitions of a state over its row.
    fn write(&self, anchored: Anchored, sid: StateID, trans: &mut [StateID])
        requires kept { sid < state_len self.now.nfa.now }
        requires room { number_in (row_plan_of self.now) anchored sid + self.now.numbers.stride ≤ length trans.old }
        ensures lead { AreEdges self.now.nfa.now sid (edges_in self.now.nfa.now sid) }
        ensures written { IsWrittenOver self.now anchored sid trans.old trans.new }
    {
        let row = self.place(anchored, sid);
        for (byte, next) in self.nfa.iter_trans(sid) {
            trans[row + self.classes.get(byte) as usize] = self.entry(anchored, next);
        }
    }

    /// Fills the row of a state for unanchored searches, from that of its failure.
    fn fill_unanchored(&self, sid: StateID, trans: &mut [StateID])
        requires met { MayBeMet self.now.nfa.now No sid × (1 < sid) }
        requires len { HasRows self.now trans.old }
        requires failure { IsFailureFilled self.now sid trans.old }
        ensures alone { IsOnlyRow self.now No sid trans.old trans.new }
        ensures right { IsRowRight (row_plan_of self.now) No sid trans.new }
    {
        let row = self.place(Anchored::No, sid);
        let failure = self.place(Anchored::No, self.nfa.fail(sid));
        trans.copy_within(failure..failure + self.numbers.stride, row);
        self.write(Anchored::No, sid, trans);
    }

    /// Fills the row of a state for anchored searches, which is blank.
    fn fill_anchored(&self, sid: StateID, trans: &mut [StateID])
        requires met { MayBeMet self.now.nfa.now Yes sid × (1 < sid) }
        requires len { HasRows self.now trans.old }
        requires blank { IsRowFree self.now sid trans.old }
        ensures alone { IsOnlyRow self.now Yes sid trans.old trans.new }
        ensures right { IsRowRight (row_plan_of self.now) Yes sid trans.new }
    {
        self.write(Anchored::Yes, sid, trans);
    }

    /// Fills the row of one state for unanchored searches, and that of another for anchored ones, where such are served.
    fn fill(&self, plain: StateID, anchored: StateID, trans: &mut [StateID])
        requires met { ArePairMet self.now plain anchored }
        requires len { HasRows self.now trans.old }
        requires failure { Serves self.now.numbers.kind No → IsFailureFilled self.now plain trans.old }
        requires blank { Serves self.now.numbers.kind Yes → IsRowFree self.now anchored trans.old }
        ensures { AreRowsFilled (row_plan_of self.now) plain anchored trans.old trans.new }
    {
        match self.numbers.kind {
            StartKind::Unanchored => self.fill_unanchored(plain, trans),
            StartKind::Anchored => self.fill_anchored(anchored, trans),
            StartKind::Both => {
                self.fill_unanchored(plain, trans);
                self.fill_anchored(anchored, trans);
            }
        }
    }

    /// Whether the next state of the first run is filled before that of the second: it is no deeper, or the second has no more.
    fn is_first_next(&self, low: usize, high: usize) -> bool
        requires low { low ≤ self.now.numbers.start }
        requires high { high ≤ state_len self.now.nfa.now }
        requires some { (low < self.now.numbers.start) ⊎ (high < state_len self.now.nfa.now) }
        ensures { IsMerged self.now.nfa.now self.now.numbers.start low high result }
    {
        if low == self.numbers.start.as_usize() {
            return false;
        }
        if high == self.nfa.state_len() {
            return true;
        }
        self.nfa.depth(StateID::must(low)) <= self.nfa.depth(StateID::must(high))
    }

    /// Fills all rows of a table that is blank.
    pub(crate) fn fill_all(&self, trans: &mut [StateID])
        requires len { HasRows self.now trans.old }
        requires blank { IsUnwritten (length trans.old) 0 trans.old }
        ensures { AreAllRows self.now trans.new }
    {
        let states = self.nfa.state_len();
        let special = self.nfa.special();
        self.fill(
            special.start_unanchored_id,
            special.start_anchored_id,
            trans,
        );
        let start = special.start_unanchored_id.as_usize();
        let mut low = FAIL + 1;
        let mut high = start + 2;
        while low < start || high < states {
            if self.is_first_next(low, high) {
                let next = StateID::must(low);
                self.fill(next, next, trans);
                low += 1;
            } else {
                let next = StateID::must(high);
                self.fill(next, next, trans);
                high += 1;
            }
        }
    }

    /// A table of this many rows, filled.
    pub(crate) fn filled(&self, alloc: Global, rows: usize) -> Result<Vec<StateID>, AllocError>
        requires { rows ≡ dfa_states self.now.numbers.kind (state_len self.now.nfa.now) }
        ensures { IfOk result (λ trans. AreAllRows self.now trans.items) }
    {
        let mut trans = vec![in alloc; StateID::ZERO; rows * self.numbers.stride]?;
        self.fill_all(&mut trans);
        Ok(trans)
    }
}
