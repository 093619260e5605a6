//! Which number each state of the noncontiguous automaton has in the table of a DFA.
//!
//! With one start kind the rows are in the order of the states. With both, each state has two rows next to each other, one for
//! either anchoring; only the dead state, the fail state and the two starts have one. So the rows of the states that match stay in
//! front, the two starts come next, and a number is computed, not looked up.
ghost use Rattle.std.specs.Prelude.{◌≡◌, ◌+◌, ◌-◌, ◌*◌, ◌≤◌, OnOk, IfErr};
ghost use Rattle.ac_input.specs.Number.{greatest_number};
ghost use Rattle.ac_input.specs.Dfa.{dfa_states};
ghost use Rattle.ac_input.specs.Input.{is_anchored};
ghost use Rattle.ac_tables.specs.Dfa.Numbers.{number_at};
ghost use Rattle.ac_tables.specs.Dfa.Table.{dfa_row_of};
ghost use Rattle.ac_tables.specs.Dfa.Filling.{IsOverflow};

use ac_input::primitives::{GREATEST, StateID};
use ac_input::search::{Anchored, StartKind};
use ac_noncontiguous::error::{BuildError, BuildErrorKind};

/// How many rows there are for this many states of the noncontiguous automaton.
pub(crate) fn rows(kind: StartKind, states: usize) -> usize
    requires some { 2 ≤ states }
    requires few { states ≤ greatest_number + 1 }
    ensures { result ≡ dfa_states kind states }
{
    match kind {
        StartKind::Both => 2 * states - 4,
        StartKind::Unanchored | StartKind::Anchored => states,
    }
}

/// Fails if the number of the last of this many rows of this length would be past the greatest.
pub(crate) fn check_size(rows: usize, stride: usize) -> Result<(), BuildError>
    requires { 1 ≤ rows }
    ensures fits { OnOk result ((rows - 1) * stride ≤ greatest_number) }
    ensures refused { IfErr result (IsOverflow ((rows - 1) * stride)) }
{
    let last = (rows - 1).checked_mul(stride).unwrap_or(usize::MAX);
    if last > GREATEST {
        return Err(BuildErrorKind::StateIDOverflow {
            max: GREATEST as u64,
            requested_max: last as u64,
        }
        .into());
    }
    Ok(())
}

/// Where the rows of the states begin.
#[derive(Clone, Copy)]
pub(crate) struct Numbers {
    pub kind: StartKind,
    /// The unanchored start of the noncontiguous automaton.
    pub start: StateID,
    /// How many entries a row has.
    pub stride: usize,
}

impl Numbers {
    /// The row of a state for searches of this anchoring.
    #[inline]
    fn row(&self, anchored: Anchored, sid: StateID) -> usize
        ensures { result ≡ dfa_row_of self.now.kind self.now.start (is_anchored anchored) sid }
    {
        let at = sid.as_usize();
        let start = self.start.as_usize();
        if at <= 1 {
            return at;
        }
        match self.kind {
            StartKind::Unanchored | StartKind::Anchored => at,
            StartKind::Both => match anchored {
                Anchored::No => { if at <= start { 2 * at - 2 } else { 2 * at - 4 } }
                Anchored::Yes => { if start <= at { 2 * at - 3 } else { 2 * at - 1 } }
            },
        }
    }

    /// Where the row of a state begins, which is its number.
    #[inline]
    pub(crate) fn number(&self, anchored: Anchored, sid: StateID) -> StateID
        requires { number_at self.now anchored sid ≤ greatest_number }
        ensures { result ≡ number_at self.now anchored sid }
    {
        StateID::must(self.row(anchored, sid) * self.stride)
    }
}
