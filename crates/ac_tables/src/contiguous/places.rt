//! Where the states stand.
//!
//! All places are known before the first word is written, so each state is written with its final numbers, and a build that would
//! need too great a number fails before memory for the words is taken.
ghost use Rattle.std.specs.Prelude.{◌≡◌, ◌+◌, ◌<◌, ◌≤◌, ◌==◌, ◌++◌, ◌∷◌, [], length, IfOk, IfErr};
ghost use Rattle.ac_input.specs.Number.{greatest_number};
ghost use Rattle.ac_noncontiguous.specs.Nfa.ReadCalls.{state_len, edges_in};
ghost use Rattle.ac_tables.specs.Contiguous.Table.{len_at};
ghost use Rattle.ac_tables.specs.Contiguous.Words.{word_count};
ghost use Rattle.ac_tables.specs.Contiguous.Build.{ArePlacesIn, IsPlaceAfter, IsPlaceTooGreat, IsRefusedFor};

use crate::contiguous::layout::{HEAD, MOST_SPARSE};
use ac_input::alphabet::ByteClasses;
use ac_input::primitives::{GREATEST, StateID};
use ac_noncontiguous::error::{BuildError, BuildErrorKind};
use ac_noncontiguous::nfa::{FAIL, NFA};
use std::alloc::{AllocError, Global};

/// How many words a state with this many transitions and patterns takes.
fn words_len(shallow: bool, transitions: usize, matches: usize, alphabet_len: usize) -> usize
    requires alphabet { alphabet_len ≤ 256 }
    requires matches { matches ≤ greatest_number + 1 }
    ensures len { result ≡ word_count alphabet_len shallow transitions matches }
    ensures fits { result ≤ greatest_number + 300 }
{
    let list = if matches > 1 { matches + 1 } else { matches };
    if shallow || transitions > MOST_SPARSE {
        return HEAD + alphabet_len + list;
    }
    if transitions == 1 && matches == 0 {
        return HEAD + 1;
    }
    HEAD + (transitions + 3) / 4 + transitions + list
}

/// How many transitions the state has.
fn trans_len(nfa: &NFA, sid: StateID) -> usize
    requires { sid < state_len nfa.now }
    ensures { result ≡ length (edges_in nfa.now sid) }
{
    nfa.iter_trans(sid).count()
}

/// How many words the state takes. The fail state has none.
fn len_of(nfa: &NFA, sid: StateID, dense_depth: usize, classes: &ByteClasses) -> usize
    requires { sid < state_len nfa.now }
    ensures len { result ≡ len_at nfa.now dense_depth classes.now sid }
    ensures fits { result ≤ greatest_number + 300 }
{
    if sid.as_usize() == FAIL {
        return 0;
    }
    words_len(
        nfa.depth(sid) < dense_depth,
        trans_len(nfa, sid),
        nfa.match_list(sid).len(),
        classes.alphabet_len(),
    )
}

/// The place of a state, if the states before it take this many words. It fails if that is past the greatest number.
fn place_of(state: usize, before: usize) -> Result<StateID, BuildError>
    ensures placed { IfOk result (IsPlaceAfter state before) }
    ensures refused { IfErr result (IsPlaceTooGreat state before) }
{
    if state == FAIL {
        return Ok(StateID::must(FAIL));
    }
    match StateID::new(before) {
        Ok(place) => Ok(place),
        Err(error) => Err(BuildError::from(BuildErrorKind::StateIDOverflow {
            max: GREATEST as u64,
            requested_max: error.attempted(),
        })),
    }
}

/// Puts a place after the others.
fn push(place: StateID, places: &mut Vec<StateID>) -> Result<(), AllocError>
    ensures { IfOk result (λ _. places.new.items ≡ places.old.items ++ place ∷ []) }
{
    Ok(places.push(place)?)
}

/// The places of the states, and how many words they take.
#[derive(Drop)]
pub(super) struct Layout {
    pub places: Vec<StateID>,
    pub words_len: usize,
}

/// Lays the states out, one after another.
pub(super) fn lay_out(
    alloc: Global,
    nfa: &NFA,
    dense_depth: usize,
    classes: &ByteClasses,
) -> Result<Layout, BuildError>
    ensures made { IfOk result
        (λ it. ArePlacesIn nfa.now dense_depth classes.now it.places.items) }
    ensures refused { IfErr result (IsRefusedFor nfa.now dense_depth classes.now) }
{
    let states = nfa.state_len();
    let mut places = Vec::with_capacity(alloc, states)?;
    let mut before = 0;
    for state in 0..states {
        push(place_of(state, before)?, &mut places)?;
        before += len_of(nfa, StateID::must(state), dense_depth, classes);
    }
    Ok(Layout {
        places,
        words_len: before,
    })
}
