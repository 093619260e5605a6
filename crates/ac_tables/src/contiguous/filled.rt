//! How the rows of a contiguous automaton are made, if they are small enough.
ghost use Rattle.std.specs.Prelude.{◌≡◌, ◌↔◌, ◌+◌, ◌*◌, ◌<◌, ◌≤◌, IsTrue, length, IfOk, IfSome, IsSome, Bool};
ghost use Rattle.ac_input.specs.Number.{greatest_number};
ghost use Rattle.ac_noncontiguous.specs.Nfa.ReadCalls.{state_len};
ghost use Rattle.ac_tables.specs.Contiguous.Build.{HasStride, AreRowsFrom};
ghost use Rattle.ac_tables.specs.Contiguous.Rows.{bytes_of_rows};
ghost use Rattle.ac_tables.specs.Contiguous.Filled.{AreRowsSmall, AreSmall, rows_bytes};
ghost use Rattle.ac_tables.specs.Source.{AreClassesFor};
ghost use Rattle.ac_tables.specs.Contiguous.Cut.{Rise};

use crate::contiguous::rows::{ENTRY, Rows, index_len, index_of};
use crate::dfa::fill::Filler;
use crate::dfa::numbers::Numbers;
use ac_input::alphabet::ByteClasses;
use ac_input::primitives::{GREATEST, StateID};
use ac_input::search::StartKind;
use ac_noncontiguous::nfa::NFA;
use std::alloc::{AllocError, Global};

/// Whether rows of this length, one for each of these places, take no more than this many bytes, with the places and their index,
/// and each row begins at a number.
fn are_small(places: &[StateID], stride: usize, memory: usize) -> bool
    requires some { 0 < length places.now }
    requires few { length places.now ≤ greatest_number + 1 }
    requires stride { stride ≤ 256 }
    ensures { IsTrue result ↔ AreSmall stride places.now memory }
{
    let rows = places.len();
    let entries = rows * stride;
    entries <= GREATEST && (entries + rows).saturating_add(index_len(places)) <= memory / ENTRY
}

/// The rows of an automaton whose states have these places. Each row has this many entries.
fn fill(
    alloc: Global,
    nfa: &NFA,
    classes: &ByteClasses,
    places: Vec<StateID>,
    stride: usize,
) -> Result<Rows, AllocError>
    requires chosen { (classed : Bool) × AreClassesFor nfa.now classed classes.now }
    requires places { length places.items ≡ state_len nfa.now }
    requires rise { Rise places.items }
    requires stride { HasStride classes.now stride }
    requires small { state_len nfa.now * stride ≤ greatest_number }
    requires some { 0 < length places.items }
    ensures made { IfOk result (AreRowsFrom nfa.now classes.now places.items) }
    ensures bytes { IfOk result (λ rows. bytes_of_rows rows ≡ rows_bytes stride places.items) }
{
    let start = nfa.special().start_unanchored_id;
    let index = index_of(alloc, &places)?;
    let numbers = Numbers {
        kind: StartKind::Unanchored,
        start,
        stride,
    };
    let filler = Filler {
        nfa,
        classes,
        numbers,
    };
    let trans = filler.filled(alloc, nfa.state_len())?;
    let rows = Rows {
        trans,
        places,
        index,
        stride2: classes.stride2(),
        start,
    };
    Ok(rows)
}

/// The rows of an automaton whose states have these places, if they take at most this many bytes.
pub(super) fn rows_of(
    alloc: Global,
    nfa: &NFA,
    classes: &ByteClasses,
    places: Vec<StateID>,
    memory: usize,
) -> Result<Option<Rows>, AllocError>
    requires chosen { (classed : Bool) × AreClassesFor nfa.now classed classes.now }
    requires places { length places.items ≡ state_len nfa.now }
    requires rise { Rise places.items }
    requires some { 0 < length places.items }
    ensures made { IfOk result (λ rows. IfSome rows (AreRowsFrom nfa.now classes.now places.items)) }
    ensures asked { IfOk result (λ rows. IsSome rows ↔ AreRowsSmall classes.now places.items memory) }
    ensures taken { IfOk result (λ rows. IfSome rows (λ r. bytes_of_rows r ≤ memory)) }
{
    let stride = classes.stride();
    if are_small(&places, stride, memory) {
        Ok(Some(fill(alloc, nfa, classes, places, stride)?))
    } else {
        Ok(None)
    }
}
