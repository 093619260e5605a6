//! What the tests of searches assert of results.
ghost use Rattle.std.specs.Iterator.{IsFinite};
ghost use Rattle.ac_automaton.specs.InMemory.Overlapping.{CameFrom};

use ac_input::search::{Input, Match};
use ac_input::steps::Steps;
use ac_noncontiguous::{FindIter, OverlappingState, Search};
use std::alloc::{AllocError, Global};
use std::fmt::Debug;
use std::process::Abort;
use test_rows::answers::collected;
use test_rows::engines::{Pick, pick};

/// Asserts that one call of an overlapping search after another shows these, and then none for good.
pub fn shows_in_turn<T: Abort, A: Search>(
    rt: &T,
    automaton: &A,
    input: &Input<'_>,
    state: &mut OverlappingState,
    want: &[Pick],
)
    requires { CameFrom (A.built automaton.now) (A.Reaches automaton.now) (A.matches automaton.now)
        input.now state.old }
{
    for at in 0..want.len() + 2 {
        assert!(rt; automaton.try_find_overlapping(input, state).is_ok());
        equal(
            rt,
            &pick(state.get_match()),
            &want.get(at).copied(),
            "in turn",
        );
    }
}

/// Asserts that a walk that counts what it does gives these, and then none for good.
pub fn walks_on<T: Abort, A: Search>(rt: &T, matches: &mut FindIter<'_, '_, A>, want: &[Pick]) {
    let mut steps = Steps::new();
    for at in 0..want.len() + 2 {
        let found = matches.next_counted(&mut steps);
        equal(rt, &pick(found), &want.get(at).copied(), "counted");
    }
    assert!(rt; matches.next().is_none());
}

/// Asserts that an iterator gives these.
pub fn gives<T: Abort, I: Iterator<Item = Match> + Drop>(
    rt: &T,
    alloc: Global,
    matches: I,
    want: &[Pick],
    shows: &str,
) -> Result<(), AllocError>
    requires can { I.can_next matches }
    requires ends { IsFinite (I.remaining matches) }
{
    same(rt, &collected(alloc, matches)?, want, shows);
    Ok(())
}

/// Asserts that a value is this one.
pub fn equal<T: Abort, X: PartialEq + Debug>(rt: &T, found: &X, want: &X, shows: &str) {
    if found != want {
        rt.panic(format_args!("{shows}: it is {found:?}, and not {want:?}"));
    }
}

/// Asserts that a list is this one.
pub fn same<T: Abort, X: PartialEq + Debug>(rt: &T, found: &[X], want: &[X], shows: &str) {
    equal(rt, &found, &want, shows)
}
