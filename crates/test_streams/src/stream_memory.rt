//! Streams and replacement in memory that may end.
//!
//! `rt try --test --fail-alloc N` fails the Nth allocation. If a call runs out of memory, nothing was read or written by then;
//! what was appended to a text stays.
use crate::devices::{AMPLE, Given, Outcome, Sink, Source, Tally};
use crate::replacement::{append, append_bytes};
use crate::stream_replacement::write_by_closure;
use crate::streams::{Sought, search_outcome};
use ac_automaton::error::ReplaceError;
use ac_automaton::watched::Watched;
use ac_input::search::MatchKind;
use ac_input::steps::Steps;
use ac_noncontiguous::{Automaton, Search};
use std::alloc::{AllocError, Global};
use std::process::Abort;
use std::test::Fail;
use test_rows::engines::{Asked, Case, FIRST, Letters, Trial, each};

/// Streams and replacement of one word.
struct InMemory;

/// The word.
const FOX: &[&[u8]] = &[b"fox"];

/// What replaces the word.
pub const SLOTH: &[&str] = &["sloth"];

/// What may have been appended: each copy and each call of the closure appends all of its text, or nothing.
pub const FRONTS: [&str; 6] = [
    "",
    "A ",
    "A sloth",
    "A sloth and a ",
    "A sloth and a sloth",
    "A sloth and a sloth.",
];

/// Replacement over a stream, also by the call for any kind: what it comes to.
fn replacement_outcome<A: Search>(
    alloc: Global,
    automaton: &A,
    of_any_kind: bool,
    tally: &Tally,
) -> Result<Outcome, AllocError> {
    if automaton.patterns_len() != 1 {
        return Ok(Outcome::Position);
    }
    let mut reader = Watched::new(Source::new(Given::Whole(b"a fox"), 2, &[], tally));
    let mut writer = Watched::new(Sink::new(alloc, AMPLE, tally)?);
    let mut steps = Steps::new();
    let sloth: &[&[u8]] = &[b"sloth"];
    let answer = if of_any_kind {
        automaton.try_stream_replace_all_any_kind_counted(
            alloc,
            &mut reader,
            &mut writer,
            sloth,
            &mut steps,
        )
    } else {
        automaton.try_stream_replace_all_counted(alloc, &mut reader, &mut writer, sloth, &mut steps)
    };
    Ok(Outcome::of(&answer))
}

/// The same by a closure.
fn closure_outcome<A: Search>(
    alloc: Global,
    automaton: &A,
    tally: &Tally,
) -> Result<Outcome, AllocError> {
    let mut reader = Watched::new(Source::new(Given::Whole(b"a fox"), 2, &[], tally));
    let mut writer = Watched::new(Sink::new(alloc, AMPLE, tally)?);
    let sloth: &[&[u8]] = &[b"sloth"];
    let answer = write_by_closure(automaton, alloc, &mut reader, &mut writer, sloth, None);
    Ok(Outcome::of(&answer))
}

/// Asserts the result of replacement over a stream, complete or out of memory, and what was read and written by then.
fn came<T: Abort>(rt: &T, outcome: Result<Outcome, AllocError>, tally: &Tally) {
    if let Ok(outcome) = outcome {
        let came = (outcome, tally.reads.get(), tally.written.get());
        assert!(rt; came == (Outcome::Done, 4, 7) || came == (Outcome::Memory, 0, 0));
    }
}

/// Asserts what is made of the bytes of a text, or that there was no memory.
fn is_made_of_bytes<T: Abort, A: Search>(rt: &T, alloc: Global, automaton: &A) {
    let text = b"A fox and a fox.";
    let mut made = Vec::new(alloc);
    let answer = append_bytes(automaton, alloc, text, SLOTH, None, &mut made);
    let fronts = FRONTS.map(|it| it.as_bytes());
    assert!(rt; fronts.contains(&made.as_slice()));
    assert_eq!(rt; answer.is_ok(), made.as_slice() == fronts[5]);
    assert_eq!(rt; automaton.patterns_len(), 1);
    match automaton.try_replace_all_bytes(alloc, text, &[b"sloth"]) {
        Ok(made) => assert_eq!(rt; made.as_slice(), fronts[5]),
        Err(error) => assert!(rt; matches!(&error, ReplaceError::Memory)),
    }
}

/// Asserts what is made of a text, or that there was no memory.
fn is_made<T: Abort, A: Search>(rt: &T, alloc: Global, automaton: &A) {
    let text = "A fox and a fox.";
    let mut made = String::new(alloc);
    let answer = append(automaton, alloc, text, SLOTH, None, &mut made);
    assert!(rt; FRONTS.contains(&made.as_str()));
    assert_eq!(rt; answer.is_ok(), made.as_str() == FRONTS[5]);
    assert_eq!(rt; automaton.patterns_len(), 1);
    match automaton.try_replace_all(alloc, text, SLOTH) {
        Ok(made) => assert_eq!(rt; made.as_str(), FRONTS[5]),
        Err(error) => assert!(rt; matches!(&error, ReplaceError::Memory)),
    }
}

impl<T: Abort> Case<T> for InMemory {
    fn asked(&self) -> Asked<'_> {
        Asked::of(FOX, MatchKind::Standard, Letters::Cased)
    }

    fn in_little_memory(&self) -> bool {
        true
    }

    fn check<A: Search>(&self, on: &Trial<'_, T, A>) -> Result<(), Fail> {
        let (rt, alloc, automaton) = (on.rt, on.alloc, on.automaton);
        let tally = Tally::new();
        let outcome = search_outcome(alloc, automaton, &tally, Sought::Matches);
        assert!(rt; outcome == Outcome::Done || outcome == Outcome::Memory);
        assert_eq!(rt; tally.reads.get(), 0);
        for of_any_kind in [false, true] {
            let tally = Tally::new();
            came(
                rt,
                replacement_outcome(alloc, automaton, of_any_kind, &tally),
                &tally,
            );
        }
        let tally = Tally::new();
        came(rt, closure_outcome(alloc, automaton, &tally), &tally);
        is_made_of_bytes(rt, alloc, automaton);
        is_made(rt, alloc, automaton);
        Ok(())
    }
}

#[test]
fn in_memory_that_may_end(rt: HostRuntime) -> Result<(), Fail> {
    each(&rt, rt.alloc(), &InMemory, FIRST)
}
