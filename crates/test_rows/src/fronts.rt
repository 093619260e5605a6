//! The front, built with each automaton named and with none, and with each of the starts.
//!
//! A function that owns an automaton is slow to prove. So there is one here, and rows are handed a reference ([`OwnCase`]).
use crate::engines::{Asked, front_builder};
use ac_input::search::StartKind;
use aho_corasick::AhoCorasickKind::{ContiguousNFA, DFA, NoncontiguousNFA};
use aho_corasick::{AhoCorasick, AhoCorasickKind};
use std::alloc::Global;
use std::test::Fail;

/// Which automaton is named, if one is.
pub const NAMED: [Option<AhoCorasickKind>; 4] = [
    None,
    Some(NoncontiguousNFA),
    Some(ContiguousNFA),
    Some(DFA),
];

const STARTS: [StartKind; 3] = [StartKind::Unanchored, StartKind::Anchored, StartKind::Both];

/// A row that the front must pass by its own calls. `T` is what a test asserts by.
pub trait OwnCase<T> {
    /// What the front is built of.
    fn built_of(&self) -> Asked<'_>;

    /// Asserts what the row says of the front.
    fn check_own(&self, rt: &T, alloc: Global, ac: &AhoCorasick) -> Result<(), Fail>;
}

/// Checks a case by the front, with this automaton named and these starts.
pub fn by_own<T, C: OwnCase<T>>(
    rt: &T,
    alloc: Global,
    case: &C,
    named: Option<AhoCorasickKind>,
    starts: StartKind,
) -> Result<(), Fail> {
    let asked = case.built_of();
    let ac = front_builder(asked, named, starts)?.build(alloc, asked.patterns)?;
    case.check_own(rt, alloc, &ac)
}

/// Checks a case by the front, with each automaton named and with none, and with each of these starts.
pub fn each_own<T, C: OwnCase<T>>(
    rt: &T,
    alloc: Global,
    case: &C,
    starts: &[StartKind],
) -> Result<(), Fail> {
    for named in NAMED {
        for start in starts {
            by_own(rt, alloc, case, named, *start)?;
        }
    }
    Ok(())
}

/// Checks each case so, with all starts.
pub fn all_own<T, C: OwnCase<T>>(rt: &T, alloc: Global, cases: &[C]) -> Result<(), Fail> {
    for case in cases {
        each_own(rt, alloc, case, &STARTS)?;
    }
    Ok(())
}
