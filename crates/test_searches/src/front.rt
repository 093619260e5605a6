//! The front by its own calls, with each automaton named and with none.
//!
//! Every table is run by the front through the trait, as by each automaton (`engines`). Here some rows are run by the front's own
//! calls, which take an input by value, and require a configuration or return an error; and rows that check which automaton
//! serves.
ghost use Rattle.ac_automaton.specs.InMemory.Overlapping.{CanOverlap};
ghost use Rattle.aho_corasick.specs.AhoCorasick.{as_built, supported_by};

use crate::asserts::{equal, gives, same};
use crate::rows::{Row, SUBJECTS, Table};
use ac_input::search::{Input, MatchKind, StartKind};
use ac_input::steps::Steps;
use aho_corasick::AhoCorasickKind::{ContiguousNFA, DFA, NoncontiguousNFA};
use aho_corasick::{AhoCorasick, AhoCorasickKind, OverlappingState};
use std::alloc::{AllocError, Global};
use std::process::Abort;
use std::test::Fail;
use test_rows::answers::{Asks, input};
use test_rows::engines::{Asked, Case, Letters, front_builder, pick, serves};
use test_rows::fronts::{OwnCase, all_own};

/// Asserts the match of an input, and whether there is one.
fn find_holds<T: Abort>(
    rt: &T,
    ac: &AhoCorasick,
    asked: &Input<'_>,
    row: &Row<'_>,
) -> Result<(), Fail>
    requires { supported_by ac.now asked.now.anchored }
{
    let first = row.gives.first().copied();
    let found = [
        pick(ac.find(asked.clone()?)),
        pick(ac.try_find(asked.clone()?)?),
        pick(ac.try_find_counted(asked.clone()?, &mut Steps::new())?),
    ];
    same(rt, &found, &[first; 3], row.shows);
    same(
        rt,
        &[ac.is_match(asked.clone()?)],
        &[first.is_some()],
        row.shows,
    );
    Ok(())
}

/// Asserts all matches of an input.
fn walk_holds<T: Abort>(
    rt: &T,
    alloc: Global,
    ac: &AhoCorasick,
    asked: &Input<'_>,
    row: &Row<'_>,
) -> Result<(), Fail>
    requires { supported_by ac.now asked.now.anchored }
{
    find_holds(rt, ac, asked, row)?;
    let (want, shows) = (row.gives, row.shows);
    gives(rt, alloc, ac.find_iter(asked.clone()?), want, shows)?;
    gives(rt, alloc, ac.try_find_iter(asked.clone()?)?, want, shows)?;
    gives(rt, alloc, ac.find_iter_ahead(asked.clone()?), want, shows)?;
    gives(
        rt,
        alloc,
        ac.try_find_iter_ahead(asked.clone()?)?,
        want,
        shows,
    )?;
    Ok(())
}

/// Asserts the occurrences that calls show in turn.
fn turns_hold<T: Abort>(
    rt: &T,
    ac: &AhoCorasick,
    asked: &Input<'_>,
    row: &Row<'_>,
) -> Result<(), Fail>
    requires { CanOverlap (as_built ac.now) (supported_by ac.now) asked.now }
{
    let mut state = OverlappingState::start();
    let mut tried = OverlappingState::start();
    for at in 0..row.gives.len() + 2 {
        ac.find_overlapping(asked.clone()?, &mut state);
        ac.try_find_overlapping(asked.clone()?, &mut tried)?;
        let want = row.gives.get(at).copied();
        let shown = [pick(state.get_match()), pick(tried.get_match())];
        same(rt, &shown, &[want; 2], row.shows);
    }
    Ok(())
}

/// Asserts all occurrences in an input, by calls in turn and by an iterator, which an anchored search hasn't.
fn list_holds<T: Abort>(
    rt: &T,
    alloc: Global,
    ac: &AhoCorasick,
    asked: &Input<'_>,
    row: &Row<'_>,
) -> Result<(), Fail>
    requires { CanOverlap (as_built ac.now) (supported_by ac.now) asked.now }
{
    turns_hold(rt, ac, asked, row)?;
    if !asked.get_anchored().is_anchored() {
        let list = ac.find_overlapping_iter(asked.clone()?);
        gives(rt, alloc, list, row.gives, row.shows)?;
        let list = ac.try_find_overlapping_iter(asked.clone()?)?;
        gives(rt, alloc, list, row.gives, row.shows)?;
    }
    Ok(())
}

/// Asserts what a row says, if the front has a start for it.
fn row_holds<T: Abort>(rt: &T, alloc: Global, ac: &AhoCorasick, row: &Row<'_>) -> Result<(), Fail> {
    let asked = input(&row.text)?;
    if !serves(ac.start_kind(), asked.get_anchored()) {
        return Ok(());
    }
    match row.asks {
        Asks::Walk => walk_holds(rt, alloc, ac, &asked, row),
        Asks::List => {
            if ac.match_kind() != MatchKind::Standard {
                return Err("no standard kind".into());
            }
            list_holds(rt, alloc, ac, &asked, row)
        }
    }
}

impl<T: Abort> OwnCase<T> for Table<'_> {
    fn built_of(&self) -> Asked<'_> {
        Case::<T>::asked(self)
    }

    fn check_own(&self, rt: &T, alloc: Global, ac: &AhoCorasick) -> Result<(), Fail> {
        for row in self.rows {
            row_holds(rt, alloc, ac, row)?;
        }
        Ok(())
    }
}

/// Some patterns, which automaton serves them, and how many they are, the shortest and the longest.
struct Served {
    shows: &'static str,
    patterns: &'static [&'static [u8]],
    /// How often each pattern is given.
    times: usize,
    starts: StartKind,
    named: Option<AhoCorasickKind>,
    served: AhoCorasickKind,
    shortest: usize,
    longest: usize,
}

/// The patterns, so often.
fn repeated(
    alloc: Global,
    patterns: &[&'static [u8]],
    times: usize,
) -> Result<Vec<&'static [u8]>, AllocError> {
    let mut all = Vec::new(alloc);
    for _ in 0..times {
        for pattern in patterns {
            all.push(*pattern)?;
        }
    }
    Ok(all)
}

/// Asserts what the front says of itself.
fn is_served<T: Abort>(rt: &T, ac: &AhoCorasick, row: &Served, count: usize) {
    let shows = row.shows;
    equal(
        rt,
        &(ac.kind(), ac.start_kind()),
        &(row.served, row.starts),
        shows,
    );
    equal(rt, &ac.match_kind(), &MatchKind::Standard, shows);
    let found = [
        ac.patterns_len(),
        ac.min_pattern_len(),
        ac.max_pattern_len(),
    ];
    same(rt, &found, &[count, row.shortest, row.longest], shows);
}

/// Asserts it of a clone.
fn copy_is_served<T: Abort>(
    rt: &T,
    alloc: Global,
    ac: &AhoCorasick,
    row: &Served,
    count: usize,
) -> Result<(), Fail> {
    is_served(rt, &ac.clone(alloc)?, row, count);
    Ok(())
}

/// Asserts it of the automaton of these patterns, and of a clone.
fn serves_so<T: Abort>(rt: &T, alloc: Global, row: &Served) -> Result<(), Fail> {
    let patterns = repeated(alloc, row.patterns, row.times)?;
    let asked = Asked {
        patterns: &patterns,
        kind: MatchKind::Standard,
        letters: Letters::Cased,
    };
    let ac = front_builder(asked, row.named, row.starts)?.build(alloc, &patterns)?;
    is_served(rt, &ac, row, patterns.len());
    copy_is_served(rt, alloc, &ac, row, patterns.len())
}

/// Four words for one start, of which a DFA serves.
const WORDS: Served = Served {
    shows: "few patterns and one start kind: a DFA",
    patterns: &[b"foo", b"bar", b"quux", b"baz"],
    times: 1,
    starts: StartKind::Unanchored,
    named: None,
    served: DFA,
    shortest: 3,
    longest: 4,
};

const SERVED: &[Served] = &[
    WORDS,
    Served {
        shows: "for anchored searches alone a DFA too",
        starts: StartKind::Anchored,
        ..WORDS
    },
    Served {
        shows: "both start kinds: a contiguous NFA",
        starts: StartKind::Both,
        served: ContiguousNFA,
        ..WORDS
    },
    Served {
        shows: "a hundred patterns: a DFA",
        times: 25,
        ..WORDS
    },
    Served {
        shows: "a hundred and one patterns: a contiguous NFA",
        patterns: &[b"foo"],
        times: 101,
        served: ContiguousNFA,
        longest: 3,
        ..WORDS
    },
    Served {
        shows: "a DFA that is named serves a hundred and one patterns",
        patterns: &[b"foo"],
        times: 101,
        named: Some(DFA),
        longest: 3,
        ..WORDS
    },
    Served {
        shows: "a DFA that is named serves both start kinds",
        starts: StartKind::Both,
        named: Some(DFA),
        ..WORDS
    },
    Served {
        shows: "a noncontiguous NFA that is named",
        named: Some(NoncontiguousNFA),
        served: NoncontiguousNFA,
        ..WORDS
    },
    Served {
        shows: "a contiguous NFA that is named",
        named: Some(ContiguousNFA),
        served: ContiguousNFA,
        ..WORDS
    },
    Served {
        shows: "an empty pattern is the shortest",
        patterns: &[b"foo", b"", b"quux", b"baz"],
        shortest: 0,
        ..WORDS
    },
    Served {
        shows: "without a pattern the shortest is the greatest number",
        patterns: &[],
        shortest: usize::MAX,
        longest: 0,
        ..WORDS
    },
];

#[test]
fn the_front_by_its_own_calls(rt: HostRuntime) -> Result<(), Fail> {
    let alloc = rt.alloc();
    for row in SERVED {
        serves_so(&rt, alloc, row)?;
    }
    for tables in SUBJECTS {
        all_own(&rt, alloc, tables)?;
    }
    Ok(())
}
