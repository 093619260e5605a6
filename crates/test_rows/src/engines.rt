//! Each automaton, in each setting that changes no result.
//!
//! A [`Case`] is a row of a table: it says what an automaton is built of, and checks an automaton that was built. [`ENGINES`] lists
//! the automata and their settings, a line each, and [`all`] runs cases by each of them. A function that owns an automaton is slow
//! to prove, so there is one such function for each automaton, and all others are handed a reference.
ghost use Rattle.std.specs.Prelude.{◌↔◌, IsTrue};
ghost use Rattle.ac_input.specs.Dfa.{Serves};

use crate::engines::Alphabet::{Bytes, Classes};
use crate::engines::Engine::{Contiguous, Dfa, Front, Noncontiguous};
use crate::engines::Prefiltering::{Off, On};
use ac_input::pairing::Pairing;
use ac_input::search::StartKind::{Both, Unanchored};
use ac_input::search::{Anchored, Match, MatchKind, StartKind};
use ac_noncontiguous::builder::Builder;
use ac_noncontiguous::nfa::NFA;
use ac_noncontiguous::{BuildError, BuildErrorKind, MatchErrorKind, Search};
use ac_tables::contiguous::builder::ROW_MEMORY;
use ac_tables::{contiguous, dfa};
use aho_corasick::AhoCorasickKind::{ContiguousNFA, DFA, NoncontiguousNFA};
use aho_corasick::{AhoCorasickBuilder, AhoCorasickKind};
use std::alloc::Global;
use std::test::Fail;

/// Which bytes are taken for the same.
#[derive(Clone, Copy)]
pub enum Letters {
    /// None.
    Cased,
    /// The two cases of each ASCII letter.
    Folded,
    /// The two bytes of each of these pairs.
    Paired(&'static [(u8, u8)]),
}

/// What automata are built of.
#[derive(Clone, Copy)]
pub struct Asked<'a> {
    pub patterns: &'a [&'a [u8]],
    pub kind: MatchKind,
    pub letters: Letters,
}

impl<'a> Asked<'a> {
    /// These patterns, of this kind, by these letters.
    pub fn of(patterns: &'a [&'a [u8]], kind: MatchKind, letters: Letters) -> Asked<'a> {
        Asked {
            patterns,
            kind,
            letters,
        }
    }

    /// Whether one of the patterns is empty.
    pub fn has_empty(&self) -> bool {
        for pattern in self.patterns {
            if pattern.is_empty() {
                return true;
            }
        }
        false
    }
}

/// Whether an automaton may hold a prefilter.
#[derive(Clone, Copy)]
pub enum Prefiltering {
    Off,
    On,
}

/// Whether a table has an entry for each class of bytes, or for each byte.
#[derive(Clone, Copy)]
pub enum Alphabet {
    Classes,
    Bytes,
}

/// An automaton, and how it is built.
#[derive(Clone, Copy)]
pub enum Engine {
    /// The noncontiguous NFA, whose states have rows to this depth.
    Noncontiguous(Prefiltering, usize),
    /// The contiguous NFA, whose states are dense to this depth, and whose rows take this many bytes at most.
    Contiguous(Prefiltering, usize, Alphabet, usize),
    /// The DFA, with these starts.
    Dfa(Prefiltering, Alphabet, StartKind),
    /// The front with these starts, served by the automaton that is named or by the one that it takes, with its depth where it is set.
    Front(Option<AhoCorasickKind>, StartKind, Prefiltering, Option<usize>, Alphabet),
}

/// The automata and their settings, none of which changes a result.
pub const ENGINES: &[Engine] = &[
    Noncontiguous(On, 3),
    Noncontiguous(Off, 3),
    Noncontiguous(Off, 0),
    Noncontiguous(On, 1),
    Noncontiguous(Off, 100),
    Contiguous(On, 2, Classes, ROW_MEMORY),
    Contiguous(On, 2, Classes, 0),
    Contiguous(Off, 2, Classes, ROW_MEMORY),
    Contiguous(Off, 2, Classes, 0),
    Contiguous(Off, 0, Classes, 0),
    Contiguous(On, 1, Bytes, ROW_MEMORY),
    Contiguous(On, 1, Bytes, 0),
    Contiguous(Off, 100, Bytes, 0),
    Dfa(On, Classes, Unanchored),
    Dfa(Off, Bytes, Unanchored),
    Dfa(Off, Classes, Both),
    Dfa(On, Bytes, Both),
    Dfa(Off, Classes, StartKind::Anchored),
    Front(None, Unanchored, On, None, Classes),
    Front(None, Both, Off, Some(0), Bytes),
    Front(Some(NoncontiguousNFA), Unanchored, Off, Some(1), Bytes),
    Front(Some(NoncontiguousNFA), Both, On, None, Classes),
    Front(Some(ContiguousNFA), StartKind::Anchored, On, None, Classes),
    Front(Some(ContiguousNFA), Both, Off, Some(100), Classes),
    Front(Some(DFA), Unanchored, Off, None, Bytes),
    Front(Some(DFA), Both, On, Some(0), Classes),
];

/// Those that run a row which takes long.
pub const FEW: &[Engine] = &[
    Noncontiguous(On, 3),
    Noncontiguous(Off, 0),
    Contiguous(On, 2, Classes, ROW_MEMORY),
    Contiguous(On, 2, Classes, 0),
    Contiguous(Off, 0, Bytes, 0),
    Dfa(On, Classes, Unanchored),
    Dfa(Off, Bytes, Both),
    Front(None, Unanchored, On, None, Classes),
    Front(Some(NoncontiguousNFA), Both, Off, Some(0), Classes),
    Front(Some(ContiguousNFA), Unanchored, On, None, Bytes),
    Front(Some(DFA), Both, Off, None, Classes),
];

/// Those that run a row which takes very long: each automaton with its default settings.
pub const FIRST: &[Engine] = &[
    Noncontiguous(On, 3),
    Contiguous(On, 2, Classes, ROW_MEMORY),
    Dfa(On, Classes, Unanchored),
    Front(None, Unanchored, On, None, Classes),
];

/// A row of a table, which any automaton built of what it asks must pass. `T` is what a test asserts by: a library can't assert.
pub trait Case<T> {
    /// What the automaton is built of.
    fn asked(&self) -> Asked<'_>;

    /// Whether there may be no memory to build it.
    fn in_little_memory(&self) -> bool {
        false
    }

    /// Asserts what the row says of an automaton.
    fn check<A: Search>(&self, on: &Trial<'_, T, A>) -> Result<(), Fail>;
}

/// What a row is checked on: an automaton that was built of what it asks, and the starts that this has.
#[derive(Drop)]
pub struct Trial<'a, T, A> {
    pub rt: &'a T,
    pub alloc: Global,
    pub automaton: &'a A,
    pub starts: StartKind,
}

impl<'a, T, A> Trial<'a, T, A> {
    /// This automaton, which has these starts.
    pub fn new(rt: &'a T, alloc: Global, automaton: &'a A, starts: StartKind) -> Trial<'a, T, A> {
        Trial {
            rt,
            alloc,
            automaton,
            starts,
        }
    }

    /// Whether there is a start for searches that aren't anchored.
    pub fn searches(&self) -> bool {
        serves(self.starts, Anchored::No)
    }

    /// Why a search that isn't anchored is refused: for want of a start, which counts before any other reason, or for this one.
    pub fn refusal(&self, why: MatchErrorKind) -> MatchErrorKind {
        if self.searches() {
            why
        } else {
            MatchErrorKind::InvalidInputUnanchored
        }
    }
}

/// Whether there is a start for this anchoring among these.
pub fn serves(starts: StartKind, anchored: Anchored) -> bool
    ensures { IsTrue result ↔ Serves starts anchored }
{
    match starts {
        StartKind::Both => true,
        StartKind::Unanchored => !anchored.is_anchored(),
        StartKind::Anchored => anchored.is_anchored(),
    }
}

/// An occurrence: the number of the pattern, the start and the end.
pub type Pick = (usize, usize, usize);

/// The occurrence, if there is one.
pub fn pick(found: Option<Match>) -> Option<Pick> {
    let found = found?;
    Some((found.pattern().as_usize(), found.start(), found.end()))
}

/// The pairing of these letters.
pub fn pairing(letters: Letters) -> Result<Pairing, Fail> {
    match letters {
        Letters::Cased => Ok(Pairing::none()),
        Letters::Folded => Ok(Pairing::ascii()),
        Letters::Paired(pairs) => Ok(Pairing::new(pairs)?),
    }
}

/// What builds the noncontiguous automaton.
fn builder(asked: Asked<'_>, prefilter: Prefiltering, depth: usize) -> Result<Builder, Fail> {
    let mut builder = Builder::new();
    builder
        .match_kind(asked.kind)
        .pairing(pairing(asked.letters)?)
        .prefilter(matches!(prefilter, On))
        .dense_depth(depth);
    Ok(builder)
}

/// The noncontiguous automaton.
pub fn noncontiguous(
    alloc: Global,
    asked: Asked<'_>,
    prefilter: Prefiltering,
    depth: usize,
) -> Result<NFA, Fail> {
    Ok(builder(asked, prefilter, depth)?.build(alloc, asked.patterns)?)
}

/// What becomes of a case whose automaton can't be built.
fn unbuilt<T, C: Case<T>>(case: &C, error: BuildError) -> Result<(), Fail> {
    if case.in_little_memory() && *error.kind() == BuildErrorKind::Memory {
        return Ok(());
    }
    Err(error.into())
}

/// Checks the case by what was built of it, which has these starts.
fn by_built<T, C: Case<T>, A: Search + Drop>(
    rt: &T,
    alloc: Global,
    case: &C,
    built: Result<A, BuildError>,
    starts: StartKind,
) -> Result<(), Fail> {
    match built {
        Ok(automaton) => case.check(&Trial::new(rt, alloc, &automaton, starts)),
        Err(error) => unbuilt::<T, C>(case, error),
    }
}

/// Checks the case by the noncontiguous automaton.
fn by_noncontiguous<T, C: Case<T>>(
    rt: &T,
    alloc: Global,
    case: &C,
    prefilter: Prefiltering,
    depth: usize,
) -> Result<(), Fail> {
    let asked = case.asked();
    let built = builder(asked, prefilter, depth)?.build(alloc, asked.patterns);
    by_built(rt, alloc, case, built, Both)
}

/// What builds the contiguous NFA.
fn contiguous_builder(
    asked: Asked<'_>,
    prefilter: Prefiltering,
    depth: usize,
    alphabet: Alphabet,
    row_memory: usize,
) -> Result<contiguous::builder::Builder, Fail> {
    let mut builder = contiguous::builder::Builder::new();
    builder
        .match_kind(asked.kind)
        .pairing(pairing(asked.letters)?)
        .prefilter(matches!(prefilter, On))
        .dense_depth(depth)
        .byte_classes(matches!(alphabet, Classes))
        .row_memory(row_memory);
    Ok(builder)
}

/// Checks the case by the contiguous NFA.
fn by_contiguous<T, C: Case<T>>(
    rt: &T,
    alloc: Global,
    case: &C,
    prefilter: Prefiltering,
    depth: usize,
    alphabet: Alphabet,
    row_memory: usize,
) -> Result<(), Fail> {
    let asked = case.asked();
    let builder = contiguous_builder(asked, prefilter, depth, alphabet, row_memory)?;
    by_built(rt, alloc, case, builder.build(alloc, asked.patterns), Both)
}

/// What builds the DFA.
fn dfa_builder(
    asked: Asked<'_>,
    prefilter: Prefiltering,
    alphabet: Alphabet,
    starts: StartKind,
) -> Result<dfa::builder::Builder, Fail> {
    let mut builder = dfa::builder::Builder::new();
    builder
        .match_kind(asked.kind)
        .pairing(pairing(asked.letters)?)
        .prefilter(matches!(prefilter, On))
        .byte_classes(matches!(alphabet, Classes))
        .start_kind(starts);
    Ok(builder)
}

/// Checks the case by the DFA.
fn by_dfa<T, C: Case<T>>(
    rt: &T,
    alloc: Global,
    case: &C,
    prefilter: Prefiltering,
    alphabet: Alphabet,
    starts: StartKind,
) -> Result<(), Fail> {
    let asked = case.asked();
    let built = dfa_builder(asked, prefilter, alphabet, starts)?.build(alloc, asked.patterns);
    by_built(rt, alloc, case, built, starts)
}

/// What builds the front.
pub fn front_builder(
    asked: Asked<'_>,
    named: Option<AhoCorasickKind>,
    starts: StartKind,
) -> Result<AhoCorasickBuilder, Fail> {
    let mut builder = AhoCorasickBuilder::new();
    builder
        .match_kind(asked.kind)
        .pairing(pairing(asked.letters)?)
        .start_kind(starts)
        .kind(named);
    Ok(builder)
}

/// Checks the case by the front in these settings.
fn by_front<T, C: Case<T>>(
    rt: &T,
    alloc: Global,
    case: &C,
    mut builder: AhoCorasickBuilder,
    starts: StartKind,
    depth: Option<usize>,
) -> Result<(), Fail> {
    if let Some(depth) = depth {
        builder.dense_depth(depth);
    }
    by_built(
        rt,
        alloc,
        case,
        builder.build(alloc, case.asked().patterns),
        starts,
    )
}

/// Checks the case by this automaton.
fn by<T, C: Case<T>>(rt: &T, alloc: Global, case: &C, engine: Engine) -> Result<(), Fail> {
    match engine {
        Noncontiguous(prefilter, depth) => by_noncontiguous(rt, alloc, case, prefilter, depth),
        Contiguous(prefilter, depth, alphabet, row_memory) => {
            by_contiguous(rt, alloc, case, prefilter, depth, alphabet, row_memory)
        }
        Dfa(prefilter, alphabet, starts) => by_dfa(rt, alloc, case, prefilter, alphabet, starts),
        Front(named, starts, prefilter, depth, alphabet) => {
            let mut builder = front_builder(case.asked(), named, starts)?;
            builder
                .prefilter(matches!(prefilter, On))
                .byte_classes(matches!(alphabet, Classes));
            by_front(rt, alloc, case, builder, starts, depth)
        }
    }
}

/// Checks the case by each of these automata.
pub fn each<T, C: Case<T>>(
    rt: &T,
    alloc: Global,
    case: &C,
    engines: &[Engine],
) -> Result<(), Fail> {
    for engine in engines {
        by(rt, alloc, case, *engine)?;
    }
    Ok(())
}

/// Checks each case of a table by each of these automata.
pub fn all_by<T, C: Case<T>>(
    rt: &T,
    alloc: Global,
    cases: &[C],
    engines: &[Engine],
) -> Result<(), Fail> {
    for case in cases {
        each(rt, alloc, case, engines)?;
    }
    Ok(())
}

/// Checks each case of a table by each automaton, in each setting.
pub fn all<T, C: Case<T>>(rt: &T, alloc: Global, cases: &[C]) -> Result<(), Fail> {
    all_by(rt, alloc, cases, ENGINES)
}
