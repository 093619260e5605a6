//! How automata are built: what is set at first, and that the last setting decides.
use crate::asserts::equal;
use crate::owned::Owned;
use crate::rows::{Row, row_holds_of_each};
use ac_input::pairing::Pairing;
use ac_input::search::{MatchKind, StartKind};
use ac_noncontiguous::{BuildError, Builder, NFA};
use ac_tables::{contiguous, dfa};
use aho_corasick::AhoCorasickKind::{ContiguousNFA, DFA, NoncontiguousNFA};
use aho_corasick::{AhoCorasick, AhoCorasickBuilder, AhoCorasickKind};
use std::alloc::Global;
use std::process::Abort;
use std::test::Fail;
use test_rows::answers::Asks;
use test_rows::answers::Text::Whole;
use test_rows::engines::{Pick, Trial};

/// The pattern of which automata are built.
const PATTERNS: &[&[u8]] = &[b"a0"];

/// The pattern in upper case.
const UPPER: &[&[u8]] = &[b"A0"];

/// A match of the pattern `a0` in the text `A0 a1`, where it is taken as it stands, by its other case, and by the other digit.
const FOLDED: &[Pick] = &[(0, 0, 2)];

const PAIRED: &[Pick] = &[(0, 3, 5)];

/// How an automaton is built: what shows that, of what kind it is, whether it holds a prefilter, and what a walk by it gives over `A0 a1`.
#[derive(Drop)]
struct Want<S>(S, MatchKind, bool, &'static [Pick]);

/// Asserts how an automaton is built.
fn is_so<T: Abort, A: Owned>(
    rt: &T,
    alloc: Global,
    automaton: &A,
    want: &Want<A::Shape>,
) -> Result<(), Fail> {
    let Want(shape, kind, held, gives) = want;
    equal(rt, &automaton.shape(), shape, "the last setting decides");
    let facts = (automaton.match_kind(), automaton.prefilter().is_some());
    equal(rt, &facts, &(*kind, *held), "the kind, and a prefilter");
    let row = Row {
        shows: "the last setting decides",
        asks: Asks::Walk,
        text: Whole(b"A0 a1"),
        gives: *gives,
    };
    row_holds_of_each(
        &Trial::new(rt, alloc, automaton, StartKind::Unanchored),
        &row,
    )
}

/// Asserts the same of what was built, and of a copy.
fn is_built<T: Abort, A: Owned>(
    rt: &T,
    alloc: Global,
    built: Result<A, BuildError>,
    want: &Want<A::Shape>,
) -> Result<(), Fail> {
    let automaton = built?;
    is_so(rt, alloc, &automaton, want)?;
    is_so(rt, alloc, &automaton.copy(alloc)?, want)
}

/// Asserts the same of what the builder builds.
fn builds<T: Abort>(
    rt: &T,
    alloc: Global,
    builder: &Builder,
    kind: MatchKind,
    held: bool,
    want: &'static [Pick],
) -> Result<(), Fail> {
    let built = builder.build(alloc, PATTERNS);
    is_built(rt, alloc, built, &Want((), kind, held, want))
}

/// Of two settings of one thing the last decides, and a builder that was copied keeps its own.
#[test]
fn the_last_setting_decides(rt: HostRuntime) -> Result<(), Fail> {
    let alloc = rt.alloc();
    let digits = Pairing::new(&[(b'0', b'1')])?;
    let mut builder = Builder::default();
    builds(&rt, alloc, &builder, MatchKind::Standard, true, &[])?;
    builder.ascii_case_insensitive(true).pairing(digits);
    builds(&rt, alloc, &builder, MatchKind::Standard, true, PAIRED)?;
    builder.ascii_case_insensitive(true).prefilter(false);
    builder.match_kind(MatchKind::LeftmostFirst).dense_depth(0);
    let copy = builder.clone()?;
    builder.ascii_case_insensitive(false).prefilter(true);
    builder.match_kind(MatchKind::Standard);
    builds(&rt, alloc, &builder, MatchKind::Standard, true, &[])?;
    builds(&rt, alloc, &copy, MatchKind::LeftmostFirst, false, FOLDED)?;
    builds(&rt, alloc, &NFA::builder(), MatchKind::Standard, true, &[])?;
    let want = Want((), MatchKind::Standard, true, FOLDED);
    is_built(&rt, alloc, NFA::new(alloc, UPPER), &want)
}

/// Asserts how many words the contiguous NFA has, of what kind it is, whether it holds a prefilter, and what it gives.
fn contiguous_builds<T: Abort>(
    rt: &T,
    alloc: Global,
    builder: &contiguous::builder::Builder,
    words: usize,
    kind: MatchKind,
    held: bool,
    want: &'static [Pick],
) -> Result<(), Fail> {
    let built = builder.build(alloc, PATTERNS);
    is_built(rt, alloc, built, &Want(words, kind, held, want))
}

/// The same of the contiguous NFA. How many words it has shows which bytes have classes of their own, and whether the state of `a` is
/// dense: the dead state and the starts are, and the state that matches has three words.
#[test]
fn the_last_setting_decides_of_contiguous(rt: HostRuntime) -> Result<(), Fail> {
    let alloc = rt.alloc();
    let standard = MatchKind::Standard;
    let first = MatchKind::LeftmostFirst;
    let mut builder = contiguous::builder::Builder::default();
    contiguous_builds(&rt, alloc, &builder, 31, standard, true, &[])?;
    builder.ascii_case_insensitive(true);
    builder.pairing(Pairing::new(&[(b'0', b'1')])?);
    contiguous_builds(&rt, alloc, &builder, 35, standard, true, PAIRED)?;
    builder.ascii_case_insensitive(true).prefilter(false);
    builder.match_kind(first).dense_depth(0);
    let copy = builder.clone()?;
    builder.ascii_case_insensitive(false).prefilter(true);
    builder.match_kind(standard).byte_classes(false);
    contiguous_builds(&rt, alloc, &builder, 780, standard, true, &[])?;
    contiguous_builds(&rt, alloc, &copy, 33, first, false, FOLDED)?;
    contiguous_builds(
        &rt,
        alloc,
        &contiguous::NFA::builder(),
        31,
        standard,
        true,
        &[],
    )?;
    let want = Want(31, standard, true, FOLDED);
    is_built(&rt, alloc, contiguous::NFA::new(alloc, UPPER), &want)
}

/// Asserts the sizes of the DFA and its starts, of what kind it is, whether it holds a prefilter, and what it gives.
fn dfa_builds<T: Abort>(
    rt: &T,
    alloc: Global,
    builder: &dfa::builder::Builder,
    shape: ([usize; 3], StartKind),
    kind: MatchKind,
    held: bool,
    want: &'static [Pick],
) -> Result<(), Fail> {
    let built = builder.build(alloc, PATTERNS);
    is_built(rt, alloc, built, &Want(shape, kind, held, want))
}

/// The same of the DFA. How many states it has says which starts, and its stride whether bytes have classes.
#[test]
fn the_last_setting_decides_of_dfa(rt: HostRuntime) -> Result<(), Fail> {
    let alloc = rt.alloc();
    let standard = MatchKind::Standard;
    let first = MatchKind::LeftmostFirst;
    let small = ([6, 8, 48], StartKind::Unanchored);
    let wide = ([8, 256, 2048], StartKind::Both);
    let both = ([8, 8, 64], StartKind::Both);
    let mut builder = dfa::builder::Builder::default();
    dfa_builds(&rt, alloc, &builder, small, standard, true, &[])?;
    builder.ascii_case_insensitive(true);
    builder.pairing(Pairing::new(&[(b'0', b'1')])?);
    dfa_builds(&rt, alloc, &builder, small, standard, true, PAIRED)?;
    builder.ascii_case_insensitive(true).prefilter(false);
    builder.match_kind(first).start_kind(StartKind::Both);
    let copy = builder.clone()?;
    builder.ascii_case_insensitive(false).prefilter(true);
    builder.match_kind(standard).byte_classes(false);
    dfa_builds(&rt, alloc, &builder, wide, standard, true, &[])?;
    dfa_builds(&rt, alloc, &copy, both, first, false, FOLDED)?;
    dfa_builds(&rt, alloc, &dfa::DFA::builder(), small, standard, true, &[])?;
    let want = Want(small, standard, true, FOLDED);
    is_built(&rt, alloc, dfa::DFA::new(alloc, UPPER), &want)
}

/// Asserts which automaton serves, for which searches, and what else there is of the front that the builder builds.
fn front_builds<T: Abort>(
    rt: &T,
    alloc: Global,
    builder: &AhoCorasickBuilder,
    served: (AhoCorasickKind, StartKind),
    kind: MatchKind,
    held: bool,
    want: &'static [Pick],
) -> Result<(), Fail> {
    let built = builder.build(alloc, PATTERNS);
    is_built(rt, alloc, built, &Want(served, kind, held, want))
}

/// How much memory the front takes that the builder builds of two words.
fn memory_by(alloc: Global, builder: &AhoCorasickBuilder) -> Result<usize, Fail> {
    Ok(
        builder
            .build(alloc, &[b"samwise", b"frodo"])?
            .memory_usage(),
    )
}

/// Asserts whether the settings of depth, classes and row memory reach the automaton that is named: with a greater depth and without
/// classes it takes more memory, and with no memory for rows less.
fn reaches<T: Abort>(
    rt: &T,
    alloc: Global,
    named: AhoCorasickKind,
    depth: bool,
    classes: bool,
    rows: bool,
) -> Result<(), Fail> {
    let mut builder = AhoCorasickBuilder::new();
    builder.kind(Some(named)).dense_depth(0);
    let few = memory_by(alloc, &builder)?;
    builder.dense_depth(100);
    let more = memory_by(alloc, &builder)?;
    builder.dense_depth(0).byte_classes(false);
    let wide = memory_by(alloc, &builder)?;
    builder.byte_classes(true).row_memory(0);
    let bare = memory_by(alloc, &builder)?;
    let found = (more > few, wide > few, bare < few);
    equal(
        rt,
        &found,
        &(depth, classes, rows),
        "depth, classes and rows",
    );
    Ok(())
}

/// The same of the front.
#[test]
fn the_last_setting_decides_of_front(rt: HostRuntime) -> Result<(), Fail> {
    let alloc = rt.alloc();
    let standard = MatchKind::Standard;
    let first = MatchKind::LeftmostFirst;
    let small = (DFA, StartKind::Unanchored);
    let both = (ContiguousNFA, StartKind::Both);
    let mut builder = AhoCorasickBuilder::default();
    front_builds(&rt, alloc, &builder, small, standard, true, &[])?;
    builder.ascii_case_insensitive(true);
    builder.pairing(Pairing::new(&[(b'0', b'1')])?);
    front_builds(&rt, alloc, &builder, small, standard, true, PAIRED)?;
    builder.ascii_case_insensitive(true).prefilter(false);
    builder.match_kind(first).start_kind(StartKind::Both);
    let copy = builder.clone()?;
    builder.kind(Some(NoncontiguousNFA)).kind(None);
    builder.match_kind(standard).pairing(Pairing::ascii());
    front_builds(&rt, alloc, &builder, both, standard, false, FOLDED)?;
    builder.ascii_case_insensitive(false).prefilter(true);
    front_builds(&rt, alloc, &builder, both, standard, true, &[])?;
    front_builds(&rt, alloc, &copy, both, first, false, FOLDED)?;
    let want = Want(small, standard, true, FOLDED);
    is_built(&rt, alloc, AhoCorasick::new(alloc, UPPER), &want)?;
    reaches(&rt, alloc, NoncontiguousNFA, true, false, false)?;
    reaches(&rt, alloc, ContiguousNFA, true, true, true)?;
    reaches(&rt, alloc, DFA, false, true, false)
}
