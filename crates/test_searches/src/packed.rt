//! Packed search by itself: what is built, of which patterns, and what is found in a span.
use crate::asserts::{equal, same};
use ac_literal::packed::{Builder, Config, MatchKind, Searcher};
use std::alloc::{AllocError, Global};
use std::process::Abort;
use test_rows::engines::pick;

/// The packed searcher of these patterns, if there is one.
pub fn searcher(
    alloc: Global,
    patterns: &[&[u8]],
    kind: MatchKind,
) -> Result<Option<Searcher>, AllocError> {
    let mut config = Config::new();
    config.match_kind(kind);
    let mut builder = config.builder(alloc);
    builder.try_extend(patterns)?;
    builder.build()
}

/// Whether anything was built.
fn is_some<T: Abort, X: Drop>(rt: &T, built: Result<Option<X>, AllocError>) -> bool {
    built.expect(rt, "there is memory").is_some()
}

/// Asserts that this many patterns are held, and whether a searcher is built of them.
fn holds<T: Abort>(rt: &T, builder: &Builder, len: usize, serves: bool) {
    let found = (builder.len(), is_some(rt, builder.build()));
    equal(rt, &found, &(len, serves), "what is held, and served");
}

/// Adds this many patterns, of one byte each.
fn add_bytes<T: Abort>(rt: &T, builder: &mut Builder, count: u8) {
    for byte in 0..count {
        assert!(rt; builder.try_add(&[byte]).is_ok());
    }
}

/// Patterns of which one is empty.
const ONE_EMPTY: &[&[u8]] = &[b"foo", b"", b"bar"];

/// Adds patterns, one call for each.
fn add_each<T: Abort>(rt: &T, builder: &mut Builder, patterns: &[&[u8]]) {
    for pattern in patterns {
        assert!(rt; builder.add(*pattern).is_ok());
    }
}

/// 1 to 128 patterns are served, none of them empty. What is not served drops all patterns, and those that come later.
#[test]
fn what_packed_search_serves(rt: HostRuntime) {
    let mut builder = Searcher::builder(rt.alloc());
    holds(&rt, &builder, 0, false);
    equal(&rt, &builder.minimum_len(), &usize::MAX, "of no pattern");
    add_bytes(&rt, &mut builder, 128);
    holds(&rt, &builder, 128, true);
    equal(&rt, &builder.minimum_len(), &1, "of one byte each");
    add_bytes(&rt, &mut builder, 1);
    holds(&rt, &builder, 0, false);
    let mut builder = Builder::new(rt.alloc());
    let added = builder.extend(ONE_EMPTY).is_ok();
    assert!(rt; added);
    holds(&rt, &builder, 0, false);
    let mut builder = Builder::new(rt.alloc());
    add_each(&rt, &mut builder, ONE_EMPTY);
    holds(&rt, &builder, 0, false);
}

const A: &[u8] = b"a";

/// Asserts whether there is a searcher of these patterns.
fn is_made<T: Abort>(rt: &T, alloc: Global, patterns: &[&[u8]], serves: bool) {
    assert!(rt; is_some(rt, Searcher::new(alloc, patterns)) == serves);
}

/// Asserts what a searcher of `abc`, `de` and `fghi` says of itself, and finds.
fn is_longest<T: Abort>(rt: &T, searcher: &Searcher) {
    let facts = [
        MatchKind::default() == MatchKind::LeftmostFirst,
        *searcher.match_kind() == MatchKind::LeftmostLongest,
        searcher.minimum_len() == 0,
        searcher.memory_usage() > 0,
        pick(searcher.find(b"xfghi")) == Some((2, 1, 5)),
    ];
    same(rt, &facts, &[true; 5], "the facts");
}

/// Asserts it of a copy.
fn copy_is_longest<T: Abort>(rt: &T, alloc: Global, searcher: &Searcher) {
    is_longest(rt, &searcher.clone(alloc).expect(rt, "there is memory"));
}

/// Asserts it of what the builder builds, and of a copy.
fn builds_longest<T: Abort>(rt: &T, alloc: Global, builder: &Builder) {
    let made = builder.build().expect(rt, "there is memory");
    match &made {
        Some(searcher) => {
            is_longest(rt, searcher);
            copy_is_longest(rt, alloc, searcher);
        }
        None => rt.panic("these are served"),
    }
}

/// Adds the three patterns.
fn fill<T: Abort>(rt: &T, builder: &mut Builder) {
    add_each(rt, builder, &[b"abc"]);
    assert!(rt; builder.try_extend(&[b"de", b"fghi"]).is_ok());
    let held = (builder.len(), builder.minimum_len());
    equal(rt, &held, &(3, 2), "how many, and the shortest");
}

/// Asserts it of a builder that holds the three patterns, and of a copy.
fn copies_build<T: Abort>(rt: &T, alloc: Global, builder: &Builder) {
    builds_longest(rt, alloc, builder);
    let copy = builder.clone().expect(rt, "there is memory");
    builds_longest(rt, alloc, &copy);
}

/// A configuration, a builder and a searcher are copied whole.
#[test]
fn what_is_copied(rt: HostRuntime) {
    let mut config = Searcher::config();
    config
        .match_kind(MatchKind::LeftmostLongest)
        .only_rabin_karp(true);
    let copy = config.clone().expect(&rt, "it takes no memory");
    let mut builder = copy.builder(rt.alloc());
    fill(&rt, &mut builder);
    copies_build(&rt, rt.alloc(), &builder);
}

/// Patterns, and whether there is a searcher of them.
const MADE: [(&[&[u8]], bool); 5] = [
    (&[], false),
    (&[b"a", b""], false),
    (&[b"a", b"b"], true),
    (&[A; 128], true),
    (&[A; 129], false),
];

/// A builder holds nothing at first, and a searcher is made of one to 128 patterns, none of them empty.
#[test]
fn what_is_made(rt: HostRuntime) {
    let first = Config::default().builder(rt.alloc());
    holds(&rt, &first, 0, false);
    for (patterns, serves) in MADE {
        is_made(&rt, rt.alloc(), patterns, serves);
    }
}
