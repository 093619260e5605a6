//! Long runs of one letter: long patterns of it, many patterns of it, and long texts.
//!
//! A search that begins anew at each place, or that compares a pattern with the text at each, takes the product of their lengths here.
use crate::asserts::equal;
use crate::rows::{Row, hold, table_of};
use ac_input::search::{Input, MatchKind};
use ac_noncontiguous::Search;
use std::alloc::{AllocError, Global};
use std::process::Abort;
use std::test::Fail;
use test_rows::answers::Asks::{self, List, Walk};
use test_rows::answers::Text::{self, Bound, Whole};
use test_rows::drawn::KINDS;
use test_rows::engines::Letters::{self, Cased, Folded};
use test_rows::engines::{Asked, Case, ENGINES, Engine, FEW, FIRST, Pick, Trial, each};

/// A letter, and how often it stands in a row.
type Run = (u8, usize);

/// Patterns and a text, as runs of letters, and what a walk gives for each kind, and the listing for the standard one.
struct Long {
    shows: &'static str,
    patterns: &'static [&'static [Run]],
    letters: Letters,
    anchored: bool,
    text: &'static [Run],
    gives: &'static [Pick],
}

const LONG: &[Long] = &[
    Long {
        shows: "254 letters and another, in either case, at the end of a longer run",
        patterns: &[&[(b'A', 254), (b'z', 1)]],
        letters: Folded,
        anchored: false,
        text: &[(b'a', 300), (b'Z', 1)],
        gives: &[(0, 46, 301)],
    },
    Long {
        shows: "255 letters and another, in either case",
        patterns: &[&[(b'a', 255), (b'z', 1)]],
        letters: Folded,
        anchored: false,
        text: &[(b'a', 300), (b'z', 1)],
        gives: &[(0, 45, 301)],
    },
    Long {
        shows: "254 letters and another, beside a pattern of other letters that ends in the same",
        patterns: &[&[(b'a', 254), (b'z', 1)], &[(b'b', 254), (b'z', 1)]],
        letters: Cased,
        anchored: false,
        text: &[(b'a', 300), (b'z', 1)],
        gives: &[(0, 46, 301)],
    },
    Long {
        shows: "a pattern whose last letter isn't in the text",
        patterns: &[&[(b'a', 20), (b'b', 1)]],
        letters: Cased,
        anchored: false,
        text: &[(b'a', 1000)],
        gives: &[],
    },
    Long {
        shows: "an anchored search gives up, however often the pattern's first letter follows",
        patterns: &[&[(b'a', 1), (b'b', 1)]],
        letters: Cased,
        anchored: true,
        text: &[(b'a', 1000)],
        gives: &[],
    },
    Long {
        shows: "a pattern of more letters than a word has bits",
        patterns: &[&[(b'q', 100)]],
        letters: Cased,
        anchored: false,
        text: &[(b'q', 99), (b'r', 1), (b'q', 100)],
        gives: &[(0, 100, 200)],
    },
];

/// The runs, one after another.
pub fn spelled(alloc: Global, runs: &[Run]) -> Result<Vec<u8>, AllocError> {
    let mut text = Vec::new(alloc);
    for (letter, count) in runs {
        text.resize(text.len().saturating_add(*count), *letter)?;
    }
    Ok(text)
}

/// Each of the patterns.
fn each_spelled(alloc: Global, patterns: &[&[Run]]) -> Result<Vec<Vec<u8>>, AllocError> {
    patterns
        .iter()
        .map(|it| spelled(alloc, it))
        .try_collect(alloc)
}

/// Asserts what the rows say of the patterns. The plain program takes too long for all occurrences.
fn rows_hold<T: Abort>(
    rt: &T,
    alloc: Global,
    asked: Asked<'_>,
    asks: Asks,
    rows: &[Row<'_>],
    engines: &[Engine],
) -> Result<(), Fail> {
    let table = table_of(asked, rows);
    match asks {
        Walk => hold(rt, alloc, &[table], engines),
        List => each(rt, alloc, &table, engines),
    }
}

/// Asserts what a search of the text gives.
fn text_holds<'a, T: Abort>(
    rt: &T,
    alloc: Global,
    asked: Asked<'_>,
    asks: Asks,
    text: Text<'a>,
    gives: &'a [Pick],
    engines: &[Engine],
) -> Result<(), Fail> {
    let rows = [Row {
        shows: "in a long run of letters",
        asks,
        text,
        gives,
    }];
    rows_hold(rt, alloc, asked, asks, &rows, engines)
}

/// Asserts what a walk over the text gives, for each kind.
fn each_kind_holds<'p, 'a, T: Abort>(
    rt: &T,
    alloc: Global,
    patterns: &'p [&'p [u8]],
    letters: Letters,
    text: Text<'a>,
    gives: &'a [Pick],
    engines: &[Engine],
) -> Result<(), Fail> {
    for kind in KINDS {
        let asked = Asked {
            patterns,
            kind,
            letters,
        };
        text_holds(rt, alloc, asked, Walk, text, gives, engines)?;
    }
    Ok(())
}

/// Asserts what is said of the runs.
fn long_holds<T: Abort>(rt: &T, alloc: Global, long: &Long) -> Result<(), Fail> {
    let text = spelled(alloc, long.text)?;
    let patterns = each_spelled(alloc, long.patterns)?;
    let lent: Vec<&[u8]> = patterns.iter().map(|it| it.as_slice()).collect(alloc)?;
    let text = if long.anchored {
        Bound(&text)
    } else {
        Whole(&text)
    };
    let standard = Asked {
        patterns: &lent,
        kind: MatchKind::Standard,
        letters: long.letters,
    };
    text_holds(rt, alloc, standard, List, text, long.gives, ENGINES)?;
    each_kind_holds(rt, alloc, &lent, long.letters, text, long.gives, ENGINES)
}

#[test]
fn long_patterns(rt: HostRuntime) -> Result<(), Fail> {
    for long in LONG {
        long_holds(&rt, rt.alloc(), long)?;
    }
    Ok(())
}

/// A thousand letters.
static LETTERS: [u8; 1000] = [b'a'; 1000];

/// This many letters and one more.
fn more_than(len: usize) -> &'static [u8] {
    if len < LETTERS.len() {
        &LETTERS[..len + 1]
    } else {
        &LETTERS
    }
}

/// Asserts what patterns of one to this many letters find in a thousand of them.
fn growing_hold<T: Abort>(
    rt: &T,
    alloc: Global,
    count: usize,
    kind: MatchKind,
    asks: Asks,
    gives: &[Pick],
) -> Result<(), Fail> {
    let patterns: Vec<&[u8]> = (0..count).map(more_than).collect(alloc)?;
    let asked = Asked {
        patterns: &patterns,
        kind,
        letters: Cased,
    };
    text_holds(rt, alloc, asked, asks, Whole(&LETTERS), gives, FEW)
}

/// One occurrence of the first pattern at each place.
fn at_each_place(alloc: Global) -> Result<Vec<Pick>, AllocError> {
    (0..1000usize).map(|at| (0, at, at + 1)).collect(alloc)
}

/// All occurrences of 128 patterns, by end and then by start.
fn all_of_128(alloc: Global) -> Result<Vec<Pick>, AllocError> {
    let mut all = Vec::new(alloc);
    for end in 1..1001usize {
        for start in end.saturating_sub(128)..end {
            all.push((end - start - 1, start, end))?;
        }
    }
    Ok(all)
}

/// The longest of 128 patterns as often as it goes, and the longest that is left.
const LONGEST_OF_128: &[Pick] = &[
    (127, 0, 128),
    (127, 128, 256),
    (127, 256, 384),
    (127, 384, 512),
    (127, 512, 640),
    (127, 640, 768),
    (127, 768, 896),
    (103, 896, 1000),
];

/// The same with one pattern more, which packed search doesn't take.
const LONGEST_OF_129: &[Pick] = &[
    (128, 0, 129),
    (128, 129, 258),
    (128, 258, 387),
    (128, 387, 516),
    (128, 516, 645),
    (128, 645, 774),
    (128, 774, 903),
    (96, 903, 1000),
];

/// Asserts that a short pattern is found at each place beside a longer one that never comes to its end.
fn short_one_holds<T: Abort>(rt: &T, alloc: Global, gives: &[Pick]) -> Result<(), Fail> {
    let longer = spelled(alloc, &[(b'a', 20), (b'b', 1)])?;
    each_kind_holds(
        rt,
        alloc,
        &[b"a", &longer],
        Cased,
        Whole(&LETTERS),
        gives,
        FEW,
    )
}

#[test]
fn many_patterns(rt: HostRuntime) -> Result<(), Fail> {
    let alloc = rt.alloc();
    let longest = MatchKind::LeftmostLongest;
    growing_hold(&rt, alloc, 128, longest, Walk, LONGEST_OF_128)?;
    growing_hold(&rt, alloc, 129, longest, Walk, LONGEST_OF_129)?;
    let standard = MatchKind::Standard;
    let places = at_each_place(alloc)?;
    growing_hold(&rt, alloc, 128, standard, Walk, &places)?;
    growing_hold(&rt, alloc, 129, standard, Walk, &places)?;
    short_one_holds(&rt, alloc, &places)?;
    let all = all_of_128(alloc)?;
    equal(&rt, &all.len(), &119872, "all of 128 patterns");
    growing_hold(&rt, alloc, 128, standard, List, &all)
}

/// A pattern and a text, both with so many letters that no search by comparing comes to its end.
#[derive(Drop)]
struct Endless<'a> {
    patterns: &'a [&'a [u8]],
    kind: MatchKind,
    text: &'a [u8],
}

impl<T: Abort> Case<T> for Endless<'_> {
    fn asked(&self) -> Asked<'_> {
        Asked::of(self.patterns, self.kind, Folded)
    }

    fn check<A: Search>(&self, on: &Trial<'_, T, A>) -> Result<(), Fail> {
        let rt = on.rt;
        let found = on.automaton.try_find(&Input::new(self.text))?;
        assert!(rt; found.is_none());
        Ok(())
    }
}

/// Asserts that the pattern isn't found, whatever the kind.
fn never_ends<T: Abort>(rt: &T, alloc: Global, pattern: &[u8], text: &[u8]) -> Result<(), Fail> {
    for kind in KINDS {
        let endless = Endless {
            patterns: &[pattern],
            kind,
            text,
        };
        each(rt, alloc, &endless, FIRST)?;
    }
    Ok(())
}

/// A folded pattern of 400,001 letters, whose middle letter is not among the 2,000,000 of the text.
#[test]
fn a_pattern_that_never_ends(rt: HostRuntime) -> Result<(), Fail> {
    let pattern = spelled(rt.alloc(), &[(b'a', 200000), (b'b', 1), (b'a', 200000)])?;
    let text = spelled(rt.alloc(), &[(b'a', 2000000)])?;
    never_ends(&rt, rt.alloc(), &pattern, &text)
}
