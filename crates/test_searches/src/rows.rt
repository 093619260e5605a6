//! Searches of small texts, row by row, and what they give.
//!
//! The rows stand in tables, one for each list of patterns, by subject. Each row is run by the plain program, by packed search where
//! that serves, and by each automaton that has a start for it: by its own calls, and by a reference to it.
use crate::asserts::{equal, gives, same, shows_in_turn, walks_on};
use crate::packed::searcher;
use ac_input::search::{Input, MatchKind, Span};
use ac_literal::packed::{self, Searcher};
use ac_noncontiguous::{OverlappingState, Search};
use std::alloc::Global;
use std::process::Abort;
use std::test::Fail;
use test_rows::answers::{Asks, Text, by_plain, collected, input};
use test_rows::engines::{Asked, Case, ENGINES, Engine, Letters, Pick, Trial, each, pick, serves};

mod bytes;
mod empty;
mod inside;
mod layouts;
mod several;
mod vectors;
pub mod words;

/// Some patterns, and what searches for them give.
#[derive(Drop)]
pub struct Table<'a> {
    pub patterns: &'a [&'a [u8]],
    pub kind: MatchKind,
    pub letters: Letters,
    pub rows: &'a [Row<'a>],
}

/// A search, and what it gives.
#[derive(Drop)]
pub struct Row<'a> {
    pub shows: &'a str,
    pub asks: Asks,
    pub text: Text<'a>,
    pub gives: &'a [Pick],
}

/// Asserts that this is the first of what the row gives.
fn is_first<T: Abort>(rt: &T, found: Option<Pick>, row: &Row<'_>) {
    equal(rt, &found, &row.gives.first().copied(), row.shows);
}

/// Asserts the matches of a walk, by each of its calls, and that the first of them is the match of the input.
fn walk_holds<T: Abort, A: Search>(
    rt: &T,
    alloc: Global,
    automaton: &A,
    input: Input<'_>,
    row: &Row<'_>,
) -> Result<(), Fail> {
    is_first(rt, pick(automaton.try_find(&input)?), row);
    let walk = automaton.try_find_iter(input.clone()?)?;
    gives(rt, alloc, walk, row.gives, row.shows)?;
    let ahead = automaton.try_find_iter_ahead(input.clone()?)?;
    gives(rt, alloc, ahead, row.gives, row.shows)?;
    walks_on(rt, &mut automaton.try_find_iter(input)?, row.gives);
    Ok(())
}

/// Asserts the occurrences that a search shows in turn, and those of an iterator, which an anchored search hasn't.
fn list_holds<T: Abort, A: Search>(
    rt: &T,
    alloc: Global,
    automaton: &A,
    input: Input<'_>,
    row: &Row<'_>,
) -> Result<(), Fail> {
    let mut state = OverlappingState::start();
    shows_in_turn(rt, automaton, &input, &mut state, row.gives);
    if !input.get_anchored().is_anchored() {
        let list = automaton.try_find_overlapping_iter(input)?;
        gives(rt, alloc, list, row.gives, row.shows)?;
    }
    Ok(())
}

/// Asserts what the row says of an automaton.
fn row_holds<T: Abort, A: Search>(
    rt: &T,
    alloc: Global,
    automaton: &A,
    row: &Row<'_>,
) -> Result<(), Fail> {
    let input = input(&row.text)?;
    match row.asks {
        Asks::Walk => walk_holds(rt, alloc, automaton, input, row),
        Asks::List => list_holds(rt, alloc, automaton, input, row),
    }
}

/// Asserts what the row says of an automaton, and of a reference to it, if it has a start for the row.
pub fn row_holds_of_each<T: Abort, A: Search>(
    on: &Trial<'_, T, A>,
    row: &Row<'_>,
) -> Result<(), Fail> {
    if !serves(on.starts, input(&row.text)?.get_anchored()) {
        return Ok(());
    }
    row_holds(on.rt, on.alloc, on.automaton, row)?;
    row_holds(on.rt, on.alloc, &on.automaton, row)
}

/// The table of these rows for what automata are built of.
pub fn table_of<'a>(asked: Asked<'a>, rows: &'a [Row<'a>]) -> Table<'a> {
    Table {
        patterns: asked.patterns,
        kind: asked.kind,
        letters: asked.letters,
        rows,
    }
}

impl<T: Abort> Case<T> for Table<'_> {
    fn asked(&self) -> Asked<'_> {
        Asked::of(self.patterns, self.kind, self.letters)
    }

    fn check<A: Search>(&self, on: &Trial<'_, T, A>) -> Result<(), Fail> {
        for row in self.rows {
            row_holds_of_each(on, row)?;
        }
        Ok(())
    }
}

/// Asserts what the row says of the plain program.
fn plain_holds<T: Abort>(
    rt: &T,
    alloc: Global,
    asked: Asked<'_>,
    row: &Row<'_>,
) -> Result<(), Fail> {
    let input = input(&row.text)?;
    let given = by_plain(alloc, asked, row.asks, &input)?;
    same(rt, &given, row.gives, row.shows);
    Ok(())
}

/// Asserts what the row says of packed search: all matches of a whole text, and the first one of a part.
fn packed_holds<T: Abort>(rt: &T, alloc: Global, searcher: &Searcher, row: &Row<'_>) {
    match row.text {
        Text::Whole(text) => {
            let given = collected(alloc, searcher.find_iter(text)).expect(rt, "there is memory");
            same(rt, &given, row.gives, row.shows);
            is_first(rt, pick(searcher.find(text)), row);
        }
        Text::Part(text, start, end) if start <= end && end <= text.len() => {
            is_first(rt, pick(searcher.find_in(text, Span { start, end })), row);
        }
        _ => {}
    }
}

/// The kind for packed search, where it has it.
fn packed_kind(table: &Table<'_>) -> Option<packed::MatchKind> {
    if !matches!(table.letters, Letters::Cased) {
        return None;
    }
    match table.kind {
        MatchKind::Standard => None,
        MatchKind::LeftmostFirst => Some(packed::MatchKind::LeftmostFirst),
        MatchKind::LeftmostLongest => Some(packed::MatchKind::LeftmostLongest),
    }
}

/// Whether packed search serves the patterns: one to 128, and none of them empty.
fn packed_serves(patterns: &[&[u8]]) -> bool {
    let count = patterns.len();
    0 < count && count < 129 && patterns.iter().all(|it| !it.is_empty())
}

/// Asserts what the table says of packed search, where that has its kind and serves its patterns.
pub fn packed_table_holds<T: Abort>(rt: &T, alloc: Global, table: &Table<'_>) -> Result<(), Fail> {
    let Some(kind) = packed_kind(table) else {
        return Ok(());
    };
    let made = searcher(alloc, table.patterns, kind)?;
    same(
        rt,
        &[made.is_some()],
        &[packed_serves(table.patterns)],
        "it is served",
    );
    if let Some(searcher) = &made {
        for row in table.rows {
            packed_holds(rt, alloc, searcher, row);
        }
    }
    Ok(())
}

/// Asserts what each table says: of the plain program, of packed search, and of each of these automata.
pub fn hold<T: Abort>(
    rt: &T,
    alloc: Global,
    tables: &[Table<'_>],
    engines: &[Engine],
) -> Result<(), Fail> {
    for table in tables {
        for row in table.rows {
            plain_holds(rt, alloc, Case::<T>::asked(table), row)?;
        }
        packed_table_holds(rt, alloc, table)?;
        each(rt, alloc, table, engines)?;
    }
    Ok(())
}

/// Patterns inside one another, which of several is found, words, empty patterns and none, and bytes that are the same.
pub const SUBJECTS: [&[Table<'static>]; 5] = [
    inside::TABLES,
    several::TABLES,
    words::TABLES,
    empty::TABLES,
    bytes::TABLES,
];

#[test]
fn small_texts(rt: HostRuntime) -> Result<(), Fail> {
    for tables in SUBJECTS {
        hold(&rt, rt.alloc(), tables, ENGINES)?;
    }
    Ok(())
}
