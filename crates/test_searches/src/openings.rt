//! Searches that pass places at which no pattern begins, compared with the plain program.
use crate::hostile::of_whole;
use crate::rows::table_of;
use ac_input::search::MatchKind;
use std::alloc::Global;
use std::process::Abort;
use std::test::Fail;
use test_rows::answers::Asks::{List, Walk};
use test_rows::answers::Text::Whole;
use test_rows::answers::{by_plain, input};
use test_rows::drawn::Drawn;
use test_rows::engines::Letters::Cased;
use test_rows::engines::{Asked, ENGINES, FEW, each};
use test_rows::openings::{PATTERNS, SHORT, placed, spread};

/// Compares the matches of the text, and all occurrences, with the plain program.
fn searches_are_alike<T: Abort>(rt: &T, alloc: Global, drawn: Drawn<'_>) -> Result<(), Fail> {
    let Drawn { asked, text } = drawn;
    let found = [
        by_plain(alloc, asked, Walk, &input(&Whole(text))?)?,
        by_plain(alloc, asked, List, &input(&Whole(text))?)?,
    ];
    let rows = [
        of_whole(Walk, text, &found[0]),
        of_whole(List, text, &found[1]),
    ];
    each(rt, alloc, &table_of(asked, &rows), ENGINES)
}

/// Compares the matches of the text, read ahead or not, with the plain program.
pub fn walks_are_alike<T: Abort>(rt: &T, alloc: Global, drawn: Drawn<'_>) -> Result<(), Fail> {
    let Drawn { asked, text } = drawn;
    let found = by_plain(alloc, asked, Walk, &input(&Whole(text))?)?;
    let rows = [of_whole(Walk, text, &found)];
    each(rt, alloc, &table_of(asked, &rows), FEW)
}

/// Short texts, stretches without a pattern, and blocks in which a pattern begins at each place.
#[test]
fn openings_change_no_search(rt: HostRuntime) -> Result<(), Fail> {
    for short in SHORT {
        searches_are_alike(&rt, rt.alloc(), short.drawn())?;
    }
    for text in [&spread(rt.alloc())?, &placed(rt.alloc())?] {
        for patterns in PATTERNS {
            let asked = Asked::of(patterns, MatchKind::Standard, Cased);
            searches_are_alike(&rt, rt.alloc(), Drawn { asked, text })?;
        }
    }
    Ok(())
}
