//! Texts that are long enough to be read in lanes, compared with the plain program.
use crate::openings::walks_are_alike;
use ac_input::search::MatchKind;
use std::alloc::Global;
use std::process::Abort;
use std::test::Fail;
use test_rows::drawn::{Drawn, KINDS};
use test_rows::engines::Asked;
use test_rows::engines::Letters::Cased;
use test_rows::lanes::{LONG, Long};

/// Compares the matches of each text under a kind.
fn is_alike<T: Abort>(rt: &T, alloc: Global, row: &Long, kind: MatchKind) -> Result<(), Fail> {
    let letters = row.letters(alloc)?;
    let patterns = row.patterns(alloc, &letters)?;
    let asked = Asked::of(&patterns, kind, Cased);
    for len in row.text_lens {
        let text = row.text(alloc, *len)?;
        walks_are_alike(rt, alloc, Drawn { asked, text: &text })?;
    }
    Ok(())
}

#[test]
fn lanes_change_no_match(rt: HostRuntime) -> Result<(), Fail> {
    for row in LONG {
        for kind in KINDS {
            is_alike(&rt, rt.alloc(), row, kind)?;
        }
    }
    Ok(())
}
