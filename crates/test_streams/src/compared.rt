//! Many small streams, and some long ones, each compared with the plain program.
//!
//! Patterns and texts are drawn from letters in no order (`test_rows::drawn`), pass places at which no pattern begins
//! (`test_rows::openings`), or are read in lanes (`test_rows::lanes`).
use crate::any_kind::are_found;
use crate::listed::Listed;
use crate::streams;
use ac_input::search::MatchKind;
use ac_noncontiguous::Search;
use std::alloc::Global;
use std::process::Abort;
use std::test::Fail;
use test_rows::answers::Asks::{self, List, Walk};
use test_rows::answers::Text::Whole;
use test_rows::answers::{by_plain, input};
use test_rows::drawn::{Drawn, EACH_OF_LETTERS, KINDS, from_there, letters_of, patterns_of};
use test_rows::engines::Letters::Cased;
use test_rows::engines::{Asked, Case, FEW, Pick, Trial, each};
use test_rows::lanes::{LONG, Long};
use test_rows::openings::{BLOCK, PATTERNS, SHORT, placed, spread};

/// A text, and its matches by the plain program, cut at every place; or its occurrences.
#[derive(Clone, Copy)]
struct Alike<'a> {
    asked: Asked<'a>,
    asks: Asks,
    text: &'a [u8],
    gives: &'a [Pick],
}

impl<T: Abort> Case<T> for Alike<'_> {
    fn asked(&self) -> Asked<'_> {
        self.asked
    }

    fn check<A: Search>(&self, on: &Trial<'_, T, A>) -> Result<(), Fail> {
        if !on.searches() {
            return Ok(());
        }
        let Alike {
            asked,
            text,
            gives,
            ..
        } = *self;
        if let List = self.asks {
            return Listed { asked, text, gives }.check(on);
        }
        for most in 1..=text.len() {
            are_found(on, text, most, gives)?;
        }
        Ok(())
    }
}

/// Compares what a stream gives with what the plain program does, where no pattern is empty.
fn stream_is_alike<T: Abort>(
    rt: &T,
    alloc: Global,
    asked: Asked<'_>,
    asks: Asks,
    text: &[u8],
) -> Result<(), Fail> {
    if asked.patterns.iter().any(|it| it.is_empty()) {
        return Ok(());
    }
    let gives = by_plain(alloc, asked, asks, &input(&Whole(text))?)?;
    let alike = Alike {
        asked,
        asks,
        text,
        gives: &gives,
    };
    each(rt, alloc, &alike, FEW)
}

/// Compares streams of the text, for each kind and with each bytes for the same.
fn each_is_alike<'a, T: Abort>(
    rt: &T,
    alloc: Global,
    patterns: &'a [&'a [u8]],
    text: &'a [u8],
) -> Result<(), Fail> {
    for kind in KINDS {
        for letters in EACH_OF_LETTERS {
            let asked = Asked {
                patterns,
                kind,
                letters,
            };
            stream_is_alike(rt, alloc, asked, Walk, text)?;
            if kind == MatchKind::Standard {
                stream_is_alike(rt, alloc, asked, List, text)?;
            }
        }
    }
    Ok(())
}

/// Compares streams of patterns and a text that are drawn from this number.
fn seed_is_alike<T: Abort>(rt: &T, alloc: Global, seed: u8) -> Result<(), Fail> {
    let letters = letters_of(alloc, seed as u32, 60, b"abAB")?;
    let patterns = patterns_of(alloc, &letters, seed as usize)?;
    each_is_alike(rt, alloc, &patterns, from_there(&letters, 30, 14))
}

/// 30 lists of patterns, each for three kinds and with three pairings.
#[test]
fn small_streams(rt: HostRuntime) -> Result<(), Fail> {
    for seed in 0..30 {
        seed_is_alike(&rt, rt.alloc(), seed)?;
    }
    Ok(())
}

/// Compares the matches of streams of the text, by so many bytes a read.
fn streams_are_alike<T: Abort>(
    rt: &T,
    alloc: Global,
    drawn: Drawn<'_>,
    most: &'static [usize],
) -> Result<(), Fail> {
    let Drawn { asked, text } = drawn;
    let walk = by_plain(alloc, asked, Walk, &input(&Whole(text))?)?;
    let stream = streams::Row {
        shows: "a stream as the plain program",
        patterns: asked.patterns,
        letters: asked.letters,
        text: &[text],
        after: b"",
        fails: false,
        most,
        finds: &walk,
    };
    each(rt, alloc, &stream, FEW)
}

/// Short texts, stretches without a pattern, and blocks in which a pattern begins at each place, at the ends of reads too.
#[test]
fn openings_change_no_stream(rt: HostRuntime) -> Result<(), Fail> {
    for short in SHORT {
        streams_are_alike(&rt, rt.alloc(), short.drawn(), &[1, 2, 3, 7, 100])?;
    }
    let stretched = spread(rt.alloc())?;
    let in_blocks = placed(rt.alloc())?;
    for patterns in PATTERNS {
        let asked = Asked::of(patterns, MatchKind::Standard, Cased);
        let drawn = Drawn {
            asked,
            text: &stretched,
        };
        streams_are_alike(&rt, rt.alloc(), drawn, &[1, 32, 100])?;
        let drawn = Drawn {
            asked,
            text: &in_blocks,
        };
        streams_are_alike(&rt, rt.alloc(), drawn, &[32, 64, BLOCK])?;
    }
    Ok(())
}

/// Compares streams of each text that is read in lanes.
fn is_alike<T: Abort>(rt: &T, alloc: Global, row: &Long) -> Result<(), Fail> {
    let letters = row.letters(alloc)?;
    let patterns = row.patterns(alloc, &letters)?;
    let asked = Asked::of(&patterns, MatchKind::Standard, Cased);
    for len in row.text_lens {
        let text = row.text(alloc, *len)?;
        streams_are_alike(rt, alloc, Drawn { asked, text: &text }, &[1500, 65536])?;
    }
    Ok(())
}

#[test]
fn lanes_change_no_stream(rt: HostRuntime) -> Result<(), Fail> {
    for row in LONG {
        if !row.empty {
            is_alike(&rt, rt.alloc(), row)?;
        }
    }
    Ok(())
}
