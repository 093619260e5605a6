//! The picks of a walk, one after another, as they are found.
ghost use Rattle.std.specs.Iterator.{YieldsFirst, item_count};

use super::{Found, Naive};
use ac_input::search::MatchKind;
use std::marker::Model;

/// The remaining picks of a walk. From [`Naive::picks`].
///
/// Each is computed on request, and none is stored. After the last one there are no more.
#[derive(Drop)]
pub struct Picks<'a> {
    pub(super) search: Naive<'a>,
    pub(super) kind: MatchKind,
    pub(super) at: usize,
    pub(super) last: Option<usize>,
}

impl<'a> Model for Picks<'a> {
    ghost use Rattle.std.specs.Prelude.{List, ◌+◌, ◌≤◌, length};
    ghost use Rattle.ac_input.specs.Occurrence.{Occurrence};
    ghost use Rattle.test_plain.specs.Naive.{plain_walk};

    ghost Value = { List Occurrence };

    ghost view = { λ p. plain_walk p.search p.kind p.at p.last };

    ghost invariant = { λ p.
        (p.at ≤ p.search.search.end + 1)
        × (p.search.search.end ≤ length p.search.search.haystack) };
}

impl<'a> Iterator for Picks<'a> {
    type Item = Found;

    ghost next_gives = { YieldsFirst (λ rest. rest) };

    ghost remaining = { item_count (λ rest. rest) };

    fn next(&mut self) -> Option<Found> {
        let Some(found) = self.search.next_pick(self.kind, false, self.at, self.last) else {
            return None;
        };
        self.at = found.end;
        self.last = Some(found.end);
        Some(found)
    }
}
