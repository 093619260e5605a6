//! A match, as C sees it.
ghost use Rattle.std.specs.Prelude.{◌≡◌};
ghost use Rattle.ac_c.specs.Found.{nothing, shown};

use aho_corasick::Match;

/// The match of the pattern of this number: the bytes from `start` up to and without `end`.
#[repr(C)]
#[derive(Clone, Copy)]
pub struct Found {
    pub start: usize,
    pub end: usize,
    pub pattern: u32,
}

impl Found {
    /// What stands in the place of a match, where there is none.
    pub fn nothing() -> Found
        ensures { result ≡ nothing }
    {
        Found {
            start: 0,
            end: 0,
            pattern: 0,
        }
    }

    /// The match as C sees it.
    pub fn from_match(found: &Match) -> Found
        ensures { result ≡ shown found.now }
    {
        Found {
            start: found.start(),
            end: found.end(),
            pattern: found.pattern().as_u32(),
        }
    }
}
