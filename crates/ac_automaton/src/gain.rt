//! What a prefilter, or the openings of an automaton, bring to one search.
//!
//! To ask them costs a search about as much as to read some tens of bytes. Where they pass fewer than those, time after time, as
//! where a prefilter looks for a byte that is frequent in the text, the search is faster without. So it keeps account of the bytes
//! that they passed: where these don't pay for the calls, they are left for a while, first for 1 KiB, and then for twice as long each
//! time. After that they are asked again. No answer depends on it.

/// How many bytes are kept for calls to come, at most.
const MOST: usize = 1024;

/// For how many bytes they are left at first, and at most.
const SHORT: usize = 1024;

const LONG: usize = 65536;

/// The account of one search.
#[derive(Clone, Copy, Drop)]
pub(crate) struct Gain {
    /// How many bytes a call has to pass, to pay.
    cost: usize,
    /// The bytes that were passed and not yet paid for calls.
    credit: usize,
    /// For how many bytes they were left last.
    stretch: usize,
    /// Up to which place they were left last.
    until: usize,
}

impl Gain {
    /// Nothing was asked yet. One call is free.
    pub(crate) fn new(cost: usize) -> Gain {
        Gain {
            cost,
            credit: cost,
            stretch: 0,
            until: 0,
        }
    }

    /// They were asked, and passed so many bytes.
    pub(crate) fn passed(&mut self, bytes: usize) {
        let credit = self.credit.saturating_add(bytes);
        if credit >= MOST {
            self.stretch = 0;
        }
        self.credit = credit.min(MOST).saturating_sub(self.cost);
    }

    /// Up to which place the search goes on without them, where it leaves them.
    pub(crate) fn leaves(&mut self, at: usize) -> Option<usize> {
        if self.credit > 0 {
            return None;
        }
        self.credit = self.cost;
        self.stretch = self.stretch.saturating_mul(2).max(SHORT).min(LONG);
        Some(at.saturating_add(self.stretch))
    }

    /// For how many bytes from a place on the search goes on without them; 0 where it asks them there.
    #[inline(always)]
    pub(crate) fn alone(&mut self, at: usize) -> usize {
        if self.until <= at {
            if let Some(until) = self.leaves(at) {
                self.until = until;
            }
        }
        self.until.saturating_sub(at)
    }
}
