//! What a search costs, as contracts count it.
//!
//! A counted call advances a [`Steps`]: by the states that it looked at, the places that its byte scans covered, and the bytes
//! that it copied within a stream's buffer. Only contracts see the counts: they take no memory, and have no greatest value. So a
//! bound on the work of a search is a clause like any other.
ghost use Rattle.ac_input.specs.Steps.{Added, AreNone, Done};

use crate::history::Count;

/// How much was done: states looked at, places scanned, bytes moved. It takes no memory.
#[derive(Drop)]
pub struct Steps {
    looked: Count,
    scanned: Count,
    moved: Count,
}

impl Steps {
    /// Nothing was done yet.
    pub fn new() -> Steps
        ensures { AreNone result }
    {
        Steps {
            looked: Count::zero(),
            scanned: Count::zero(),
            moved: Count::zero(),
        }
    }

    /// One more state was looked at, for a byte.
    pub fn look(&mut self)
        ensures { Done 1 0 0 self.old self.new }
    {
        self.looked = self.looked.next();
    }

    /// So many more states were looked at, one for each of as many bytes.
    pub fn looks(&mut self, states: usize)
        ensures { Done states 0 0 self.old self.new }
    {
        self.looked = self.looked.more(&states);
    }

    /// So many more places were covered by a byte scan.
    pub fn scan(&mut self, places: usize)
        ensures { Done 0 places 0 self.old self.new }
    {
        self.scanned = self.scanned.more(&places);
    }

    /// So many more bytes were copied within a stream's buffer.
    pub fn shift(&mut self, bytes: usize)
        ensures { Done 0 0 bytes self.old self.new }
    {
        self.moved = self.moved.more(&bytes);
    }

    /// As much more was done as was counted elsewhere: each of the three counts of `more` is added.
    pub fn add(&mut self, more: &Steps)
        ensures { Added more.now self.old self.new }
    {
        self.looked = self.looked.plus(&more.looked);
        self.scanned = self.scanned.plus(&more.scanned);
        self.moved = self.moved.plus(&more.moved);
    }
}
