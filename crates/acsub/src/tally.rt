//! How many matches runs have found.
ghost use Rattle.std.specs.Prelude.{◌≡◌};
ghost use Rattle.acsub.specs.Tally.{grown};

/// A number of matches, of one run or of several that are counted together. It stays at the greatest number once it is there.
#[derive(Clone, Copy)]
pub struct Tally {
    found: u64,
}

impl Tally {
    /// Nothing was found yet.
    pub fn new() -> Tally
        ensures { result.found ≡ 0 }
    {
        Tally { found: 0 }
    }

    /// How many were found.
    pub fn found(&self) -> u64
        ensures { result ≡ self.now.found }
    {
        self.found
    }

    /// Counts so many more.
    pub fn add(&mut self, more: u64)
        ensures { self.new.found ≡ grown self.old.found more }
    {
        self.found = self.found.saturating_add(more);
    }
}
