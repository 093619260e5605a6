//! What gives the matches of a walk: an iterator that reads ahead, or one that doesn't.
ghost use Rattle.std.specs.Prelude.{◌≡◌, false, true};

use aho_corasick::{FindIter, FindIterAhead, Match, Steps, WalkPlace};

/// An iterator over the matches of a walk.
pub trait Walking {
    ghost use Rattle.std.specs.Prelude.{Bool};
    ghost use Rattle.std.specs.Iterator.{YieldsFirst};
    ghost use Rattle.ac_automaton.specs.InMemory.Iter.{GivesPick, IsPlaceIn, Walk, left_of};
    ghost use Rattle.ac_c.specs.Walking.{WalksTo};

    /// The walk, where it stands.
    ghost walk: { Self → Walk };

    /// Whether the walk may read ahead.
    ghost ahead: { Bool };

    /// The next match; counts what it does.
    fn next_match(&mut self, steps: &mut Steps) -> Option<Match>
        ensures gives { GivesPick (walk self.old) result (walk self.new) }
        ensures yields { YieldsFirst left_of (walk self.old) result (walk self.new) }
        ensures cost { WalksTo ahead (walk self.old) (walk self.new) steps.old steps.new };

    /// Where the walk stands.
    fn stands(&self) -> WalkPlace
        ensures value { result ≡ (record { start = (walk self.now).at; last = (walk self.now).last }) }
        ensures within { IsPlaceIn (walk self.now).asked result };
}

impl<'a, 'h> Walking for FindIter<'a, 'h> {
    ghost walk = { λ w. w };

    ghost ahead = { false };

    fn next_match(&mut self, steps: &mut Steps) -> Option<Match> {
        self.next_counted(steps)
    }

    fn stands(&self) -> WalkPlace {
        self.place()
    }
}

impl<'a, 'h> Walking for FindIterAhead<'a, 'h> {
    ghost walk = { λ w. w };

    ghost ahead = { true };

    fn next_match(&mut self, steps: &mut Steps) -> Option<Match> {
        self.next_counted(steps)
    }

    fn stands(&self) -> WalkPlace {
        self.place()
    }
}
