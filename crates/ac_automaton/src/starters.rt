//! The bytes that lead from the start to another state, where they are few.
//!
//! Over every other byte a search that stands in the start stays there. So where no more than three bytes lead on, it finds the next
//! of them by `memchr`, many bytes at a time, and passes over all before it. Where there are more, or where the start matches, it
//! goes from byte to byte.
//!
//! An automaton gathers them when it is built: it begins with none and adds each byte that doesn't lead from the start to itself.
ghost use Rattle.memchr.specs.Find.{IsFirstByte};
ghost use Rattle.ac_automaton.specs.Starters.{is_starter, AddsStarter, IsIdleFront, PassesIdle};

use ac_input::primitives::StateID;
use ac_input::steps::Steps;
use memchr::{memchr, memchr2, memchr3};

/// The bytes that lead from the start to another state.
#[derive(Clone, Copy, Debug)]
pub enum Starters {
    /// No byte does.
    None,
    One(u8),
    Two(u8, u8),
    Three(u8, u8, u8),
    /// More than three do, or the start matches: which ones isn't kept.
    Many,
}

impl Starters {
    /// These and one more.
    pub fn with(self, byte: u8) -> Starters
        ensures { AddsStarter self byte result }
    {
        match self {
            Starters::None => Starters::One(byte),
            Starters::One(a) => Starters::Two(a, byte),
            Starters::Two(a, b) => Starters::Three(a, b, byte),
            Starters::Three(..) => Starters::Many,
            Starters::Many => Starters::Many,
        }
    }

    /// Whether they are few enough to be looked for.
    #[inline]
    pub fn are_few(&self) -> bool {
        !matches!(self, Starters::Many)
    }

    /// The first place of the bytes that holds one of them.
    fn find(&self, bytes: &[u8]) -> Option<usize>
        ensures { IsFirstByte (is_starter self.now) bytes.now result }
    {
        match *self {
            Starters::None => None,
            Starters::One(a) => memchr(a, bytes),
            Starters::Two(a, b) => memchr2(a, b, bytes),
            Starters::Three(a, b, c) => memchr3(a, b, c, bytes),
            Starters::Many => bytes.first().map(|_| 0),
        }
    }

    /// How many bytes at the front are none of them.
    fn idle(&self, bytes: &[u8]) -> usize
        ensures { IsIdleFront self.now bytes.now result }
    {
        match self.find(bytes) {
            Some(at) => at,
            None => bytes.len(),
        }
    }

    /// How many bytes at the front leave a search in the state, where it is the start; it counts a look for each.
    #[inline]
    pub fn pass(&self, start: StateID, sid: StateID, bytes: &[u8], steps: &mut Steps) -> usize
        ensures { PassesIdle self.now start sid bytes.now result steps.old steps.new }
    {
        if sid.as_u32() != start.as_u32() {
            return 0;
        }
        let idle = self.idle(bytes);
        steps.looks(idle);
        idle
    }
}
