//! Look-ups, apart from the searches.
//!
//! A search that skips needs no more of an automaton than where bytes lead. An automaton that skips in its own `advance` says that
//! here, so that its searches and the skip don't call each other.
ghost use Rattle.std.specs.Prelude.{◌≡◌, ◌<◌, ◌↔◌, IsTrue};
ghost use Rattle.ac_automaton.specs.Look.{is_between};

use crate::automaton::Advance;
use ac_input::primitives::StateID;
use ac_input::search::Anchored;
use ac_input::steps::Steps;

/// Two numbers. A search that reads on stops at the states between them, these included.
#[derive(Clone, Copy)]
pub struct Between {
    first: u32,
    last: u32,
}

impl Between {
    /// From a number up to that of a state.
    #[inline(always)]
    pub fn new(from: u32, to: StateID) -> Between
        ensures first { result.first ≡ from }
        ensures last { result.last ≡ to }
    {
        Between {
            first: from,
            last: to.as_u32(),
        }
    }

    /// The same, up to another state.
    #[inline(always)]
    pub fn up_to(self, to: StateID) -> Between
        ensures first { result.first ≡ self.first }
        ensures last { result.last ≡ to }
    {
        Between::new(self.first, to)
    }

    /// Whether both are before a state.
    #[inline(always)]
    pub fn is_before(self, sid: StateID) -> bool
        ensures { IsTrue result ↔ (self.last < sid) }
    {
        self.last < sid.as_u32()
    }

    /// Whether the state is one of them.
    #[inline(always)]
    pub fn has(self, sid: StateID) -> bool
        ensures { result ≡ is_between self sid }
    {
        let at = sid.as_u32();
        self.first <= at && at <= self.last
    }
}

/// The look-ups of a search: all that a search that skips asks of an automaton.
pub trait LookUp {
    ghost use Rattle.std.specs.Prelude.{ℕ, List, [], ◌∷◌, Option};
    ghost use Rattle.ac_input.specs.declared.search.Anchored.{Anchored};
    ghost use Rattle.ac_input.specs.Number.{StateID};
    ghost use Rattle.ac_input.specs.Input.{is_anchored};
    ghost use Rattle.ac_input.specs.Dictionary.{IsLive};
    ghost use Rattle.ac_input.specs.Tells.{Tells};
    ghost use Rattle.ac_automaton.specs.Automaton.{Built, IsReached, Leads, IsReadCost};
    ghost use Rattle.ac_automaton.specs.Look.{ReadsTo};

    /// What the automaton was built as.
    ghost built: { Self → Built };

    /// The state is reached from the start of this anchoring by these bytes.
    ghost Reaches: { Self → Anchored → List ℕ → StateID → Type 0 };

    /// The patterns that match at a state, in order.
    ghost matches: { Self → StateID → List ℕ };

    /// The state after one more byte, where the search began with this anchoring; and counts the states that it looks at.
    fn look_up(&self, anchored: Anchored, sid: StateID, byte: u8, steps: &mut Steps) -> StateID
        requires { IsReached (Reaches self.now anchored) sid }
        ensures next { Leads (Reaches self.now anchored) sid (byte ∷ []) result }
        ensures cost { IsReadCost (built self.now) (Reaches self.now) anchored sid (byte ∷ [])
            steps.old steps.new };

    /// Reads on to the first state between two numbers, these included, or to the last byte. It takes a byte at least, where there
    /// is one; and counts the states that it looks at.
    ///
    /// This is the loop in which a search spends its time. It looks up one byte after another; an automaton with a faster way has its
    /// own.
    #[inline(always)]
    fn read_until(
        &self,
        anchored: Anchored,
        sid: StateID,
        bytes: &[u8],
        to: Between,
        steps: &mut Steps,
    ) -> Advance
        requires { IsReached (Reaches self.now anchored) sid }
        ensures { ReadsTo (built self.now) (Reaches self.now) anchored to sid bytes.now result
            steps.old steps.new }
    {
        let mut current = sid;
        for (read, byte) in bytes.iter().enumerate() {
            current = self.look_up(anchored, current, *byte, steps);
            if to.has(current) {
                return Advance {
                    sid: current,
                    taken: read + 1,
                };
            }
        }
        Advance {
            sid: current,
            taken: bytes.len(),
        }
    }

    /// What the list of a state says of the bytes that were read.
    ghost tells: { (self : Self) (anchored : Anchored) (text : List ℕ) (sid : StateID)
        → Reaches self anchored text sid
        → Tells (built self).dictionary anchored text (matches self sid) };
}
