//! Several walks side by side.
//!
//! A look-up waits for the one before it, since the next state is a load from the row of the last one. Four walks over four parts of
//! a text wait for four loads at once. So [`note_ahead`] cuts the next bytes into four lanes, walks over them together, and notes
//! what it finds for the search that comes after it: see [`ahead`](crate::ahead). A look is counted when it is made.
//!
//! The first lane begins where the search stands. Each other lane begins just after a byte that no pattern has, in the start, since
//! such a byte leads every state there. So what a lane notes is what the search will find. After a match a lane goes on as the search
//! does: from the start, or from the state that matched. Under a leftmost kind a search may go on from another place; then it doesn't
//! take the note, and reads those bytes itself.
//!
//! While the lanes are read each writes notes into its own part of the notes. In the end those parts are moved together. A lane
//! whose part is full reads no further, and the others stop with it.
ghost use Rattle.std.specs.Prelude.{◌≡◌, ◌≤◌, ◌<◌, ◌+◌, ◌-◌, ℕ, IsTrue, false, IfSome, [], ◌∷◌, ◌++◌, length, take, drop, slice_range, unwrap_or, nat_le};
ghost use Rattle.ac_input.specs.Number.{usize_max, StateID};
ghost use Rattle.ac_input.specs.Steps.{Done};
ghost use Rattle.ac_input.specs.declared.search.Anchored.TheVariants.{No};
ghost use Rattle.ac_automaton.specs.Ahead.{LaneBegins, CutBytes, EachLane, EachPair, HasMore, HasRoomFor, HasStored, HaveGone, HaveNoted, HaveOwnNotes, HaveRead, HaveRoomFor, HaveWalked, IsLaneCut, MayBegin, MayNote, MayWalkAside, ReadsAheadBy, StaysIn, StoresIf, is_up_to, lane_from, lanes_notes, note_of};
ghost use Rattle.ac_automaton.specs.Automaton.{IsReached, Leads};
ghost use Rattle.ac_automaton.specs.declared.lanes.Lanes.{Lanes};

use crate::ahead::{Note, Noted};
use crate::look::LookUp;
use ac_input::alphabet::ByteSet;
use ac_input::primitives::StateID;
use ac_input::search::Anchored;
use ac_input::steps::Steps;

/// Within how many bytes a lane has to find a place to begin.
const REACH: usize = 256;

/// One of several walks side by side.
#[derive(Clone, Copy)]
pub(crate) struct Lane {
    /// Up to where it has made notes of what it read.
    from: usize,
    /// The state there.
    first: StateID,
    /// Up to where it has read.
    at: usize,
    /// The state there.
    sid: StateID,
    /// Where it ends.
    end: usize,
    /// Which note it writes next.
    slot: usize,
    /// The first note that isn't its own.
    slots: usize,
}

impl Lane {
    /// A lane that has read nothing yet.
    fn begin(at: usize, sid: StateID, end: usize, slot: usize, slots: usize) -> Lane
        ensures { result ≡ lane_from at sid end slot slots }
    {
        Lane {
            from: at,
            first: sid,
            at,
            sid,
            end,
            slot,
            slots,
        }
    }

    /// The same, in another state after some bytes more.
    #[inline(always)]
    fn on(self, bytes: usize, sid: StateID) -> Lane
        requires { self.at + bytes ≤ usize_max }
        ensures { result ≡ record self { at = self.at + bytes; sid = sid } }
    {
        Lane {
            from: self.from,
            first: self.first,
            at: self.at + bytes,
            sid,
            end: self.end,
            slot: self.slot,
            slots: self.slots,
        }
    }

    /// What it has read since its last note.
    fn note(&self) -> Note
        ensures { result ≡ note_of self.now }
    {
        Note {
            from: self.from,
            len: self.at.saturating_sub(self.from),
            sid: self.first,
            next: self.sid,
        }
    }

    /// Stores a note of what it has read since its last one, and goes on from a state.
    #[inline]
    fn store(self, next: StateID, notes: &mut [Note]) -> Lane
        requires room { self.slot < length notes.old }
        ensures { HasStored next notes.old notes.new self result }
    {
        notes[self.slot] = self.note();
        Lane {
            from: self.at,
            first: next,
            at: self.at,
            sid: next,
            end: self.end,
            slot: self.slot + 1,
            slots: self.slots,
        }
    }

    /// Stores a note where it stands at a match, or at another state up to the last one. It goes on from there, or anew.
    #[inline]
    fn settle(self, last: StateID, anew: &Option<StateID>, notes: &mut [Note]) -> Lane
        requires room { self.slot < length notes.old }
        ensures { StoresIf (self.sid ≤ last) (unwrap_or anew.now self.sid) notes.old notes.new self result }
    {
        if self.sid.as_u32() > last.as_u32() {
            return self;
        }
        let next = match anew {
            Some(start) => *start,
            None => self.sid,
        };
        self.store(next, notes)
    }

    /// Stores its last note, if it has read something since the one before.
    fn finish(self, notes: &mut [Note]) -> Lane
        requires room { self.slots ≤ length notes.old }
        ensures { StoresIf (HasMore self) self.sid notes.old notes.new self result }
    {
        if self.from < self.at && self.slot < self.slots {
            return self.store(self.sid, notes);
        }
        self
    }

    /// Whether it has no note left.
    fn is_full(&self) -> bool
        ensures { result ≡ nat_le self.now.slots self.now.slot }
    {
        self.slot >= self.slots
    }

    /// How many bytes it has left; none where it has no note left.
    fn left(&self) -> usize
        ensures { HasRoomFor result self.now }
    {
        if self.is_full() {
            return 0;
        }
        self.end.saturating_sub(self.at)
    }
}

/// Four of them.
#[derive(Clone, Copy)]
pub(crate) struct Lanes {
    a: Lane,
    b: Lane,
    c: Lane,
    d: Lane,
}

impl Lanes {
    /// Whether one of them has no note left.
    fn are_full(&self) -> bool {
        self.a.is_full() || self.b.is_full() || self.c.is_full() || self.d.is_full()
    }

    /// How many bytes each of them has left.
    fn left(&self) -> usize
        ensures { HaveRoomFor result self.now }
    {
        let front = self.a.left().min(self.b.left());
        front.min(self.c.left()).min(self.d.left())
    }

    /// The same, in other states after some bytes more.
    #[inline(always)]
    fn on(self, bytes: usize, a: StateID, b: StateID, c: StateID, d: StateID) -> Lanes
        requires a { self.a.at + bytes ≤ usize_max }
        requires b { self.b.at + bytes ≤ usize_max }
        requires c { self.c.at + bytes ≤ usize_max }
        requires d { self.d.at + bytes ≤ usize_max }
        ensures a { result.a ≡ record self.a { at = self.a.at + bytes; sid = a } }
        ensures b { result.b ≡ record self.b { at = self.b.at + bytes; sid = b } }
        ensures c { result.c ≡ record self.c { at = self.c.at + bytes; sid = c } }
        ensures d { result.d ≡ record self.d { at = self.d.at + bytes; sid = d } }
    {
        let Lanes {
            a: lane_a,
            b: lane_b,
            c: lane_c,
            d: lane_d,
        } = self;
        Lanes {
            a: lane_a.on(bytes, a),
            b: lane_b.on(bytes, b),
            c: lane_c.on(bytes, c),
            d: lane_d.on(bytes, d),
        }
    }
}

/// Whether one of the states is none past the last one.
#[inline(always)]
fn any_up_to(last: StateID, a: StateID, b: StateID, c: StateID, d: StateID) -> bool
    ensures { result ≡ false → (last < a) × (last < b) × (last < c) × (last < d) }
{
    let front = a.as_u32().min(b.as_u32());
    front.min(c.as_u32()).min(d.as_u32()) <= last.as_u32()
}

/// The state after one more byte of a lane. It takes one look, which is counted.
#[inline(always)]
fn step<A: LookUp>(automaton: &A, sid: StateID, byte: u8, steps: &mut Steps) -> StateID
    requires one { IsTrue (A.built automaton.now).deterministic }
    requires reached { IsReached (A.Reaches automaton.now No) sid }
    ensures next { Leads (A.Reaches automaton.now No) sid (byte ∷ []) result }
    ensures cost { Done 1 0 0 steps.old steps.new }
{
    automaton.look_up(Anchored::No, sid, byte, steps)
}

/// Walks over so many bytes in each lane, or up to the first turn after which one of them stands in a state up to the last one.
///
/// This is the loop in which a search spends its time. It stays out of its caller, so that all that it needs is in registers.
#[inline(never)]
fn walk<A: LookUp>(
    automaton: &A,
    lanes: Lanes,
    bytes: &[u8],
    len: usize,
    last: StateID,
    steps: &mut Steps,
) -> Lanes
    requires one { IsTrue (A.built automaton.now).deterministic }
    requires left { HaveRoomFor len lanes × (0 < len) }
    requires walked { HaveWalked (A.Reaches automaton.now No) (is_up_to last) bytes.now lanes }
    ensures gone { HaveGone (A.Reaches automaton.now No) (is_up_to last) bytes.now lanes result }
    ensures read { HaveRead lanes result steps.old steps.new }
{
    let Lanes {
        a: lane_a,
        b: lane_b,
        c: lane_c,
        d: lane_d,
    } = lanes;
    let mut a = lane_a.sid;
    let mut b = lane_b.sid;
    let mut c = lane_c.sid;
    let mut d = lane_d.sid;
    for read in 0..len {
        a = step(automaton, a, bytes[lane_a.at + read], steps);
        b = step(automaton, b, bytes[lane_b.at + read], steps);
        c = step(automaton, c, bytes[lane_c.at + read], steps);
        d = step(automaton, d, bytes[lane_d.at + read], steps);
        if any_up_to(last, a, b, c, d) {
            return lanes.on(read + 1, a, b, c, d);
        }
    }
    lanes.on(len, a, b, c, d)
}

/// Reads on in all lanes to the end of one, or until one has no note left, and stores their notes.
fn read_lanes<A: LookUp>(
    automaton: &A,
    begun: Lanes,
    last: StateID,
    bytes: &[u8],
    anew: Option<StateID>,
    notes: &mut [Note],
    steps: &mut Steps,
) -> Lanes
    requires may { MayWalkAside A.LookUp automaton.now last }
    requires anew { IfSome anew (A.Reaches automaton.now No []) }
    requires begun { EachLane (λ lane. LaneBegins lane.at lane.sid (length notes.old) lane) begun }
    requires apart { HaveOwnNotes begun }
    requires walked { HaveWalked (A.Reaches automaton.now No) (is_up_to last) bytes.now begun }
    ensures noted { HaveNoted A.LookUp automaton.now anew bytes.now notes.new begun result }
    ensures all { EachLane (λ lane. (lane.from ≡ lane.at) × (lane.at ≤ lane.end)) result }
    ensures read { HaveRead begun result steps.old steps.new }
{
    let mut lanes = begun;
    let mut left = lanes.left();
    while left > 0 {
        let gone = walk(automaton, lanes, bytes, left, last, steps);
        lanes = Lanes {
            a: gone.a.settle(last, &anew, notes),
            b: gone.b.settle(last, &anew, notes),
            c: gone.c.settle(last, &anew, notes),
            d: gone.d.settle(last, &anew, notes),
        };
        left = lanes.left();
    }
    Lanes {
        a: lanes.a.finish(notes),
        b: lanes.b.finish(notes),
        c: lanes.c.finish(notes),
        d: lanes.d.finish(notes),
    }
}

/// Moves the notes from one place up to another down to a place before them. Returns the place after them.
fn move_down(notes: &mut [Note], from: usize, end: usize, to: usize) -> usize
    requires order { (to ≤ from) × (from ≤ end) × (end ≤ length notes.old) }
    ensures end { result ≡ to + (end - from) }
    ensures moved { take result notes.new ≡ take to notes.old ++ slice_range notes.old from end }
    ensures later { (k : ℕ) → end ≤ k → drop k notes.new ≡ drop k notes.old }
{
    notes.copy_within(from..end, to);
    to + (end - from)
}

/// Moves the notes of all lanes together. Returns how many they are.
fn gather(begun: &Lanes, lanes: &Lanes, notes: &mut [Note]) -> usize
    requires first { begun.now.a.slot ≡ 0 }
    requires made { EachPair (StaysIn (length notes.old)) begun.now lanes.now }
    requires apart { HaveOwnNotes begun.now }
    ensures few { result ≤ length notes.new }
    ensures gathered { take result notes.new ≡ lanes_notes notes.old begun.now lanes.now }
{
    let b = move_down(notes, begun.b.slot, lanes.b.slot, lanes.a.slot);
    let c = move_down(notes, begun.c.slot, lanes.c.slot, b);
    move_down(notes, begun.d.slot, lanes.d.slot, c)
}

/// The first place after one of these bytes, if there is one in reach.
fn place_after(after: &ByteSet, bytes: &[u8], from: usize, reach: usize) -> Option<usize>
    requires { from + reach ≤ length bytes.now }
    ensures { IfSome result (MayBegin after.now bytes.now from (from + reach)) }
{
    for at in from..from + reach.min(REACH) {
        if after.contains(bytes[at]) {
            return Some(at + 1);
        }
    }
    None
}

/// Four lanes over the next bytes, each about a quarter of them, where there are places to cut them.
fn begin(
    start: StateID,
    after: &ByteSet,
    sid: StateID,
    bytes: &[u8],
    at: usize,
    len: usize,
    slots: usize,
) -> Option<Lanes>
    requires within { at + len ≤ length bytes.now }
    ensures { IfSome result (CutBytes after.now bytes.now at sid start (at + len) slots) }
{
    let quarter = len / 4;
    let b = place_after(after, bytes, at + quarter, quarter)?;
    let c = place_after(after, bytes, at + 2 * quarter, quarter)?;
    let d = place_after(after, bytes, at + 3 * quarter, quarter)?;
    let own = slots / 4;
    Some(Lanes {
        a: Lane::begin(at, sid, b, 0, own),
        b: Lane::begin(b, start, c, own, 2 * own),
        c: Lane::begin(c, start, d, 2 * own, 3 * own),
        d: Lane::begin(d, start, at + len, 3 * own, slots),
    })
}

/// Reads up to `len` bytes ahead of an unanchored search that stands at `at` in state `sid`, and stores notes of what it found, in
/// order of place. `anew` is the state in which the search begins anew after a match. All four lanes read as many bytes, so it reads
/// less than `len` bytes: up to the end of the shortest lane, or until the notes of a lane are full. It reads none where there is no
/// byte near the beginning of each lane that no pattern has, or where a pattern may match at `start`.
///
/// `last` is the last state at which a pattern matches.
pub fn note_ahead<A: LookUp>(
    automaton: &A,
    start: StateID,
    last: StateID,
    after: &ByteSet,
    sid: StateID,
    bytes: &[u8],
    at: usize,
    len: usize,
    anew: Option<StateID>,
    notes: &mut [Note],
    steps: &mut Steps,
) -> Noted
    requires may { MayNote A.LookUp automaton.now start last after.now }
    requires reached { IsReached (A.Reaches automaton.now No) sid }
    requires begins { IfSome anew (A.Reaches automaton.now No []) }
    requires within { at + len ≤ length bytes.now }
    ensures few { result.notes ≤ length notes.new }
    ensures reads { ReadsAheadBy (IsLaneCut after.now start (A.matches automaton.now)) (A.built automaton.now)
        (A.Reaches automaton.now No) (A.matches automaton.now) anew sid bytes.now at len result.read
        (take result.notes notes.new) steps.old steps.new }
{
    if start.as_u32() <= last.as_u32() {
        return Noted::none();
    }
    let Some(begun) = begin(start, after, sid, bytes, at, len, notes.len()) else {
        return Noted::none();
    };
    let lanes = read_lanes(automaton, begun, last, bytes, anew, notes, steps);
    Noted {
        notes: gather(&begun, &lanes, notes),
        read: 4 * (lanes.a.at - at),
        full: lanes.are_full(),
    }
}
