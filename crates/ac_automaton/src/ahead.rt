//! What is read ahead of a search.
//!
//! A search of the standard kind reads byte by byte, and each look-up waits for the one before it. An automaton that can walk over
//! several parts of a text side by side waits for all of them at once. So it may read ahead of the search, by
//! [`note_ahead`](crate::automaton::Automaton::note_ahead): from some places on, as from its start, and note to which states these
//! bytes led and where one of them matched. When the search comes to such a place in the very state that a [`Note`] begins with, it
//! takes what the note says in place of reading those bytes again. A note that begins with another state is never taken. So no
//! result depends on notes.
//!
//! A look is counted when it is made, so taking a note counts nothing. Under the standard kind a search takes every note: a note
//! begins where the one before it ended, or just after a byte that no pattern has, which leaves each search in its start. So no byte
//! is looked at twice, and the looks so far are those for the bytes passed and for at most 8192 bytes more.
//!
//! Under a leftmost kind no state is dead before the first one that matches, so up to there a search reads as under the standard
//! kind. Then it reads on alone to the dead state, and begins anew at the end of the best match. Mostly that is where the first match
//! ended, and the next note begins there. Where a longer match is taken, the next note is lost, and its bytes are read again; no byte
//! is read ahead twice.
ghost use Rattle.std.specs.Prelude.{◌≡◌, ◌+◌, ◌≤◌, ◌<◌, List, [], ◌∷◌, drop, length, take, IfSome, IsTrue, nat_le, slice_get};
ghost use Rattle.ac_automaton.specs.Ahead.{HasForgotten, HasSkipped, IsPaid, Settles, StaysReadOnce, bytes_ahead, left_notes, most_ahead, notes_from, onward};
ghost use Rattle.ac_automaton.specs.InMemory.Find.Ahead.{IsAheadOf};
ghost use Rattle.ac_automaton.specs.Automaton.{AdvancesToMatch, IsReached, IsReadCost, is_matching};
ghost use Rattle.ac_automaton.specs.Skip.{ReadsPart};

use crate::automaton::{Advance, Automaton};
use ac_input::history::Count;
use ac_input::primitives::StateID;
use ac_input::search::Anchored;
use ac_input::steps::Steps;

/// How many bytes before a match are few. After fewer the search reads on by the automaton's own loop alone.
const NEAR: usize = 16;

/// For how many bytes it does, at most.
const ALONE: usize = 32;

/// For how many patterns an automaton passes bytes that begin none, at most. With more of them it reads by one loop in any case.
const PASSED: usize = 128;

/// How many notes a search keeps.
pub const NOTES: usize = 128;

/// How many bytes an automaton reads ahead at a time, at most.
const MOST: usize = 8192;

/// How many at first.
const FIRST: usize = 4096;

/// By how many more each time, as long as the notes are enough for them.
const MORE: usize = 256;

/// For how many bytes the search goes on alone where the automaton reads none ahead.
const PAUSE: usize = 32768;

/// How many bytes it reads ahead at a time, at least. Fewer aren't read ahead.
pub(crate) const LEAST: usize = 1024;

/// From a state, so many bytes from a place on lead to another state, and on the way no state matches.
#[derive(Clone, Copy, Debug)]
pub struct Note {
    /// The place of the first of the bytes.
    pub from: usize,
    /// How many bytes they are.
    pub len: usize,
    /// The state before them.
    pub sid: StateID,
    /// The state after them, which may match.
    pub next: StateID,
}

impl Note {
    /// A note of no bytes.
    pub fn blank() -> Note {
        Note {
            from: 0,
            len: 0,
            sid: StateID::ZERO,
            next: StateID::ZERO,
        }
    }
}

/// What an automaton has read ahead.
#[derive(Clone, Copy, Debug)]
pub struct Noted {
    /// How many notes it made.
    pub notes: usize,
    /// How many bytes it read, all covered by the notes.
    pub read: usize,
    /// Whether there were no notes left for more.
    pub full: bool,
}

impl Noted {
    /// Nothing was read.
    pub fn none() -> Noted
        ensures { (result.notes ≡ 0) × (result.read ≡ 0) }
    {
        Noted {
            notes: 0,
            read: 0,
            full: false,
        }
    }
}

/// The notes of a search over bytes that stay the same, in the order in which it comes to them.
#[derive(Drop)]
pub struct Ahead {
    notes: [Note; NOTES],
    /// The first note that the search may still take.
    next: usize,
    /// The first that isn't one of them any more.
    end: usize,
    /// The place up to which nothing more is read ahead.
    until: usize,
    /// How many bytes are read ahead at a time.
    block: usize,
    /// Whether the last part that was read was short.
    close: bool,
    /// How many bytes were read ahead whose notes were lost.
    lost: Count,
}

impl Ahead {
    /// No notes. A search begins so.
    pub fn none() -> Ahead
        ensures nothing { bytes_ahead result ≡ 0 }
        ensures none { left_notes result ≡ [] }
        ensures room { result.end ≤ length result.notes }
    {
        Ahead {
            notes: [Note::blank(); NOTES],
            next: 0,
            end: 0,
            until: 0,
            block: FIRST,
            close: false,
            lost: Count::zero(),
        }
    }

    /// Forgets all notes, since other bytes come. None of those before a place is read ahead any more.
    pub(crate) fn forget(&mut self, until: usize)
        requires { self.old.end ≤ length self.old.notes }
        ensures { HasForgotten self.old until self.new }
    {
        while self.next < self.end {
            let note = self.notes[self.next];
            self.lost = self.lost.more(&note.len);
            self.next += 1;
        }
        self.until = until;
    }

    /// The next note of a place, or of a later one. Those before it are lost.
    #[inline]
    fn upcoming(&mut self, at: usize) -> Option<Note>
        requires { self.old.end ≤ length self.old.notes }
        ensures skipped { HasSkipped at self.old self.new }
        ensures noted { result ≡ slice_get (left_notes self.new) 0 }
    {
        while self.next < self.end {
            let note = self.notes[self.next];
            if at <= note.from {
                return Some(note);
            }
            self.lost = self.lost.more(&note.len);
            self.next += 1;
        }
        None
    }

    /// The next note of a place, or of a later one. If none is left, the automaton reads ahead first, where that may pay: there are
    /// bytes enough.
    #[inline]
    fn next_note<A: Automaton>(
        &mut self,
        automaton: &A,
        anew: &Option<StateID>,
        sid: StateID,
        bytes: &[u8],
        at: usize,
        steps: &mut Steps,
    ) -> Option<Note>
        requires reached { IsReached (A.Reaches automaton.now Anchored.No) sid }
        requires begins { IfSome anew.now (A.Reaches automaton.now Anchored.No []) }
        requires within { at ≤ length bytes.now }
        requires ahead { IsAheadOf A.Automaton automaton.now anew.now bytes.now at sid self.old }
        ensures ahead { IsAheadOf A.Automaton automaton.now anew.now bytes.now at sid self.new }
        ensures noted { result ≡ slice_get (left_notes self.new) 0 }
        ensures later { IfSome result (λ note. at ≤ note.from) }
        ensures paid { Settles self.old self.new steps.new steps.old }
        ensures once { StaysReadOnce bytes.now self.old self.new }
    {
        let note = self.upcoming(at);
        if note.is_some() || at < self.until || bytes.len() - at < LEAST {
            return note;
        }
        self.read_block(automaton, anew, sid, bytes, at, steps);
        self.upcoming(at)
    }

    /// Whether a search goes on alone from a place: matches are close, no note is left, and nothing more is read ahead there.
    #[inline(always)]
    fn is_alone(&self, at: usize) -> bool
        requires { self.now.end ≤ length self.now.notes }
        ensures { IsTrue result → left_notes self.now ≡ [] }
    {
        self.close && self.end <= self.next && at < self.until
    }

    /// Takes the next note.
    #[inline(always)]
    fn take_note(&mut self)
        requires { self.old.next < self.old.end }
        ensures { self.new ≡ record self.old { next = self.old.next + 1 } }
    {
        self.next += 1;
    }

    /// Has the automaton read a block ahead from a place. It stays out of the search's loop, which seldom comes here.
    #[inline(never)]
    fn read_block<A: Automaton>(
        &mut self,
        automaton: &A,
        anew: &Option<StateID>,
        sid: StateID,
        bytes: &[u8],
        at: usize,
        steps: &mut Steps,
    )
        requires reached { IsReached (A.Reaches automaton.now Anchored.No) sid }
        requires begins { IfSome anew.now (A.Reaches automaton.now Anchored.No []) }
        requires within { at ≤ length bytes.now }
        requires past { self.old.until ≤ at }
        requires none { left_notes self.old ≡ [] }
        requires ahead { IsAheadOf A.Automaton automaton.now anew.now bytes.now at sid self.old }
        ensures ahead { IsAheadOf A.Automaton automaton.now anew.now bytes.now at sid self.new }
        ensures paid { Settles self.old self.new steps.new steps.old }
        ensures once { StaysReadOnce bytes.now self.old self.new }
    {
        let block = self.block.min(MOST).min(bytes.len() - at);
        let noted = automaton.note_ahead(sid, bytes, at, block, *anew, &mut self.notes, steps);
        self.next = 0;
        self.end = noted.notes;
        if noted.read == 0 {
            self.until = at.saturating_add(PAUSE);
            return;
        }
        self.until = at.saturating_add(stretch(block, noted.full));
        self.block = next_block(self.block, noted.full);
    }
}

/// For how many bytes nothing more is read ahead after a block is: to its end. Where the notes were full before the end of one that
/// is as short as can be, matches are so close to one another that a walk alone is as fast.
fn stretch(block: usize, full: bool) -> usize
    ensures { block ≤ result }
{
    if full && block <= LEAST { PAUSE } else { block }
}

/// How many bytes to read ahead next. Where the notes were full before the end of a block, it is half as many, since the bytes after
/// the last note are read alone, one look-up after another. Else it is a few more.
fn next_block(block: usize, full: bool) -> usize {
    if full {
        (block / 2).max(LEAST)
    } else {
        block.saturating_add(MORE).min(MOST)
    }
}

/// The place if it comes after another one, or the end.
#[inline]
fn before_end(place: usize, at: usize, end: usize) -> usize
    requires { at < end }
    ensures after { at < result }
    ensures within { result ≤ end }
    ensures before { at < place → result ≤ place }
{
    if at < place { place.min(end) } else { end }
}

/// Up to which place a search reads by the automaton's own loop: where the next note begins, or where more is read ahead, or to the
/// last byte.
#[inline]
fn end_before(note: &Option<Note>, until: usize, at: usize, end: usize) -> usize
    requires { at < end }
    ensures after { at < result }
    ensures within { result ≤ end }
    ensures before { IfSome note.now (λ note. at < note.from → result ≤ note.from) }
{
    match note {
        Some(note) => before_end(note.from, at, end),
        None => before_end(until, at, end),
    }
}

/// Whether a match after so many bytes is close, for an automaton that would pass bytes otherwise.
#[inline]
fn is_close<A: Automaton>(automaton: &A, read: usize) -> bool {
    read < NEAR && automaton.patterns_len() <= PASSED
}

/// Up to which place a search reads by one loop: fewer bytes where a match was close.
#[inline]
fn part_end(close: bool, at: usize, end: usize) -> usize
    requires { at < end }
    ensures after { at < result }
    ensures within { result ≤ end }
{
    if close {
        end.min(at.saturating_add(ALONE))
    } else {
        end
    }
}

/// Reads on by the automaton's own loop alone where a match was close, and else by what passes bytes fastest.
#[inline(always)]
fn advance_by<A: Automaton>(
    automaton: &A,
    close: bool,
    sid: StateID,
    bytes: &[u8],
    steps: &mut Steps,
) -> Advance
    requires { IsReached (A.Reaches automaton.now Anchored.No) sid }
    ensures goes { AdvancesToMatch (A.Reaches automaton.now Anchored.No) (A.matches automaton.now) sid bytes.now result }
    ensures cost { IsReadCost (A.built automaton.now) (A.Reaches automaton.now) Anchored.No sid
        (take result.taken bytes.now) steps.old steps.new }
{
    if close {
        return automaton.advance_alone(Anchored::No, sid, bytes, steps);
    }
    automaton.advance_to_match(Anchored::No, sid, bytes, steps)
}

/// Reads on over some bytes: those of a note, or those before the next one.
#[inline]
fn read_part<A: Automaton>(
    automaton: &A,
    anew: &Option<StateID>,
    sid: StateID,
    bytes: &[u8],
    at: usize,
    ahead: &mut Ahead,
    steps: &mut Steps,
) -> Advance
    requires reached { IsReached (A.Reaches automaton.now Anchored.No) sid }
    requires begins { IfSome anew.now (A.Reaches automaton.now Anchored.No []) }
    requires left { at < length bytes.now }
    requires ahead { IsAheadOf A.Automaton automaton.now anew.now bytes.now at sid ahead.old }
    ensures reads { IsPaid ahead.old ahead.new steps.new (λ paid. ReadsPart (A.built automaton.now)
        (A.Reaches automaton.now) Anchored.No (is_matching (A.matches automaton.now)) sid (drop at bytes.now) result steps.old paid) }
    ensures ahead { IsAheadOf A.Automaton automaton.now anew.now bytes.now (at + result.taken)
        (onward (A.matches automaton.now) anew.now result.sid) ahead.new }
    ensures once { StaysReadOnce bytes.now ahead.old ahead.new }
{
    let upcoming = ahead.next_note(automaton, anew, sid, bytes, at, steps);
    if let Some(note) = &upcoming {
        if note.from == at && note.sid == sid {
            ahead.take_note();
            return Advance {
                sid: note.next,
                taken: note.len,
            };
        }
    }
    let close = ahead.close;
    let end = end_before(&upcoming, ahead.until, at, part_end(close, at, bytes.len()));
    advance_by(automaton, close, sid, &bytes[at..end], steps)
}

/// Reads on from a state over bytes from a place on, to the first state that matches, or to the last byte, one part after another.
#[inline(never)]
fn advance_by_parts<A: Automaton>(
    automaton: &A,
    anew: &Option<StateID>,
    sid: StateID,
    bytes: &[u8],
    from: usize,
    ahead: &mut Ahead,
    steps: &mut Steps,
) -> Advance
    requires reached { IsReached (A.Reaches automaton.now Anchored.No) sid }
    requires begins { IfSome anew.now (A.Reaches automaton.now Anchored.No []) }
    requires within { from ≤ length bytes.now }
    requires ahead { IsAheadOf A.Automaton automaton.now anew.now bytes.now from sid ahead.old }
    ensures goes { AdvancesToMatch (A.Reaches automaton.now Anchored.No) (A.matches automaton.now) sid
        (drop from bytes.now) result }
    ensures cost { IsPaid ahead.old ahead.new steps.new (λ paid. IsReadCost (A.built automaton.now)
        (A.Reaches automaton.now) Anchored.No sid (take result.taken (drop from bytes.now)) steps.old paid) }
    ensures ahead { IsAheadOf A.Automaton automaton.now anew.now bytes.now (from + result.taken)
        (onward (A.matches automaton.now) anew.now result.sid) ahead.new }
    ensures once { StaysReadOnce bytes.now ahead.old ahead.new }
{
    let mut current = sid;
    let mut read = 0;
    while read < bytes.len() - from {
        let stop = read_part(automaton, anew, current, bytes, from + read, ahead, steps);
        current = stop.sid;
        read += stop.taken;
        ahead.close = is_close(automaton, read);
        if automaton.is_match(current) {
            return Advance {
                sid: current,
                taken: read,
            };
        }
    }
    Advance {
        sid: current,
        taken: read,
    }
}

/// Reads on over few bytes by the automaton's own loop alone.
#[inline(always)]
fn read_alone<A: Automaton>(
    automaton: &A,
    sid: StateID,
    bytes: &[u8],
    at: usize,
    steps: &mut Steps,
) -> Advance
    requires reached { IsReached (A.Reaches automaton.now Anchored.No) sid }
    requires left { at < length bytes.now }
    ensures { ReadsPart (A.built automaton.now) (A.Reaches automaton.now) Anchored.No
        (is_matching (A.matches automaton.now)) sid (drop at bytes.now) result steps.old steps.new }
{
    let end = part_end(true, at, bytes.len());
    automaton.advance_alone(Anchored::No, sid, &bytes[at..end], steps)
}

/// Reads on from a state over bytes from a place on, to the first state that matches, or to the last byte: as
/// [`Automaton::advance_to_match`], but by what was read ahead, where there is a note. `anew` is the state in which the search begins
/// anew after a match; none if it goes on from the state that matched.
///
/// Where matches are close, it asks for no note first: that would cost as much as to read their bytes.
#[inline(always)]
pub(crate) fn advance_to_match<A: Automaton>(
    automaton: &A,
    anew: &Option<StateID>,
    sid: StateID,
    bytes: &[u8],
    from: usize,
    ahead: &mut Ahead,
    steps: &mut Steps,
) -> Advance
    requires reached { IsReached (A.Reaches automaton.now Anchored.No) sid }
    requires begins { IfSome anew.now (A.Reaches automaton.now Anchored.No []) }
    requires within { from ≤ length bytes.now }
    requires ahead { IsAheadOf A.Automaton automaton.now anew.now bytes.now from sid ahead.old }
    ensures goes { AdvancesToMatch (A.Reaches automaton.now Anchored.No) (A.matches automaton.now) sid
        (drop from bytes.now) result }
    ensures cost { IsPaid ahead.old ahead.new steps.new (λ paid. IsReadCost (A.built automaton.now)
        (A.Reaches automaton.now) Anchored.No sid (take result.taken (drop from bytes.now)) steps.old paid) }
    ensures ahead { IsAheadOf A.Automaton automaton.now anew.now bytes.now (from + result.taken)
        (onward (A.matches automaton.now) anew.now result.sid) ahead.new }
    ensures once { StaysReadOnce bytes.now ahead.old ahead.new }
{
    if bytes.len() <= from || !ahead.is_alone(from) {
        return advance_by_parts(automaton, anew, sid, bytes, from, ahead, steps);
    }
    let stop = read_alone(automaton, sid, bytes, from, steps);
    ahead.close = stop.taken < NEAR;
    if automaton.is_match(stop.sid) {
        return stop;
    }
    let at = from + stop.taken;
    let rest = advance_by_parts(automaton, anew, stop.sid, bytes, at, ahead, steps);
    Advance {
        sid: rest.sid,
        taken: stop.taken + rest.taken,
    }
}
