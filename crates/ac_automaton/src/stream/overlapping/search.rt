//! The search of a stream for every occurrence: the buffer, and the automaton that reads on over it.
//!
//! Under the standard kind the list of a state holds every pattern that the bytes read end in. So one walk over the stream meets each
//! occurrence once, at the state where it ends. The walk never begins anew: a state stands for everything that was read, so no byte
//! is held once the automaton has read it. Each read fills the buffer from its front, and nothing in it is moved.
//!
//! A [`ListingSearch`] returns the next occurrence of what was read, without a read, and makes one read, as an [`ItemSearch`]. An automaton that can walk over several parts of the buffer side by side reads ahead of the search:
//! see [`ahead`](crate::ahead). It counts a look when it makes it, so up to 8 KiB before the search comes to that byte.
ghost use Rattle.std.specs.Prelude.{◌≡◌, ◌+◌, ◌<◌, ◌≤◌, [], false, true, length, take, vec_len, IfErr, IfOk, OnOk};
ghost use Rattle.ac_input.specs.declared.search.Anchored.TheVariants.{No};
ghost use Rattle.ac_automaton.specs.Ahead.{IsPaid};
ghost use Rattle.ac_automaton.specs.Automaton.{IsState};
ghost use Rattle.ac_automaton.specs.Stream.{AreAllGiven, CanBeCounted, CanStream, CountsNothing, FindsHeld, GoesOn, IsOnCourse, IsOutOfMemory, IsSearched, ReadsMore, fresh_progress, read_by, Occurrences};
ghost use Rattle.ac_automaton.specs.Stream.Overlapping.{AnswersNewListing, IsListingConfigRefusal};
ghost use Rattle.ac_automaton.specs.Stream.Overlapping.Search.{FillsFront};
ghost use Rattle.ac_automaton.specs.Stream.Overlapping.Walk.{GivesOfState, IsAheadFor, ListsNext, MayGive, MayList, ReadsHeld};
ghost use Rattle.ac_automaton.specs.declared.stream.StreamKinds.TheVariants.{OnlyStandard};

use crate::ahead::{Ahead, advance_to_match};
use crate::automaton::Automaton;
use crate::error::{MatchError, StreamError};
use crate::in_memory::overlapping::unanchored_start;
use crate::search::Search;
use crate::stream::devices::watched::Watched;
use crate::stream::search::given_then;
use crate::stream::{ItemSearch, LEAST_ROOM};
use ac_input::history::{Count, Pieces};
use ac_input::primitives::StateID;
use ac_input::search::{Anchored, Match, MatchKind, Span};
use ac_input::steps::Steps;
use std::alloc::{AllocError, Global};
use std::io;
use std::io::Read;
use std::marker::Model;

/// Where a search stands: in which state; counted from the first byte of the stream, the place of the first byte of the last read,
/// and the place up to which it has searched; how many of the state's list were given; and how many it has.
#[derive(Clone, Copy)]
pub struct ListPlace {
    sid: StateID,
    from: usize,
    at: usize,
    index: usize,
    len: usize,
}

/// The new place of a search over the bytes of the last read, and the occurrence that it gave.
#[derive(Clone, Copy)]
pub struct Listed {
    place: ListPlace,
    found: Option<Match>,
}

/// How far a search of a stream for every occurrence has come.
#[derive(Drop)]
pub struct ListingSearch<'a, A: Search> {
    automaton: &'a A,
    bytes: Vec<u8>,
    filled: usize,
    place: ListPlace,
    over: bool,
    ahead: Ahead,
    given: Count,
    pieces: Pieces,
    sums: Steps,
}

impl<'a, A: Search> Model for ListingSearch<'a, A> {
    ghost use Rattle.std.specs.Prelude.{take, vec_len};
    ghost use Rattle.ac_input.specs.declared.search.Anchored.TheVariants.{No};
    ghost use Rattle.std.specs.Prelude.{◌-◌, ◌≤◌, None};
    ghost use Rattle.ac_automaton.specs.Ahead.{IsAhead, bytes_ahead, less_ahead};
    ghost use Rattle.ac_automaton.specs.Stream.{IsOnCourse, Occurrences, StreamProgress};
    ghost use Rattle.ac_automaton.specs.Stream.Overlapping.Search.{IsListingSearch, listing_at};

    ghost Value = { StreamProgress Occurrences };

    ghost view = { λ i. listing_at (A.built i.automaton.now) i.pieces.items i.given.value i.place
        i.sums };

    ghost invariant = { λ i.
        IsOnCourse (listing_at (A.built i.automaton.now) i.pieces.items i.given.value i.place i.sums)
        × IsListingSearch (A.Reaches i.automaton.now No)
        (A.matches i.automaton.now)
        (listing_at (A.built i.automaton.now) i.pieces.items i.given.value i.place (less_ahead i.sums i.ahead))
        i.place i.given.value (vec_len i.bytes) (take i.filled i.bytes.items) i.filled i.over
        × IsAhead (A.built i.automaton.now) (A.Reaches i.automaton.now No) (A.matches i.automaton.now) None
        (take i.filled i.bytes.items) (i.place.at - i.place.from) i.place.sid i.ahead
        × (bytes_ahead i.ahead ≤ i.sums.looked.value) };
}

/// The start state of such a search, where the automaton can make one.
pub(crate) fn configured<A: Automaton>(automaton: &A) -> Result<StateID, MatchError>
    ensures start { IfOk result (λ sid. A.Reaches automaton.now Anchored.No [] sid) }
    ensures can { OnOk result (CanStream OnlyStandard (A.built automaton.now)
        (A.supports automaton.now)) }
    ensures error { IfErr result (IsListingConfigRefusal (A.built automaton.now)
        (A.supports automaton.now)) }
{
    let start = unanchored_start(automaton)?;
    if automaton.min_pattern_len() == 0 {
        return Err(MatchError::unsupported_empty());
    }
    Ok(start)
}

/// The buffer.
fn allocated(alloc: Global) -> Result<Vec<u8>, AllocError>
    ensures { IfOk result (λ bytes. vec_len bytes ≡ 65536) }
{
    let mut bytes = Vec::new(alloc);
    bytes.resize(LEAST_ROOM, 0)?;
    Ok(bytes)
}

/// One read into the buffer, from its front.
fn fill<R: Read>(bytes: &mut Vec<u8>, reader: &mut Watched<R>) -> io::Result<usize>
    requires room { 0 < vec_len bytes.old }
    requires open { reader.old.ended ≡ false }
    ensures fills { FillsFront R.remaining bytes.new reader.old reader.new result }
    ensures len { vec_len bytes.new ≡ vec_len bytes.old }
{
    reader.read(bytes.as_mut_slice())
}

/// How many patterns match at a state.
#[inline]
fn list_len<A: Automaton>(automaton: &A, sid: StateID) -> usize
    requires { IsState (A.Reaches automaton.now) sid }
    ensures { result ≡ length (A.matches automaton.now sid) }
{
    if automaton.is_match(sid) {
        automaton.match_len(sid)
    } else {
        0
    }
}

/// Gives the next occurrence of the state where a search stands.
#[inline]
fn give<A: Automaton>(automaton: &A, place: ListPlace) -> Listed
    requires { MayGive A.Automaton automaton.now place }
    ensures { GivesOfState A.Automaton automaton.now place result }
{
    let pattern = automaton.match_pattern(place.sid, place.index);
    let start = place.at - automaton.pattern_len(pattern);
    Listed {
        place: ListPlace {
            sid: place.sid,
            from: place.from,
            at: place.at,
            index: place.index + 1,
            len: place.len,
        },
        found: Some(Match::new(
            pattern,
            Span {
                start,
                end: place.at,
            },
        )),
    }
}

/// Reads on to the next state that matches, or to the last byte. All of the list of the state before was given.
#[inline]
fn read_on<A: Automaton>(
    automaton: &A,
    place: &ListPlace,
    held: &[u8],
    ahead: &mut Ahead,
    steps: &mut Steps,
) -> ListPlace
    requires stands { MayList A.Automaton automaton.now place.now held.now }
    requires given { place.now.len ≤ place.now.index }
    requires ahead { IsAheadFor A.Automaton automaton.now held.now place.now ahead.old }
    ensures reads { IsPaid ahead.old ahead.new steps.new (λ paid. ReadsHeld A.Automaton automaton.now place.now held.now result
        steps.old paid) }
    ensures ahead { IsAheadFor A.Automaton automaton.now held.now result ahead.new }
{
    let from = place.at - place.from;
    if from == held.len() {
        return *place;
    }
    let stop = advance_to_match(automaton, &None, place.sid, held, from, ahead, steps);
    ListPlace {
        sid: stop.sid,
        from: place.from,
        at: place.at + stop.taken,
        index: 0,
        len: list_len(automaton, stop.sid),
    }
}

/// Gives the next occurrence of what was read: the next of the state where a search stands, or else the first of what ends later.
pub(crate) fn next_listed<A: Automaton>(
    automaton: &A,
    place: &ListPlace,
    held: &[u8],
    ahead: &mut Ahead,
    steps: &mut Steps,
) -> Listed
    requires stands { MayList A.Automaton automaton.now place.now held.now }
    requires ahead { IsAheadFor A.Automaton automaton.now held.now place.now ahead.old }
    ensures lists { IsPaid ahead.old ahead.new steps.new (λ paid. ListsNext A.Automaton automaton.now place.now held.now result
        steps.old paid) }
    ensures ahead { IsAheadFor A.Automaton automaton.now held.now result.place ahead.new }
{
    if place.index < place.len {
        return give(automaton, *place);
    }
    let there = read_on(automaton, place, held, ahead, steps);
    if there.index < there.len {
        return give(automaton, there);
    }
    Listed {
        place: there,
        found: None,
    }
}

impl<'a, A: Search> ListingSearch<'a, A> {
    /// A search that begins in this start state, which has read nothing yet.
    fn beginning(
        automaton: &'a A,
        start: StateID,
        alloc: Global,
    ) -> Result<ListingSearch<'a, A>, StreamError>
        requires starts { A.Reaches automaton.now No [] start }
        requires can { CanStream OnlyStandard (A.built automaton.now) (A.supports automaton.now) }
        ensures fresh { IfOk result (λ s. s ≡ fresh_progress (A.built automaton.now)) }
        ensures kept { IfOk result IsOnCourse }
        ensures error { IfErr result IsOutOfMemory }
    {
        let bytes = allocated(alloc)?;
        Ok(ListingSearch {
            automaton,
            bytes,
            filled: 0,
            place: ListPlace {
                sid: start,
                from: 0,
                at: 0,
                index: 0,
                len: list_len(automaton, start),
            },
            over: false,
            ahead: Ahead::none(),
            given: Count::zero(),
            pieces: Pieces::empty(),
            sums: Steps::new(),
        })
    }

    /// A search that has read nothing yet. Returns an error if the automaton can't make one, and otherwise if there is no memory for
    /// the buffer; it takes no memory after that.
    pub fn new(automaton: &'a A, alloc: Global) -> Result<ListingSearch<'a, A>, StreamError>
        ensures { AnswersNewListing (A.built automaton.now) (A.supports automaton.now) result }
    {
        let start = configured(automaton)?;
        ListingSearch::beginning(automaton, start, alloc)
    }

    /// One read, from the front of the buffer. All that was read before must have been searched.
    ///
    /// Returns how many bytes it read: none at the end of the input. An error is `Read`, or `Position` if there are now more bytes
    /// than places; nothing may be read after either.
    fn read_more<R: Read>(&mut self, reader: &mut Watched<R>) -> Result<usize, StreamError>
        requires open { reader.old.ended ≡ false }
        requires searched { IsSearched self.old }
        ensures read { ReadsMore R.remaining self.old self.new reader.old reader.new result }
        ensures steps { CountsNothing self.old self.new }
        ensures kept { IsOnCourse self.new }
    {
        self.ahead.forget(0);
        self.place.from = self.place.at;
        self.filled = 0;
        let n = match fill(&mut self.bytes, reader) {
            Ok(n) => n,
            Err(error) => {
                self.pieces = self.pieces.and(&[]);
                return Err(StreamError::Read(error));
            }
        };
        self.filled = n;
        self.pieces = self.pieces.and(&self.bytes.as_slice()[..n]);
        self.over = n > usize::MAX - self.place.at;
        if self.over {
            return Err(StreamError::Position);
        }
        Ok(n)
    }
}

impl<'a, A: Search> ItemSearch for ListingSearch<'a, A> {
    ghost use Rattle.ac_automaton.specs.Stream.{Occurrences};

    ghost sequence = { Occurrences };

    ghost progress = { λ s. s };

    fn next_held(&mut self, steps: &mut Steps) -> Option<Match> {
        if self.over {
            return None;
        }
        let mut taken = Steps::new();
        let listed = self.automaton.search_stream_overlapping(
            &self.place,
            &self.bytes.as_slice()[..self.filled],
            &mut self.ahead,
            &mut taken,
        );
        steps.add(&taken);
        self.sums.add(&taken);
        self.given = given_then(&self.given, &listed.found);
        self.place = listed.place;
        listed.found
    }

    fn between(&self, start: usize, end: usize) -> &[u8] {
        &self.bytes.as_slice()[..0]
    }

    fn cut(&self) -> usize {
        self.place.at
    }

    fn end(&self) -> usize {
        self.place.from + self.filled
    }

    fn is_past_places(&self) -> bool {
        self.over
    }

    fn has_closed(&self) -> bool {
        false
    }

    fn read_on<R: Read>(
        &mut self,
        reader: &mut Watched<R>,
        steps: &mut Steps,
    ) -> Result<usize, StreamError> {
        self.read_more(reader)
    }

    fn close(&mut self) {}
}
