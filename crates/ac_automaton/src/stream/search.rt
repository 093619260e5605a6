//! The base of every search of a stream: one buffer, and the automaton that reads on over it.
//!
//! A stream is read in pieces, and each piece is searched before the next one is read. Nothing depends on where one piece ends and
//! the next begins: the automaton goes on in the state that it was in, and a state stands for everything that a match may still
//! need of what was read. Under the standard kind a match that was found is never taken back, whatever is read after it; so it is
//! returned at once.
//!
//! A [`StreamSearch`] returns the next match of what was read, without a read ([`StreamSearch::next_counted`]), takes a piece that is pushed
//! ([`StreamSearch::push_counted`]) or makes one read (`read_more`), and lends the held bytes ([`StreamSearch::held`]). Up to its
//! [`StreamSearch::cut`] everything is decided: a match still to be found begins there or later. So a caller may write only the bytes
//! before the cut, and only the bytes after it have to be held: at most as many as the longest pattern has. If all the bytes read leave
//! the automaton in its start, nothing is live: the search begins anew there, and nothing has to be held.
//!
//! The hot path is [`Automaton::advance_to_match`] over the bytes of a read. Between two matches nothing else is done for a byte,
//! even if the automaton has a prefilter, which a stream doesn't use. An automaton that can walk over several parts of these bytes
//! side by side reads ahead of the search: see [`ahead`](crate::ahead). No byte is read ahead twice, also if others are held by then.
ghost use Rattle.std.specs.Prelude.{◌≡◌, ◌≢◌, ◌↔◌, ◌+◌, ◌-◌, ◌≤◌, ◌<◌, [], None, false, true, length, IfErr, IfOk, OnOk, IsTrue, drop};
ghost use Rattle.ac_input.specs.declared.search.Anchored.TheVariants.{No};
ghost use Rattle.ac_automaton.specs.Ahead.{IsPaid, StaysReadOnce};
ghost use Rattle.ac_automaton.specs.Stream.Push.{Pushes};
ghost use Rattle.ac_automaton.specs.Stream.Search.{searched_anew, some_of};
ghost use Rattle.ac_automaton.specs.Stream.Search.Walk.{IsAheadBy, MayWalk, WalksOn};
ghost use Rattle.ac_input.specs.Work.{shortest};
ghost use Rattle.ac_automaton.specs.Stream.{AnswersNew, CanBeCounted, IsOutOfMemory, closed_by, fresh_progress, may_wait, CanStream, CountsNothing, FindsHeld, GoesOn, IsConfigRefusal, IsOnCourse, IsRolled, IsSearched, ReadsMore, StreamCounts, StreamProgress, cut_of, read_by, room_of, Picks};
ghost use Rattle.ac_automaton.specs.declared.stream.StreamKinds.TheVariants.{AnyKind};

mod decide;

use crate::ahead::{Ahead, advance_to_match};
use crate::automaton::Automaton;
use crate::error::{MatchError, StreamError};
use crate::in_memory::find::first_match;
use crate::search::Search;
use crate::stream::devices::buffer::Buffer;
use crate::stream::devices::watched::Watched;
use crate::stream::{ItemSearch, StreamKinds};
use ac_input::history::{Count, Pieces};
use ac_input::primitives::StateID;
use ac_input::search::{Anchored, Match, MatchKind};
use ac_input::steps::Steps;
use decide::decide;
use std::alloc::Global;
use std::io::Read;
use std::marker::Model;

/// Where a search stands: in which state; counted from the first byte of the stream, the place of the first byte that is held, the
/// place up to which the automaton has read, and the place where the search last began anew; the best match since then, where what
/// follows may still change it; and whether nothing follows any more.
#[derive(Clone, Copy)]
pub struct Progress {
    sid: StateID,
    closed: bool,
    from: usize,
    at: usize,
    last: usize,
    best: Option<Match>,
}

/// A search of a stream whose pieces are pushed when they come. It owns its automaton, or borrows it as a reference.
///
/// ```text
/// let mut search = StreamSearch::any_kind(&ac, alloc)?;
/// while let Some(piece) = receive() {
///     let mut rest = piece;
///     while !rest.is_empty() {
///         let n = search.push_counted(rest, steps)?;
///         rest = &rest[n..];
///         while let Some(found) = search.next_counted(steps) {
///             // places are counted from the first byte of the stream
///         }
///     }
/// }
/// search.finish();
/// while let Some(found) = search.next_counted(steps) {
///     // those that waited for what might follow
/// }
/// ```
///
/// It is on its course wherever it stands: the matches that it has returned are the first ones of the whole text, whatever still comes.
#[derive(Drop)]
pub struct StreamSearch<A: Search> {
    automaton: A,
    start: StateID,
    buffer: Buffer,
    progress: Progress,
    over: bool,
    ahead: Ahead,
    given: Count,
    pieces: Pieces,
    sums: Steps,
}

impl<A: Search> Model for StreamSearch<A> {
    ghost use Rattle.ac_input.specs.declared.search.Anchored.TheVariants.{No};
    ghost use Rattle.ac_automaton.specs.Stream.{Picks, StreamProgress};

    ghost Value = { StreamProgress Picks };

    ghost use Rattle.std.specs.Prelude.{◌-◌, ◌≤◌, Some};
    ghost use Rattle.ac_automaton.specs.Ahead.{IsAhead, IsReadOnce, bytes_ahead, less_ahead};
    ghost use Rattle.ac_automaton.specs.Stream.{IsOnCourse};
    ghost use Rattle.ac_automaton.specs.Stream.Search.{IsStreamSearch, progress_at};

    ghost view = { λ i. progress_at (A.built i.automaton) i.pieces.items i.given.value
        i.progress i.buffer i.sums };

    ghost invariant = { λ i.
        IsOnCourse (progress_at (A.built i.automaton) i.pieces.items i.given.value i.progress i.buffer i.sums)
        × IsStreamSearch (A.Reaches i.automaton No)
        (progress_at (A.built i.automaton) i.pieces.items i.given.value
        i.progress i.buffer (less_ahead i.sums i.ahead))
        i.start i.progress.sid i.progress.best i.given.value i.buffer i.over
        × IsAhead (A.built i.automaton) (A.Reaches i.automaton No) (A.matches i.automaton) (Some i.start) i.buffer.bytes
        (i.progress.at - i.progress.from) i.progress.sid i.ahead
        × IsReadOnce i.progress.from i.buffer.bytes i.ahead
        × (bytes_ahead i.ahead ≤ i.sums.looked.value) };
}

/// The start state of a search of a stream that accepts these kinds, where the automaton can make one.
pub(super) fn configured<A: Automaton>(
    automaton: &A,
    kinds: StreamKinds,
) -> Result<StateID, MatchError>
    ensures start { IfOk result (λ sid. A.Reaches automaton.now Anchored.No [] sid) }
    ensures can { OnOk result (CanStream kinds (A.built automaton.now) (A.supports automaton.now)) }
    ensures error { IfErr result (IsConfigRefusal kinds (A.built automaton.now)
        (A.supports automaton.now)) }
{
    let start = automaton.start_state(Anchored::No)?;
    let kind = automaton.match_kind();
    if kinds == StreamKinds::OnlyStandard && kind != MatchKind::Standard {
        return Err(MatchError::unsupported_stream(kind));
    }
    if automaton.min_pattern_len() == 0 {
        return Err(MatchError::unsupported_empty());
    }
    Ok(start)
}

/// Whether a match that is met may wait to be decided: under a leftmost kind.
#[inline]
fn may_wait<A: Automaton>(automaton: &A) -> bool
    ensures { result ≡ may_wait (A.built automaton.now).dictionary.kind }
{
    match automaton.match_kind() {
        MatchKind::Standard => false,
        MatchKind::LeftmostFirst | MatchKind::LeftmostLongest => true,
    }
}

/// A match is decided: the search begins anew at its end.
#[inline]
fn begin_anew(start: StateID, progress: &mut Progress, found: &Match)
    ensures { progress.new ≡ (searched_anew start progress.old found.now).progress }
{
    progress.sid = start;
    progress.at = found.end();
    progress.last = found.end();
    progress.best = None;
}

/// Searches the held bytes from where a search stands, up to the next match that is decided or to the last byte. After such a match
/// the search begins anew at its end, and also if it reaches the last byte in a start: nothing of what was read is live there.
pub(crate) fn search<A: Automaton>(
    automaton: &A,
    start: StateID,
    progress: &mut Progress,
    held: &[u8],
    ahead: &mut Ahead,
    steps: &mut Steps,
) -> Option<Match>
    requires walk { MayWalk A.Automaton automaton.now start progress.old held.now }
    requires ahead { IsAheadBy A.Automaton automaton.now start held.now progress.old ahead.old }
    ensures walk { IsPaid ahead.old ahead.new steps.new (λ paid. WalksOn A.Automaton automaton.now start progress.old held.now
        (record { progress = progress.new; found = result }) steps.old paid) }
    ensures ahead { IsAheadBy A.Automaton automaton.now start held.now progress.new ahead.new }
    ensures once { StaysReadOnce held.now ahead.old ahead.new }
{
    if let Some(best) = progress.best {
        // Bound to a name, as below: then what is returned elsewhere stays in registers.
        let decided = decide(automaton, start, progress, best, held, steps);
        return decided;
    }
    search_first(automaton, start, progress, held, ahead, steps)
}

/// The same, where no match has been met since the search began anew. Under standard the first one that is met is decided.
fn search_first<A: Automaton>(
    automaton: &A,
    start: StateID,
    progress: &mut Progress,
    held: &[u8],
    ahead: &mut Ahead,
    steps: &mut Steps,
) -> Option<Match>
    requires none { progress.old.best ≡ None }
    requires walk { MayWalk A.Automaton automaton.now start progress.old held.now }
    requires ahead { IsAheadBy A.Automaton automaton.now start held.now progress.old ahead.old }
    ensures walk { IsPaid ahead.old ahead.new steps.new (λ paid. WalksOn A.Automaton automaton.now start progress.old held.now
        (record { progress = progress.new; found = result }) steps.old paid) }
    ensures ahead { IsAheadBy A.Automaton automaton.now start held.now progress.new ahead.new }
    ensures once { StaysReadOnce held.now ahead.old ahead.new }
{
    let from = progress.at - progress.from;
    let anew = Some(start);
    let stop = advance_to_match(automaton, &anew, progress.sid, held, from, ahead, steps);
    progress.at += stop.taken;
    if automaton.is_match(stop.sid) {
        let found = first_match(automaton, stop.sid, progress.at);
        if may_wait(automaton) {
            progress.sid = stop.sid;
            progress.best = Some(found);
            let decided = decide(automaton, start, progress, found, held, steps);
            return decided;
        }
        progress.sid = start;
        progress.last = found.end();
        return Some(found);
    }
    if automaton.is_start(stop.sid) {
        progress.sid = start;
        progress.last = progress.at;
        return None;
    }
    progress.sid = stop.sid;
    None
}

/// How many items were returned after this one, or none.
pub(crate) fn given_then(given: &Count, found: &Option<Match>) -> Count
    ensures { result.value ≡ given.now.value + length (some_of found.now) }
{
    match found {
        Some(_) => given.next(),
        None => given.more(&0),
    }
}

impl<A: Search + Drop> StreamSearch<A> {
    /// A search of a stream that begins in this start state, which has read nothing yet. Returns an error if there is no memory for
    /// the buffer; it takes no memory after that.
    fn beginning(
        automaton: A,
        start: StateID,
        alloc: Global,
    ) -> Result<StreamSearch<A>, StreamError>
        requires starts { A.Reaches automaton No [] start }
        requires filled { 1 ≤ shortest (A.built automaton).dictionary.patterns }
        ensures fresh { IfOk result (λ s. s ≡ fresh_progress (A.built automaton)) }
        ensures kept { IfOk result IsOnCourse }
        ensures error { IfErr result IsOutOfMemory }
    {
        let buffer = Buffer::new(alloc, automaton.max_pattern_len())?;
        Ok(StreamSearch {
            automaton,
            start,
            buffer,
            progress: Progress {
                sid: start,
                from: 0,
                at: 0,
                last: 0,
                best: None,
                closed: false,
            },
            over: false,
            ahead: Ahead::none(),
            given: Count::zero(),
            pieces: Pieces::empty(),
            sums: Steps::new(),
        })
    }

    /// A search of a stream that accepts these kinds. Returns an error if the automaton can't make one, and otherwise if there is no
    /// memory for the buffer.
    pub(crate) fn new(
        automaton: A,
        kinds: StreamKinds,
        alloc: Global,
    ) -> Result<StreamSearch<A>, StreamError>
        ensures { AnswersNew kinds (A.built automaton) (A.supports automaton) result }
    {
        let start = configured(&automaton, kinds)?;
        StreamSearch::beginning(automaton, start, alloc)
    }

    /// A search of a stream under any kind. It takes one buffer of `max(65536, 8 * max(1, longest))` bytes. Returns an error if the
    /// automaton can't make one, and otherwise if there is no memory for the buffer.
    pub fn any_kind(automaton: A, alloc: Global) -> Result<StreamSearch<A>, StreamError>
        ensures { AnswersNew AnyKind (A.built automaton) (A.supports automaton) result }
    {
        StreamSearch::new(automaton, StreamKinds::AnyKind, alloc)
    }
}

impl<A: Search> StreamSearch<A> {
    /// The held bytes: the last ones of those that were read or pushed. A match that was returned is among them until the next push.
    pub fn held(&self) -> &[u8]
        ensures held { result.now ≡ drop self.now.from (read_by self.now) }
        ensures kept { IsOnCourse self.now }
    {
        self.buffer.held()
    }

    /// The place of the first byte that is held.
    pub fn from(&self) -> usize
        ensures from { result ≡ self.now.from }
        ensures kept { IsOnCourse self.now }
    {
        self.progress.from
    }

    /// The place up to which everything is decided: every remaining match begins there or later.
    pub fn cut(&self) -> usize
        ensures cut { result ≡ cut_of self.now }
        ensures kept { IsOnCourse self.now }
    {
        self.progress
            .last
            .max(self.progress.at.saturating_sub(self.buffer.keep()))
    }

    /// Whether there are more bytes than places: then no match is left.
    pub fn is_over(&self) -> bool
        ensures over { result ≡ true → ¬ CanBeCounted (read_by self.now) }
        ensures open { result ≡ false → CanBeCounted (read_by self.now) }
    {
        self.over
    }

    /// The next match of the bytes that were pushed, once no byte that follows can change it. None means that all of these were
    /// returned: push more bytes, or finish. Under the standard kind a match is returned as soon as its last byte was pushed.
    ///
    /// The places of a match are counted from the first byte that was pushed. Its bytes are held until the next push. Each byte
    /// costs at most two looks at states. Under a leftmost kind each may be looked at once more, read ahead in vain, and at most as many
    /// bytes as the longest pattern has, and one, are read again after a match.
    ///
    /// After more bytes were pushed than there are places it is always none.
    ///
    /// It counts what it does.
    pub fn next_counted(&mut self, steps: &mut Steps) -> Option<Match>
        ensures finds { FindsHeld self.old result self.new }
        ensures counts { StreamCounts self.old self.new steps.old steps.new }
        ensures kept { IsOnCourse self.new }
    {
        if self.over {
            return None;
        }
        let mut taken = Steps::new();
        let found = self.automaton.search_stream(
            self.start,
            &mut self.progress,
            self.buffer.held(),
            &mut self.ahead,
            &mut taken,
        );
        steps.add(&taken);
        self.sums.add(&taken);
        self.given = given_then(&self.given, &found);
        found
    }

    /// How many patterns the automaton has.
    pub fn patterns_len(&self) -> usize
        ensures { result ≡ length self.now.built.dictionary.patterns }
    {
        self.automaton.patterns_len()
    }

    /// Whether all bytes that were pushed were searched. If not, a push takes none.
    pub fn is_searched(&self) -> bool
        ensures { IsTrue result ↔ IsSearched self.now }
    {
        self.progress.at - self.progress.from == self.buffer.held().len()
    }

    /// Whether it was told that nothing more comes.
    pub fn is_closed(&self) -> bool
        ensures closed { result ≡ self.now.closed }
        ensures kept { IsOnCourse self.now }
    {
        self.progress.closed
    }

    /// Tells the search that nothing more comes, so that the match that it has met is decided: [`StreamSearch::next_counted`] returns all
    /// that are left. Under the standard kind each match is decided at once, so this changes nothing.
    pub fn finish(&mut self)
        ensures closed { self.new ≡ closed_by self.old }
        ensures kept { IsOnCourse self.new }
    {
        self.progress.closed = may_wait(&self.automaton);
    }

    /// Moves the bytes after the cut to the front of the buffer, if no room is left.
    fn make_room(&mut self, steps: &mut Steps)
        requires { IsSearched self.old }
        ensures room { length (read_by self.new) < self.new.from + room_of Picks self.new.built }
        ensures same { IsRolled self.old self.new }
        ensures counts { StreamCounts self.old self.new steps.old steps.new }
        ensures kept { IsOnCourse self.new }
    {
        if self.buffer.is_full() {
            let cut = self.cut();
            self.buffer.roll(cut - self.progress.from, steps);
            self.progress.from = cut;
            self.ahead.forget(self.buffer.held().len());
        }
    }

    /// Takes the first bytes of a piece, as many as there is room for, after all that was pushed before. Returns how many: the piece
    /// isn't needed any more. None are taken while [`StreamSearch::next_counted`] may find a match in what was pushed before; else at least
    /// one is, if there is one.
    ///
    /// There is room for `max(65536, 8 * max(1, longest))` bytes, so a piece of up to seven eighths of that is mostly taken whole. It
    /// copies each byte once, allocates nothing, and moves a seventh of the bytes at most within its buffer. The bytes before the
    /// cut are no longer held then.
    ///
    /// It requires that the search wasn't finished, which only counts under a leftmost kind: see [`StreamSearch::is_closed`]. Returns
    /// the error `Position` if there are more bytes than places, and each time after that.
    ///
    /// It counts the bytes that it moves.
    pub fn push_counted(&mut self, piece: &[u8], steps: &mut Steps) -> Result<usize, StreamError>
        requires unclosed { self.old.closed ≡ false }
        ensures pushes { Pushes (IsSearched self.old) self.old self.new piece.now result }
        ensures goes { GoesOn self.old self.new steps.old steps.new }
    {
        if self.over {
            return Err(StreamError::Position);
        }
        if piece.is_empty() || !self.is_searched() {
            return Ok(0);
        }
        self.make_room(steps);
        self.append(piece)
    }

    /// Takes the first bytes of a piece; there is room.
    fn append(&mut self, piece: &[u8]) -> Result<usize, StreamError>
        requires some { piece.now ≢ [] }
        requires unclosed { self.old.closed ≡ false }
        requires searched { IsSearched self.old }
        requires room { length (read_by self.old) < self.old.from + room_of Picks self.old.built }
        ensures pushes { Pushes (IsSearched self.old) self.old self.new piece.now result }
        ensures steps { CountsNothing self.old self.new }
        ensures kept { IsOnCourse self.new }
    {
        self.ahead.forget(self.buffer.held().len());
        let n = self.buffer.take(piece);
        self.pieces = self.pieces.and(&piece[..n]);
        self.over = self.buffer.held().len() > usize::MAX - self.progress.from;
        if self.over {
            return Err(StreamError::Position);
        }
        Ok(n)
    }

    /// One read, into all the free room; if there is none, the bytes after the cut are moved to the front first. Everything that
    /// was read before must have been searched.
    ///
    /// Returns how many bytes it read: none at the end of the input. An error is `Read`, or `Position` if there are now more bytes
    /// than places; nothing may be read after either.
    pub(crate) fn read_more<R: Read>(
        &mut self,
        reader: &mut Watched<R>,
        steps: &mut Steps,
    ) -> Result<usize, StreamError>
        requires open { reader.old.ended ≡ false }
        requires unclosed { self.old.closed ≡ false }
        requires searched { IsSearched self.old }
        ensures read { ReadsMore R.remaining self.old self.new reader.old reader.new result }
        ensures counts { StreamCounts self.old self.new steps.old steps.new }
        ensures kept { IsOnCourse self.new }
    {
        self.make_room(steps);
        self.fill(reader)
    }

    /// One read; there is room.
    fn fill<R: Read>(&mut self, reader: &mut Watched<R>) -> Result<usize, StreamError>
        requires open { reader.old.ended ≡ false }
        requires unclosed { self.old.closed ≡ false }
        requires searched { IsSearched self.old }
        requires room { length (read_by self.old) < self.old.from + room_of Picks self.old.built }
        ensures read { ReadsMore R.remaining self.old self.new reader.old reader.new result }
        ensures steps { CountsNothing self.old self.new }
        ensures from { self.new.from ≡ self.old.from }
        ensures kept { IsOnCourse self.new }
    {
        self.ahead.forget(self.buffer.held().len());
        let n = match self.buffer.fill(reader) {
            Ok(n) => n,
            Err(error) => {
                self.pieces = self.pieces.and(&[]);
                return Err(StreamError::Read(error));
            }
        };
        let held = self.buffer.held();
        self.pieces = self.pieces.and(&held[held.len() - n..]);
        self.over = held.len() > usize::MAX - self.progress.from;
        if self.over {
            return Err(StreamError::Position);
        }
        Ok(n)
    }
}

impl<A: Search> ItemSearch for StreamSearch<A> {
    ghost use Rattle.ac_automaton.specs.Stream.{Picks};

    ghost sequence = { Picks };

    ghost progress = { λ s. s };

    #[inline(always)]
    fn next_held(&mut self, steps: &mut Steps) -> Option<Match> {
        self.next_counted(steps)
    }

    fn between(&self, start: usize, end: usize) -> &[u8] {
        let from = self.progress.from;
        &self.buffer.held()[start - from..end - from]
    }

    fn cut(&self) -> usize {
        StreamSearch::cut(self)
    }

    fn end(&self) -> usize {
        self.progress.from + self.buffer.held().len()
    }

    fn is_past_places(&self) -> bool {
        self.is_over()
    }

    fn has_closed(&self) -> bool {
        self.is_closed()
    }

    fn read_on<R: Read>(
        &mut self,
        reader: &mut Watched<R>,
        steps: &mut Steps,
    ) -> Result<usize, StreamError> {
        self.read_more(reader, steps)
    }

    fn close(&mut self) {
        self.finish();
    }
}
