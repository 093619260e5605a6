//! What a masking of a stream keeps, and its steps: room is made, bytes come, and they are masked.
//!
//! Between two of its steps there may be bytes that aren't masked yet. A [`StreamMask`](super::StreamMask) never has any.
ghost use Rattle.std.specs.Prelude.{◌≡◌, ◌≢◌, ◌+◌, ◌<◌, ◌≤◌, [], false, true, length, max, IfErr, IfOk};
ghost use Rattle.ac_input.specs.declared.search.Anchored.TheVariants.{No};
ghost use Rattle.ac_input.specs.declared.search.MatchKind.TheVariants.{Standard};
ghost use Rattle.ac_input.specs.Work.{shortest};
ghost use Rattle.ac_automaton.specs.Automaton.{IsReached};
ghost use Rattle.ac_automaton.specs.Stream.{CanBeCounted, CanStream, IsOutOfMemory, Picks, room_of};
ghost use Rattle.ac_automaton.specs.Stream.Mask.{AnswersNewMask, AppendsFront, CutsAfter, FillsMask, HasMadeRoom, HasMaskedAll, IsAllMasked, IsOnMask, IsOpenFor, MaskCounts, MasksPushed, MasksRead, finished_mask, fresh_mask, passed_to, ready_of};
ghost use Rattle.ac_automaton.specs.declared.stream.StreamKinds.TheVariants.{OnlyStandard};

use crate::automaton::Automaton;
use crate::error::StreamError;
use crate::search::Search;
use crate::stream::devices::buffer::Buffer;
use crate::stream::devices::watched::Watched;
use crate::stream::overlapping::configured;
use ac_input::history::Pieces;
use ac_input::primitives::StateID;
use ac_input::steps::Steps;
use std::alloc::Global;
use std::io::Read;
use std::marker::Model;

/// A masking of a stream, whose last bytes may wait to be masked.
#[derive(Drop)]
pub(crate) struct Masker<A: Search> {
    automaton: A,
    mask: u8,
    sid: StateID,
    buffer: Buffer,
    /// The place of the first byte that is held.
    from: usize,
    /// The place up to which all is masked.
    at: usize,
    /// The masked bytes that are ready: from `out` to `cut`.
    out: usize,
    cut: usize,
    closed: bool,
    over: bool,
    pieces: Pieces,
    sums: Steps,
}

impl<A: Search> Model for Masker<A> {
    ghost use Rattle.ac_input.specs.declared.search.Anchored.TheVariants.{No};
    ghost use Rattle.ac_automaton.specs.Stream.Mask.{IsStreamMask, MaskProgress, mask_at};

    ghost Value = { MaskProgress };

    ghost view = { λ i. mask_at (A.built i.automaton) i.mask i.pieces.items i.closed
        (record { from = i.from; at = i.at; out = i.out; cut = i.cut }) i.sums i.buffer };

    ghost invariant = { λ i. IsStreamMask (A.Reaches i.automaton No)
        (mask_at (A.built i.automaton) i.mask i.pieces.items i.closed
        (record { from = i.from; at = i.at; out = i.out; cut = i.cut }) i.sums i.buffer)
        i.sid i.buffer i.over };
}

/// The place before which all is final, of a text that ends at a place and leads to a state: the end itself in a start where no
/// pattern matches, since nothing is live there; else fewer bytes than `keep` before it, or where it was before.
pub(super) fn cut_after<A: Automaton>(
    automaton: &A,
    sid: StateID,
    cut: usize,
    keep: usize,
    end: usize,
) -> usize
    requires standard { (A.built automaton.now).dictionary.kind ≡ Standard }
    requires filled { 1 ≤ shortest (A.built automaton.now).dictionary.patterns }
    requires reached { IsReached (A.Reaches automaton.now No) sid }
    requires keep { 1 ≤ keep }
    ensures { CutsAfter A.Automaton automaton.now sid cut keep end result }
{
    if automaton.is_start(sid) && !automaton.is_match(sid) {
        return end;
    }
    cut.max(end.saturating_sub(keep - 1))
}

impl<A: Search + Drop> Masker<A> {
    /// A masking that begins in this start state, which was passed nothing yet.
    fn beginning(
        automaton: A,
        start: StateID,
        mask: u8,
        alloc: Global,
    ) -> Result<Masker<A>, StreamError>
        requires starts { A.Reaches automaton No [] start }
        requires can { CanStream OnlyStandard (A.built automaton) (A.supports automaton) }
        ensures fresh { IfOk result (λ s. s ≡ fresh_mask (A.built automaton) mask) }
        ensures kept { IfOk result IsOnMask }
        ensures error { IfErr result IsOutOfMemory }
    {
        let buffer = Buffer::new(alloc, automaton.max_pattern_len())?;
        Ok(Masker {
            automaton,
            mask,
            sid: start,
            buffer,
            from: 0,
            at: 0,
            out: 0,
            cut: 0,
            closed: false,
            over: false,
            pieces: Pieces::empty(),
            sums: Steps::new(),
        })
    }

    /// A masking of a stream with this byte.
    pub(crate) fn new(automaton: A, mask: u8, alloc: Global) -> Result<Masker<A>, StreamError>
        ensures { AnswersNewMask (A.built automaton) (A.supports automaton) mask result }
    {
        let start = configured(&automaton)?;
        Masker::beginning(automaton, start, mask, alloc)
    }
}

impl<A: Search> Masker<A> {
    /// The masked bytes that are ready: those after what was handed out before, up to the bytes that wait. The next push drops them.
    pub(crate) fn ready(&self) -> &[u8]
        ensures ready { result.now ≡ ready_of self.now }
        ensures kept { IsOnMask self.now }
    {
        &self.buffer.held()[self.out - self.from..self.cut - self.from]
    }

    /// Tells it that nothing more comes: the bytes that waited are ready. After more bytes were pushed than there are places, nothing
    /// is.
    pub(crate) fn finish(&mut self)
        ensures finished { CanBeCounted (passed_to self.old) → self.new ≡ finished_mask self.old }
        ensures over { ¬ CanBeCounted (passed_to self.old) → self.new ≡ record self.old { out = self.old.cut } }
        ensures kept { IsOnMask self.new }
    {
        self.out = self.cut;
        if !self.over {
            self.cut = self.at;
            self.closed = true;
        }
    }

    /// Whether nothing more comes.
    pub(crate) fn is_finished(&self) -> bool
        ensures { result ≡ self.now.closed }
    {
        self.closed
    }

    /// Takes the first bytes of a piece, as many as there is room for, and masks them: see [`StreamMask`](super::StreamMask).
    pub(crate) fn push_counted(
        &mut self,
        piece: &[u8],
        steps: &mut Steps,
    ) -> Result<usize, StreamError>
        requires unclosed { self.old.closed ≡ false }
        requires masked { CanBeCounted (passed_to self.old) → IsAllMasked self.old }
        ensures pushed { MasksPushed self.old self.new piece.now result }
        ensures counts { MaskCounts self.old self.new steps.old steps.new }
        ensures kept { IsOnMask self.new }
    {
        if self.over {
            self.out = self.cut;
            return Err(StreamError::Position);
        }
        self.make_room(steps);
        if piece.is_empty() {
            return Ok(0);
        }
        let n = self.append(piece)?;
        self.mask_new(steps);
        Ok(n)
    }

    /// Drops what was ready. If no room is left, the bytes that wait are moved to the front.
    fn make_room(&mut self, steps: &mut Steps)
        requires unclosed { self.old.closed ≡ false }
        requires masked { IsAllMasked self.old }
        ensures room { length (passed_to self.new) < self.new.from + room_of Picks self.new.built }
        ensures made { HasMadeRoom self.old self.new }
        ensures counts { MaskCounts self.old self.new steps.old steps.new }
        ensures kept { IsOnMask self.new }
    {
        self.out = self.cut;
        if self.buffer.is_full() {
            self.buffer.roll(self.cut - self.from, steps);
            self.from = self.cut;
        }
    }

    /// Takes the first bytes of a piece; there is room. They aren't masked yet.
    fn append(&mut self, piece: &[u8]) -> Result<usize, StreamError>
        requires some { piece.now ≢ [] }
        requires open { IsOpenFor self.old }
        ensures appended { AppendsFront (room_of Picks) self.old self.new piece.now result }
        ensures kept { IsOnMask self.new }
    {
        let n = self.buffer.take(piece);
        self.pieces = self.pieces.and(&piece[..n]);
        self.over = self.buffer.held().len() > usize::MAX - self.from;
        if self.over {
            return Err(StreamError::Position);
        }
        Ok(n)
    }

    /// One read, into all the free room. What it returns isn't masked yet.
    fn fill<R: Read>(&mut self, reader: &mut Watched<R>) -> Result<usize, StreamError>
        requires ended { reader.old.ended ≡ false }
        requires open { IsOpenFor self.old }
        ensures filled { FillsMask R.remaining self.old self.new reader.old reader.new result }
        ensures kept { IsOnMask self.new }
    {
        let n = match self.buffer.fill(reader) {
            Ok(n) => n,
            Err(error) => {
                self.pieces = self.pieces.and(&[]);
                return Err(StreamError::Read(error));
            }
        };
        let held = self.buffer.held();
        self.pieces = self.pieces.and(&held[held.len() - n..]);
        self.over = held.len() > usize::MAX - self.from;
        if self.over {
            return Err(StreamError::Position);
        }
        Ok(n)
    }

    /// Masks what isn't masked yet.
    fn mask_new(&mut self, steps: &mut Steps)
        requires unclosed { self.old.closed ≡ false }
        requires countable { CanBeCounted (passed_to self.old) }
        ensures masked { HasMaskedAll self.old self.new }
        ensures counts { MaskCounts self.old self.new steps.old steps.new }
        ensures kept { IsOnMask self.new }
    {
        let mut taken = Steps::new();
        let masked = self.at - self.from;
        let stop = self
            .buffer
            .mask(&self.automaton, self.sid, masked, self.mask, &mut taken);
        steps.add(&taken);
        self.sums.add(&taken);
        self.sid = stop.sid;
        self.at += stop.taken;
        self.cut = cut_after(
            &self.automaton,
            self.sid,
            self.cut,
            self.buffer.keep(),
            self.at,
        );
    }

    /// One read; if there is no room for it, the bytes that wait are moved to the front first. Returns how many bytes it read: none at
    /// the end of the input. An error is `Read`, or `Position` if there are now more bytes than places; nothing may be read after either.
    pub(crate) fn read_more<R: Read>(
        &mut self,
        reader: &mut Watched<R>,
        steps: &mut Steps,
    ) -> Result<usize, StreamError>
        requires open { reader.old.ended ≡ false }
        requires unclosed { self.old.closed ≡ false }
        requires masked { IsAllMasked self.old }
        requires countable { CanBeCounted (passed_to self.old) }
        ensures read { MasksRead R.remaining self.old self.new reader.old reader.new result }
        ensures counts { MaskCounts self.old self.new steps.old steps.new }
        ensures kept { IsOnMask self.new }
    {
        self.make_room(steps);
        let n = self.fill(reader)?;
        if n == 0 {
            return Ok(0);
        }
        self.mask_new(steps);
        Ok(n)
    }
}
