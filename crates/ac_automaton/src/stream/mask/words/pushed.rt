//! Masking the whole words of a stream whose pieces are pushed: what it keeps, and its steps.
//!
//! The steps are those of a [`Masker`](crate::stream::mask::masker::Masker): room is made, bytes come, and they are masked. Between two
//! of them there may be bytes that aren't masked yet. A [`StreamWordMask`](crate::stream::mask::StreamWordMask) never has any.
ghost use Rattle.std.specs.Prelude.{◌≡◌, ◌≢◌, ◌+◌, ◌<◌, [], false, length};
ghost use Rattle.ac_input.specs.declared.search.Anchored.TheVariants.{No};
ghost use Rattle.ac_automaton.specs.Masking.Words.Pushed.{AnswersNewWordMasking, IsOnWordMask, MasksWordsPushed, ready_words_of};
ghost use Rattle.ac_automaton.specs.Masking.Words.Stream.{word_mask_room};
ghost use Rattle.ac_automaton.specs.Stream.{CanBeCounted};
ghost use Rattle.ac_automaton.specs.Stream.Mask.{AppendsFront, HasMadeRoom, HasMaskedAll, IsAllMasked, IsOpenWithin, MaskCounts, finished_mask, passed_to};

use super::{WordMasker, begun};
use crate::error::StreamError;
use crate::search::Search;
use crate::stream::mask::masker::cut_after;
use ac_input::history::Pieces;
use ac_input::steps::Steps;
use std::alloc::Global;
use std::marker::Model;

/// A masking of the whole words of a stream, whose last bytes may wait to be masked.
#[derive(Drop)]
pub(crate) struct WordMasking<A: Search> {
    automaton: A,
    mask: u8,
    masker: WordMasker,
    /// The masked bytes are ready from `masker.out` up to here.
    cut: usize,
    closed: bool,
    over: bool,
    pieces: Pieces,
    sums: Steps,
}

impl<A: Search> Model for WordMasking<A> {
    ghost use Rattle.ac_input.specs.declared.search.Anchored.TheVariants.{No};
    ghost use Rattle.ac_automaton.specs.Masking.Words.Pushed.{IsStreamWordMask, word_mask_at};
    ghost use Rattle.ac_automaton.specs.Stream.Mask.{MaskProgress};

    ghost Value = { MaskProgress };

    ghost view = { λ i. word_mask_at (A.built i.automaton) i.mask i.pieces.items i.closed i.cut i.sums i.masker };

    ghost invariant = { λ i. IsStreamWordMask (A.Reaches i.automaton No)
        (word_mask_at (A.built i.automaton) i.mask i.pieces.items i.closed i.cut i.sums i.masker) i.masker i.over };
}

impl<A: Search + Drop> WordMasking<A> {
    /// A masking of the whole words of a stream with this byte.
    pub(crate) fn new(automaton: A, mask: u8, alloc: Global) -> Result<WordMasking<A>, StreamError>
        ensures { AnswersNewWordMasking (A.built automaton) (A.supports automaton) mask result }
    {
        let masker = begun(&automaton, alloc)?;
        Ok(WordMasking {
            automaton,
            mask,
            masker,
            cut: 0,
            closed: false,
            over: false,
            pieces: Pieces::empty(),
            sums: Steps::new(),
        })
    }
}

impl<A: Search> WordMasking<A> {
    /// The masked bytes that are ready: those after what was handed out before, up to the bytes that wait. The next push drops them.
    pub(crate) fn ready(&self) -> &[u8]
        ensures ready { result.now ≡ ready_words_of self.now }
        ensures kept { IsOnWordMask self.now }
    {
        self.masker.between(self.cut)
    }

    /// Whether nothing more comes.
    pub(crate) fn is_finished(&self) -> bool
        ensures { result ≡ self.now.closed }
    {
        self.closed
    }

    /// Tells it that nothing more comes: the words that end with the last byte are known, and the bytes that waited are ready. All was
    /// read before, so nothing is counted. After more bytes were pushed than there are places, nothing is ready.
    pub(crate) fn finish(&mut self)
        requires masked { CanBeCounted (passed_to self.old) → IsAllMasked self.old }
        ensures finished { CanBeCounted (passed_to self.old) → self.new ≡ finished_mask self.old }
        ensures over { ¬ CanBeCounted (passed_to self.old) → self.new ≡ record self.old { out = self.old.cut } }
        ensures kept { IsOnWordMask self.new }
    {
        self.masker.out = self.cut;
        if self.over || self.closed {
            return;
        }
        self.masker
            .mask_new(&self.automaton, self.mask, true, &mut Steps::new());
        self.cut = self.masker.place.at;
        self.closed = true;
    }

    /// Takes the first bytes of a piece, as many as there is room for, and masks the words that are known: see
    /// [`StreamWordMask`](crate::stream::mask::StreamWordMask).
    pub(crate) fn push_counted(
        &mut self,
        piece: &[u8],
        steps: &mut Steps,
    ) -> Result<usize, StreamError>
        requires unclosed { self.old.closed ≡ false }
        requires masked { CanBeCounted (passed_to self.old) → IsAllMasked self.old }
        ensures pushed { MasksWordsPushed self.old self.new piece.now result }
        ensures counts { MaskCounts self.old self.new steps.old steps.new }
        ensures kept { IsOnWordMask self.new }
    {
        if self.over {
            self.masker.out = self.cut;
            return Err(StreamError::Position);
        }
        self.make_room(steps);
        if piece.is_empty() {
            return Ok(0);
        }
        let n = self.append(piece)?;
        self.mask_new(steps);
        Ok(n)
    }

    /// Drops what was ready. If no room is left, the bytes that wait are moved to the front, with the byte before them.
    fn make_room(&mut self, steps: &mut Steps)
        requires unclosed { self.old.closed ≡ false }
        requires masked { IsAllMasked self.old }
        requires countable { CanBeCounted (passed_to self.old) }
        ensures room { length (passed_to self.new) < self.new.from + word_mask_room self.new.built }
        ensures made { HasMadeRoom self.old self.new }
        ensures counts { MaskCounts self.old self.new steps.old steps.new }
        ensures kept { IsOnWordMask self.new }
    {
        self.masker.out = self.cut;
        self.masker.make_room(steps);
    }

    /// Takes the first bytes of a piece; there is room. They aren't masked yet.
    fn append(&mut self, piece: &[u8]) -> Result<usize, StreamError>
        requires some { piece.now ≢ [] }
        requires open { IsOpenWithin (word_mask_room self.old.built) self.old }
        ensures appended { AppendsFront word_mask_room self.old self.new piece.now result }
        ensures kept { IsOnWordMask self.new }
    {
        let n = self.masker.take(piece);
        self.pieces = self.pieces.and(&piece[..n]);
        self.over = self.masker.plain.held().len() > usize::MAX - self.masker.from;
        if self.over {
            return Err(StreamError::Position);
        }
        Ok(n)
    }

    /// Masks the words that are known by now.
    fn mask_new(&mut self, steps: &mut Steps)
        requires unclosed { self.old.closed ≡ false }
        requires countable { CanBeCounted (passed_to self.old) }
        ensures masked { HasMaskedAll self.old self.new }
        ensures counts { MaskCounts self.old self.new steps.old steps.new }
        ensures kept { IsOnWordMask self.new }
    {
        let mut taken = Steps::new();
        self.masker
            .mask_new(&self.automaton, self.mask, false, &mut taken);
        steps.add(&taken);
        self.sums.add(&taken);
        self.cut = cut_after(
            &self.automaton,
            self.masker.place.sid,
            self.cut,
            self.masker.plain.keep(),
            self.masker.place.at,
        );
    }
}
