//! Masking a stream: each byte that an occurrence covers is replaced by one byte, while the stream comes in pieces.
//!
//! The pieces are held in one buffer, which is allocated before the first piece, and each is masked where it is held: see
//! [`masking`](crate::masking). An occurrence may begin in one piece and end in another, so the last bytes may still get the mask. They
//! wait: fewer than the longest pattern has, and none where the automaton is in its start, since then nothing of what was read may
//! still grow into an occurrence. All others are ready to be written, and don't change any more. So a caller that writes them before
//! it reads on keeps back no more than that.
//!
//! Only an automaton of the standard kind stores every occurrence. An empty pattern is an error, as for every search of a stream. No
//! prefilter is used.
//!
//! [`mask_stream`] masks a stream from a reader into a writer. A [`StreamMask`] owns neither: its pieces are pushed when they come.
//! [`words`] masks whole words alone, and so does a [`StreamWordMask`], whose pieces are pushed.
ghost use Rattle.std.specs.Prelude.{◌≡◌, false, IfErr};
ghost use Rattle.ac_automaton.specs.Masking.Words.Pushed.{AnswersNewWordMasking, IsOnWordMask, MasksWordsPushed, ready_words_of};
ghost use Rattle.ac_automaton.specs.Stream.{CanBeCounted};
ghost use Rattle.ac_automaton.specs.Stream.Mask.{AnswersNewMask, CostsMaskStream, IsOnMask, MaskCounts, MasksPushed, MasksStream, WritesMasked, finished_mask, fresh_mask, passed_to, ready_of};
ghost use Rattle.ac_automaton.specs.Stream.Overlapping.{AcceptsListing};
ghost use Rattle.ac_automaton.specs.Stream.Replace.{IsBegun};

use crate::error::StreamError;
use crate::search::Search;
use crate::stream::devices::watched::{Watched, write_whole};
use ac_input::steps::Steps;
use std::alloc::Global;
use std::io::{Read, Write};
use std::marker::Model;

mod masker;
pub(crate) mod words;

use masker::Masker;
use words::pushed::WordMasking;

/// A masking of a stream whose pieces are pushed when they come. It owns its automaton, or borrows it as a reference.
///
/// ```text
/// let mut stream = StreamMask::new(&ac, b'*', alloc)?;
/// while let Some(piece) = receive() {
///     let mut rest = piece;
///     while !rest.is_empty() {
///         let n = stream.push_counted(rest, steps)?;
///         rest = &rest[n..];
///         send(stream.ready());
///     }
/// }
/// stream.finish();
/// send(stream.ready());
/// ```
///
/// What it hands out, one slice after another, is the masked text of what was pushed, up to the bytes that wait.
#[derive(Drop)]
pub struct StreamMask<A: Search> {
    masker: Masker<A>,
}

impl<A: Search> Model for StreamMask<A> {
    ghost use Rattle.ac_automaton.specs.Stream.{CanBeCounted};
    ghost use Rattle.ac_automaton.specs.Stream.Mask.{IsAllMasked, MaskProgress, passed_to};

    ghost Value = { MaskProgress };

    ghost view = { λ i. i.masker };

    ghost invariant = { λ i. CanBeCounted (passed_to i.masker) → IsAllMasked i.masker };
}

impl<A: Search + Drop> StreamMask<A> {
    /// A masking of a stream with this byte. It takes one buffer of `max(65536, 8 * max(1, longest))` bytes, and no memory after that.
    /// Returns an error if the automaton has no start for a search that isn't anchored, isn't of the standard kind, or has an empty
    /// pattern, checked in that order, and then if there is no memory for the buffer.
    pub fn new(automaton: A, mask: u8, alloc: Global) -> Result<StreamMask<A>, StreamError>
        ensures { AnswersNewMask (A.built automaton) (A.supports automaton) mask result }
    {
        let masker = Masker::new(automaton, mask, alloc)?;
        Ok(StreamMask { masker })
    }
}

impl<A: Search> StreamMask<A> {
    /// The masked bytes that are ready: those after what was handed out before, up to the bytes that wait. The next push drops them.
    pub fn ready(&self) -> &[u8]
        ensures ready { result.now ≡ ready_of self.now }
        ensures kept { IsOnMask self.now }
    {
        self.masker.ready()
    }

    /// Tells it that nothing more comes: the bytes that waited are ready. After more bytes were pushed than there are places, nothing
    /// is.
    pub fn finish(&mut self)
        ensures finished { CanBeCounted (passed_to self.old) → self.new ≡ finished_mask self.old }
        ensures over { ¬ CanBeCounted (passed_to self.old) → self.new ≡ record self.old { out = self.old.cut } }
        ensures kept { IsOnMask self.new }
    {
        self.masker.finish();
    }

    /// Whether nothing more comes.
    pub fn is_finished(&self) -> bool
        ensures { result ≡ self.now.closed }
    {
        self.masker.is_finished()
    }

    /// Takes the first bytes of a piece, as many as there is room for, and masks them. Returns how many: the piece isn't needed any
    /// more. At least one is taken, if there is one. What was ready is dropped; what is ready now is what [`StreamMask::ready`] lends.
    ///
    /// There is room for `max(65536, 8 * max(1, longest))` bytes, so a piece of up to seven eighths of that is taken whole. It copies each
    /// byte once, allocates nothing, and moves a seventh of the bytes at most within its buffer.
    ///
    /// It requires that it wasn't finished. Returns the error `Position` if there are more bytes than places, and each time after that.
    ///
    /// It counts what it does.
    pub fn push_counted(&mut self, piece: &[u8], steps: &mut Steps) -> Result<usize, StreamError>
        requires unclosed { self.old.closed ≡ false }
        ensures pushed { MasksPushed self.old self.new piece.now result }
        ensures counts { MaskCounts self.old self.new steps.old steps.new }
        ensures kept { IsOnMask self.new }
    {
        self.masker.push_counted(piece, steps)
    }
}

/// A masking of the whole words of a stream whose pieces are pushed when they come. It owns its automaton, or borrows it as a reference.
///
/// ```text
/// let mut stream = StreamWordMask::new(&ac, b'*', alloc)?;
/// while let Some(piece) = receive() {
///     let mut rest = piece;
///     while !rest.is_empty() {
///         let n = stream.push_counted(rest, steps)?;
///         rest = &rest[n..];
///         send(stream.ready());
///     }
/// }
/// stream.finish();
/// send(stream.ready());
/// ```
///
/// What it hands out, one slice after another, is the text that [`try_mask_words_counted`](Search::try_mask_words_counted) makes of what
/// was pushed, up to the bytes that wait, however it is cut into pieces: see
/// [`pieces_change_no_masked_words`](crate::stream::laws::pieces_change_no_masked_words). At most as many bytes wait as the longest pattern
/// has, and none where nothing of what was read may still grow into an occurrence.
#[derive(Drop)]
pub struct StreamWordMask<A: Search> {
    masking: WordMasking<A>,
}

impl<A: Search> Model for StreamWordMask<A> {
    ghost use Rattle.ac_automaton.specs.Stream.{CanBeCounted};
    ghost use Rattle.ac_automaton.specs.Stream.Mask.{IsAllMasked, MaskProgress, passed_to};

    ghost Value = { MaskProgress };

    ghost view = { λ i. i.masking };

    ghost invariant = { λ i. CanBeCounted (passed_to i.masking) → IsAllMasked i.masking };
}

impl<A: Search + Drop> StreamWordMask<A> {
    /// A masking of the whole words of a stream with this byte. It takes two buffers of `max(65536, 8 * (longest + 1))` bytes, and no
    /// memory after them. Returns an error where [`StreamMask::new`] does.
    pub fn new(automaton: A, mask: u8, alloc: Global) -> Result<StreamWordMask<A>, StreamError>
        ensures { AnswersNewWordMasking (A.built automaton) (A.supports automaton) mask result }
    {
        let masking = WordMasking::new(automaton, mask, alloc)?;
        Ok(StreamWordMask { masking })
    }
}

impl<A: Search> StreamWordMask<A> {
    /// The masked bytes that are ready: those after what was handed out before, up to the bytes that wait. The next push drops them.
    pub fn ready(&self) -> &[u8]
        ensures ready { result.now ≡ ready_words_of self.now }
        ensures kept { IsOnWordMask self.now }
    {
        self.masking.ready()
    }

    /// Tells it that nothing more comes: a word may end with the last byte, and the bytes that waited are ready. After more bytes were
    /// pushed than there are places, nothing is.
    pub fn finish(&mut self)
        ensures finished { CanBeCounted (passed_to self.old) → self.new ≡ finished_mask self.old }
        ensures over { ¬ CanBeCounted (passed_to self.old) → self.new ≡ record self.old { out = self.old.cut } }
        ensures kept { IsOnWordMask self.new }
    {
        self.masking.finish();
    }

    /// Whether nothing more comes.
    pub fn is_finished(&self) -> bool
        ensures { result ≡ self.now.closed }
    {
        self.masking.is_finished()
    }

    /// Takes the first bytes of a piece, as many as there is room for, and masks the words that are known. Returns how many: the piece
    /// isn't needed any more. At least one is taken, if there is one. What was ready is dropped; what is ready now is what
    /// [`StreamWordMask::ready`] lends.
    ///
    /// There is room for `max(65536, 8 * (longest + 1))` bytes, so a piece of up to seven eighths of that is taken whole. It copies each
    /// byte twice, into one buffer as it is and into one to be masked. It allocates nothing, and moves a seventh of the bytes at most
    /// within each buffer.
    ///
    /// It requires that it wasn't finished. Returns the error `Position` if there are more bytes than places, and each time after that.
    ///
    /// It counts what it does.
    pub fn push_counted(&mut self, piece: &[u8], steps: &mut Steps) -> Result<usize, StreamError>
        requires unclosed { self.old.closed ≡ false }
        ensures pushed { MasksWordsPushed self.old self.new piece.now result }
        ensures counts { MaskCounts self.old self.new steps.old steps.new }
        ensures kept { IsOnWordMask self.new }
    {
        self.masking.push_counted(piece, steps)
    }
}

/// Masks a stream to its end. Before each read everything that is ready is written, and at the end the rest.
fn mask_to_end<A: Search, R: Read, W: Write>(
    stream: &mut Masker<A>,
    reader: &mut Watched<R>,
    writer: &mut Watched<W>,
    steps: &mut Steps,
) -> Result<(), StreamError>
    requires fresh { stream.old ≡ fresh_mask stream.old.built stream.old.mask }
    requires course { IsOnMask stream.old }
    requires open { reader.old.ended ≡ false }
    ensures writes { WritesMasked R.remaining W.contents stream.old.built stream.old.mask reader.old reader.new
        writer.old writer.new result }
    ensures begun { IfErr result IsBegun }
    ensures cost { CostsMaskStream stream.old.built reader.old reader.new steps.old steps.new result }
{
    while stream.read_more(reader, steps)? > 0 {
        write_whole(writer, stream.ready())?;
    }
    stream.finish();
    write_whole(writer, stream.ready())
}

/// Writes the input with each byte that an occurrence covers replaced by `mask`; counts what it does. As
/// [`try_mask_stream_counted`](Search::try_mask_stream_counted).
pub(crate) fn mask_stream<A: Search, R: Read, W: Write>(
    automaton: &A,
    alloc: Global,
    reader: &mut Watched<R>,
    writer: &mut Watched<W>,
    mask: u8,
    steps: &mut Steps,
) -> Result<(), StreamError>
    requires open { reader.old.ended ≡ false }
    ensures masked { MasksStream R.remaining W.contents (A.built automaton.now) mask reader.old reader.new
        writer.old writer.new result }
    ensures accepted { AcceptsListing (A.built automaton.now) (A.supports automaton.now) result }
    ensures cost { CostsMaskStream (A.built automaton.now) reader.old reader.new steps.old steps.new result }
{
    let mut stream = Masker::new(automaton, mask, alloc)?;
    mask_to_end(&mut stream, reader, writer, steps)
}
