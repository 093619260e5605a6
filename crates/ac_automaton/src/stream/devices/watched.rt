//! Watched devices: what their reads returned, what their writes took, what was flushed, and how often they failed.
//!
//! No contract can say what a file or a socket returns. It can say what a search did with it, if the device keeps its own history.
//! A [`Watched`] reader has the pieces that its reads returned, in order. A [`Watched`] writer has the bytes that its writes took,
//! and those that they had taken when it was last flushed without a failure. A contract above refers to these, whatever the device
//! is, and assumes only that `Ok` means what `Read` and `Write` say it means. If the device is in memory and its model is its
//! bytes, as for a slice or a `Vec`, the contracts here say how those changed too.
//!
//! The histories take no memory and no time, and code cannot read them. A `Watched` holds the device and one `bool`: whether the
//! input has ended. An empty read ends it, and so does a failed one, even an interrupted one; nothing is read after that, and
//! nothing is tried again.
//!
//! Each call of a `Watched` makes one call of the device. No contract can say that it makes no more, since a device keeps no count
//! of its own.
ghost use Rattle.std.specs.Prelude.{◌≡◌, ◌<◌, false, length};
ghost use Rattle.std.specs.Io.KnownBytes.{Keeps};
ghost use Rattle.ac_automaton.specs.Stream.Devices.Watched.{AnswersFlush, AnswersRead, AnswersWrite, DeviceGives, DeviceTakes, IsFresh, NoneRead, NoneTaken, WritesWhole};

use crate::error::StreamError;
use ac_input::history::{Count, Pieces, Taken};
use std::io;
use std::io::{Read, Write};

/// A reader or a writer that keeps its history.
///
/// It is as large as the device and a `bool`.
#[derive(Drop)]
pub struct Watched<T> {
    inner: T,
    ended: bool,
    failures: Count,
    stalls: Count,
    pieces: Pieces,
    taken: Taken,
    flushed: Taken,
}

impl<T> Watched<T> {
    /// The device, watched from now on. What it returned or took before is no part of the history.
    pub fn new(inner: T) -> Watched<T>
        ensures device { result.inner ≡ inner }
        ensures fresh { IsFresh result }
    {
        Watched {
            inner,
            ended: false,
            failures: Count::zero(),
            stalls: Count::zero(),
            pieces: Pieces::empty(),
            taken: Taken::empty(),
            flushed: Taken::empty(),
        }
    }

    /// The device, no longer watched.
    pub fn into_inner(self) -> T
        ensures { result ≡ self.inner }
    {
        self.inner
    }

    /// Whether a read was empty or failed, so that none may follow.
    pub fn ended(&self) -> bool
        ensures { result ≡ self.now.ended }
    {
        self.ended
    }
}

impl<T: Read> Watched<T> {
    /// One read into the buffer, which has room, of an input that has not ended.
    ///
    /// Any error ends the input: a caller that would try again after an interruption can't.
    pub fn read(&mut self, buf: &mut [u8]) -> io::Result<usize>
        requires room { 0 < length buf.old }
        requires open { self.old.ended ≡ false }
        ensures gave { AnswersRead self.old self.new buf.new result }
        ensures writes { NoneTaken self.old self.new }
        ensures device { DeviceGives T.remaining self.old self.new result buf.new }
    {
        match self.inner.read(buf) {
            Ok(n) => {
                self.pieces = self.pieces.and(&buf[..n]);
                self.ended = n == 0;
                Ok(n)
            }
            Err(error) => {
                self.pieces = self.pieces.and(&[]);
                self.ended = true;
                self.failures = self.failures.next();
                Err(error)
            }
        }
    }
}

impl<T: Write> Watched<T> {
    /// One write of the bytes, or of the first of them. A write that is passed bytes and takes none is stalled, which counts as a
    /// failure.
    pub fn write(&mut self, buf: &[u8]) -> io::Result<usize>
        ensures took { AnswersWrite self.old self.new buf.now result }
        ensures reads { NoneRead self.old self.new }
        ensures device { DeviceTakes T.contents self.old self.new result buf.now }
    {
        match self.inner.write(buf) {
            Ok(n) => {
                self.taken = self.taken.and(&buf[..n]);
                if n == 0 && !buf.is_empty() {
                    self.stalls = self.stalls.next();
                    self.failures = self.failures.next();
                }
                Ok(n)
            }
            Err(error) => {
                self.failures = self.failures.next();
                Err(error)
            }
        }
    }

    /// Flushes the device.
    pub fn flush(&mut self) -> io::Result<()>
        ensures passed { AnswersFlush self.old self.new result }
        ensures reads { NoneRead self.old self.new }
        ensures device { Keeps (T.contents self.old.inner) (T.contents self.new.inner) }
    {
        match self.inner.flush() {
            Ok(()) => {
                self.flushed = self.taken.same();
                Ok(())
            }
            Err(error) => {
                self.failures = self.failures.next();
                Err(error)
            }
        }
    }
}

/// Writes all the bytes, by as many writes as that takes, and stops at the first that fails or takes none.
///
/// Nothing is tried again, not even after an interruption.
pub fn write_whole<W: Write>(writer: &mut Watched<W>, bytes: &[u8]) -> Result<(), StreamError>
    ensures took { WritesWhole W.contents writer.old writer.new bytes.now result }
    ensures reads { NoneRead writer.old writer.new }
{
    let mut written = 0;
    while written < bytes.len() {
        match writer.write(&bytes[written..]) {
            Ok(0) => return Err(StreamError::WriteZero),
            Ok(n) => written += n,
            Err(error) => return Err(StreamError::Write(error)),
        }
    }
    Ok(())
}
