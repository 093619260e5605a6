//! One reader and one writer for all tests, which do as a row says; and how watched devices, whole writes and gathered output call
//! them.
//!
//! No contract can say how often a device is called, since `Read` and `Write` don't. So these devices count their calls, in a
//! [`Tally`] that a test can look at while they are lent: nothing is read after an empty read or a failed one, nothing is written
//! after a failed write, and nothing is flushed unasked. That an error is the device's own, no contract can say either; the tables
//! name the kind of each.
use crate::asserts::{equal, same};
use ac_automaton::error::{MatchError, MatchErrorKind, StreamError};
use ac_automaton::output::Output;
use ac_automaton::watched::{Watched, write_whole};
use std::alloc::{AllocError, Global};
use std::cell::Cell;
use std::io;
use std::io::{ErrorKind, Read, Write};
use std::process::Abort;
use std::test::Fail;

/// How often a reader and a writer were called, and how much was written.
#[derive(Drop)]
pub struct Tally {
    pub reads: Cell<usize>,
    /// How many bytes a read had room for, at most.
    pub widest: Cell<usize>,
    pub writes: Cell<usize>,
    pub written: Cell<usize>,
    pub flushes: Cell<usize>,
}

impl Tally {
    /// Nothing was called yet.
    pub fn new() -> Tally {
        Tally {
            reads: Cell::new(0),
            widest: Cell::new(0),
            writes: Cell::new(0),
            written: Cell::new(0),
            flushes: Cell::new(0),
        }
    }
}

/// What a reader gives.
#[derive(Clone, Copy)]
pub enum Given<'a> {
    /// These bytes, and then nothing.
    Whole(&'a [u8]),
    /// These bytes this many times, and then nothing.
    Repeated(&'a [u8], usize),
    /// These bytes, then an empty read; and if it is read again, those.
    Pauses(&'a [u8], &'a [u8]),
    /// These bytes, then an error; and if it is read again, those.
    Fails(&'a [u8], &'a [u8]),
}

impl<'a> Given<'a> {
    /// These bytes, then an error or an empty read; and if it is read again, those.
    pub fn ended(bytes: &'a [u8], after: &'a [u8], fails: bool) -> Given<'a> {
        if fails {
            Given::Fails(bytes, after)
        } else {
            Given::Pauses(bytes, after)
        }
    }

    /// The bytes that come first.
    pub fn bytes(self) -> &'a [u8] {
        match self {
            Given::Whole(bytes) => bytes,
            Given::Repeated(bytes, _) => bytes,
            Given::Pauses(bytes, _) => bytes,
            Given::Fails(bytes, _) => bytes,
        }
    }
}

/// A reader that gives its bytes, once or more often, and then ends or fails.
#[derive(Drop)]
pub struct Source<'a> {
    bytes: &'a [u8],
    again: (&'a [u8], usize),
    fails: bool,
    after: &'a [u8],
    most: usize,
    due: &'a [usize],
    tally: &'a Tally,
}

impl<'a> Source<'a> {
    /// A reader that returns at most this many bytes a read. It fails at a read before which less was written than is due.
    pub fn new(given: Given<'a>, most: usize, due: &'a [usize], tally: &'a Tally) -> Source<'a> {
        let (bytes, times, fails, after): (&[u8], usize, bool, &[u8]) = match given {
            Given::Whole(bytes) => (bytes, 1, false, b""),
            Given::Repeated(bytes, times) => (bytes, times, false, b""),
            Given::Pauses(bytes, after) => (bytes, 1, false, after),
            Given::Fails(bytes, after) => (bytes, 1, true, after),
        };
        Source {
            bytes: b"",
            again: (bytes, times),
            fails,
            after,
            most,
            due,
            tally,
        }
    }
}

impl Read for Source<'_> {
    fn read(&mut self, buf: &mut [u8]) -> io::Result<usize> {
        self.tally
            .reads
            .set(self.tally.reads.get().saturating_add(1));
        self.tally
            .widest
            .set(self.tally.widest.get().max(buf.len()));
        if let Some((due, later)) = self.due.split_first() {
            if self.tally.written.get() < *due {
                return Err(io::Error::from(ErrorKind::TimedOut));
            }
            self.due = later;
        }
        if self.bytes.is_empty() && self.again.1 > 0 {
            self.bytes = self.again.0;
            self.again.1 -= 1;
        }
        let n = self.bytes.len().min(self.most).min(buf.len());
        if n == 0 {
            self.bytes = self.after;
            self.after = b"";
            return if self.fails {
                Err(io::Error::from(ErrorKind::Interrupted))
            } else {
                Ok(0)
            };
        }
        buf[..n].copy_from_slice(&self.bytes[..n]);
        self.bytes = &self.bytes[n..];
        Ok(n)
    }
}

/// What a writer takes: this many bytes in all, at most this many a write. Then it fails, or takes none.
#[derive(Clone, Copy)]
pub struct Room {
    pub bytes: usize,
    pub most: usize,
    pub fails: bool,
}

/// Room for all.
pub const AMPLE: Room = Room {
    bytes: usize::MAX,
    most: usize::MAX,
    fails: false,
};

/// A writer that has so much room. One that fails can't be flushed either.
#[derive(Drop)]
pub struct Sink<'a> {
    pub taken: Vec<u8>,
    room: Room,
    tally: &'a Tally,
}

impl<'a> Sink<'a> {
    /// A writer with so much room. It takes the memory for a short text at once.
    pub fn new(alloc: Global, room: Room, tally: &'a Tally) -> Result<Sink<'a>, AllocError> {
        Ok(Sink {
            taken: Vec::with_capacity(alloc, 64)?,
            room,
            tally,
        })
    }
}

impl Write for Sink<'_> {
    fn write(&mut self, buf: &[u8]) -> io::Result<usize> {
        self.tally
            .writes
            .set(self.tally.writes.get().saturating_add(1));
        if self.room.bytes == 0 && self.room.fails {
            return Err(io::Error::from(ErrorKind::Interrupted));
        }
        let most = buf.len().min(self.room.most).min(self.room.bytes);
        let n = self.taken.write(&buf[..most])?;
        self.room.bytes -= n;
        self.tally
            .written
            .set(self.tally.written.get().saturating_add(n));
        Ok(n)
    }

    fn flush(&mut self) -> io::Result<()> {
        self.tally
            .flushes
            .set(self.tally.flushes.get().saturating_add(1));
        if self.room.fails {
            return Err(io::Error::from(ErrorKind::BrokenPipe));
        }
        Ok(())
    }
}

/// What a call over devices came to, without the error of a device itself.
#[derive(Clone, Copy, Debug, PartialEq, Eq)]
pub enum Outcome {
    Done,
    Config(MatchErrorKind),
    Read(ErrorKind),
    Write(ErrorKind),
    WriteZero,
    Memory,
    Position,
}

impl Outcome {
    /// What a call came to that returned this.
    pub fn of(answer: &Result<(), StreamError>) -> Outcome {
        match answer {
            Ok(()) => Outcome::Done,
            Err(StreamError::Config(error)) => Outcome::Config(*error.kind()),
            Err(StreamError::Read(error)) => Outcome::Read(error.kind()),
            Err(StreamError::Write(error)) => Outcome::Write(error.kind()),
            Err(StreamError::WriteZero) => Outcome::WriteZero,
            Err(StreamError::Memory) => Outcome::Memory,
            Err(StreamError::Position) => Outcome::Position,
        }
    }

    /// An error of this kind.
    pub fn error(self) -> Option<StreamError> {
        match self {
            Outcome::Done => None,
            Outcome::Config(kind) => Some(StreamError::Config(MatchError::new(kind))),
            Outcome::Read(kind) => Some(StreamError::Read(io::Error::from(kind))),
            Outcome::Write(kind) => Some(StreamError::Write(io::Error::from(kind))),
            Outcome::WriteZero => Some(StreamError::WriteZero),
            Outcome::Memory => Some(StreamError::Memory),
            Outcome::Position => Some(StreamError::Position),
        }
    }
}

/// A reader by itself: what its reads give, two bytes at most each, and whether the last one fails.
struct Reads {
    shows: &'static str,
    given: Given<'static>,
    pieces: &'static [&'static [u8]],
    fails: Option<ErrorKind>,
}

const READS: &[Reads] = &[
    Reads {
        shows: "pieces, and an empty read that ends the input",
        given: Given::Whole(b"abc"),
        pieces: &[b"ab", b"c", b""],
        fails: None,
    },
    Reads {
        shows: "no second read after an empty one",
        given: Given::Pauses(b"", b"x"),
        pieces: &[b""],
        fails: None,
    },
    Reads {
        shows: "no second read after an interruption, whose error comes back",
        given: Given::Fails(b"", b"x"),
        pieces: &[],
        fails: Some(ErrorKind::Interrupted),
    },
    Reads {
        shows: "a piece, then a failure",
        given: Given::Fails(b"a", b"x"),
        pieces: &[b"a"],
        fails: Some(ErrorKind::Interrupted),
    },
];

/// Reads once, and asserts what came: a piece, or an error of this kind.
fn reads_once<T: Abort>(
    rt: &T,
    reader: &mut Watched<Source<'_>>,
    want: Result<&[u8], ErrorKind>,
    shows: &str,
) {
    assert!(rt; !reader.ended());
    let mut buffer = [0u8; 2];
    let read = match reader.read(&mut buffer) {
        Ok(n) => Ok(&buffer[..n]),
        Err(error) => Err(error.kind()),
    };
    equal(rt, &read, &want, shows);
}

/// Asserts what the reads return, and how often the device was called.
fn reads_hold<T: Abort>(rt: &T, row: &Reads) {
    let tally = Tally::new();
    let mut reader = Watched::new(Source::new(row.given, 2, &[], &tally));
    for piece in row.pieces {
        reads_once(rt, &mut reader, Ok(*piece), row.shows);
    }
    if let Some(kind) = row.fails {
        reads_once(rt, &mut reader, Err(kind), row.shows);
    }
    let reads = row.pieces.len() + usize::from(row.fails.is_some());
    equal(
        rt,
        &(reader.ended(), tally.reads.get()),
        &(true, reads),
        row.shows,
    );
}

/// What is sent to a writer, by itself or through an output.
enum Sending {
    /// These bytes, whole.
    Whole(&'static [u8]),
    /// A flush.
    Flush,
    /// These bytes, through the output.
    One(&'static [u8]),
    /// These bytes, and those that replace a match, through the output.
    Exchanged(&'static [u8], &'static [u8]),
    /// These bytes, through the output, and all that it holds back.
    Last(&'static [u8]),
    /// What the output holds back.
    Held,
}

/// What is sent to a writer, up to the first send that fails: its result, what the writer takes, and how often it is called.
struct Sent {
    shows: &'static str,
    room: Room,
    sends: &'static [Sending],
    outcome: Outcome,
    /// The parts of what is taken.
    taken: &'static [&'static [u8]],
    writes: usize,
    flushes: usize,
}

const SENT: &[Sent] = &[
    Sent {
        shows: "a write for each text, and none for an empty one",
        room: AMPLE,
        sends: &[
            Sending::Whole(b"one "),
            Sending::Whole(b""),
            Sending::Whole(b"two"),
        ],
        outcome: Outcome::Done,
        taken: &[b"one two"],
        writes: 2,
        flushes: 0,
    },
    Sent {
        shows: "two bytes a write, and a flush where it is asked for",
        room: Room {
            bytes: 5,
            most: 2,
            fails: false,
        },
        sends: &[Sending::Whole(b"parts"), Sending::Flush],
        outcome: Outcome::Done,
        taken: &[b"parts"],
        writes: 3,
        flushes: 1,
    },
    Sent {
        shows: "no second flush after one that failed, whose error comes back",
        room: Room {
            bytes: 5,
            most: 9,
            fails: true,
        },
        sends: &[Sending::Whole(b"parts"), Sending::Flush],
        outcome: Outcome::Write(ErrorKind::BrokenPipe),
        taken: &[b"parts"],
        writes: 1,
        flushes: 1,
    },
    Sent {
        shows: "no second write after one that took none",
        room: Room {
            bytes: 0,
            most: 2,
            fails: false,
        },
        sends: &[Sending::Whole(b"some")],
        outcome: Outcome::WriteZero,
        taken: &[],
        writes: 1,
        flushes: 0,
    },
    Sent {
        shows: "no second write after an interruption, whose error comes back",
        room: Room {
            bytes: 0,
            most: 2,
            fails: true,
        },
        sends: &[Sending::Whole(b"some")],
        outcome: Outcome::Write(ErrorKind::Interrupted),
        taken: &[],
        writes: 1,
        flushes: 0,
    },
    Sent {
        shows: "a front is written where there is no room for more",
        room: Room {
            bytes: 5,
            most: 3,
            fails: true,
        },
        sends: &[Sending::Whole(b"The "), Sending::Whole(b"sloth")],
        outcome: Outcome::Write(ErrorKind::Interrupted),
        taken: &[b"The s"],
        writes: 4,
        flushes: 0,
    },
    Sent {
        shows: "small texts are written together, and nothing held back is no write",
        room: AMPLE,
        sends: &[
            Sending::One(b"the "),
            Sending::Exchanged(b"slow ", b"grey "),
            Sending::Last(b"sloth"),
            Sending::Held,
        ],
        outcome: Outcome::Done,
        taken: &[b"the slow grey sloth"],
        writes: 1,
        flushes: 0,
    },
    Sent {
        shows: "nothing is written unasked",
        room: AMPLE,
        sends: &[
            Sending::One(b"the "),
            Sending::Exchanged(b"slow ", b"grey "),
        ],
        outcome: Outcome::Done,
        taken: &[],
        writes: 0,
        flushes: 0,
    },
    Sent {
        shows: "a text that is larger than the buffer is written by itself",
        room: AMPLE,
        sends: &[Sending::One(b"-"), Sending::One(&[b'x'; 100_000])],
        outcome: Outcome::Done,
        taken: &[b"-", &[b'x'; 100_000]],
        writes: 2,
        flushes: 0,
    },
    Sent {
        shows: "what is held back is written first where a text doesn't fit beside it",
        room: AMPLE,
        sends: &[
            Sending::One(&[b'x'; 65_000]),
            Sending::One(&[b'y'; 65_000]),
            Sending::Held,
        ],
        outcome: Outcome::Done,
        taken: &[&[b'x'; 65_000], &[b'y'; 65_000]],
        writes: 2,
        flushes: 0,
    },
    Sent {
        shows: "a write that takes none ends it",
        room: Room {
            bytes: 3,
            most: 9,
            fails: false,
        },
        sends: &[Sending::One(b"sloth"), Sending::Held],
        outcome: Outcome::WriteZero,
        taken: &[b"slo"],
        writes: 2,
        flushes: 0,
    },
    Sent {
        shows: "a write that fails ends it",
        room: Room {
            bytes: 3,
            most: 9,
            fails: true,
        },
        sends: &[Sending::Last(b"sloth"), Sending::Last(b"fox")],
        outcome: Outcome::Write(ErrorKind::Interrupted),
        taken: &[b"slo"],
        writes: 2,
        flushes: 0,
    },
];

/// Sends it.
fn send(
    output: &mut Output,
    writer: &mut Watched<Sink<'_>>,
    sending: &Sending,
) -> Result<(), StreamError> {
    match sending {
        Sending::Whole(bytes) => write_whole(writer, bytes),
        Sending::Flush => writer.flush().map_err(StreamError::Write),
        Sending::One(bytes) => output.send(writer, bytes),
        Sending::Exchanged(before, instead) => output.send_exchanged(writer, before, instead),
        Sending::Last(bytes) => output.send_all(writer, bytes),
        Sending::Held => output.send_held(writer),
    }
}

/// Sends all of it, up to the first that fails: what that comes to, and what was taken.
fn send_each(
    alloc: Global,
    room: Room,
    sends: &[Sending],
    tally: &Tally,
) -> Result<(Outcome, Vec<u8>), AllocError> {
    let mut output = Output::new(alloc)?;
    let mut writer = Watched::new(Sink::new(alloc, room, tally)?);
    let mut outcome = Outcome::Done;
    for sending in sends {
        if outcome == Outcome::Done {
            outcome = Outcome::of(&send(&mut output, &mut writer, sending));
        }
    }
    Ok((outcome, writer.into_inner().taken))
}

/// Asserts the results of the sends, and how often the device was called.
fn sends_hold<T: Abort>(rt: &T, alloc: Global, row: &Sent) -> Result<(), Fail> {
    let tally = Tally::new();
    let (outcome, taken) = send_each(alloc, row.room, row.sends, &tally)?;
    let asked = (outcome, tally.writes.get(), tally.flushes.get());
    equal(
        rt,
        &asked,
        &(row.outcome, row.writes, row.flushes),
        row.shows,
    );
    let want = row.taken.concat(alloc)?;
    same(rt, taken.as_slice(), want.as_slice(), row.shows);
    Ok(())
}

/// Watched reads, and whole and gathered writes.
#[test]
fn reads_and_writes(rt: HostRuntime) -> Result<(), Fail> {
    for row in READS {
        reads_hold(&rt, row);
    }
    for row in SENT {
        sends_hold(&rt, rt.alloc(), row)?;
    }
    Ok(())
}
