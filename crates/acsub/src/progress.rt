//! How far an input is read, shown on a terminal.
//!
//! With `--progress` a line on standard error says once a second how much of the input is read, how fast, and how long the rest will
//! take. The line is written over itself, and removed at the end of the input. Only a file has one, since nothing else has a size that
//! is known.
//!
//! A reader that shows nothing pays one comparison a read. One that does looks at the clock every [`READS`] reads, which with reads of
//! 64 KiB is each mebibyte.
ghost use Rattle.std.specs.Prelude.{◌≡◌};

use memchr::memchr_iter;
use std::cell::Cell;
use std::fmt;
use std::fmt::Display;
use std::io::{self, Read, Write};
use std::rc::Rc;
use std::time::{Clock, Instant};

/// After so many reads the clock is looked at.
const READS: u32 = 16;

/// How many characters of the terminal's line are used.
const WIDTH: usize = 60;

/// How far an input is read.
#[derive(Clone, Copy)]
struct Course {
    began: Instant,
    size: u64,
    done: u64,
    reads: u32,
    /// How many seconds had passed when the line was last written; none were where there is no line.
    told: u64,
}

/// Writes the line. The readers and writers of all runs share it.
#[derive(Drop)]
pub struct Meter<T> {
    rt: T,
    /// Whether there is a terminal.
    shows: bool,
    course: Cell<Option<Course>>,
    masks: Cell<Masks>,
}

impl<T: Clock + Eprint> Meter<T> {
    /// A meter that has nothing to show yet, and never will where there is no terminal.
    pub fn new(rt: T, shows: bool) -> Meter<T> {
        Meter {
            rt,
            shows,
            course: Cell::new(None),
            masks: Cell::new(Masks::of(None)),
        }
    }

    /// What the program runs on.
    pub fn runtime(&self) -> &T {
        &self.rt
    }

    /// Counts the bytes of this mask from now on, or none.
    pub fn watch_mask(&self, mask: Option<u8>) {
        self.masks.set(Masks::of(mask));
    }

    /// How many bytes were masked since then: the mask lies in no occurrence, so it is written once more for each.
    pub fn masked(&self) -> u64 {
        let masks = self.masks.get();
        masks.written.saturating_sub(masks.read)
    }

    /// Begins with an input of so many bytes.
    pub fn start(&self, size: u64) {
        if !self.shows {
            return;
        }
        if let Ok(began) = Instant::now(&self.rt) {
            self.course.set(Some(Course {
                began,
                size,
                done: 0,
                reads: 0,
                told: 0,
            }));
        }
    }

    /// Ends with the input, and removes the line.
    pub fn stop(&self) {
        let Some(course) = self.course.get() else {
            return;
        };
        if course.told > 0 {
            let _ = self.rt.eprint(format_args!("\r{:1$}\r", "", WIDTH));
        }
        self.course.set(None);
    }

    /// A write took these bytes.
    fn wrote(&self, bytes: &[u8]) {
        let mut masks = self.masks.get();
        if let Some(mask) = masks.mask {
            masks.written = masks.written.saturating_add(count_of(mask, bytes));
            self.masks.set(masks);
        }
    }

    /// A read returned these bytes.
    fn read(&self, bytes: &[u8]) {
        let mut masks = self.masks.get();
        if let Some(mask) = masks.mask {
            masks.read = masks.read.saturating_add(count_of(mask, bytes));
            self.masks.set(masks);
        }
        self.pass(bytes.len());
    }

    /// So many more bytes were read.
    fn pass(&self, n: usize) {
        if let Some(mut course) = self.course.get() {
            course.done = course.done.saturating_add(n as u64);
            course.reads = course.reads.wrapping_add(1);
            if course.reads % READS == 0 {
                course.told = self.tell(&course);
            }
            self.course.set(Some(course));
        }
    }

    /// Writes the line where a second has passed since it was last written. Returns how many had passed when it was.
    fn tell(&self, course: &Course) -> u64 {
        let Ok(elapsed) = course.began.elapsed(&self.rt) else {
            return course.told;
        };
        let seconds = elapsed.as_secs();
        if seconds <= course.told {
            return course.told;
        }
        let line = Line {
            done: course.done,
            size: course.size,
            seconds,
        };
        let _ = self.rt.eprint(format_args!("\r{line}"));
        seconds
    }
}

/// How often a byte occurs in what was read, and in what was written.
#[derive(Clone, Copy)]
struct Masks {
    mask: Option<u8>,
    read: u64,
    written: u64,
}

impl Masks {
    fn of(mask: Option<u8>) -> Masks {
        Masks {
            mask,
            read: 0,
            written: 0,
        }
    }
}

/// How often a byte occurs.
fn count_of(byte: u8, bytes: &[u8]) -> u64 {
    memchr_iter(byte, bytes).count() as u64
}

/// A reader or a writer that a meter watches. It shares the meter and doesn't borrow it: the borrow checker covers no call of a job
/// whose reader has both a lifetime and a type parameter.
#[derive(Drop)]
pub struct Metered<R, T> {
    inner: R,
    meter: Rc<Meter<T>>,
}

impl<R, T> Metered<R, T> {
    pub fn new(inner: R, meter: Rc<Meter<T>>) -> Metered<R, T>
        ensures { result.inner ≡ inner }
    {
        Metered { inner, meter }
    }

    /// The reader or the writer.
    pub fn into_inner(self) -> R
    where
        T: Drop,
        ensures { result ≡ self.inner }
    {
        self.inner
    }
}

impl<R: Read, T: Clock + Drop + Eprint> Read for Metered<R, T> {
    ghost remaining = { λ metered. R.remaining metered.inner };

    fn read(&mut self, buf: &mut [u8]) -> io::Result<usize> {
        let n = self.inner.read(buf)?;
        self.meter.read(&buf[..n]);
        Ok(n)
    }
}

impl<W: Write, T: Clock + Drop + Eprint> Write for Metered<W, T> {
    ghost contents = { λ metered. W.contents metered.inner };

    fn write(&mut self, buf: &[u8]) -> io::Result<usize> {
        let n = self.inner.write(buf)?;
        self.meter.wrote(&buf[..n]);
        Ok(n)
    }

    fn flush(&mut self) -> io::Result<()> {
        self.inner.flush()
    }
}

/// The line: `1.2 GB of 3.4 GB, 35%, 410.0 MB/s, 0:05 left`, and spaces over what stood there.
#[derive(Clone, Copy)]
struct Line {
    done: u64,
    size: u64,
    /// One at least.
    seconds: u64,
}

impl Display for Line {
    fn fmt<W: fmt::Write>(&self, f: &mut fmt::Formatter<W>) -> fmt::Result {
        let rate = self.done / self.seconds.max(1);
        let left = self.size.saturating_sub(self.done) / rate.max(1);
        let hundredth = (self.size / 100).max(1);
        write!(
            f,
            "{} of {}, {}%, {}/s, {} left        ",
            Amount(self.done),
            Amount(self.size),
            (self.done / hundredth).min(100),
            Amount(rate),
            Span(left),
        )
    }
}

/// A number of bytes, as `1.2 GB`.
#[derive(Clone, Copy)]
struct Amount(u64);

impl Display for Amount {
    fn fmt<W: fmt::Write>(&self, f: &mut fmt::Formatter<W>) -> fmt::Result {
        match self.0 {
            0..1_000_000 => write!(f, "{}.{} kB", self.0 / 1_000, self.0 % 1_000 / 100),
            1_000_000..1_000_000_000 => {
                let tenth = self.0 % 1_000_000 / 100_000;
                write!(f, "{}.{tenth} MB", self.0 / 1_000_000)
            }
            _ => {
                let tenth = self.0 % 1_000_000_000 / 100_000_000;
                write!(f, "{}.{tenth} GB", self.0 / 1_000_000_000)
            }
        }
    }
}

/// A number of seconds, as `1:02`.
#[derive(Clone, Copy)]
struct Span(u64);

impl Display for Span {
    fn fmt<W: fmt::Write>(&self, f: &mut fmt::Formatter<W>) -> fmt::Result {
        write!(f, "{}:{:02}", self.0 / 60, self.0 % 60)
    }
}
