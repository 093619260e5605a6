//! Lines with the path of their input before each.
//!
//! Where several FILEs are listed, each line of the text gets the FILE's path and a TAB. The text comes in pieces that end anywhere,
//! so a line may go on from one piece to the next: it has its label once.
//!
//! The lines of a piece are gathered in an [`Output`] and written together, by one write or few. At the end of the piece nothing is
//! held back. The output is made before the first read and never grows, so no write is ever out of memory.
ghost use Rattle.std.specs.Prelude.{◌≡◌, ◌<◌, [], length, None, OnOk};
ghost use Rattle.std.specs.Io.{WritesAtMost};
ghost use Rattle.std.specs.Io.KnownBytes.{WriteAppends};
ghost use Rattle.ac_automaton.specs.Stream.Devices.Output.{Sends};
ghost use Rattle.acsub.specs.Labelled.{HasLine, IsLabelling, IsOneLine, WritesLines, begins_after, label_of, labelled};

use ac_automaton::error::StreamError;
use ac_automaton::output::Output;
use ac_automaton::watched::Watched;
use memchr::memchr;
use std::io::{self, Write};

/// A writer that puts a label and a TAB before each line.
#[derive(Drop)]
pub struct Labelled<'w, W> {
    writer: &'w mut Watched<W>,
    label: &'w str,
    output: Output,
    /// Whether a line begins with the next byte.
    begins: bool,
}

impl<'w, W> Labelled<'w, W> {
    /// Labels what is written on this writer, by way of an output that holds nothing back.
    pub fn new(output: Output, label: &'w str, writer: &'w mut Watched<W>) -> Labelled<'w, W>
        requires { output ≡ [] }
        ensures { IsLabelling label.now writer.entry result }
    {
        Labelled {
            writer,
            label,
            output,
            begins: true,
        }
    }
}

impl<W: Write> Write for Labelled<'_, W> {
    fn write(&mut self, buf: &[u8]) -> io::Result<usize>
        ensures bound { WritesAtMost result buf.now }
        ensures bytes { WriteAppends None None result buf.now }
        ensures lines { WritesLines W.contents buf.now self.old self.new result }
    {
        let sent = send_lines(
            &mut self.output,
            self.writer,
            self.label,
            &mut self.begins,
            buf,
        );
        match sent {
            Ok(()) => Ok(buf.len()),
            Err(StreamError::Write(error)) => Err(error),
            Err(_) => Ok(0),
        }
    }

    fn flush(&mut self) -> io::Result<()> {
        self.writer.flush()
    }
}

/// Sends the lines of a text, each with its label, and holds nothing back. The first byte begins a line or not, as does the one that
/// will follow.
fn send_lines<W: Write>(
    output: &mut Output,
    writer: &mut Watched<W>,
    label: &str,
    begins: &mut bool,
    text: &[u8],
) -> Result<(), StreamError>
    ensures sent { Sends W.contents (labelled (label_of label.now) begins.old text.now) writer.old writer.new
        output.old output.new result }
    ensures none { output.new ≡ [] }
    ensures begins { OnOk result (begins.new ≡ begins_after begins.old text.now) }
{
    let mut rest = text;
    while !rest.is_empty() {
        let (line, more, ended) = split_line(rest);
        send_line(output, writer, label, *begins, line)?;
        *begins = ended;
        rest = more;
    }
    output.send_held(writer)
}

/// Sends a line or a part of one, with its label if it begins the line.
fn send_line<W: Write>(
    output: &mut Output,
    writer: &mut Watched<W>,
    label: &str,
    begins: bool,
    line: &[u8],
) -> Result<(), StreamError>
    requires filled { 0 < length line.now }
    requires one { IsOneLine line.now }
    ensures { Sends W.contents (labelled (label_of label.now) begins line.now) writer.old writer.new
        output.old output.new result }
{
    if !begins {
        return output.send(writer, line);
    }
    output.send_exchanged(writer, label.as_bytes(), b"\t")?;
    output.send(writer, line)
}

/// The first line, with its LF; what follows; and whether the line has an LF.
fn split_line(text: &[u8]) -> (&[u8], &[u8], bool)
    requires { 0 < length text.now }
    ensures line { HasLine text.now result.0.now result.1.now result.2 }
    ensures less { length result.1.now < length text.now }
{
    match memchr(b'\n', text) {
        Some(end) => {
            let (line, more) = text.split_at(end + 1);
            (line, more, true)
        }
        None => (text, &[], false),
    }
}
