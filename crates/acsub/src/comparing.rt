//! A writer that compares its text with a file.
//!
//! It reads the file piece by piece, as the text comes. The bytes that it took are a history, and so are the pieces that the file
//! returned: as long as none differed, the two are the same bytes.
ghost use Rattle.std.specs.Prelude.{◌≡◌, ◌<◌, ◌≤◌, [], IfSome, IsTrue, Some, false, length};
ghost use Rattle.acsub.specs.Comparing.{IsWholeFile, IsAlike, ReadsAlike};

use ac_automaton::watched::Watched;
use ac_input::history::Taken;
use std::io::{self, ErrorKind, Read, Write};

/// How many bytes are compared at once.
pub const PIECE: usize = 1 << 16;

/// A writer that compares what it takes with a file, and refuses the first bytes that differ.
#[derive(Drop)]
pub struct Comparing<F> {
    file: Watched<F>,
    piece: Vec<u8>,
    /// Whether some bytes differed.
    differs: bool,
    /// What was taken.
    pub compared: Taken,
    ghost alike: { differs ≡ false → IsAlike file compared.bytes },
}

/// Whether the next bytes of the file are the first of the text; how many they are.
fn read_alike<F: Read>(file: &mut Watched<F>, room: &mut [u8], text: &[u8]) -> Option<usize>
    requires open { file.old.ended ≡ false }
    requires some { 0 < length room.old }
    requires within { length room.old ≤ length text.now }
    ensures { IfSome result (λ n. ReadsAlike file.old file.new text.now n) }
{
    match file.read(room) {
        Ok(n) if n > 0 && &room[..n] == &text[..n] => Some(n),
        _ => None,
    }
}

impl<F: Read> Comparing<F> {
    /// Compares with a file, from its first byte on, by pieces of this size.
    pub fn new(piece: Vec<u8>, file: F) -> Comparing<F>
        ensures { result.compared.bytes ≡ [] }
    {
        Comparing {
            file: Watched::new(file),
            piece,
            differs: false,
            compared: Taken::empty(),
        }
    }

    /// Whether all that was taken is all that the file has.
    pub fn is_same(&mut self) -> bool
        ensures { IsTrue result → IsWholeFile self.new.file self.old.compared.bytes }
    {
        if self.differs || self.file.ended() {
            return false;
        }
        let mut rest = [0; 1];
        match self.file.read(&mut rest) {
            Ok(0) => true,
            _ => {
                self.differs = true;
                false
            }
        }
    }
}

impl<F: Read> Write for Comparing<F> {
    ghost contents = { λ comparing. Some comparing.compared.bytes };

    fn write(&mut self, buf: &[u8]) -> io::Result<usize> {
        let n = buf.len().min(self.piece.len());
        if n == 0 {
            return Ok(0);
        }
        if self.file.ended() {
            self.differs = true;
            return Err(io::Error::from(ErrorKind::Other));
        }
        let room = &mut self.piece.as_mut_slice()[..n];
        match read_alike(&mut self.file, room, buf) {
            Some(n) => {
                self.compared = self.compared.and(&buf[..n]);
                Ok(n)
            }
            None => {
                self.differs = true;
                Err(io::Error::from(ErrorKind::Other))
            }
        }
    }

    fn flush(&mut self) -> io::Result<()> {
        Ok(())
    }
}
