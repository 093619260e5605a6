//! The whole input in memory.
ghost use Rattle.std.specs.Prelude.{◌≡◌, ◌+◌, ◌≤◌, false, take, vec_len, OnOk};
ghost use Rattle.acsub.specs.Input.{ReadsWhole};
ghost use Rattle.acsub.specs.declared.input.TheConstants.{PIECE};

use crate::error::RunError;
use ac_automaton::watched::Watched;
use std::alloc::{AllocError, Global};
use std::io::Read;

/// How many bytes a read has room for, at least.
const PIECE: usize = ac_automaton::stream::LEAST_ROOM;

/// Reads up to the first empty read, each read with room for 64 KiB. That room is taken before the read, so that nothing is taken
/// after the empty one.
///
/// The vector grows by doubling, so each byte is moved a few times at most. Of the room that is taken only the next piece is
/// written to, so no more memory is touched than the input and a piece.
pub fn read_whole<R: Read>(alloc: Global, reader: &mut Watched<R>) -> Result<Vec<u8>, RunError>
    requires { reader.old.ended ≡ false }
    ensures { ReadsWhole R.remaining reader.old reader.new result }
{
    let mut input = Vec::new(alloc);
    let mut filled = 0;
    loop {
        make_room(&mut input, filled)?;
        let n = match reader.read(&mut input[filled..]) {
            Ok(n) => n,
            Err(error) => return Err(RunError::Read(error)),
        };
        if n == 0 {
            input.truncate(filled);
            return Ok(input);
        }
        filled += n;
    }
}

/// Makes room for one more piece after those bytes that are filled, and zeroes no more than that.
fn make_room(input: &mut Vec<u8>, filled: usize) -> Result<(), AllocError>
    requires { filled ≤ vec_len input.old }
    ensures kept { take filled input.new.items ≡ take filled input.old.items }
    ensures room { OnOk result (filled + PIECE ≤ vec_len input.new) }
    ensures grows { vec_len input.old ≤ vec_len input.new }
{
    if input.len() - filled >= PIECE {
        return Ok(());
    }
    input.resize(filled + PIECE, 0)
}
