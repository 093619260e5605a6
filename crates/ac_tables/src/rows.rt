//! Rows over classes of bytes, as a table has them that has followed every failure beforehand.
//!
//! Rows stand in one vector, one after another, each with an entry for each class: where the next state's row begins. So a look-up is
//! the byte's class, an addition and a load.
ghost use Rattle.std.specs.Prelude.{◌≡◌, ◌+◌, ◌<◌, IsTrue, length, slice_index};
ghost use Rattle.ac_input.specs.Alphabet.{class};
ghost use Rattle.ac_tables.specs.Dfa.Lookups.{ArePlain};

use ac_input::alphabet::ByteClasses;
use ac_input::primitives::StateID;

/// Whether each byte is a class of its own, so that a look-up need not load one.
#[inline]
pub(crate) fn is_plain(classes: &ByteClasses) -> bool
    ensures { IsTrue result → ArePlain classes.now }
{
    classes.alphabet_len() == 256
}

/// The class of a byte. It isn't loaded where the caller knows that each byte is a class of its own.
#[inline]
fn class(classes: &ByteClasses, plain: bool, byte: u8) -> u8
    requires { IsTrue plain → ArePlain classes.now }
    ensures { result ≡ class classes.now byte }
{
    if plain { byte } else { classes.get(byte) }
}

/// Where the row begins to which a byte leads from another. The sum is one of 32 bits, so that it needs no widening in between.
#[inline]
pub(crate) fn next(
    trans: &[StateID],
    classes: &ByteClasses,
    plain: bool,
    row: StateID,
    byte: u8,
) -> StateID
    requires within { row + class classes.now byte < length trans.now }
    requires plain { IsTrue plain → ArePlain classes.now }
    ensures { result ≡ slice_index trans.now (row + class classes.now byte) }
{
    trans[(row.as_u32() + class(classes, plain, byte) as u32) as usize]
}
