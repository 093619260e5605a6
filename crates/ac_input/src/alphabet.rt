//! Bytes as the letters of an alphabet.
//!
//! [`ByteSet`] is a set of them. [`ByteClassSet`] gathers which neighbouring bytes an automaton has to distinguish, and makes
//! [`ByteClasses`] of it: the smaller alphabet over which a table's rows are laid out. Each takes 256 bytes and no allocator.
ghost use Rattle.std.specs.Prelude.{◌≡◌};
ghost use Rattle.ac_input.specs.Pairing.{other_case};

pub mod byte_classes;
pub mod byte_set;

pub use byte_classes::{
    ByteClassElementRanges, ByteClassElements, ByteClassIter, ByteClassSet, ByteClasses,
};
pub use byte_set::ByteSet;

/// The other case of an ASCII letter, else the byte itself. It is its own inverse.
pub fn opposite_ascii_case(byte: u8) -> u8
    ensures value { result ≡ other_case byte }
    ensures inverse { other_case result ≡ byte }
{
    match byte {
        b'A'..=b'Z' => byte + 32,
        b'a'..=b'z' => byte - 32,
        _ => byte,
    }
}
