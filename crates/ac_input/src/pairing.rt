//! Bytes that stand for one another.
//!
//! A pairing gives each byte at most one other byte, and a search treats the two as equal: case folding is the pairing of the
//! ASCII letters in their two cases. It is a table of 256 bytes, so looking up a byte's partner is one load.
ghost use Rattle.std.specs.Prelude.{◌≡◌, ℕ, ◌↔◌, IsTrue, IfOk, MatchOption};
ghost use Rattle.ac_input.specs.Same.{named_for, other, IsUnpaired};
ghost use Rattle.ac_input.specs.Pairing.{named, partner, other_case, IsDistinct, IsFirstTwice, IsPairing};

use std::error::Error;
use std::fmt;
use std::marker::Model;

/// Which byte stands for which other one. It takes 256 bytes.
#[derive(Clone, Copy, PartialEq, Eq)]
pub struct Pairing {
    table: [u8; 256],
}

impl Model for Pairing {
    ghost use Rattle.std.specs.Prelude.{ℕ, List};
    ghost use Rattle.ac_input.specs.Pairing.{IsPairing};

    ghost Value = { List ℕ };

    ghost view = { λ p. p.table };

    ghost invariant = { λ p. IsPairing p.table };

    ghost inverse = { λ t. record { table = t } };
}

/// Why a list of pairs is no pairing.
#[derive(Clone, Copy, Debug, PartialEq, Eq)]
pub enum PairingError {
    /// This byte is named twice.
    Twice(u8),
}

impl fmt::Display for PairingError {
    ghost use Rattle.std.specs.Prelude.{◌++◌, Some, codes, decimal};
    ghost use Rattle.ac_input.specs.Pairing.{twice_of};

    ghost output = { λ error. Some (codes "byte " ++ decimal (twice_of error)
        ++ codes " is named twice") };

    fn fmt<W: fmt::Write>(&self, f: &mut fmt::Formatter<W>) -> fmt::Result {
        let PairingError::Twice(byte) = *self;
        write!(f, "byte {byte} is named twice")
    }
}

impl Error for PairingError {}

/// The table in which each byte is its own partner.
fn identity() -> [u8; 256]
    ensures own { (b : ℕ) → named_for result b ≡ b }
{
    let mut table = [0u8; 256];
    for i in 0..256usize {
        table[i] = i as u8;
    }
    table
}

impl Pairing {
    /// No pairs: case is kept.
    pub fn none() -> Pairing
        ensures { IsUnpaired result }
    {
        Pairing { table: identity() }
    }

    /// The 26 ASCII letters, each in its two cases.
    pub fn ascii() -> Pairing
        ensures { (b : ℕ) → other result b ≡ other_case b }
    {
        let mut table = identity();
        for i in 0..26usize {
            table[65 + i] = 97 + i as u8;
            table[97 + i] = 65 + i as u8;
        }
        Pairing { table }
    }

    /// The partner of a byte; the byte itself where it is in no pair. One load.
    pub fn other(&self, byte: u8) -> u8
        ensures value { result ≡ other self.now byte }
        ensures inverse { other self.now result ≡ byte }
    {
        self.table[byte as usize]
    }

    /// The partner of each byte, for a caller that keeps the table itself.
    pub fn table(&self) -> [u8; 256]
        ensures value { result ≡ self.now }
        ensures pairing { IsPairing result }
    {
        self.table
    }

    /// Whether there is no pair.
    pub fn is_none(&self) -> bool
        ensures { IsTrue result ↔ IsUnpaired self.now }
    {
        for i in 0..256usize {
            if self.table[i] as usize != i {
                return false;
            }
        }
        true
    }

    /// The pairing of these pairs, in any order. It fails where a byte is in two pairs, or twice in one. The error names the first
    /// byte, reading each pair from left to right, that was named before.
    pub fn new(pairs: &[(u8, u8)]) -> Result<Pairing, PairingError>
        ensures made { IfOk result (λ pairing. IsDistinct (named pairs.now)
            × ((b : ℕ) → other pairing b ≡ partner pairs.now b)) }
        ensures twice { (b : ℕ) → result ≡ Err (PairingError.Twice b)
            → IsFirstTwice (named pairs.now) b }
    {
        if let Some(byte) = first_twice(pairs) {
            return Err(PairingError::Twice(byte));
        }
        Ok(Pairing {
            table: table_of(pairs),
        })
    }
}

/// The first byte that was named before.
fn first_twice(pairs: &[(u8, u8)]) -> Option<u8>
    ensures { MatchOption result (IsDistinct (named pairs.now)) (IsFirstTwice (named pairs.now)) }
{
    let mut seen = [false; 256];
    for (a, b) in pairs {
        if seen[*a as usize] {
            return Some(*a);
        }
        seen[*a as usize] = true;
        if seen[*b as usize] {
            return Some(*b);
        }
        seen[*b as usize] = true;
    }
    None
}

/// The table of pairs that name no byte twice.
fn table_of(pairs: &[(u8, u8)]) -> [u8; 256]
    requires { IsDistinct (named pairs.now) }
    ensures partners { (b : ℕ) → named_for result b ≡ partner pairs.now b }
    ensures pairing { IsPairing result }
{
    let mut table = identity();
    for (a, b) in pairs {
        table[*a as usize] = *b;
        table[*b as usize] = *a;
    }
    table
}
