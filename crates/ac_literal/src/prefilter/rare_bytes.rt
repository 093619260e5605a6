//! Bytes of which each pattern holds one, chosen as the patterns come.
//!
//! The rarer its bytes, the less often a scan stops. So a pattern that holds none of the bytes chosen before adds its own rarest
//! byte, by a rough estimate of how often bytes occur in text. What is paired with the byte is added with it, and so counts when
//! the rarest is chosen.
//!
//! Where a rare byte is found, a match may have begun before it: as far before as the byte stands after the beginning of any
//! pattern, not only of the pattern for which it was chosen. So the place of each byte of each pattern is recorded.
ghost use Rattle.std.specs.Prelude.{◌≡◌, ℕ, ◌<◌, [], List, length, slice_index, slice_set, max, IsTrue};
ghost use Rattle.std.specs.List.{Contains};
ghost use Rattle.ac_literal.specs.Prefilter.Strategies.{rare_len_limit};
ghost use Rattle.ac_literal.specs.Prefilter.Rare.{HoldsOne, IsClosed, IsChosen, AreReached, IsRareSoFar, AddsRare};

use crate::prefilter::needles::FewBytes;
use crate::prefilter::rank::paired_rank;
use ac_input::pairing::Pairing;

/// Rare bytes serve patterns that are shorter than this: then the place of each byte fits a `u8`.
const LEN_LIMIT: usize = 256;

/// The byte of the pattern that is the least common, together with its partner; of several, the first. The contract says only that
/// the pattern has it: which one is taken changes how long a search takes, and no result.
fn rarest(pairing: &Pairing, pattern: &[u8]) -> u8
    requires { 0 < length pattern.now }
    ensures held { Contains pattern.now result }
{
    let mut best = pattern[0];
    for byte in pattern {
        if paired_rank(pairing, *byte) < paired_rank(pairing, best) {
            best = *byte;
        }
    }
    best
}

/// Whether one of the bytes stands in the pattern.
fn is_held(few: &FewBytes, pattern: &[u8]) -> bool
    ensures { IsTrue result → HoldsOne few.now pattern.now }
{
    for byte in pattern {
        if few.has(*byte) {
            return true;
        }
    }
    false
}

/// The byte may stand at that place, too.
fn lengthen(distances: &mut [u8; 256], byte: u8, at: u8)
    ensures { distances.new
        ≡ slice_set distances.old byte (max (slice_index distances.old byte) at) }
{
    let distance = distances[byte as usize];
    distances[byte as usize] = distance.max(at);
}

/// Each byte of a pattern, and what is paired with it, may stand where it stands there.
fn record(distances: &mut [u8; 256], pairing: &Pairing, pattern: &[u8])
    requires { length pattern.now < rare_len_limit }
    ensures { AreReached pairing.now distances.old pattern.now distances.new }
{
    for at in 0..pattern.len() {
        let byte = pattern[at];
        lengthen(distances, byte, at as u8);
        lengthen(distances, pairing.other(byte), at as u8);
    }
}

/// The distances with those of one more pattern. Rare bytes don't serve a pattern that is too long for a distance, so nothing is
/// recorded for it.
fn reached(distances: [u8; 256], pairing: &Pairing, pattern: &[u8]) -> [u8; 256]
    ensures { AreReached pairing.now distances pattern.now result }
{
    let mut reached = distances;
    if pattern.len() < LEN_LIMIT {
        record(&mut reached, pairing, pattern);
    }
    reached
}

/// The rare bytes with one of the pattern's, if none of its bytes is among them: its rarest, and what is paired with that.
fn chosen(few: FewBytes, pairing: &Pairing, pattern: &[u8]) -> FewBytes
    requires { 0 < length pattern.now }
    ensures { IsClosed pairing.now few → IsChosen pairing.now few pattern.now result }
{
    if is_held(&few, pattern) {
        return few;
    }
    let byte = rarest(pairing, pattern);
    few.with(byte).with(pairing.other(byte))
}

/// The rare bytes of the patterns so far.
///
/// The place of every byte of every pattern is recorded, including those after the rare one.
#[derive(Clone, Copy)]
pub struct RareBytesBuilder {
    pub few: FewBytes,
    pub distances: [u8; 256],
    pub is_short: bool,
}

impl RareBytesBuilder {
    /// Those of no pattern.
    pub fn new() -> RareBytesBuilder
        ensures { (pairing : List ℕ) → IsRareSoFar pairing [] result }
    {
        RareBytesBuilder {
            few: FewBytes::None,
            distances: [0; 256],
            is_short: true,
        }
    }

    /// The same with one more pattern.
    pub fn with(self, pairing: &Pairing, pattern: &[u8]) -> RareBytesBuilder
        requires { 0 < length pattern.now }
        ensures { AddsRare pairing.now self pattern.now result }
    {
        RareBytesBuilder {
            few: chosen(self.few, pairing, pattern),
            distances: reached(self.distances, pairing, pattern),
            is_short: self.is_short && pattern.len() < LEN_LIMIT,
        }
    }
}
