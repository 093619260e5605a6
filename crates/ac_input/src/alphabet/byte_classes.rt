//! Classes of bytes that an automaton need not distinguish.
//!
//! Where no pattern has either of two neighbouring bytes, every state goes the same way at both. A table maps each byte to the
//! number of its class. It costs one load a byte, and a state's row of transitions is as long as there are classes, instead of
//! 256. To find the classes, mark the range of each byte of the patterns in a [`ByteClassSet`]; it returns the [`ByteClasses`].
ghost use Rattle.std.specs.Prelude.{◌≡◌, ℕ, ◌+◌, ◌<◌, ◌≤◌, ◌↔◌, ◌||◌, false, IsTrue};
ghost use Rattle.ac_input.specs.Alphabet.{has, is_edge, HoldsJustOne, AreClassesOf, class, alphabet_len, IsClasses, IsLeastExponent, IsLeastPowerOfTwo, elements, runs};
ghost use Rattle.std.specs.List.{range_with_len};
ghost use Rattle.std.specs.Iterator.{YieldsFirst, item_count};

use std::marker::Model;

/// Which neighbouring bytes are in different classes. It takes 256 bytes.
///
/// It is built from ranges of bytes: two neighbours are in one class exactly if no range holds just one of them.
#[derive(Clone, Drop)]
pub struct ByteClassSet {
    boundaries: [bool; 256],
}

impl Model for ByteClassSet {
    ghost use Rattle.std.specs.Prelude.{List, Bool};

    ghost Value = { List Bool };

    ghost view = { λ s. s.boundaries };

    ghost inverse = { λ t. record { boundaries = t } };
}

impl Default for ByteClassSet {
    ghost use Rattle.std.specs.Prelude.{◌≡◌, ℕ, false};
    ghost use Rattle.ac_input.specs.Alphabet.{has};

    ghost is_default = { λ made. (b : ℕ) → has made b ≡ false };

    fn default() -> ByteClassSet {
        ByteClassSet::empty()
    }
}

impl ByteClassSet {
    /// No boundary: all bytes are in one class.
    pub fn empty() -> ByteClassSet
        ensures { (b : ℕ) → has result b ≡ false }
    {
        ByteClassSet {
            boundaries: [false; 256],
        }
    }

    /// Separates the bytes from `start` to `end`, both included, from all others.
    pub fn set_range(&mut self, start: u8, end: u8)
        requires { start ≤ end }
        ensures edges { (b : ℕ) → has self.new b ≡ (has self.old b || is_edge start end b) }
        ensures meaning { (b : ℕ) → IsTrue (is_edge start end b) ↔ HoldsJustOne start end b }
    {
        if start > 0 {
            self.boundaries[start as usize - 1] = true;
        }
        self.boundaries[end as usize] = true;
    }

    /// The classes, numbered from 0 in the order of their bytes.
    pub fn byte_classes(&self) -> ByteClasses
        ensures { AreClassesOf self.now result }
    {
        let mut classes = [0u8; 256];
        let mut class = 0u8;
        for i in 0..255usize {
            if self.boundaries[i] {
                class += 1;
            }
            classes[i + 1] = class;
        }
        ByteClasses { classes }
    }
}

/// The class of each byte. It takes 256 bytes.
///
/// A class is a range of bytes, and classes are numbered from 0 in the order of their bytes.
#[derive(Clone, Drop)]
pub struct ByteClasses {
    classes: [u8; 256],
}

impl Model for ByteClasses {
    ghost use Rattle.std.specs.Prelude.{ℕ, List};
    ghost use Rattle.ac_input.specs.Alphabet.{IsClasses};

    ghost Value = { List ℕ };

    ghost view = { λ c. c.classes };

    ghost invariant = { λ c. IsClasses c.classes };

    ghost inverse = { λ t. record { classes = t } };
}

impl ByteClasses {
    /// Each byte is a class of its own.
    pub fn singletons() -> ByteClasses
        ensures { (b : ℕ) → b < 256 → class result b ≡ b }
    {
        let mut classes = [0u8; 256];
        for i in 0..256usize {
            classes[i] = i as u8;
        }
        ByteClasses { classes }
    }

    /// The class of a byte. One load.
    pub fn get(&self, byte: u8) -> u8
        ensures value { result ≡ class self.now byte }
        ensures fits { result < alphabet_len self.now }
    {
        self.classes[byte as usize]
    }

    /// How many classes there are.
    pub fn alphabet_len(&self) -> usize
        ensures value { result ≡ alphabet_len self.now }
        ensures fits { result ≤ 256 }
        ensures classes { IsClasses self.now }
    {
        self.classes[255] as usize + 1
    }

    /// The least power of two that is at least the number of classes: with rows this long, a state's row is found by a shift.
    pub fn stride(&self) -> usize
        ensures value { IsLeastPowerOfTwo (alphabet_len self.now) result }
        ensures fits { result ≤ 256 }
    {
        1 << self.stride2()
    }

    /// The exponent of the stride, which is two to it.
    pub fn stride2(&self) -> usize
        ensures value { IsLeastExponent (alphabet_len self.now) result }
        ensures fits { result ≤ 8 }
    {
        match self.classes[255] {
            0 => 0,
            1 => 1,
            2..=3 => 2,
            4..=7 => 3,
            8..=15 => 4,
            16..=31 => 5,
            32..=63 => 6,
            64..=127 => 7,
            _ => 8,
        }
    }

    /// The classes, from the first to the last.
    pub fn iter(&self) -> ByteClassIter
        ensures { result ≡ range_with_len 0 (alphabet_len self.now) }
    {
        ByteClassIter {
            at: 0,
            end: self.alphabet_len(),
        }
    }

    /// The bytes of a class, from the least to the greatest; none where there is no such class.
    pub fn elements(&self, class: u8) -> ByteClassElements<'_>
        ensures { result ≡ elements self.now class }
    {
        ByteClassElements {
            classes: self,
            class,
            at: 0,
        }
    }

    /// The ranges of a class's bytes, each as its first and last byte. A class is one range; there is none where there is no such
    /// class.
    pub fn element_ranges(&self, class: u8) -> ByteClassElementRanges<'_>
        ensures { result ≡ runs (elements self.now class) }
    {
        ByteClassElementRanges {
            elements: self.elements(class),
            run: None,
        }
    }
}

/// The remaining classes. From [`ByteClasses::iter`].
#[derive(Clone, Drop)]
pub struct ByteClassIter {
    at: usize,
    end: usize,
}

impl Model for ByteClassIter {
    ghost use Rattle.std.specs.Prelude.{ℕ, List, ◌-◌, ◌≤◌};
    ghost use Rattle.std.specs.List.{range_with_len};

    ghost Value = { List ℕ };

    ghost view = { λ i. range_with_len i.at (i.end - i.at) };

    ghost invariant = { λ i. (i.at ≤ i.end) × (i.end ≤ 256) };
}

impl Iterator for ByteClassIter {
    type Item = u8;

    ghost next_gives = { YieldsFirst (λ rest. rest) };

    ghost remaining = { item_count (λ rest. rest) };

    fn next(&mut self) -> Option<u8> {
        if self.at == self.end {
            return None;
        }
        let class = self.at as u8;
        self.at += 1;
        Some(class)
    }
}

/// The remaining bytes of a class. From [`ByteClasses::elements`].
///
/// Iterating over all of them looks at each of the 256 bytes once.
#[derive(Clone, Drop)]
pub struct ByteClassElements<'a> {
    classes: &'a ByteClasses,
    class: u8,
    at: usize,
}

impl<'a> Model for ByteClassElements<'a> {
    ghost use Rattle.std.specs.Prelude.{ℕ, List, ◌-◌, ◌≤◌};
    ghost use Rattle.ac_input.specs.Alphabet.{elements_from};

    ghost Value = { List ℕ };

    ghost view = { λ i. elements_from i.classes.now i.class i.at (256 - i.at) };

    ghost invariant = { λ i. i.at ≤ 256 };
}

impl<'a> Iterator for ByteClassElements<'a> {
    type Item = u8;

    ghost next_gives = { YieldsFirst (λ rest. rest) };

    ghost remaining = { item_count (λ rest. rest) };

    fn next(&mut self) -> Option<u8> {
        while self.at < 256 {
            let byte = self.at as u8;
            self.at += 1;
            if self.classes.get(byte) == self.class {
                return Some(byte);
            }
        }
        None
    }
}

/// The remaining ranges of a class's bytes. From [`ByteClasses::element_ranges`].
#[derive(Clone, Drop)]
pub struct ByteClassElementRanges<'a> {
    elements: ByteClassElements<'a>,
    run: Option<(u8, u8)>,
}

impl<'a> Model for ByteClassElementRanges<'a> {
    ghost use Rattle.std.specs.Prelude.{ℕ, List};
    ghost use Rattle.ac_input.specs.Alphabet.{runs_from};

    ghost Value = { List (ℕ × ℕ) };

    ghost view = { λ i. runs_from i.run i.elements };
}

impl<'a> Iterator for ByteClassElementRanges<'a> {
    type Item = (u8, u8);

    ghost next_gives = { YieldsFirst (λ rest. rest) };

    ghost remaining = { item_count (λ rest. rest) };

    fn next(&mut self) -> Option<(u8, u8)> {
        while let Some(byte) = self.elements.next() {
            let Some((start, end)) = self.run else {
                self.run = Some((byte, byte));
                continue;
            };
            if byte as usize == end as usize + 1 {
                self.run = Some((start, byte));
            } else {
                self.run = Some((byte, byte));
                return Some((start, end));
            }
        }
        self.run.take()
    }
}
