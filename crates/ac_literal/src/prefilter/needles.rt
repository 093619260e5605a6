//! One, two or three bytes that are looked for together.
//!
//! `memchr` scans for up to three bytes at once. [`Needles`] are such bytes, and [`FewBytes`] collects them one by one until
//! there are too many.
ghost use Rattle.std.specs.Prelude.{◌≡◌, ℕ, ◌≤◌, Bool, length, IfSome};
ghost use Rattle.memchr.specs.Find.{IsFirstByte, Passes, IsFirst};
ghost use Rattle.ac_input.specs.Steps.{Done};
ghost use Rattle.ac_literal.specs.Prefilter.Needles.{is_needle, all_ascii, covered, with_byte, AddsNeedle, few_has, AreFew, AddsByte};

use ac_input::search::Span;
use ac_input::steps::Steps;
use memchr::{memchr, memchr2, memchr3};

/// The first byte that isn't ASCII.
pub const ASCII_LIMIT: u8 = 0x80;

/// One to three bytes that are looked for together.
#[derive(Clone, Copy, Debug)]
pub enum Needles {
    One(u8),
    Two(u8, u8),
    Three(u8, u8, u8),
}

impl Needles {
    /// The first place of the bytes that holds a needle. One pass, many bytes at a time.
    fn find(&self, bytes: &[u8]) -> Option<usize>
        ensures { IsFirstByte (is_needle self.now) bytes.now result }
    {
        match *self {
            Needles::One(a) => memchr(a, bytes),
            Needles::Two(a, b) => memchr2(a, b, bytes),
            Needles::Three(a, b, c) => memchr3(a, b, c, bytes),
        }
    }

    /// The first place of the span that holds a needle. It counts the places that it passed, and that one.
    pub fn scan(&self, haystack: &[u8], span: Span, steps: &mut Steps) -> Option<usize>
        requires ordered { span.start ≤ span.end }
        requires within { span.end ≤ length haystack.now }
        ensures found { IsFirst (Passes (is_needle self.now) haystack.now) span.start span.end result }
        ensures counted { Done 0 (covered span result) 0 steps.old steps.new }
    {
        let Some(offset) = self.find(span.of(haystack)) else {
            steps.scan(span.end - span.start);
            return None;
        };
        steps.scan(offset + 1);
        Some(span.start + offset)
    }

    /// Whether the byte is a needle.
    pub fn has(&self, byte: u8) -> bool
        ensures { result ≡ is_needle self.now byte }
    {
        match *self {
            Needles::One(a) => byte == a,
            Needles::Two(a, b) => byte == a || byte == b,
            Needles::Three(a, b, c) => byte == a || byte == b || byte == c,
        }
    }

    /// Whether all needles are ASCII.
    pub fn is_ascii(&self) -> bool
        ensures { result ≡ all_ascii self.now }
    {
        match *self {
            Needles::One(a) => a < ASCII_LIMIT,
            Needles::Two(a, b) => a < ASCII_LIMIT && b < ASCII_LIMIT,
            Needles::Three(a, b, c) => a < ASCII_LIMIT && b < ASCII_LIMIT && c < ASCII_LIMIT,
        }
    }

    /// These needles and one more, unless it would be a fourth.
    fn with(self, byte: u8) -> Option<Needles>
        ensures table { AddsNeedle self byte result }
        ensures more { IfSome result (λ needles. (each : ℕ)
            → is_needle needles each ≡ with_byte (is_needle self) byte each) }
    {
        if self.has(byte) {
            return Some(self);
        }
        match self {
            Needles::One(a) => Some(Needles::Two(a, byte)),
            Needles::Two(a, b) => Some(Needles::Three(a, b, byte)),
            Needles::Three(..) => None,
        }
    }
}

/// Bytes that are collected one by one while they are few.
#[derive(Clone, Copy, Debug)]
pub enum FewBytes {
    /// None so far.
    None,
    /// One to three.
    Some(Needles),
    /// Four or more: which ones isn't stored.
    TooMany,
}

impl FewBytes {
    /// Whether the byte is among them; if there are too many, any may be.
    pub fn has(&self, byte: u8) -> bool
        ensures { result ≡ few_has self.now byte }
    {
        match self {
            FewBytes::None => false,
            FewBytes::Some(needles) => needles.has(byte),
            FewBytes::TooMany => true,
        }
    }

    /// These bytes and one more.
    pub fn with(self, byte: u8) -> FewBytes
        ensures table { (f : ℕ → Bool) → AreFew self f → AreFew result (with_byte f byte) }
        ensures more { AddsByte self byte result }
    {
        match self {
            FewBytes::None => FewBytes::Some(Needles::One(byte)),
            FewBytes::Some(needles) => match needles.with(byte) {
                Some(more) => FewBytes::Some(more),
                None => FewBytes::TooMany,
            },
            FewBytes::TooMany => FewBytes::TooMany,
        }
    }
}
