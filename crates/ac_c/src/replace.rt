//! Replacement: into a buffer of the caller's, and into memory of the library's.
//!
//! For a buffer the haystack is searched twice: for the length of the text, and then to write it, if the buffer has room. So no memory
//! is taken, and a buffer that is too short stays as it was. A text that C holds is freed once the new one is made, and not before.
ghost use Rattle.std.specs.Prelude.{◌≡◌, ◌≤◌, ◌+◌, ◌++◌, length, take, drop, Some};
ghost use Rattle.ac_c.specs.Walking.{IsAccounted, WalksToEnd};
ghost use Rattle.ac_c.specs.Replace.{AnswersInto, AnswersText, AreReplaceable, CostsInto, CostsLen, HoldsText, IsLenBy, IsLenOf, IsReplaced, IsReplacedBy, begun_with, is_long, text_along, text_by, walk_over};

use crate::status::{NO_MEMORY, OK, TOO_MANY_BYTES, TOO_SHORT, WRONG_COUNT, refused};
use crate::text::{Bytes, Text};
use crate::walking::Walking;
use aho_corasick::{AhoCorasick, Input, ReplaceError, Steps};
use std::alloc::Global;

/// A length, and the status.
#[repr(C)]
#[derive(Clone, Copy)]
pub struct Length {
    pub len: usize,
    pub status: u32,
}

impl Length {
    /// There is no length, and why.
    pub fn none(status: u32) -> Length
        ensures { result ≡ record { len = 0; status = status } }
    {
        Length { len: 0, status }
    }
}

/// How many bytes a haystack has with each of the matches replaced, if a number says it; counts what the walk does.
fn text_len<W: Walking + Drop>(
    mut matches: W,
    haystack: &[u8],
    replacements: &[&[u8]],
    steps: &mut Steps,
) -> Result<usize, u32>
    requires lie { AreReplaceable haystack.now replacements.now (W.walk matches) }
    requires counted { IsAccounted W.ahead (W.walk matches) }
    ensures len { IsLenOf (text_along haystack.now replacements.now (W.walk matches)) result }
    ensures cost { CostsLen W.ahead (W.walk matches) steps.old steps.new result }
{
    let mut at = 0;
    let mut len: usize = 0;
    while let Some(found) = matches.next_match(steps) {
        let Some(before) = len.checked_add(found.start() - at) else {
            return Err(TOO_MANY_BYTES);
        };
        let Some(after) = before.checked_add(replacements[found.pattern().as_usize()].len()) else {
            return Err(TOO_MANY_BYTES);
        };
        len = after;
        at = found.end();
    }
    match len.checked_add(haystack.len() - at) {
        Some(len) => Ok(len),
        None => Err(TOO_MANY_BYTES),
    }
}

/// Copies bytes to a place of a buffer. Returns the place after them.
fn copy_to(out: &mut [u8], at: usize, bytes: &[u8]) -> usize
    requires { at + length bytes.now ≤ length out.old }
    ensures end { result ≡ at + length bytes.now }
    ensures copied { out.new ≡ take at out.old ++ begun_with bytes.now (drop at out.old) }
{
    let end = at + bytes.len();
    out[at..end].copy_from_slice(bytes);
    end
}

/// Writes a haystack with each of the matches replaced to the start of a buffer; counts what the walk does.
fn write_text<W: Walking + Drop>(
    mut matches: W,
    haystack: &[u8],
    replacements: &[&[u8]],
    out: &mut [u8],
    steps: &mut Steps,
)
    requires lie { AreReplaceable haystack.now replacements.now (W.walk matches) }
    requires fits { length (text_along haystack.now replacements.now (W.walk matches))
        ≤ length out.old }
    requires counted { IsAccounted W.ahead (W.walk matches) }
    ensures text { out.new
        ≡ begun_with (text_along haystack.now replacements.now (W.walk matches)) out.old }
    ensures cost { WalksToEnd W.ahead (W.walk matches) steps.old steps.new }
{
    let mut at = 0;
    let mut len = 0;
    while let Some(found) = matches.next_match(steps) {
        len = copy_to(out, len, &haystack[at..found.start()]);
        len = copy_to(out, len, replacements[found.pattern().as_usize()]);
        at = found.end();
    }
    copy_to(out, len, &haystack[at..]);
}

/// A haystack of this length is read ahead. For a shorter one the notes take longer to make than they save.
const LONG: usize = 4096;

/// How many bytes the text has, or the status; counts what it does.
fn len_counted(
    ac: &AhoCorasick,
    haystack: &[u8],
    replacements: &[&[u8]],
    steps: &mut Steps,
) -> Result<usize, u32>
    ensures len { IsLenBy ac.now haystack.now replacements.now result }
    ensures cost { CostsLen (is_long haystack.now) (walk_over ac.now haystack.now) steps.old steps.new result }
{
    if replacements.len() != ac.patterns_len() {
        return Err(WRONG_COUNT);
    }
    if haystack.len() < LONG {
        return match ac.try_find_iter(Input::new(haystack)) {
            Err(error) => Err(refused(&error)),
            Ok(matches) => text_len(matches, haystack, replacements, steps),
        };
    }
    match ac.try_find_iter_ahead(Input::new(haystack)) {
        Err(error) => Err(refused(&error)),
        Ok(matches) => text_len(matches, haystack, replacements, steps),
    }
}

/// Writes the text to the start of a buffer; counts what it does.
fn write_counted(
    ac: &AhoCorasick,
    haystack: &[u8],
    replacements: &[&[u8]],
    out: &mut [u8],
    steps: &mut Steps,
)
    requires replaced { IsReplaced ac.now replacements.now }
    requires fits { length (text_by ac.now haystack.now replacements.now) ≤ length out.old }
    ensures text { out.new ≡ begun_with (text_by ac.now haystack.now replacements.now) out.old }
    ensures cost { WalksToEnd (is_long haystack.now) (walk_over ac.now haystack.now) steps.old steps.new }
{
    let input = Input::new(haystack);
    if haystack.len() < LONG {
        write_text(ac.find_iter(input), haystack, replacements, out, steps);
    } else {
        write_text(
            ac.find_iter_ahead(input),
            haystack,
            replacements,
            out,
            steps,
        );
    }
}

/// The text into a buffer, and its length; counts what it does.
fn into_counted(
    ac: &AhoCorasick,
    haystack: &[u8],
    replacements: &[&[u8]],
    out: &mut [u8],
    steps: &mut Steps,
) -> Length
    ensures answer { AnswersInto ac.now haystack.now replacements.now out.old out.new result }
    ensures cost { CostsInto ac.now haystack.now result.status steps.old steps.new }
{
    match len_counted(ac, haystack, replacements, steps) {
        Err(status) => Length::none(status),
        Ok(len) => {
            if len > out.len() {
                return Length {
                    len,
                    status: TOO_SHORT,
                };
            }
            write_counted(ac, haystack, replacements, out, steps);
            Length { len, status: OK }
        }
    }
}

/// The text into a buffer, and its length.
pub fn into(ac: &AhoCorasick, haystack: &[u8], replacements: &[&[u8]], out: &mut [u8]) -> Length
    ensures { AnswersInto ac.now haystack.now replacements.now out.old out.new result }
{
    into_counted(ac, haystack, replacements, out, &mut Steps::new())
}

/// The haystack with each match replaced, or the status.
fn replaced_by(
    ac: &AhoCorasick,
    alloc: Global,
    haystack: &[u8],
    replacements: &[&[u8]],
) -> Result<Vec<u8>, u32>
    ensures { IsReplacedBy ac.now haystack.now replacements.now result }
{
    if replacements.len() != ac.patterns_len() {
        return Err(WRONG_COUNT);
    }
    match ac.try_replace_all_bytes(alloc, haystack, replacements) {
        Ok(text) => Ok(text),
        Err(ReplaceError::Match(error)) => Err(refused(&error)),
        Err(ReplaceError::Memory) => Err(NO_MEMORY),
    }
}

/// Puts a text behind a pointer, in place of the one that was there, which stays where there is no text or no memory.
pub fn hold(alloc: Global, made: Result<Vec<u8>, u32>, text: &mut Text) -> u32
    ensures { HoldsText made text.old.value text.new.value result }
{
    match made {
        Err(status) => status,
        Ok(bytes) => match Box::new(alloc, Bytes { bytes }) {
            Err(_) => NO_MEMORY,
            Ok(made) => {
                *text = Text::from_box(made);
                OK
            }
        },
    }
}

/// The text in memory of its own.
pub fn made(
    ac: &AhoCorasick,
    alloc: Global,
    haystack: &[u8],
    replacements: &[&[u8]],
    text: &mut Text,
) -> u32
    ensures { AnswersText ac.now haystack.now replacements.now text.old.value text.new.value result }
{
    hold(alloc, replaced_by(ac, alloc, haystack, replacements), text)
}
