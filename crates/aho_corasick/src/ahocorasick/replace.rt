//! Replacement in memory.
//!
//! It takes the matches of a whole haystack, by an unanchored search. The calls with `try_` return an error if the automaton has
//! no start for one; the others require that it has, where the Rust crate panics. All return an error if memory runs out. They
//! allocate their result alone, and cost what the walk over all matches does.
ghost use Rattle.std.specs.Prelude.{◌≡◌, length, IfOk};
ghost use Rattle.ac_literal.specs.Packed.{bytes_of};
ghost use Rattle.ac_automaton.specs.declared.error.ReplaceError.TheVariants.{Memory};
ghost use Rattle.ac_automaton.specs.InMemory.Replace.{IsForMatches, ReplacesText, ReplacesBytes, ReplacesTextWith, ReplacesBytesWith};
ghost use Rattle.aho_corasick.specs.AhoCorasick.{as_built, supported_by, pattern_count};
ghost use Rattle.aho_corasick.specs.Replaced.{IsReplacedText, IsReplacedBytes, AppendsText, AppendsBytes};

use super::AhoCorasick;
use ac_automaton::automaton::Automaton;
use ac_automaton::error::ReplaceError;
use ac_input::search::{Anchored, Match};
use std::alloc::{AllocError, Global};

/// The error of a replacement whose search can't fail.
fn out_of_memory(error: ReplaceError) -> AllocError
    requires { error ≡ Memory }
{
    match error {
        ReplaceError::Memory => AllocError,
        ReplaceError::Match(_) => unreachable!(),
    }
}

impl AhoCorasick {
    /// The text with each match replaced by the replacement of its pattern: see [`AhoCorasick::try_replace_all`].
    ///
    /// It requires a start for unanchored searches, which every start kind has but `Anchored`, and one replacement for each pattern.
    ///
    /// ```text
    /// let ac = AhoCorasick::new(alloc, &[b"fox", b"brown", b"quick"])?;
    /// let text = ac.replace_all(alloc, "The quick brown fox.", &["sloth", "grey", "slow"])?;
    /// // "The slow grey sloth."
    /// ```
    pub fn replace_all(
        &self,
        alloc: Global,
        haystack: &str,
        replacements: &[&str],
    ) -> Result<String, AllocError>
        requires can { supported_by self.now Anchored.No }
        requires one_each { length replacements.now ≡ pattern_count self.now }
        ensures { IfOk result
            (IsReplacedText self.now haystack.now (bytes_of replacements.now)) }
    {
        match self.try_replace_all(alloc, haystack, replacements) {
            Ok(text) => Ok(text),
            Err(error) => Err(out_of_memory(error)),
        }
    }

    /// The same of bytes: there every match is replaced.
    ///
    /// ```text
    /// let replacements = vec![in alloc; nothing; ac.patterns_len()]?; // `nothing` is b""
    /// let rest = ac.replace_all_bytes(alloc, bytes, &replacements)?;
    /// ```
    pub fn replace_all_bytes(
        &self,
        alloc: Global,
        haystack: &[u8],
        replacements: &[&[u8]],
    ) -> Result<Vec<u8>, AllocError>
        requires can { supported_by self.now Anchored.No }
        requires one_each { length replacements.now ≡ pattern_count self.now }
        ensures { IfOk result
            (IsReplacedBytes self.now haystack.now (bytes_of replacements.now)) }
    {
        match self.try_replace_all_bytes(alloc, haystack, replacements) {
            Ok(bytes) => Ok(bytes),
            Err(error) => Err(out_of_memory(error)),
        }
    }

    /// Appends the text to the destination, and in place of each match what the closure appends: see
    /// [`AhoCorasick::try_replace_all_with`], also for what it requires of the closure. It requires a start for unanchored searches,
    /// too.
    ///
    /// ```text
    /// ac.replace_all_with(alloc, text, dst, |_, matched, dst| {
    ///     dst.push('[')?;
    ///     dst.push_str(matched)?;
    ///     dst.push(']')?;
    ///     Ok(true)
    /// })
    /// ```
    pub fn replace_all_with<F>(
        &self,
        alloc: Global,
        haystack: &str,
        dst: &mut String,
        replace_with: F,
    ) -> Result<(), AllocError>
    where
        F: FnMut(&Match, &str, &mut String) -> Result<bool, AllocError>,
        requires can { supported_by self.now Anchored.No }
        requires ready { IsForMatches F.FnMut (pattern_count self.now) replace_with }
        ensures { AppendsText F.FnMut self.now haystack.now replace_with dst.old dst.new
            result }
    {
        match self.try_replace_all_with(alloc, haystack, dst, replace_with) {
            Ok(()) => Ok(()),
            Err(error) => Err(out_of_memory(error)),
        }
    }

    /// The same of bytes: there the closure is called for every match.
    pub fn replace_all_with_bytes<F>(
        &self,
        alloc: Global,
        haystack: &[u8],
        dst: &mut Vec<u8>,
        replace_with: F,
    ) -> Result<(), AllocError>
    where
        F: FnMut(&Match, &[u8], &mut Vec<u8>) -> Result<bool, AllocError>,
        requires can { supported_by self.now Anchored.No }
        requires ready { IsForMatches F.FnMut (pattern_count self.now) replace_with }
        ensures { AppendsBytes F.FnMut self.now haystack.now replace_with dst.old dst.new
            result }
    {
        match self.try_replace_all_with_bytes(alloc, haystack, dst, replace_with) {
            Ok(()) => Ok(()),
            Err(error) => Err(out_of_memory(error)),
        }
    }

    /// The text with each match replaced by the replacement of its pattern. A match that begins or ends within a character is
    /// skipped: its bytes stay.
    ///
    /// It requires one replacement for each pattern: as many as [`patterns_len`](AhoCorasick::patterns_len). Returns
    /// `InvalidInputUnanchored` if the automaton has no start for unanchored searches, and `Memory` if memory runs out.
    ///
    /// ```text
    /// if replacements.len() != ac.patterns_len() {
    ///     return Ok(None);
    /// }
    /// Ok(Some(ac.try_replace_all(alloc, text, replacements)?))
    /// ```
    pub fn try_replace_all(
        &self,
        alloc: Global,
        haystack: &str,
        replacements: &[&str],
    ) -> Result<String, ReplaceError>
        requires { length replacements.now ≡ pattern_count self.now }
        ensures answer { ReplacesText (as_built self.now) (supported_by self.now) haystack.now
            replacements.now result }
        ensures replaced { IfOk result
            (IsReplacedText self.now haystack.now (bytes_of replacements.now)) }
    {
        Automaton::try_replace_all(self, alloc, haystack, replacements)
    }

    /// The same of bytes: there every match is replaced.
    pub fn try_replace_all_bytes(
        &self,
        alloc: Global,
        haystack: &[u8],
        replacements: &[&[u8]],
    ) -> Result<Vec<u8>, ReplaceError>
        requires { length replacements.now ≡ pattern_count self.now }
        ensures answer { ReplacesBytes (as_built self.now) (supported_by self.now) haystack.now
            replacements.now result }
        ensures replaced { IfOk result
            (IsReplacedBytes self.now haystack.now (bytes_of replacements.now)) }
    {
        Automaton::try_replace_all_bytes(self, alloc, haystack, replacements)
    }

    /// Appends the text to the destination, and in place of each match what the closure appends: it is given the match, its text
    /// and the destination. A match that begins or ends within a character is skipped. A closure that returns `false` is not
    /// called again, and the rest is copied.
    ///
    /// It requires of the closure that it may be called with every match of a pattern below
    /// [`patterns_len`](AhoCorasick::patterns_len), whatever else it is given, and that after such a call it may be called so again.
    ///
    /// Returns `InvalidInputUnanchored` if the automaton has no start for unanchored searches; the destination is then unchanged. If
    /// memory runs out, also in the closure, what was appended stays. The destination grows with the allocator that it was made
    /// with.
    ///
    /// ```text
    /// ac.try_replace_all_with(alloc, text, dst, |found, _, dst| {
    ///     dst.push('*')?;
    ///     Ok(found.pattern() != last)
    /// })
    /// ```
    pub fn try_replace_all_with<F>(
        &self,
        alloc: Global,
        haystack: &str,
        dst: &mut String,
        replace_with: F,
    ) -> Result<(), ReplaceError>
    where
        F: FnMut(&Match, &str, &mut String) -> Result<bool, AllocError>,
        requires { IsForMatches F.FnMut (pattern_count self.now) replace_with }
        ensures { ReplacesTextWith F.FnMut (as_built self.now) (supported_by self.now) haystack.now
            replace_with dst.old dst.new result }
    {
        Automaton::try_replace_all_with(self, alloc, haystack, dst, replace_with)
    }

    /// The same of bytes: there the closure is called for every match.
    ///
    /// ```text
    /// ac.try_replace_all_with_bytes(alloc, bytes, dst, |found, _, dst| {
    ///     dst.extend_from_slice(&found.pattern().as_u32().to_be_bytes())?;
    ///     Ok(true)
    /// })
    /// ```
    pub fn try_replace_all_with_bytes<F>(
        &self,
        alloc: Global,
        haystack: &[u8],
        dst: &mut Vec<u8>,
        replace_with: F,
    ) -> Result<(), ReplaceError>
    where
        F: FnMut(&Match, &[u8], &mut Vec<u8>) -> Result<bool, AllocError>,
        requires { IsForMatches F.FnMut (pattern_count self.now) replace_with }
        ensures { ReplacesBytesWith F.FnMut (as_built self.now) (supported_by self.now) haystack.now
            replace_with dst.old dst.new result }
    {
        Automaton::try_replace_all_with_bytes(self, alloc, haystack, dst, replace_with)
    }
}
