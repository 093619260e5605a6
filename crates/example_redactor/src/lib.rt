//! Hides and finds forbidden words: a small crate over `aho_corasick`, as a user would write it.
//!
//! Its line in `crates.txt` names one crate, and it has no proof file: the check proves each function by itself. Two ghost fields
//! say what the automaton is built for. By them the calls that can't fail may be made, such as `mask` and `find`; the calls with
//! `try_` need none.
#![tactic(auto)]

ghost use Rattle.std.specs.Prelude.{◌≡◌};
ghost use Rattle.aho_corasick.specs.AhoCorasick.{kind_of, start_kind_of};
ghost use Rattle.aho_corasick.specs.declared.MatchKind.TheVariants.{Standard};
ghost use Rattle.aho_corasick.specs.declared.StartKind.TheVariants.{Unanchored};

use aho_corasick::{AhoCorasick, BuildError, Input, Steps, StreamError, Watched};
use std::alloc::{AllocError, Global};
use std::io::{Read, Write};

/// What stands in place of each byte of a word. No word may have it: then none is left in what is hidden.
const MASK: u8 = b'*';

/// What stands in place of a word where its length is to be hidden, too.
const COVER: &str = "***";

/// Words to hide.
#[derive(Debug, Drop)]
pub struct Redactor {
    ac: AhoCorasick,
    words: Vec<String>,
    // searches may start anywhere, so `find`, `find_iter` and `replace_all` may be called ..
    ghost unanchored: { start_kind_of ac ≡ Unanchored },
    // .. and matches are standard ones, so `mask` and `find_overlapping_iter` may be called, too
    ghost standard: { kind_of ac ≡ Standard },
}

impl Redactor {
    /// A redactor of these words. Upper and lower case are distinguished.
    pub fn new(alloc: Global, words: &[&str]) -> Result<Redactor, BuildError> {
        let ac = AhoCorasick::from_patterns(alloc, words)?;
        let words: Vec<String> = words
            .iter()
            .map(|word| word.to_string(alloc))
            .try_collect(alloc)?;
        Ok(Redactor { ac, words })
    }

    /// Hides the words of a text where it stands: each byte that lies in one becomes a star, also where words overlap. The rest of
    /// the text stays, and so do its length and its places.
    pub fn redact(&self, text: &mut [u8]) {
        self.ac.mask(text, MASK);
    }

    /// The text with three stars in the place of each word that [`Redactor::found`] lists. Of words that overlap the one that ends
    /// first is covered, and what it leaves of the others stays: where nothing may be left, call [`Redactor::redact`].
    pub fn covered(&self, alloc: Global, text: &str) -> Result<String, AllocError> {
        let covers = vec![in alloc; COVER; self.ac.patterns_len()]?;
        self.ac.replace_all(alloc, text, &covers)
    }

    /// The first word that stands in the text.
    pub fn find_first<'t>(&self, text: &'t str) -> Option<&'t str> {
        let found = self.ac.find(Input::from(text))?;
        text.get(found.range())
    }

    /// How many words stand in the text one after another. Of words that overlap the one that ends first counts.
    pub fn count(&self, text: &str) -> usize {
        self.ac.find_iter(Input::from(text)).count()
    }

    /// The bytes of each of these.
    pub fn found<'t>(&self, alloc: Global, text: &'t str) -> Result<Vec<&'t [u8]>, AllocError> {
        let mut found = Vec::new(alloc);
        for word in self.ac.find_iter(Input::from(text)) {
            found.push(word.span().of(text.as_bytes()))?;
        }
        Ok(found)
    }

    /// All words that stand in the text, also those that overlap others.
    pub fn words_in(&self, alloc: Global, text: &str) -> Result<Vec<&str>, AllocError> {
        let mut words = Vec::new(alloc);
        for found in self.ac.find_overlapping_iter(Input::from(text)) {
            if let Some(word) = self.words.get(found.pattern().as_usize()) {
                words.push(word.as_str())?;
            }
        }
        Ok(words)
    }

    /// Copies what the reader gives to the writer with its words hidden, as [`Redactor::redact`] hides them, while it reads.
    pub fn redact_stream<R: Read + Drop, W: Write + Drop>(
        &self,
        alloc: Global,
        reader: R,
        writer: W,
    ) -> Result<(), StreamError> {
        let mut reader = Watched::new(reader);
        let mut writer = Watched::new(writer);
        self.ac
            .try_mask_stream_counted(alloc, &mut reader, &mut writer, MASK, &mut Steps::new())
    }

    /// Where words start in what the reader gives, counted in bytes.
    pub fn places_in_stream<R: Read + Drop>(
        &self,
        alloc: Global,
        reader: R,
    ) -> Result<Vec<usize>, StreamError> {
        let mut reader = Watched::new(reader);
        let mut places = Vec::new(alloc);
        for found in self.ac.try_stream_find_iter(alloc, &mut reader)? {
            let found = found?;
            places.push(found.start()).map_err(AllocError::from)?;
        }
        Ok(places)
    }
}
