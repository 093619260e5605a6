//! Pairs of patterns that overlap.
//!
//! Two patterns overlap if a proper suffix of one is a proper prefix of the other, or if one lies in the other and is shorter. A
//! pattern is in no pair with itself, and an empty one in none. Bytes that the settings take for the same are the same here. With
//! `--word` both have to be whole words where they overlap: no word byte stands beside either.
//!
//! A pattern's overlaps are found on its way through the trie. The failure links of the node at its end lead to each suffix that
//! begins other patterns, and those of the nodes on the way to each pattern that lies in it. There may be as many pairs as the square
//! of the patterns, so no more than [`MOST`] candidates are looked at.
use crate::check::trie::{Node, Texts, Trie};
use crate::rules::Rules;
use ac_input::pairing::Pairing;
use std::alloc::{AllocError, Global};
use std::ops::Range;

/// How many candidates are looked at.
const MOST: usize = 250_000;

/// Pairs of rules that overlap.
#[derive(Drop)]
pub struct Pairs {
    /// Each pair once, the lower number first, in order.
    pub all: Vec<(usize, usize)>,
    /// Whether these are all that there are.
    pub whole: bool,
}

/// The pairs of rules whose patterns overlap.
pub fn find_pairs(
    alloc: Global,
    rules: &Rules,
    pairing: &Pairing,
    word: bool,
) -> Result<Pairs, AllocError> {
    let texts = Texts::new(alloc, rules, pairing)?;
    let trie = Trie::new(alloc, &texts)?;
    let mut search = Search {
        pairing: *pairing,
        word,
        marks: vec![in alloc; usize::MAX; texts.len()]?,
        pairs: Vec::new(alloc),
        left: MOST,
    };
    for i in 0..texts.len() {
        if search.left == 0 {
            break;
        }
        search.visit(&trie, i, texts.text(i))?;
    }
    let Search {
        mut pairs,
        left,
        ..
    } = search;
    pairs.sort_unstable();
    pairs.dedup();
    Ok(Pairs {
        all: pairs,
        whole: left > 0,
    })
}

/// The pairs that were found so far.
#[derive(Drop)]
struct Search {
    pairing: Pairing,
    word: bool,
    /// For each pattern the last one that is in a pair with it.
    marks: Vec<usize>,
    pairs: Vec<(usize, usize)>,
    /// How many candidates may still be looked at.
    left: usize,
}

impl Search {
    /// Adds the pairs of a pattern and those that lie in it or begin with its end.
    fn visit(&mut self, trie: &Trie, i: usize, text: &[u8]) -> Result<(), AllocError> {
        let mut v = 0;
        for at in 0..text.len() {
            v = trie.child(v, text[at]).unwrap_or(0);
            let node = trie.node(v);
            if at + 1 < text.len() {
                if self.parts(text[at + 1]) {
                    self.add_inner(trie, i, text, at + 1, v)?;
                }
            } else {
                self.add_inner(trie, i, text, at + 1, node.out())?;
                self.add_following(trie, i, text, trie.fail(v))?;
            }
        }
        Ok(())
    }

    /// Adds the pairs with this node's pattern and those that are its suffixes, which end at this place.
    fn add_inner(
        &mut self,
        trie: &Trie,
        i: usize,
        text: &[u8],
        end: usize,
        v: usize,
    ) -> Result<(), AllocError> {
        let mut u = v;
        for _ in 0..end {
            if u == 0 {
                return Ok(());
            }
            let node = trie.node(u);
            if self.begins_apart(text, end.saturating_sub(node.depth())) {
                self.add_all(trie, i, node.same())?;
            }
            self.left = self.left.saturating_sub(1);
            u = node.out();
        }
        Ok(())
    }

    /// Adds the pairs with the patterns that begin with this node's bytes, or with those of its suffixes.
    fn add_following(
        &mut self,
        trie: &Trie,
        i: usize,
        text: &[u8],
        v: usize,
    ) -> Result<(), AllocError> {
        let mut u = v;
        for _ in 0..text.len() {
            if u == 0 {
                return Ok(());
            }
            let node = trie.node(u);
            if self.begins_apart(text, text.len().saturating_sub(node.depth())) {
                self.add_longer(trie, i, u, &node)?;
            }
            u = trie.fail(u);
        }
        Ok(())
    }

    /// Adds the pairs with the patterns that go on after this node's bytes.
    fn add_longer(
        &mut self,
        trie: &Trie,
        i: usize,
        u: usize,
        node: &Node,
    ) -> Result<(), AllocError> {
        if !self.word {
            return self.add_all(trie, i, node.longer());
        }
        for c in trie.children(u) {
            let child = trie.node(c);
            if self.parts(trie.byte(c)) {
                self.add_all(trie, i, child.all())?;
            }
        }
        Ok(())
    }

    /// Adds the pairs with the patterns at these places.
    fn add_all(&mut self, trie: &Trie, i: usize, places: Range<usize>) -> Result<(), AllocError> {
        for place in places {
            if self.left == 0 {
                return Ok(());
            }
            self.left -= 1;
            if let Some(j) = trie.pattern(place) {
                self.add(i, j)?;
            }
        }
        Ok(())
    }

    /// Adds a pair, unless it has just been added.
    fn add(&mut self, i: usize, j: usize) -> Result<(), AllocError> {
        let Some(mark) = self.marks.get_mut(j) else {
            return Ok(());
        };
        if i != j && *mark != i {
            *mark = i;
            self.pairs.push((i.min(j), i.max(j)))?;
        }
        Ok(())
    }

    /// Whether what begins at this place may be a whole word, by the byte before it.
    fn begins_apart(&self, text: &[u8], at: usize) -> bool {
        match at.checked_sub(1) {
            Some(before) => text.get(before).is_none_or(|byte| self.parts(*byte)),
            None => true,
        }
    }

    /// Whether a byte may stand beside what is found: any byte, or with `--word` one that is no word byte, or the same as one.
    fn parts(&self, byte: u8) -> bool {
        !self.word || !is_word_byte(byte) || !is_word_byte(self.pairing.other(byte))
    }
}

/// Whether a byte is a word byte.
pub fn is_word_byte(byte: u8) -> bool {
    byte.is_ascii_alphanumeric() || byte == b'_' || byte >= 0x80
}
