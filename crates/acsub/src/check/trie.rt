//! All beginnings of patterns.
//!
//! Each beginning is a node, and the nodes are numbered by their depth, as those of an automaton are, with the failure links of one.
//! The patterns are sorted, so those that begin with a node's bytes are a range of them. A node takes 29 bytes, and the work is in
//! proportion to the patterns' bytes. What a step from node to node reads lies apart from the rest, so that it stays in the caches.
use crate::rules::Rules;
use ac_input::pairing::Pairing;
use std::alloc::{AllocError, Global};
use std::ops::Range;

/// The patterns, one after another. Bytes that are the same are spelled by the lesser one.
#[derive(Drop)]
pub struct Texts {
    bytes: Vec<u8>,
    /// Where each pattern ends.
    ends: Vec<usize>,
}

impl Texts {
    /// The patterns of rules.
    pub fn new(alloc: Global, rules: &Rules, pairing: &Pairing) -> Result<Texts, AllocError> {
        let mut texts = Texts {
            bytes: Vec::new(alloc),
            ends: Vec::with_capacity(alloc, rules.len())?,
        };
        for i in 0..rules.len() {
            texts.push(rules.pattern(i), pairing)?;
        }
        Ok(texts)
    }

    /// Adds a pattern.
    fn push(&mut self, pattern: &[u8], pairing: &Pairing) -> Result<(), AllocError> {
        for byte in pattern {
            self.bytes.push(pairing.other(*byte).min(*byte))?;
        }
        self.ends.push(self.bytes.len())?;
        Ok(())
    }

    /// How many patterns there are.
    pub fn len(&self) -> usize {
        self.ends.len()
    }

    /// The bytes of a pattern.
    pub fn text(&self, i: usize) -> &[u8] {
        let start = if i == 0 { 0 } else { self.end(i - 1) };
        self.bytes.get(start..self.end(i)).unwrap_or(&[])
    }

    /// Where a pattern ends.
    fn end(&self, i: usize) -> usize {
        self.ends.get(i).copied().unwrap_or(0)
    }
}

/// The patterns that have a beginning.
#[derive(Clone, Copy)]
pub struct Node {
    /// How many bytes it has.
    depth: u32,
    /// The patterns, in their order: those that are this beginning, and from `inner` on those that are longer.
    from: u32,
    inner: u32,
    to: u32,
    /// The longest proper suffix that is a pattern. The root is where there is none.
    out: u32,
}

impl Node {
    /// How many bytes it has.
    pub fn depth(&self) -> usize {
        self.depth as usize
    }

    /// The places of the patterns that are this beginning.
    pub fn same(&self) -> Range<usize> {
        self.from as usize..self.inner as usize
    }

    /// The places of the patterns that are longer.
    pub fn longer(&self) -> Range<usize> {
        self.inner as usize..self.to as usize
    }

    /// The places of all patterns that have this beginning.
    pub fn all(&self) -> Range<usize> {
        self.from as usize..self.to as usize
    }

    /// The longest proper suffix that is a pattern.
    pub fn out(&self) -> usize {
        self.out as usize
    }
}

/// A number as a node has it. An automaton has been built of the patterns, so there are fewer than 2^31 nodes.
fn small(n: usize) -> u32 {
    u32::try_from(n).unwrap_or(u32::MAX)
}

/// The beginning of all patterns, which has no byte.
const ROOT: Node = Node {
    depth: 0,
    from: 0,
    inner: 0,
    to: 0,
    out: 0,
};

/// A pattern by its first bytes, which decide most comparisons, by all its bytes, and by its number.
type Sorted<'t> = (u64, &'t [u8], usize);

/// All beginnings. The root is number 0.
#[derive(Drop)]
pub struct Trie {
    nodes: Vec<Node>,
    /// The last byte of each node; 0 for the root.
    bytes: Vec<u8>,
    /// The first child of each node. The children follow one another, ordered by their bytes, up to the first child of the next node.
    children: Vec<u32>,
    /// The longest proper suffix of each node that is a node. It is the root's number where there is none.
    fails: Vec<u32>,
    /// The numbers of the patterns, by their bytes.
    order: Vec<usize>,
}

impl Trie {
    /// The beginnings of these patterns.
    pub fn new(alloc: Global, texts: &Texts) -> Result<Trie, AllocError> {
        let sorted = sorted(alloc, texts)?;
        let most = texts.bytes.len().saturating_add(1);
        let mut trie = Trie {
            nodes: Vec::with_capacity(alloc, most)?,
            bytes: Vec::with_capacity(alloc, most)?,
            children: Vec::with_capacity(alloc, most)?,
            fails: Vec::with_capacity(alloc, most)?,
            order: Vec::with_capacity(alloc, sorted.len())?,
        };
        trie.keep_order(sorted.as_slice())?;
        trie.add_nodes(sorted.as_slice(), most)?;
        for v in 1..trie.nodes.len() {
            trie.link_children(v);
        }
        Ok(trie)
    }

    fn keep_order(&mut self, sorted: &[Sorted<'_>]) -> Result<(), AllocError> {
        for (_, _, i) in sorted {
            self.order.push(*i)?;
        }
        Ok(())
    }

    /// Adds the nodes of patterns, of which there are no more than so many.
    fn add_nodes(&mut self, sorted: &[Sorted<'_>], most: usize) -> Result<(), AllocError> {
        let to = small(sorted.len());
        self.add_node(Node { to, ..ROOT }, 0)?;
        for v in 0..most {
            if v >= self.nodes.len() {
                return Ok(());
            }
            self.add_children(v, sorted)?;
        }
        Ok(())
    }

    /// Adds a node and its last byte.
    fn add_node(&mut self, node: Node, byte: u8) -> Result<(), AllocError> {
        self.nodes.push(node)?;
        self.bytes.push(byte)?;
        self.fails.push(0)?;
        Ok(())
    }

    /// Adds the children of a node: one for each byte that follows its bytes in a pattern.
    fn add_children(&mut self, v: usize, sorted: &[Sorted<'_>]) -> Result<(), AllocError> {
        let node = self.node(v);
        let first = self.nodes.len();
        let mut inner = node.to;
        let mut last = None;
        for place in node.all() {
            let next = next_byte(sorted, place, node.depth());
            if next.is_some() && next != last {
                if last.is_none() {
                    inner = small(place);
                }
                self.add_child(first, &node, next.unwrap_or(0), small(place))?;
                last = next;
            }
        }
        if let Some(node) = self.nodes.get_mut(v) {
            node.inner = inner;
        }
        self.children.push(small(first))?;
        Ok(())
    }

    /// Adds a child, whose patterns begin at this place, where those of the child before it end.
    fn add_child(
        &mut self,
        first: usize,
        node: &Node,
        byte: u8,
        from: u32,
    ) -> Result<(), AllocError> {
        if self.nodes.len() > first {
            if let Some(before) = self.nodes.last_mut() {
                before.to = from;
            }
        }
        let child = Node {
            depth: node.depth.saturating_add(1),
            from,
            inner: from,
            to: node.to,
            ..ROOT
        };
        self.add_node(child, byte)
    }

    /// Sets the links of a node's children. Those of the node are set.
    fn link_children(&mut self, v: usize) {
        let fail = self.fail(v);
        for c in self.children(v) {
            let byte = self.byte(c);
            let fail = self.longest_suffix(fail, byte);
            let suffix = self.node(fail);
            let out = if suffix.same().is_empty() {
                suffix.out
            } else {
                small(fail)
            };
            if let Some(child) = self.nodes.get_mut(c) {
                child.out = out;
            }
            if let Some(link) = self.fails.get_mut(c) {
                *link = small(fail);
            }
        }
    }

    /// The longest node that is a suffix of this one's bytes and the byte.
    fn longest_suffix(&self, from: usize, byte: u8) -> usize {
        let mut u = from;
        for _ in 0..self.nodes.len() {
            if let Some(child) = self.child(u, byte) {
                return child;
            }
            if u == 0 {
                return 0;
            }
            u = self.fail(u);
        }
        0
    }

    /// A node; the root of no patterns where there is none of this number.
    pub fn node(&self, v: usize) -> Node {
        self.nodes.get(v).copied().unwrap_or(ROOT)
    }

    /// The last byte of a node.
    pub fn byte(&self, v: usize) -> u8 {
        self.bytes.get(v).copied().unwrap_or(0)
    }

    /// The longest proper suffix that is a node.
    pub fn fail(&self, v: usize) -> usize {
        self.fails.get(v).copied().unwrap_or(0) as usize
    }

    /// The first child of a node; all nodes come before it where there is no node of this number.
    fn first_child(&self, v: usize) -> usize {
        match self.children.get(v) {
            Some(first) => *first as usize,
            None => self.nodes.len(),
        }
    }

    /// The children of a node.
    pub fn children(&self, v: usize) -> Range<usize> {
        self.first_child(v)..self.first_child(v.saturating_add(1))
    }

    /// The child for a byte.
    pub fn child(&self, v: usize, byte: u8) -> Option<usize> {
        let range = self.children(v);
        let from = range.start;
        let found = self.bytes.get(range)?.binary_search(&byte).ok()?;
        Some(from.saturating_add(found))
    }

    /// The number of the pattern at a place of the order.
    pub fn pattern(&self, place: usize) -> Option<usize> {
        self.order.get(place).copied()
    }
}

/// The patterns by their bytes, each with its number.
fn sorted<'t>(alloc: Global, texts: &'t Texts) -> Result<Vec<Sorted<'t>>, AllocError> {
    let mut sorted = Vec::with_capacity(alloc, texts.len())?;
    for i in 0..texts.len() {
        let text = texts.text(i);
        sorted.push((first_bytes(text), text, i))?;
    }
    sorted.sort_unstable();
    Ok(sorted)
}

/// The first eight bytes as a number; zeros stand for those that a text lacks. Of two texts the one with the lesser number comes first.
fn first_bytes(text: &[u8]) -> u64 {
    let mut bytes = [0u8; 8];
    for (to, from) in bytes.iter_mut().zip(text) {
        *to = *from;
    }
    u64::from_be_bytes(bytes)
}

/// The byte at this depth of the pattern at a place; none where the pattern ends there.
fn next_byte(sorted: &[Sorted<'_>], place: usize, depth: usize) -> Option<u8> {
    let (_, text, _) = sorted.get(place)?;
    text.get(depth).copied()
}
