//! What pieces are pushed to: a search for matches, or one for whole words, one after another or all of them.
use ac_automaton::stream::{OverlappingWordSearch, StreamSearch, WordSearch};
use aho_corasick::{AhoCorasick, Match, Steps, StreamError};

/// A search of pieces for the items of one sequence.
pub trait PieceSearch {
    ghost use Rattle.std.specs.Prelude.{◌≡◌, false, drop};
    ghost use Rattle.ac_automaton.specs.Stream.{FindsHeld, GoesOn, IsOnCourse, IsSearched, Sequence, StreamProgress, closed_by, cut_of, read_by};
    ghost use Rattle.ac_automaton.specs.Stream.Push.{Pushes};

    /// What it returns.
    ghost sequence: { Sequence };

    /// How far it has come.
    ghost progress: { Self → StreamProgress sequence };

    /// Takes the first bytes of a piece; counts the bytes that it moves.
    fn take(&mut self, piece: &[u8], steps: &mut Steps) -> Result<usize, StreamError>
        requires unclosed { (progress self.old).closed ≡ false }
        ensures pushes { Pushes (IsSearched (progress self.old)) (progress self.old) (progress self.new) piece.now result }
        ensures goes { GoesOn (progress self.old) (progress self.new) steps.old steps.new };

    /// The next item that is decided; counts what it does.
    fn next_item(&mut self, steps: &mut Steps) -> Option<Match>
        ensures finds { FindsHeld (progress self.old) result (progress self.new) }
        ensures goes { GoesOn (progress self.old) (progress self.new) steps.old steps.new };

    /// The bytes that are held.
    fn held_bytes(&self) -> &[u8]
        ensures { result.now ≡ drop (progress self.now).from (read_by (progress self.now)) };

    /// The place of the first of them.
    fn first_held(&self) -> usize
        ensures { result ≡ (progress self.now).from };

    /// The place up to which everything is decided.
    fn decided(&self) -> usize
        ensures cut { result ≡ cut_of (progress self.now) }
        ensures kept { IsOnCourse (progress self.now) };

    /// Whether it was told that no more pieces come, and something may have waited.
    fn has_closed(&self) -> bool
        ensures { result ≡ (progress self.now).closed };

    /// Tells it that no more pieces come.
    fn close(&mut self)
        ensures { progress self.new ≡ closed_by (progress self.old) };
}

impl PieceSearch for StreamSearch<AhoCorasick> {
    ghost use Rattle.ac_automaton.specs.Stream.{Picks};

    ghost sequence = { Picks };

    ghost progress = { λ s. s };

    fn take(&mut self, piece: &[u8], steps: &mut Steps) -> Result<usize, StreamError> {
        self.push_counted(piece, steps)
    }

    fn next_item(&mut self, steps: &mut Steps) -> Option<Match> {
        self.next_counted(steps)
    }

    fn held_bytes(&self) -> &[u8] {
        self.held()
    }

    fn first_held(&self) -> usize {
        self.from()
    }

    fn decided(&self) -> usize {
        self.cut()
    }

    fn has_closed(&self) -> bool {
        self.is_closed()
    }

    fn close(&mut self) {
        self.finish();
    }
}

impl PieceSearch for WordSearch<AhoCorasick> {
    ghost use Rattle.ac_automaton.specs.Stream.{Words};

    ghost sequence = { Words };

    ghost progress = { λ s. s };

    fn take(&mut self, piece: &[u8], steps: &mut Steps) -> Result<usize, StreamError> {
        self.push_counted(piece, steps)
    }

    fn next_item(&mut self, steps: &mut Steps) -> Option<Match> {
        self.next_counted(steps)
    }

    fn held_bytes(&self) -> &[u8] {
        self.held()
    }

    fn first_held(&self) -> usize {
        self.from()
    }

    fn decided(&self) -> usize {
        self.cut()
    }

    fn has_closed(&self) -> bool {
        self.is_closed()
    }

    fn close(&mut self) {
        self.finish();
    }
}

impl PieceSearch for OverlappingWordSearch<AhoCorasick> {
    ghost use Rattle.ac_automaton.specs.Stream.{AllWords};

    ghost sequence = { AllWords };

    ghost progress = { λ s. s };

    fn take(&mut self, piece: &[u8], steps: &mut Steps) -> Result<usize, StreamError> {
        self.push_counted(piece, steps)
    }

    fn next_item(&mut self, steps: &mut Steps) -> Option<Match> {
        self.next_counted(steps)
    }

    fn held_bytes(&self) -> &[u8] {
        self.held()
    }

    fn first_held(&self) -> usize {
        self.from()
    }

    fn decided(&self) -> usize {
        self.cut()
    }

    fn has_closed(&self) -> bool {
        self.is_closed()
    }

    fn close(&mut self) {
        self.finish();
    }
}
