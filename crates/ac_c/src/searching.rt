//! A search of a text that C passes piece by piece: what is behind its handle, and what each call does.
//!
//! The library's search takes a piece only once all matches of what came before were returned. It holds a match back until no byte
//! that follows can change it, and the bytes that are still undecided. A caller passes on what lies before the cut. A search for whole
//! words is one like it, for those that a kind takes or for all of them. So [`Pushed`] has what each does, and the handle holds one of
//! the three.
ghost use Rattle.std.specs.Prelude.{◌≡◌, IfErr, IfOk, OnOk, drop, false};
ghost use Rattle.ac_automaton.specs.Stream.{IsOnCourse, StreamCounts, fresh_progress, read_by};
ghost use Rattle.ac_automaton.specs.Stream.WholeWords.{asked_for};
ghost use Rattle.ac_automaton.specs.declared.stream.StreamKinds.TheVariants.{AnyKind, OnlyStandard};
ghost use Rattle.aho_corasick.specs.AhoCorasick.{MeansSame, as_built};
ghost use Rattle.ac_c.specs.Begun.{CanBegin, IsBeginError, IsBeginRefused, IsBegunAs};
ghost use Rattle.ac_c.specs.Searching.{AreNext, GivesNext, IsGiven, IsOnItsCourse, IsPushed, TakesPushed, all_words_begun_by, begun_by, seen_by, finished_by, finished_with, held_by, is_finished, view_in, view_of, words_begun_by};
ghost use Rattle.ac_c.specs.Status.{no_memory};

use crate::found::Found;
use crate::pushed::PieceSearch;
use crate::status::{FINISHED, NO_MEMORY, NONE, OK, TOO_MANY_BYTES, refused, refused_stream};
use ac_automaton::stream::{OverlappingWordSearch, StreamKinds, StreamSearch, WordSearch};
use aho_corasick::automaton::Automaton;
use aho_corasick::{AhoCorasick, Anchored, MatchError, MatchKind, Steps};
use std::alloc::Global;

/// A search to which pieces are pushed, and whether it was told that no more come.
#[derive(Drop)]
pub struct Pushed<S> {
    search: S,
    finished: bool,
}

/// A search of pieces.
#[derive(Drop)]
pub enum Searching {
    /// For matches, under any kind.
    ForMatches(Pushed<StreamSearch<AhoCorasick>>),
    /// For whole words, under any kind, one after another.
    ForWords(Pushed<WordSearch<AhoCorasick>>),
    /// For all whole words.
    ForAllWords(Pushed<OverlappingWordSearch<AhoCorasick>>),
}

/// Calls a function of the search that a handle holds.
macro_rules! each {
    ($searching:ident, |$search:ident| $call:expr) => {
        match $searching {
            Searching::ForMatches($search) => $call,
            Searching::ForWords($search) => $call,
            Searching::ForAllWords($search) => $call,
        }
    };
}

/// How many bytes of a piece were taken, or how many matches were given, and the status.
#[repr(C)]
#[derive(Clone, Copy)]
pub struct Count {
    pub count: usize,
    pub status: u32,
}

impl Count {
    /// Nothing was taken or given, and why.
    pub fn none(status: u32) -> Count
        ensures { result ≡ record { count = 0; status = status } }
    {
        Count { count: 0, status }
    }
}

/// How many bytes are held, the place of the first one, the place up to which everything is decided, and the status. Places are
/// counted from the first byte of the first piece.
#[repr(C)]
#[derive(Clone, Copy)]
pub struct View {
    pub len: usize,
    pub from: usize,
    pub cut: usize,
    pub status: u32,
}

impl View {
    /// Nothing is held, and why.
    pub fn none(status: u32) -> View
        ensures { result ≡ record { len = 0; from = 0; cut = 0; status = status } }
    {
        View {
            len: 0,
            from: 0,
            cut: 0,
            status,
        }
    }
}

/// Returns an error if the automaton has no search of pieces for matches: there is no start, or else a pattern is empty.
fn configured(ac: &AhoCorasick) -> Result<(), MatchError>
    ensures can { OnOk result (CanBegin AnyKind ac.now) }
    ensures error { IfErr result (IsBeginError AnyKind ac.now) }
{
    Automaton::start_state(ac, Anchored::No)?;
    if ac.min_pattern_len() == 0 {
        return Err(MatchError::unsupported_empty());
    }
    Ok(())
}

/// Returns an error if the automaton has no search of pieces for all that overlaps: as it can't mask a text, or else since a pattern is
/// empty.
fn configured_standard(ac: &AhoCorasick) -> Result<(), MatchError>
    ensures can { OnOk result (CanBegin OnlyStandard ac.now) }
    ensures error { IfErr result (IsBeginError OnlyStandard ac.now) }
{
    ac.try_mask_counted(&mut [], 0, &mut Steps::new())?;
    if ac.min_pattern_len() == 0 {
        return Err(MatchError::unsupported_empty());
    }
    Ok(())
}

/// Another owner of an automaton that can search pieces, where these kinds are accepted.
pub(crate) fn shared(
    ac: &AhoCorasick,
    kinds: StreamKinds,
    alloc: Global,
) -> Result<AhoCorasick, u32>
    ensures same { IfOk result (MeansSame ac.now) }
    ensures can { OnOk result (CanBegin kinds ac.now) }
    ensures refused { IfErr result (IsBeginRefused kinds ac.now) }
{
    let can = match kinds {
        StreamKinds::AnyKind => configured(ac),
        StreamKinds::OnlyStandard => configured_standard(ac),
    };
    if let Err(error) = can {
        return Err(refused(&error));
    }
    match ac.clone(alloc) {
        Ok(shared) => Ok(shared),
        Err(_) => Err(NO_MEMORY),
    }
}

/// A search of pieces by an automaton, which it shares.
fn search_by(ac: &AhoCorasick, alloc: Global) -> Result<StreamSearch<AhoCorasick>, u32>
    ensures { IsBegunAs AnyKind ac.now (fresh_progress (as_built ac.now)) result }
{
    let shared = shared(ac, StreamKinds::AnyKind, alloc)?;
    match StreamSearch::any_kind(shared, alloc) {
        Ok(search) => Ok(search),
        Err(error) => Err(refused_stream(&error)),
    }
}

/// A search of pieces for whole words.
fn words_by(
    ac: &AhoCorasick,
    kind: MatchKind,
    alloc: Global,
) -> Result<WordSearch<AhoCorasick>, u32>
    ensures { IsBegunAs OnlyStandard ac.now (fresh_progress (asked_for kind (as_built ac.now))) result }
{
    let shared = shared(ac, StreamKinds::OnlyStandard, alloc)?;
    match WordSearch::new(shared, kind, alloc) {
        Ok(search) => Ok(search),
        Err(error) => Err(refused_stream(&error)),
    }
}

/// A search of pieces for all whole words.
fn all_words_by(ac: &AhoCorasick, alloc: Global) -> Result<OverlappingWordSearch<AhoCorasick>, u32>
    ensures { IsBegunAs OnlyStandard ac.now (fresh_progress (as_built ac.now)) result }
{
    let shared = shared(ac, StreamKinds::OnlyStandard, alloc)?;
    match OverlappingWordSearch::new(shared, alloc) {
        Ok(search) => Ok(search),
        Err(error) => Err(refused_stream(&error)),
    }
}

/// Fills a buffer with the items that come next; returns how many these are, and counts what it does.
fn fill<S: PieceSearch>(search: &mut S, out: &mut [Found], steps: &mut Steps) -> usize
    ensures next { AreNext (S.progress search.old) (S.progress search.new) out.old out.new result }
    ensures cost { StreamCounts (S.progress search.old) (S.progress search.new) steps.old steps.new }
{
    for at in 0..out.len() {
        match search.next_item(steps) {
            Some(found) => out[at] = Found::from_match(&found),
            None => return at,
        }
    }
    out.len()
}

impl<S: PieceSearch> Pushed<S> {
    /// A search that was passed nothing yet.
    fn new(search: S) -> Pushed<S>
        ensures { result ≡ record { search = search; finished = false } }
    {
        Pushed {
            search,
            finished: false,
        }
    }

    /// Whether it was told that no more pieces come.
    fn is_finished(&self) -> bool
        ensures { result ≡ is_finished (seen_by S.progress self.now) }
    {
        self.finished || self.search.has_closed()
    }

    /// Takes the first bytes of a piece.
    fn push(&mut self, piece: &[u8]) -> Count
        ensures { IsPushed (seen_by S.progress self.old) piece.now (seen_by S.progress self.new) result }
    {
        self.push_counted(piece, &mut Steps::new())
    }

    /// The same; counts the bytes that it moves.
    fn push_counted(&mut self, piece: &[u8], steps: &mut Steps) -> Count
        ensures pushed { IsPushed (seen_by S.progress self.old) piece.now (seen_by S.progress self.new) result }
        ensures cost { StreamCounts (S.progress self.old.search) (S.progress self.new.search) steps.old steps.new }
    {
        if self.is_finished() {
            return Count::none(FINISHED);
        }
        match self.search.take(piece, steps) {
            Ok(count) => Count { count, status: OK },
            Err(_) => Count::none(TOO_MANY_BYTES),
        }
    }

    /// The next items that are decided, as many as the buffer has room for.
    fn next_items(&mut self, out: &mut [Found]) -> Count
        ensures { IsGiven (seen_by S.progress self.old) (seen_by S.progress self.new) out.old out.new result }
    {
        self.next_items_counted(out, &mut Steps::new())
    }

    /// The same; counts what it does.
    fn next_items_counted(&mut self, out: &mut [Found], steps: &mut Steps) -> Count
        ensures given { IsGiven (seen_by S.progress self.old) (seen_by S.progress self.new) out.old out.new result }
        ensures cost { StreamCounts (S.progress self.old.search) (S.progress self.new.search) steps.old steps.new }
    {
        let room = out.len();
        let count = fill(&mut self.search, out, steps);
        Count {
            count,
            status: if count == 0 && room > 0 { NONE } else { OK },
        }
    }

    /// Where the held bytes stand.
    fn view(&self) -> View
        ensures view { result ≡ view_of (seen_by S.progress self.now) }
        ensures course { IsOnCourse (S.progress self.now.search) }
    {
        View {
            len: self.search.held_bytes().len(),
            from: self.search.first_held(),
            cut: self.search.decided(),
            status: OK,
        }
    }

    /// Tells it that no more pieces come, so that everything is decided.
    fn finish(&mut self)
        ensures { seen_by S.progress self.new ≡ finished_by (seen_by S.progress self.old) }
    {
        self.search.close();
        self.finished = true;
    }
}

impl Searching {
    /// A search that was passed nothing yet, in a box.
    fn boxed(self, alloc: Global) -> Result<Box<Searching, Global>, u32>
        ensures begun { IfOk result (λ s. s.value ≡ self) }
        ensures refused { IfErr result (λ status. status ≡ no_memory) }
    {
        match Box::new(alloc, self) {
            Ok(begun) => Ok(begun),
            Err(_) => Err(NO_MEMORY),
        }
    }

    /// A search for matches that was passed nothing yet, in a box.
    pub fn begin(ac: &AhoCorasick, alloc: Global) -> Result<Box<Searching, Global>, u32>
        ensures begun { IfOk result (λ s. begun_by ac.now ≡ s.value) }
        ensures can { OnOk result (CanBegin AnyKind ac.now) }
        ensures refused { IfErr result (IsBeginRefused AnyKind ac.now) }
    {
        let search = search_by(ac, alloc)?;
        Searching::ForMatches(Pushed::new(search)).boxed(alloc)
    }

    /// A search for whole words, one after another, that was passed nothing yet, in a box.
    pub fn begin_words(
        ac: &AhoCorasick,
        kind: MatchKind,
        alloc: Global,
    ) -> Result<Box<Searching, Global>, u32>
        ensures begun { IfOk result (λ s. words_begun_by ac.now kind ≡ s.value) }
        ensures can { OnOk result (CanBegin OnlyStandard ac.now) }
        ensures refused { IfErr result (IsBeginRefused OnlyStandard ac.now) }
    {
        let search = words_by(ac, kind, alloc)?;
        Searching::ForWords(Pushed::new(search)).boxed(alloc)
    }

    /// A search for all whole words that was passed nothing yet, in a box.
    pub fn begin_all_words(ac: &AhoCorasick, alloc: Global) -> Result<Box<Searching, Global>, u32>
        ensures begun { IfOk result (λ s. all_words_begun_by ac.now ≡ s.value) }
        ensures can { OnOk result (CanBegin OnlyStandard ac.now) }
        ensures refused { IfErr result (IsBeginRefused OnlyStandard ac.now) }
    {
        let search = all_words_by(ac, alloc)?;
        Searching::ForAllWords(Pushed::new(search)).boxed(alloc)
    }

    /// Takes the first bytes of a piece.
    pub fn push(&mut self, piece: &[u8]) -> Count
        ensures { TakesPushed self.old piece.now self.new result }
    {
        each!(self, |search| search.push(piece))
    }

    /// The next items that are decided, as many as the buffer has room for.
    pub fn next_items(&mut self, out: &mut [Found]) -> Count
        ensures { GivesNext self.old self.new out.old out.new result }
    {
        each!(self, |search| search.next_items(out))
    }

    /// The bytes that are held.
    pub fn held(&self) -> &[u8]
        ensures { result.now ≡ held_by self.now }
    {
        each!(self, |search| search.search.held())
    }

    /// Where the held bytes stand.
    pub fn view(&self) -> View
        ensures view { result ≡ view_in self.now }
        ensures course { IsOnItsCourse self.now }
    {
        each!(self, |search| search.view())
    }

    /// Tells it that no more pieces come, so that everything is decided.
    pub fn finish(&mut self)
        ensures { self.new ≡ finished_with self.old }
    {
        each!(self, |search| search.finish())
    }
}
