//! The overlapping matches of an input, one after another.
//!
//! [`FindOverlappingIter`] holds an automaton, an input, and where the search began and stands. It allocates nothing, and looks at the
//! states of one walk over the span, however many matches it returns.
//!
//! Where it uses no prefilter, and 1 KiB or more is left to be searched, it has the automaton read ahead over several parts of the
//! text side by side, and takes the matches from its notes: see [`ahead`](crate::ahead). A look is counted when it is made. So a call
//! may look at up to 8 KiB past the match that it returns, and counts that at once; the calls that come to these bytes count nothing
//! for them. The notes are some 3 KiB within the iterator itself. For the first few matches of a long text alone,
//! [`try_find_overlapping`](crate::automaton::Automaton::try_find_overlapping) does less: it never reads ahead.
ghost use Rattle.std.specs.Prelude.{◌≡◌, IfOk, []};
ghost use Rattle.std.specs.Iterator.{YieldsFirst, item_count};
ghost use Rattle.ac_input.specs.declared.search.Anchored.TheVariants.{No};
ghost use Rattle.ac_input.specs.declared.search.MatchKind.TheVariants.{Standard};
ghost use Rattle.ac_automaton.specs.InMemory.Items.{AreFewForEach, EachLiesWithin};
ghost use Rattle.ac_automaton.specs.InMemory.Overlapping.OverlappingIter.{AnswersListing, CostsShown, CountsRun, IsRunAfter, rest_of};
ghost use Rattle.ac_automaton.specs.InMemory.Overlapping.OverlappingSearch.{HasLeft, IsAheadIf, PaysAhead, ShowsNextAt};

use crate::ahead::Ahead;
use crate::error::MatchError;
use crate::in_memory::find::usable_prefilter;
use crate::in_memory::overlapping::search::begin;
use crate::in_memory::overlapping::{Position, Shown, with_found};
use crate::search::Search;
use ac_input::history::Count;
use ac_input::primitives::StateID;
use ac_input::search::{Anchored, Input, Match};
use ac_input::steps::Steps;
use std::iter::FusedIterator;
use std::marker::Model;

/// The remaining overlapping matches of an input. From [`Automaton::try_find_overlapping_iter`].
///
/// A call may read up to 8 KiB past the match that it returns, and the iterator is some 3 KiB large; see [`iter`](self).
///
/// After its first `None` it always returns `None`, and does nothing.
#[derive(Drop)]
pub struct FindOverlappingIter<'a, 'h, A: Search> {
    automaton: &'a A,
    input: Input<'h>,
    start: StateID,
    place: Position,
    shown: Count,
    sums: Steps,
    /// Whether it reads ahead: it has no prefilter to run.
    reads_ahead: bool,
    ahead: Ahead,
}

impl<'a, 'h, A: Search> Model for FindOverlappingIter<'a, 'h, A> {
    ghost use Rattle.std.specs.Prelude.{◌≡◌, ◌≤◌, []};
    ghost use Rattle.ac_input.specs.declared.search.Anchored.TheVariants.{No};
    ghost use Rattle.ac_input.specs.declared.search.MatchKind.TheVariants.{Standard};
    ghost use Rattle.ac_automaton.specs.Ahead.{bytes_ahead, less_ahead};
    ghost use Rattle.ac_automaton.specs.Automaton.{searched};
    ghost use Rattle.ac_automaton.specs.InMemory.Overlapping.{StandsAt, IsCountedTo, stands_at_least};
    ghost use Rattle.ac_automaton.specs.InMemory.Overlapping.OverlappingIter.{Run};
    ghost use Rattle.ac_automaton.specs.InMemory.Overlapping.OverlappingSearch.{IsAheadIf};

    ghost Value = { Run };

    ghost view = { λ i. (record { built = (A.built i.automaton.now); asked = i.input; shown = i.shown.value; looked = i.sums.looked.value; scanned = i.sums.scanned.value; moved = i.sums.moved.value }) };

    ghost invariant = { λ i.
        ((A.built i.automaton.now).dictionary.kind ≡ Standard)
        × (i.input.anchored ≡ No)
        × A.Reaches i.automaton.now i.input.anchored [] i.start
        × StandsAt (A.Reaches i.automaton.now i.input.anchored) (A.matches i.automaton.now)
        (A.built i.automaton.now).dictionary (A.built i.automaton.now).deterministic
        (searched (A.built i.automaton.now) i.input) i.place i.shown.value (less_ahead i.sums i.ahead)
        × IsCountedTo (A.built i.automaton.now) i.input (stands_at_least (searched (A.built i.automaton.now) i.input) i.place)
        (less_ahead i.sums i.ahead)
        × IsAheadIf i.reads_ahead A.Automaton i.automaton.now i.input i.place i.ahead
        × (bytes_ahead i.ahead ≤ i.sums.looked.value) };
}

/// All occurrences in the input, one after another.
///
/// Returns an error where an overlapping search does, and also if the input is anchored.
pub fn find_overlapping_iter<'a, 'h, A: Search>(
    automaton: &'a A,
    input: Input<'h>,
) -> Result<FindOverlappingIter<'a, 'h, A>, MatchError>
    ensures answer { AnswersListing (A.built automaton.now) (A.supports automaton.now)
        input.entry result }
    ensures few { IfOk result (AreFewForEach (A.built automaton.now) input.entry) }
    ensures lie { IfOk result (EachLiesWithin rest_of (A.built automaton.now) input.entry) }
{
    let beginning = begin(automaton, &input)?;
    match input.get_anchored() {
        Anchored::Yes => Err(MatchError::invalid_input_anchored()),
        Anchored::No => Ok(FindOverlappingIter {
            automaton,
            input,
            start: beginning.start,
            place: beginning.place,
            shown: Count::zero(),
            sums: Steps::new(),
            reads_ahead: usable_prefilter(automaton, Anchored::No, beginning.start).is_none(),
            ahead: Ahead::none(),
        }),
    }
}

/// Shows the next match: by what was read ahead, or by a walk that reads none ahead and runs the prefilter.
fn show_next<A: Search>(
    automaton: &A,
    input: &Input<'_>,
    start: StateID,
    place: Position,
    reads_ahead: bool,
    ahead: &mut Ahead,
    steps: &mut Steps,
) -> Shown
    requires standard { (A.built automaton.now).dictionary.kind ≡ Standard }
    requires free { input.now.anchored ≡ No }
    requires starts { A.Reaches automaton.now input.now.anchored [] start }
    requires left { HasLeft A.Automaton automaton.now input.now place }
    requires ahead { IsAheadIf reads_ahead A.Automaton automaton.now input.now place ahead.old }
    ensures shows { ShowsNextAt A.Automaton automaton.now input.now place result }
    ensures paid { PaysAhead (A.built automaton.now) input.now place result
        ahead.old ahead.new steps.old steps.new }
    ensures ahead { IsAheadIf reads_ahead A.Automaton automaton.now input.now result.place ahead.new }
{
    if reads_ahead {
        return automaton.search_overlapping_ahead(input, place, ahead, steps);
    }
    automaton.search_overlapping(input, start, place, steps)
}

impl<'a, 'h, A: Search> FindOverlappingIter<'a, 'h, A> {
    /// The next match, as `next` returns it; counts what it does.
    pub fn next_counted(&mut self, steps: &mut Steps) -> Option<Match>
        ensures gives { YieldsFirst rest_of self.old result self.new × IsRunAfter self.old result self.new }
        ensures cost { CostsShown self.old self.new steps.old steps.new result }
        ensures counted { CountsRun self.new result }
    {
        let mut done = Steps::new();
        let shown = show_next(
            self.automaton,
            &self.input,
            self.start,
            self.place,
            self.reads_ahead,
            &mut self.ahead,
            &mut done,
        );
        self.place = shown.place;
        self.shown = with_found(&self.shown, &shown.found);
        self.sums.add(&done);
        steps.add(&done);
        shown.found
    }
}

impl<'a, 'h, A: Search> Iterator for FindOverlappingIter<'a, 'h, A> {
    type Item = Match;

    ghost next_gives = { YieldsFirst rest_of };

    ghost remaining = { item_count rest_of };

    fn next(&mut self) -> Option<Match> {
        let mut steps = Steps::new();
        self.next_counted(&mut steps)
    }
}

impl<'a, 'h, A: Search> FusedIterator for FindOverlappingIter<'a, 'h, A> {}
