//! The library for C: the functions that `bindings/c/dadofennel.h` declares as `dado_raw_`.
//!
//! C holds an automaton by a pointer. Building, sharing and freeing take the variable that holds it, a [`handle::Handle`]. Each search
//! takes the pointer itself, which lends the automaton for the time of the call, and only reads it. So any number of threads may
//! search with one automaton at the same time.
//!
//! Each function here does one thing: it makes a reference of the pointer, and calls a function of a module that takes a reference.
//! Its contract is that function's, of the automaton that is lent.
#![tactic(auto)]

ghost use types.Logic.{sem};
ghost use Rattle.std.specs.Prelude.{◌≡◌, IfSome, None};
ghost use Rattle.ac_literal.specs.Packed.{bytes_of};
ghost use Rattle.ac_c.specs.Build.{AnswersBuild, AreDefaults, IsShared};
ghost use Rattle.ac_c.specs.Find.{AnswersFindIn, bounds, is_set};
ghost use Rattle.ac_c.specs.Lent.{Lent, is_lent, lasting};
ghost use Rattle.ac_c.specs.List.{AnswersListed, place};
ghost use Rattle.ac_c.specs.Found.{found};
ghost use Rattle.ac_c.specs.Masker.{AnswersMaskEnd, AnswersMaskPush, AnswersMasking, AnswersWordMasking, ready_by};
ghost use Rattle.ac_c.specs.Masking.{AnswersMasked, AnswersMaskedWords};
ghost use Rattle.ac_c.specs.Replace.{AnswersInto, AnswersText};
ghost use Rattle.ac_c.specs.Replacer.{AnswersPushOn, AnswersReplacing, AnswersSlice, end_by, end_status};
ghost use Rattle.ac_c.specs.Searching.{IsOnItsCourse};
ghost use Rattle.ac_c.specs.Stream.{AnswersAllWordStream, AnswersNext, AnswersPush, AnswersStream, AnswersWordStream, finish_by, finish_status, view_by};
ghost use Rattle.ac_c.specs.Text.{held_len};
ghost use Rattle.ac_c.specs.Tell.{AnswersLength, TellsAbout};
ghost use Rattle.ac_c.specs.Walk.{AnswersSome, AnswersStep, cursor};
ghost use Rattle.ac_c.specs.Words.{AnswersSomeWords, AnswersWordText};

/// Puts what is begun into a handle, and gives the status. The handle is unchanged if nothing is.
macro_rules! hold {
    ($begun:expr, $handle:ident: $kind:ident) => {
        match $begun {
            Ok(begun) => {
                *$handle = $kind::from_box(begun);
                OK
            }
            Err(status) => status,
        }
    };
}

pub mod build;
pub mod find;
pub mod found;
pub mod handle;
pub mod list;
pub mod masker;
pub mod masking;
pub mod pushed;
pub mod replace;
pub mod replacer;
pub mod replacing;
pub mod searching;
mod slot;
mod status;
pub mod stream;
pub mod tell;
pub mod text;
mod threads;
pub mod walk;
mod walking;
pub mod words;

use aho_corasick::AhoCorasick;
use build::{Fault, Pair, Settings};
use find::Answer;
use found::Found;
use handle::{Handle, Opaque};
use list::Listed;
use masker::Masker;
use replace::Length;
use replacer::Replacer;
use searching::{Count, View};
use status::{NO_MASKER, NO_REPLACER, NO_STREAM, OK};
use std::alloc::Global;
use std::mem::replace;
use std::ptr::NonNull;
use stream::Stream;
use tell::About;
use text::Text;
use walk::{Batch, Step};
use words::Words;

/// Calls a function with what a handle holds, which it holds again after that. Gives `none` where it holds nothing.
macro_rules! with {
    ($handle:ident: $kind:ident in $alloc:ident, $none:expr, |$held:ident| $call:expr) => {
        match replace($handle, $kind::none($alloc)).into_box() {
            None => $none,
            Some(mut $held) => {
                let result = $call;
                *$handle = $kind::from_box($held);
                result
            }
        }
    };
}

/// The settings at first.
#[unsafe(no_mangle)]
pub extern "C" fn dado_raw_settings_default() -> Settings
    ensures { AreDefaults result }
{
    Settings::first()
}

/// Builds an automaton. What the handle held before is freed once it is made.
#[unsafe(no_mangle)]
pub extern "C" fn dado_raw_build(
    alloc: Global,
    patterns: &[&[u8]],
    settings: &Settings,
    pairs: &[Pair],
    handle: &mut Handle,
    fault: &mut Fault,
) -> u32
    ensures { AnswersBuild (bytes_of patterns.now) settings.now pairs.now handle.old.value
        handle.new.value fault.new result }
{
    match build::boxed_by(alloc, patterns, settings, pairs) {
        Ok(ac) => {
            *handle = Handle::from_box(ac);
            *fault = Fault::nothing();
            OK
        }
        Err(refusal) => {
            *fault = refusal.fault;
            refusal.status
        }
    }
}

/// Frees the automaton, if there is one.
#[unsafe(no_mangle)]
pub extern "C" fn dado_raw_free(alloc: Global, handle: &mut Handle)
    ensures { handle.new.value ≡ None }
{
    *handle = Handle::none(alloc);
}

/// Where the text lies, and how long it is. It lies there until it is freed.
#[unsafe(no_mangle)]
pub extern "C" fn dado_raw_text_view(
    alloc: Global,
    text: &mut Text,
    at: &mut *const u8,
    len: &mut usize,
)
    ensures kept { text.new.value ≡ text.old.value }
    ensures len { len.new ≡ held_len text.old.value }
{
    *len = with!(text: Text in alloc, 0, |made| {
        if let Some(first) = made.bytes.as_slice().first() {
            *at = NonNull::from_ref(first).as_ptr();
        }
        made.bytes.len()
    });
}

/// Frees the text, if there is one.
#[unsafe(no_mangle)]
pub extern "C" fn dado_raw_text_free(alloc: Global, text: &mut Text)
    ensures { text.new.value ≡ None }
{
    *text = Text::none(alloc);
}

/// Takes the first bytes of a piece, after all that was passed before.
#[unsafe(no_mangle)]
pub extern "C" fn dado_raw_stream_push(alloc: Global, stream: &mut Stream, piece: &[u8]) -> Count
    ensures { AnswersPush piece.now stream.old.value stream.new.value result }
{
    with!(stream: Stream in alloc, Count::none(NO_STREAM), |search| search.push(piece))
}

/// The next items that are decided, matches or words, as many as the buffer has room for.
#[unsafe(no_mangle)]
pub extern "C" fn dado_raw_stream_some(
    alloc: Global,
    stream: &mut Stream,
    out: &mut [Found],
) -> Count
    ensures { AnswersNext stream.old.value stream.new.value out.old out.new result }
{
    with!(stream: Stream in alloc, Count::none(NO_STREAM), |search| search.next_items(out))
}

/// Where the held bytes lie, and where they stand in all that was passed. They lie there until the next push.
#[unsafe(no_mangle)]
pub extern "C" fn dado_raw_stream_view(
    alloc: Global,
    stream: &mut Stream,
    at: &mut *const u8,
) -> View
    ensures kept { stream.new.value ≡ stream.old.value }
    ensures view { result ≡ view_by stream.old.value }
    ensures course { IfSome stream.old.value IsOnItsCourse }
{
    with!(stream: Stream in alloc, View::none(NO_STREAM), |search| {
        if let Some(first) = search.held().first() {
            *at = NonNull::from_ref(first).as_ptr();
        }
        search.view()
    })
}

/// Tells the search that no more pieces come.
#[unsafe(no_mangle)]
pub extern "C" fn dado_raw_stream_finish(alloc: Global, stream: &mut Stream) -> u32
    ensures new { stream.new.value ≡ finish_by stream.old.value }
    ensures status { result ≡ finish_status stream.old.value }
{
    with!(stream: Stream in alloc, NO_STREAM, |search| {
        search.finish();
        OK
    })
}

/// Frees the search, if there is one.
#[unsafe(no_mangle)]
pub extern "C" fn dado_raw_stream_free(alloc: Global, stream: &mut Stream)
    ensures { stream.new.value ≡ None }
{
    *stream = Stream::none(alloc);
}

/// Takes the first bytes of a piece, after all that was passed before.
#[unsafe(no_mangle)]
pub extern "C" fn dado_raw_replacer_push(
    alloc: Global,
    replacer: &mut Replacer,
    piece: &[u8],
) -> Count
    ensures { AnswersPushOn piece.now replacer.old.value replacer.new.value result }
{
    with!(replacer: Replacer in alloc, Count::none(NO_REPLACER), |begun| begun.push(piece))
}

/// The next slice of the replaced text: its length, and its place, unless it is empty. It lies there until the next push.
#[unsafe(no_mangle)]
pub extern "C" fn dado_raw_replacer_next(
    alloc: Global,
    replacer: &mut Replacer,
    replacements: &[&[u8]],
    at: &mut *const u8,
) -> Length
    ensures { AnswersSlice replacements.now replacer.old.value replacer.new.value result }
{
    with!(replacer: Replacer in alloc, Length::none(NO_REPLACER), |begun| {
        begun.next(replacements, at)
    })
}

/// Tells the replacement that no more pieces come.
#[unsafe(no_mangle)]
pub extern "C" fn dado_raw_replacer_finish(alloc: Global, replacer: &mut Replacer) -> u32
    ensures new { replacer.new.value ≡ end_by replacer.old.value }
    ensures status { result ≡ end_status replacer.old.value }
{
    with!(replacer: Replacer in alloc, NO_REPLACER, |begun| {
        begun.finish();
        OK
    })
}

/// Frees the replacement, if there is one.
#[unsafe(no_mangle)]
pub extern "C" fn dado_raw_replacer_free(alloc: Global, replacer: &mut Replacer)
    ensures { replacer.new.value ≡ None }
{
    *replacer = Replacer::none(alloc);
}

/// Takes the first bytes of a piece, after all that was passed before, and masks them.
#[unsafe(no_mangle)]
pub extern "C" fn dado_raw_masker_push(alloc: Global, masker: &mut Masker, piece: &[u8]) -> Count
    ensures { AnswersMaskPush piece.now masker.old.value masker.new.value result }
{
    with!(masker: Masker in alloc, Count::none(NO_MASKER), |begun| begun.push(piece))
}

/// The masked bytes that are ready: how many there are, and their place, if there are any. They lie there until the next push.
#[unsafe(no_mangle)]
pub extern "C" fn dado_raw_masker_ready(
    alloc: Global,
    masker: &mut Masker,
    at: &mut *const u8,
) -> Length
    ensures kept { masker.new.value ≡ masker.old.value }
    ensures ready { result ≡ ready_by masker.old.value }
{
    with!(masker: Masker in alloc, Length::none(NO_MASKER), |begun| begun.ready(at))
}

/// Tells the masking that no more pieces come.
#[unsafe(no_mangle)]
pub extern "C" fn dado_raw_masker_finish(alloc: Global, masker: &mut Masker) -> u32
    ensures { AnswersMaskEnd masker.old.value masker.new.value result }
{
    with!(masker: Masker in alloc, NO_MASKER, |begun| {
        begun.finish();
        OK
    })
}

/// Frees the masking, if there is one.
#[unsafe(no_mangle)]
pub extern "C" fn dado_raw_masker_free(alloc: Global, masker: &mut Masker)
    ensures { masker.new.value ≡ None }
{
    *masker = Masker::none(alloc);
}

/// A second owner of an automaton that is lent.
#[unsafe(no_mangle)]
pub unsafe extern "C" fn dado_raw_share(at: *const Opaque, alloc: Global, other: &mut Handle) -> u32
    ghost g: { Lent }
    requires* lent { sem 𝓛 (is_lent at g) }
    ensures* lasts { sem 𝓛 (lasting g) }
    ensures answer { IsShared g.automaton other.old.value other.new.value result }
{
    let ac = at as *const AhoCorasick;
    build::share(&*ac, alloc, other)
}

/// A search of pieces by an automaton that is lent, which it owns too. What the handle held before is freed once it is made.
#[unsafe(no_mangle)]
pub unsafe extern "C" fn dado_raw_stream_new(
    at: *const Opaque,
    alloc: Global,
    stream: &mut Stream,
) -> u32
    ghost g: { Lent }
    requires* lent { sem 𝓛 (is_lent at g) }
    ensures* lasts { sem 𝓛 (lasting g) }
    ensures answer { AnswersStream g.automaton stream.old.value stream.new.value result }
{
    let ac = at as *const AhoCorasick;
    stream::begin(&*ac, alloc, stream)
}

/// A search of pieces for whole words under a kind, one after another, which owns the automaton too.
#[unsafe(no_mangle)]
pub unsafe extern "C" fn dado_raw_word_stream_new(
    at: *const Opaque,
    kind: u32,
    alloc: Global,
    stream: &mut Stream,
) -> u32
    ghost g: { Lent }
    requires* lent { sem 𝓛 (is_lent at g) }
    ensures* lasts { sem 𝓛 (lasting g) }
    ensures answer { AnswersWordStream g.automaton kind stream.old.value stream.new.value result }
{
    let ac = at as *const AhoCorasick;
    stream::begin_words(&*ac, kind, alloc, stream)
}

/// A search of pieces for all whole words, which owns the automaton too.
#[unsafe(no_mangle)]
pub unsafe extern "C" fn dado_raw_all_words_stream_new(
    at: *const Opaque,
    alloc: Global,
    stream: &mut Stream,
) -> u32
    ghost g: { Lent }
    requires* lent { sem 𝓛 (is_lent at g) }
    ensures* lasts { sem 𝓛 (lasting g) }
    ensures answer { AnswersAllWordStream g.automaton stream.old.value stream.new.value result }
{
    let ac = at as *const AhoCorasick;
    stream::begin_all_words(&*ac, alloc, stream)
}

/// A replacement of pieces by an automaton that is lent, which it owns too. What the handle held before is freed once it is made.
#[unsafe(no_mangle)]
pub unsafe extern "C" fn dado_raw_replacer_new(
    at: *const Opaque,
    alloc: Global,
    replacer: &mut Replacer,
) -> u32
    ghost g: { Lent }
    requires* lent { sem 𝓛 (is_lent at g) }
    ensures* lasts { sem 𝓛 (lasting g) }
    ensures answer { AnswersReplacing g.automaton replacer.old.value replacer.new.value result }
{
    let ac = at as *const AhoCorasick;
    replacer::begin(&*ac, alloc, replacer)
}

/// A masking of pieces by an automaton that is lent, which it owns too. What the handle held before is freed once it is made.
#[unsafe(no_mangle)]
pub unsafe extern "C" fn dado_raw_masker_new(
    at: *const Opaque,
    byte: u8,
    alloc: Global,
    masker: &mut Masker,
) -> u32
    ghost g: { Lent }
    requires* lent { sem 𝓛 (is_lent at g) }
    ensures* lasts { sem 𝓛 (lasting g) }
    ensures answer { AnswersMasking g.automaton byte masker.old.value masker.new.value result }
{
    let ac = at as *const AhoCorasick;
    masker::begin(&*ac, byte, alloc, masker)
}

/// A masking of the whole words of pieces, which owns the automaton too.
#[unsafe(no_mangle)]
pub unsafe extern "C" fn dado_raw_word_masker_new(
    at: *const Opaque,
    byte: u8,
    alloc: Global,
    masker: &mut Masker,
) -> u32
    ghost g: { Lent }
    requires* lent { sem 𝓛 (is_lent at g) }
    ensures* lasts { sem 𝓛 (lasting g) }
    ensures answer { AnswersWordMasking g.automaton byte masker.old.value masker.new.value result }
{
    let ac = at as *const AhoCorasick;
    masker::begin_words(&*ac, byte, alloc, masker)
}

/// Masks a text where it lies.
#[unsafe(no_mangle)]
pub unsafe extern "C" fn dado_raw_mask(at: *const Opaque, text: &mut [u8], byte: u8) -> u32
    ghost g: { Lent }
    requires* lent { sem 𝓛 (is_lent at g) }
    ensures* lasts { sem 𝓛 (lasting g) }
    ensures answer { AnswersMasked g.automaton byte text.old text.new result }
{
    let ac = at as *const AhoCorasick;
    masking::mask(&*ac, text, byte)
}

/// Masks the whole words of a text where it lies.
#[unsafe(no_mangle)]
pub unsafe extern "C" fn dado_raw_mask_words(
    at: *const Opaque,
    alloc: Global,
    text: &mut [u8],
    byte: u8,
) -> u32
    ghost g: { Lent }
    requires* lent { sem 𝓛 (is_lent at g) }
    ensures* lasts { sem 𝓛 (lasting g) }
    ensures answer { AnswersMaskedWords g.automaton byte text.old text.new result }
{
    let ac = at as *const AhoCorasick;
    masking::mask_words(&*ac, alloc, text, byte)
}

/// The match of a span, if it has one.
#[unsafe(no_mangle)]
pub unsafe extern "C" fn dado_raw_find(
    at: *const Opaque,
    haystack: &[u8],
    start: usize,
    end: usize,
    anchored: u32,
    earliest: u32,
) -> Answer
    ghost g: { Lent }
    requires* lent { sem 𝓛 (is_lent at g) }
    ensures* lasts { sem 𝓛 (lasting g) }
    ensures answer { AnswersFindIn g.automaton haystack.now (bounds start end anchored earliest) result }
{
    let ac = at as *const AhoCorasick;
    find::find(&*ac, haystack, start, end, anchored, earliest)
}

/// The next match of a walk.
#[unsafe(no_mangle)]
pub unsafe extern "C" fn dado_raw_next(
    at: *const Opaque,
    haystack: &[u8],
    start: usize,
    end: usize,
    last: usize,
    anchored: u32,
    earliest: u32,
) -> Step
    ghost g: { Lent }
    requires* lent { sem 𝓛 (is_lent at g) }
    ensures* lasts { sem 𝓛 (lasting g) }
    ensures answer { AnswersStep g.automaton haystack.now
        (cursor start end last anchored earliest) result }
{
    let ac = at as *const AhoCorasick;
    walk::next(&*ac, haystack, start, end, last, anchored, earliest)
}

/// The next matches of a walk.
#[unsafe(no_mangle)]
pub unsafe extern "C" fn dado_raw_walk(
    at: *const Opaque,
    haystack: &[u8],
    start: usize,
    end: usize,
    last: usize,
    anchored: u32,
    earliest: u32,
    out: &mut [Found],
) -> Batch
    ghost g: { Lent }
    requires* lent { sem 𝓛 (is_lent at g) }
    ensures* lasts { sem 𝓛 (lasting g) }
    ensures answer { AnswersSome g.automaton haystack.now
        (cursor start end last anchored earliest) out.old out.new result }
{
    let ac = at as *const AhoCorasick;
    walk::next_matches(&*ac, haystack, start, end, last, anchored, earliest, out)
}

/// The next whole words of a text under a kind.
#[unsafe(no_mangle)]
pub unsafe extern "C" fn dado_raw_words(
    at: *const Opaque,
    kind: u32,
    haystack: &[u8],
    from: usize,
    out: &mut [Found],
) -> Words
    ghost g: { Lent }
    requires* lent { sem 𝓛 (is_lent at g) }
    ensures* lasts { sem 𝓛 (lasting g) }
    ensures answer { AnswersSomeWords g.automaton kind haystack.now from out.old out.new result }
{
    let ac = at as *const AhoCorasick;
    words::next_words(&*ac, kind, haystack, from, out)
}

/// The next occurrences of a listing, or its next whole words if `words` isn't 0.
#[unsafe(no_mangle)]
pub unsafe extern "C" fn dado_raw_list(
    at: *const Opaque,
    haystack: &[u8],
    start: usize,
    end: usize,
    last_start: usize,
    last_end: usize,
    last_pattern: u32,
    begun: u32,
    words: u32,
    out: &mut [Found],
) -> Listed
    ghost g: { Lent }
    requires* lent { sem 𝓛 (is_lent at g) }
    ensures* lasts { sem 𝓛 (lasting g) }
    ensures answer { AnswersListed (is_set words) g.automaton haystack.now
        (place start end (found last_start last_end last_pattern) begun) out.old out.new result }
{
    let ac = at as *const AhoCorasick;
    list::list(
        &*ac,
        haystack,
        start,
        end,
        last_start,
        last_end,
        last_pattern,
        begun,
        words,
        out,
    )
}

/// The haystack with each match replaced, into a buffer.
#[unsafe(no_mangle)]
pub unsafe extern "C" fn dado_raw_replace_into(
    at: *const Opaque,
    haystack: &[u8],
    replacements: &[&[u8]],
    out: &mut [u8],
) -> Length
    ghost g: { Lent }
    requires* lent { sem 𝓛 (is_lent at g) }
    ensures* lasts { sem 𝓛 (lasting g) }
    ensures answer { AnswersInto g.automaton haystack.now replacements.now out.old out.new result }
{
    let ac = at as *const AhoCorasick;
    replace::into(&*ac, haystack, replacements, out)
}

/// The same text, in memory of the library's.
#[unsafe(no_mangle)]
pub unsafe extern "C" fn dado_raw_replace(
    at: *const Opaque,
    alloc: Global,
    haystack: &[u8],
    replacements: &[&[u8]],
    text: &mut Text,
) -> u32
    ghost g: { Lent }
    requires* lent { sem 𝓛 (is_lent at g) }
    ensures* lasts { sem 𝓛 (lasting g) }
    ensures answer { AnswersText g.automaton haystack.now replacements.now text.old.value
        text.new.value result }
{
    let ac = at as *const AhoCorasick;
    replace::made(&*ac, alloc, haystack, replacements, text)
}

/// The text with each of its whole words under a kind replaced, in memory of the library's.
#[unsafe(no_mangle)]
pub unsafe extern "C" fn dado_raw_replace_words(
    at: *const Opaque,
    kind: u32,
    alloc: Global,
    haystack: &[u8],
    replacements: &[&[u8]],
    text: &mut Text,
) -> u32
    ghost g: { Lent }
    requires* lent { sem 𝓛 (is_lent at g) }
    ensures* lasts { sem 𝓛 (lasting g) }
    ensures answer { AnswersWordText g.automaton kind haystack.now replacements.now text.old.value
        text.new.value result }
{
    let ac = at as *const AhoCorasick;
    words::replace_words(&*ac, kind, alloc, haystack, replacements, text)
}

/// How many bytes a pattern has.
#[unsafe(no_mangle)]
pub unsafe extern "C" fn dado_raw_pattern_len(at: *const Opaque, pattern: u32) -> Length
    ghost g: { Lent }
    requires* lent { sem 𝓛 (is_lent at g) }
    ensures* lasts { sem 𝓛 (lasting g) }
    ensures answer { AnswersLength g.automaton pattern result }
{
    let ac = at as *const AhoCorasick;
    tell::pattern_len(&*ac, pattern)
}

/// What an automaton was built of and as.
#[unsafe(no_mangle)]
pub unsafe extern "C" fn dado_raw_tell(at: *const Opaque) -> About
    ghost g: { Lent }
    requires* lent { sem 𝓛 (is_lent at g) }
    ensures* lasts { sem 𝓛 (lasting g) }
    ensures answer { TellsAbout g.automaton result }
{
    let ac = at as *const AhoCorasick;
    tell::describe(&*ac)
}
