//! What C may pass to another thread.
use crate::handle::Handle;
use crate::masker::Masker;
use crate::replacer::Replacer;
use crate::stream::Stream;
use crate::text::Text;
use aho_corasick::AhoCorasick;

/// Takes a type of which a value goes to another thread.
fn sent<T: Send>() {}

/// Takes a type of which a value is shared by threads.
fn shared<T: Sync>() {}

/// A handle, a text, and a search, a replacement and a masking of pieces go to other threads, and threads share an automaton.
pub fn all_cross() {
    sent::<Handle>();
    sent::<Text>();
    sent::<Stream>();
    sent::<Replacer>();
    sent::<Masker>();
    shared::<AhoCorasick>();
}
