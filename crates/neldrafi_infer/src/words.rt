//! The few texts that all texts of a property are.

ghost use Rattle.std.specs.Prelude.{◌≡◌, ◌++◌, ◌∷◌, [], ℕ, List, OnOk, false, if◌then◌else◌, map, nat_lt, not, string_bytes, vec_len};
ghost use Rattle.std.specs.List.{list_any};
ghost use Rattle.std.specs.Str.{bytes_eq};
ghost use Rattle.neldrafi_infer.specs.Words.{AreWords, marked, word_view};

use std::alloc::{AllocError, Global};

// More words than so many are not few.
const MOST_WORDS: usize = 10;

/// A text that was seen.
#[derive(Debug, Drop)]
pub struct Word {
    /// The text.
    pub text: String,
    /// Whether it was seen again.
    pub is_repeated: bool,
}

impl Word {
    // Marks it as seen again if it is this text, and answers whether it is.
    fn mark(&mut self, text: &str) -> bool
        ensures marked { word_view self.new ≡ marked text.now (word_view self.old) }
        ensures is { result ≡ bytes_eq (string_bytes self.old.text) text.now }
    {
        let is_same = self.text.as_str() == text;
        self.is_repeated |= is_same;
        is_same
    }
}

/// The texts that were seen, unless they are too many.
#[derive(Debug, Drop)]
pub(crate) struct Words {
    pub(crate) words: Vec<Word>,
    pub(crate) is_over: bool,
}

impl Words {
    /// No texts were seen.
    pub(crate) fn new(alloc: Global) -> Words
        ensures { AreWords [] result }
    {
        Words {
            words: Vec::new(alloc),
            is_over: false,
        }
    }

    /// Sees a text, after others, if it is one. The only error is out of memory, and the words are of no more use then.
    pub(crate) fn see_if(
        &mut self,
        alloc: Global,
        is_text: bool,
        text: &str,
    ) -> Result<(), AllocError>
        ensures { (texts : List (List ℕ)) → AreWords texts self.old
            → OnOk result (AreWords (if is_text then texts ++ text.now ∷ [] else texts) self.new) }
    {
        if is_text {
            self.see(alloc, text)?;
        }
        Ok(())
    }

    // Sees a text, after others. The only error is out of memory, and the words are of no more use then.
    fn see(&mut self, alloc: Global, text: &str) -> Result<(), AllocError>
        ensures { (texts : List (List ℕ)) → AreWords texts self.old
            → OnOk result (AreWords (texts ++ text.now ∷ []) self.new) }
    {
        if self.is_over {
            return Ok(());
        }
        if mark(&mut self.words, text) {
            return Ok(());
        }
        self.put(alloc, text)?;
        Ok(())
    }

    // Puts a word behind the others, or gives up where there are too many.
    fn put(&mut self, alloc: Global, text: &str) -> Result<(), AllocError>
        requires { self.old.is_over ≡ false }
        ensures over { OnOk result (self.new.is_over ≡ not (nat_lt (vec_len self.old.words) 10)) }
        ensures words { OnOk result (self.new.is_over ≡ false
            → map word_view self.new.words.items
            ≡ map word_view self.old.words.items ++ (text.now, false) ∷ []) }
    {
        if MOST_WORDS <= self.words.len() {
            self.is_over = true;
            return Ok(());
        }
        let text = String::from_str(alloc, text)?;
        let is_repeated = false;
        self.words.push(Word { text, is_repeated })?;
        Ok(())
    }
}

// Marks a word as seen again, and answers whether it is one of these.
fn mark(words: &mut [Word], text: &str) -> bool
    ensures marked { map word_view words.new ≡ map (marked text.now) (map word_view words.old) }
    ensures found { result
        ≡ list_any (λ word. bytes_eq word.0 text.now) (map word_view words.old) }
{
    let mut is_found = false;
    for word in words.iter_mut() {
        is_found |= word.mark(text);
    }
    is_found
}
