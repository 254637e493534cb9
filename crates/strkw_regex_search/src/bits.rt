//! Answers about the places of a text, a bit for each.

ghost use Rattle.std.specs.Prelude.{◌≡◌, ◌<◌, ◌^◌, ◌*◌, ◌∷◌, ◌++◌, [], get_or, false, IfOk, if◌then◌else◌};

use std::alloc::{AllocError, Global};

// How many bits a word has.
const WORD_BITS: u32 = 64;

/// One answer for each place, in the order in which they were put.
#[derive(Drop)]
pub struct Bits {
    // The words that are full, the first bit of each the lowest.
    words: Vec<u64>,
    // The word that is not, and how many bits of it are put.
    last: u64,
    filled: u32,
    ghost room: { filled < 64 },
    ghost low: { last < 2 ^ filled },
}

// A bit, shifted to its place above some.
fn raise(bit: bool, place: u32) -> u64
    requires { place < 64 }
    ensures { result ≡ (if bit then 1 else 0) * 2 ^ place }
{
    u64::from(bit) << place
}

impl Bits {
    ghost use Rattle.strkw_regex_search.specs.machine.Bits.{bits_of};

    #[tactic(auto, unfolding(crate::specs::machine::Bits::bits_in))]
    pub fn new(alloc: Global) -> Bits
        ensures { bits_of result ≡ [] }
    {
        Bits {
            words: Vec::new(alloc),
            last: 0,
            filled: 0,
        }
    }

    /// Puts the answer of one place more.
    pub fn push(&mut self, bit: bool) -> Result<(), AllocError>
        ensures { IfOk result (λ _. bits_of self.new ≡ bits_of self.old ++ (bit ∷ [])) }
    {
        let last = raise(bit, self.filled) | self.last;
        if self.filled + 1 < WORD_BITS {
            self.last = last;
            self.filled += 1;
            return Ok(());
        }
        self.words.push(last)?;
        self.last = 0;
        self.filled = 0;
        Ok(())
    }

    // The word of this number, or 0 where there is none.
    fn word(&self, number: usize) -> u64
        ensures { result ≡ get_or (self.now.words.items ++ (self.now.last ∷ [])) number 0 }
    {
        match self.words.get(number) {
            Some(word) => *word,
            None if number == self.words.len() => self.last,
            None => 0,
        }
    }

    /// The answer that was put with so many before it.
    pub fn get(&self, place: usize) -> bool
        ensures { result ≡ get_or (bits_of self.now) place false }
    {
        let word = self.word(place / WORD_BITS as usize);
        (word >> (place % WORD_BITS as usize)) & 1 == 1
    }
}
