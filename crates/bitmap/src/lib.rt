// A set of numbers below 1,048,576, a bit for each: 128 KB.
#![tactic(auto)]

ghost use Rattle.std.specs.Prelude.{ℕ, ◌≡◌, true, not, [], ◌<◌, length};
ghost use Rattle.rules.specs.Lists.{word};
ghost use Rattle.bitmap.specs.Marks.{bitmap_numbers, bit_of, set_word, marked, Met, Wiped, Holds, Only};

use std::marker::Model;

pub const WORDS: usize = 32_768;

// So many numbers, a bit for each.
pub const NUMBERS: usize = 32 * WORDS;

// The words, 32 numbers in each; clauses see them as a list.
// Kept (rule): there is no heap, so no set.
#[derive(Clone, Copy)]
pub struct Bitmap {
    words: [u32; WORDS],
}

impl Model for Bitmap {
    ghost use Rattle.std.specs.Prelude.{List, ℕ};

    ghost Value = { List ℕ };

    ghost view = { λ b. b.words };

    ghost inverse = { λ ws. record { words = ws } };
}

// A word with a bit that it lacks.
fn with_bit(word: u32, shift: u32) -> u32
    requires { (shift < 32) × (¬ (bit_of word shift ≡ true)) }
    ensures { result ≡ set_word word shift }
{
    word + (1 << shift)
}

impl Bitmap {
    // Nothing is marked.
    pub fn new() -> Self
        ensures { Holds result [] }
    {
        Bitmap { words: [0; WORDS] }
    }

    // A number is met: it is marked, and the answer is whether it was not.
    // Kept (no plainer): that a number is below the bound is a clause of three methods: numbers come from games and
    // texts as words, and a type for them would be made at each call and taken apart at once.
    pub fn meet(&mut self, number: usize) -> bool
        requires { number < bitmap_numbers }
        ensures { (result ≡ not (marked self.old number))
            × Met self.old self.new number }
    {
        let index = number / 32;
        let shift = (number % 32) as u32;
        let word = self.words[index];
        if (word >> shift) % 2 == 1 {
            return false;
        }
        self.words[index] = with_bit(word, shift);
        true
    }

    // The word that has the bit of a number is emptied.
    pub fn wipe(&mut self, number: usize)
        requires { number < bitmap_numbers }
        ensures { Wiped self.old self.new number }
    {
        self.words[number / 32] = 0;
    }

    // Empties the bitmap, in which only these numbers are marked.
    pub fn wipe_all(&mut self, numbers: &[u32])
        requires small { (i : ℕ) → i < length numbers.now → word numbers.now i < bitmap_numbers }
        requires only { Only self.old numbers.now }
        ensures { Holds self.new [] }
    {
        for number in numbers {
            self.wipe(*number as usize);
        }
    }

    // All words are emptied.
    pub fn clear(&mut self)
        ensures { Holds self.new [] }
    {
        self.words.fill(0);
    }
}
