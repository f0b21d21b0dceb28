// Words in a lent buffer.
ghost use Rattle.std.specs.Prelude.{ℕ, ◌%◌, ◌^◌, ◌≡◌, cond, min};
ghost use Rattle.event.specs.Words.{store_of};

// A word of an event, of 16 or of 32 bits.
pub trait Word: Copy {
    // The word of a number, which is its low bits; the number that a word is.
    ghost of_number: { ℕ → Self };

    ghost number: { Self → ℕ };

    fn of_low_bits(low: usize) -> Self
        ensures { result ≡ of_number low };

    fn to_number(self) -> u64
        ensures { result ≡ number self };
}

impl Word for u16 {
    ghost of_number = { λ n. n % 2 ^ 16 };

    ghost number = { λ w. w };

    fn of_low_bits(low: usize) -> u16 {
        (low % 65536) as u16
    }

    fn to_number(self) -> u64 {
        u64::from(self)
    }
}

impl Word for u32 {
    ghost of_number = { λ n. n % 2 ^ 32 };

    ghost number = { λ w. w };

    fn of_low_bits(low: usize) -> u32 {
        (low % 0x1_0000_0000) as u32
    }

    fn to_number(self) -> u64 {
        self as u64
    }
}

// Stores the word of a number at `at`, where the buffer has room for it.
pub fn store_word<W: Word>(words: &mut [W], at: usize, number: usize)
    ensures { words.new ≡ store_of W.of_number words.old at number }
{
    if at < words.len() {
        words[at] = W::of_low_bits(number);
    }
}

// One number or the other: a choice without a branch, for loops over words whose kind cannot be foreseen.
pub fn pick(first: bool, a: u32, b: u32) -> u32
    ensures { result ≡ cond first a b }
{
    if first { a } else { b }
}

// The place `at`, or the end where `at` lies past it: where a part of `length` words starts that is empty past the end, or where one of the first words ends.
pub fn part_start(at: usize, length: usize) -> usize
    ensures { result ≡ min at length }
{
    at.min(length)
}
