// The longwords of an event, made of their fields.
ghost use Rattle.std.specs.Prelude.{◌<◌, ◌^◌, ◌≡◌, [], ◌∷◌};
ghost use Rattle.event.specs.Scanning.{store_words};
ghost use Rattle.event.specs.Words.{store_word, halves};
ghost use Rattle.frs_layout.specs.Layout.{longword};

use event::words::store_word;

// An upper half over 16 data bits.
pub(crate) fn halves(upper: u32, low: u32) -> u32
    requires { (upper < 2 ^ 16) × (low < 2 ^ 16) }
    ensures { result ≡ halves upper low }
{
    upper * 0x0001_0000 + low
}

// GEO in bits 31-27, flag in bits 26-24: 2 a header, 0 a value, 4 a footer, 6 an empty module.
pub(crate) fn longword(geo: u32, flag: u32, low: u32) -> u32
    requires { (geo < 2 ^ 5) × (flag < 2 ^ 3) × (low < 2 ^ 24) }
    ensures { result ≡ longword geo flag low }
{
    geo * 0x0800_0000 + flag * 0x0100_0000 + low
}

// Stores a longword where there is room for it.
pub(crate) fn store(words: &mut [u32], at: usize, w: u32)
    ensures { words.new ≡ store_word 32 words.old at w }
{
    store_word(words, at, w as usize);
}

// Four longwords at the front, each where there is room for it.
pub(crate) fn store_four(words: &mut [u32], four: [u32; 4])
    ensures { words.new ≡ store_words 32 words.old 0 four }
{
    for (i, w) in four.iter().enumerate() {
        store(words, i, *w);
    }
}
