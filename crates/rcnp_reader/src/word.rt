// The words of an event, and their sum.
ghost use Rattle.std.specs.Prelude.{◌≡◌, ◌≤◌, ◌<◌, length, get_or, drop};
ghost use Rattle.rcnp_layout.specs.Layout.{total};
ghost use Rattle.rcnp_layout.specs.Reading.{at_sum};
ghost use Rattle.rcnp_reader.specs.Regions.{vdc_good};

pub(crate) fn word(words: &[u16], at: usize) -> u32
    requires { at < length words.now }
    ensures { (result ≡ get_or words.now at 0) × (result < 65536) }
{
    words[at] as u32
}

// Whether the check sum region begins at `at`, or the words end there. Id in bits 15-12.
pub(crate) fn at_sum(words: &[u16], at: usize) -> bool
    ensures { result ≡ at_sum (drop at words.now) }
{
    if words.len() <= at {
        return true;
    }
    rcnp_format::CHECK_SUM == word(words, at) / 4096
}

// A word of a VDC region: a module's header has bit 15 set and bit 14 clear, a datum comes only after a header.
pub(crate) fn is_vdc(begun: bool, w: u32) -> bool
    requires { w < 65536 }
    ensures { result ≡ vdc_good begun w }
{
    if w < 0x8000 {
        return begun;
    }
    w < 0xc000
}

// The sum of all words, headers too.
pub(crate) fn sum_of(words: &[u16]) -> u32
    requires { length words.now ≤ 4096 }
    ensures { result ≡ total words.now }
{
    words.iter().map(|w| *w as u32).sum()
}
