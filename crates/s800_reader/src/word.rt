// A word of an event.
ghost use Rattle.std.specs.Prelude.{◌≡◌, ◌<◌, length, get_or};

pub(crate) fn word(words: &[u16], at: usize) -> u32
    requires { at < length words.now }
    ensures { (result ≡ get_or words.now at 0) × (result < 65536) }
{
    words[at] as u32
}
