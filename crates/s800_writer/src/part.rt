// A packet in its part of the words.
ghost use Rattle.std.specs.Prelude.{◌≡◌, ◌+◌, ◌<◌, ◌^◌};
ghost use Rattle.s800_format.specs.Tag.{number};
ghost use Rattle.s800_writer.specs.Packets.{closed};

use event::words::store_word;
use s800_format::tag::Tag;

// Sets the length and the tag of the packet, or inner packet, at `at`, whose content ends before word `end`.
pub(crate) fn close(words: &mut [u16], at: usize, tag: Tag, end: usize)
    requires { at + 1 < 2 ^ 64 }
    ensures { words.new ≡ closed at (number tag) end words.old }
{
    store_word(words, at, end.saturating_sub(at));
    store_word(words, at + 1, tag.number() as usize);
}
