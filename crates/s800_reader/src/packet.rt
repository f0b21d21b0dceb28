// A packet among the words of an event.
ghost use Rattle.std.specs.Prelude.{◌+◌, ◌≤◌, ◌<◌, ◌≡◌, length, get_or};

use crate::channel::Channels;
use crate::word::word;
use s800_format::{Format, energies};

// The packet of `size` words whose first word is word `start`; `count` rows of the event come before its own.
#[derive(Clone, Copy)]
pub(crate) struct Packet<'a> {
    pub(crate) words: &'a [u16],
    pub(crate) start: usize,
    pub(crate) size: usize,
    pub(crate) count: usize,
    ghost two: { 2 ≤ size },
    ghost inside: { start + size ≤ length words.now },
    ghost few: { count ≤ start },
}

impl<'a> Packet<'a> {
    ghost use Rattle.s800_layout.specs.Event.{energy16};
    ghost use Rattle.s800_format.specs.Format.{energies_of};
    ghost use Rattle.s800_reader.specs.Opening.{channels_left};

    pub(crate) fn word(self, k: usize) -> u32
        requires { k < self.size }
        ensures { (result ≡ get_or self.entry.words.now (self.entry.start + k) 0) × (result < 65536) }
    {
        word(self.words, self.start + k)
    }

    // Its channel words are those from word k on, after so many rows of its own.
    pub(crate) fn channels(self, format: Format, k: usize, rows: usize) -> Channels
        requires { (k ≤ self.size) × (rows ≤ k) }
        ensures { result ≡ channels_left format (self.entry.start + k) (self.entry.start + self.entry.size) (self.entry.count + rows) }
    {
        Channels {
            format,
            at: self.start + k,
            end: self.start + self.size,
            count: self.count + rows,
        }
    }

    // It is read whole, up to row `count` of the event: no channel words are left.
    pub(crate) fn whole(self, count: usize) -> Channels
        ensures { result ≡ channels_left (energies_of 0 energy16) (self.entry.start + self.entry.size) (self.entry.start + self.entry.size) count }
    {
        Channels {
            format: energies(0),
            at: self.start + self.size,
            end: self.start + self.size,
            count,
        }
    }
}
