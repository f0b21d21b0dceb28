// Words with a channel above a number.
ghost use Rattle.std.specs.Prelude.{◌≡◌, ◌<◌};
ghost use Rattle.event.specs.Refusal.{verdict};
ghost use Rattle.event.specs.Rows.{store_row};
ghost use Rattle.s800_layout.specs.Reading.{datum_of};
ghost use Rattle.s800_format.specs.Format.{format_of};
ghost use Rattle.s800_reader.specs.Channel.{channel_of, value_of, fault_of, channel_row};

use event::Row;
use event::channels::contains;
use event::refusal::{Fault, Refusal, refuse};
use event::rows::store_row;
use s800_format::Format;

// What is left of a packet: channel words from `at` up to its end, none where `at` is the end, after `count` rows of the event. (The format stands last: in the
// answer that holds this or a refusal the first numbers are then as wide as those of a refusal, and read back as they were stored.)
#[derive(Clone, Copy)]
pub(crate) struct Channels {
    pub(crate) at: usize,
    pub(crate) end: usize,
    pub(crate) count: usize,
    pub(crate) format: Format,
}

pub(crate) fn channel_of(format: Format, w: u32) -> u32
    ensures { result ≡ channel_of format w }
{
    if format.wide {
        return w / 8192;
    }
    w / 4096
}

fn value_of(format: Format, w: u32) -> u32
    ensures { result ≡ value_of format w }
{
    if format.wide {
        return w % 8192;
    }
    w % 4096
}

// A channel word at a place. One set is tested for a good word: the channels that are not allowed, and those seen.
#[tactic(auto, using(crate::proofs::Channels::low_bit), unfolding(crate::specs::Channel::fault_of))]
pub(crate) fn check_channel(
    format: Format,
    blocked: u32,
    w: u32,
    place: usize,
) -> Result<(), Refusal>
    requires { w < 65536 }
    ensures { result ≡ verdict (fault_of format blocked w) place }
{
    let channel = channel_of(format, w);
    if contains(blocked, channel) {
        if contains(format.barred, channel) {
            return refuse(Fault::Data, place);
        }
        return refuse(Fault::Repeated, place);
    }
    Ok(())
}

pub(crate) fn store_channel(rows: &mut [u32], at: usize, format: Format, w: u32)
    requires { (format.base < 65536) × (w < 65536) }
    ensures { rows.new ≡ store_row rows.old at (channel_row format (datum_of (format_of format) w)) }
{
    let row = Row {
        kind: format.kind,
        unit: 0,
        channel: format.base + channel_of(format, w),
        datum: value_of(format, w),
    };
    store_row(rows, at, row);
}
