// What reading and writing dialect S share (document 01, 'Dialect S'): the tags, the formats of channel words, the pad of a channel and a connector.
#![tactic(auto)]

pub mod tag;

ghost use Rattle.std.specs.Prelude.{◌≡◌};
ghost use Rattle.s800_layout.specs.Event.{trigger_time, flight_time, pair_energy, energy16, adc_energy};
ghost use Rattle.s800_layout.specs.Layout.{pad};
ghost use Rattle.s800_format.specs.Format.{times_of, energies_of};

use event::kind::Kind;

// An event has from 14 to 4,096 words (document 01, 'Dialect S').
pub const SMALLEST_EVENT: usize = 14;

pub const LARGEST_EVENT: usize = 4096;

// The third word of an event.
pub const VERSION: u32 = 5;

// The largest trigger pattern: bits 5-15 are zero.
pub const LARGEST_PATTERN: u32 = 31;

// The id of a hodoscope's hits; those of its energies are below.
pub const HITS_ID: u32 = 2;

// The channel words of a packet: the kind of their rows, the row channel of channel 0, whether the number below the channel has
// 13 bits and not 12, and the channels not allowed, as a set of bits.
#[derive(Clone, Copy, Debug, PartialEq, Eq)]
pub struct Format {
    // A number and no Kind: it stands in each row, and as a Kind, whose number is looked up, reading mixed events took 1.05 of the time.
    pub kind: u32,
    pub base: u32,
    pub wide: bool,
    pub barred: u32,
}

// The formats that there are: functions and no constants, which have no contract to say what channels they allow.

// Times of channels 8 to 11.
pub fn trigger_times() -> Format
    ensures { result ≡ times_of trigger_time }
{
    Format {
        kind: Kind::Time as u32,
        base: 0,
        wide: false,
        barred: 0xf0ff,
    }
}

// Times of channels 4 to 7 and 12 to 15.
pub fn flight_times() -> Format
    ensures { result ≡ times_of flight_time }
{
    Format {
        kind: Kind::Time as u32,
        base: 0,
        wide: false,
        barred: 0x0f0f,
    }
}

// Energies of channels 0 to 15.
pub fn energies(base: u32) -> Format
    ensures { result ≡ energies_of base energy16 }
{
    Format {
        kind: Kind::Energy as u32,
        base,
        wide: false,
        barred: 0,
    }
}

// Energies of 13 bits, of channels 0 to 7.
pub fn adc_energies(base: u32) -> Format
    ensures { result ≡ energies_of base adc_energy }
{
    Format {
        kind: Kind::Energy as u32,
        base,
        wide: true,
        barred: 0xff00,
    }
}

// The energies of pairs, of channels 0 to 5.
pub fn pair_energies() -> Format
    ensures { result ≡ energies_of 0 pair_energy }
{
    Format {
        kind: Kind::Energy as u32,
        base: 0,
        wide: false,
        barred: 0xffc0,
    }
}

// The pad of a channel, 0 to 63, and a connector, 0 to 3.
pub fn pad(channel: u16, connector: u16) -> u32
    ensures { result ≡ pad channel connector }
{
    channel as u32 + 64 * connector as u32
}
