// Lists the pad of each pair of channel and connector (document 02, #102): connectors 0 to 3, within each channels 0 to 63, a line
// `CHANNEL CONNECTOR PAD` each, in hexadecimal. The expected output comes from the independent second reader (`second/`). A write that fails
// ends the program, and its exit status does not tell: fewer than 256 lines are not the whole listing.
#![tactic(auto)]

ghost use Rattle.std.specs.Prelude.{◌+◌, ◌≤◌, ◌≡◌, length};
ghost use Rattle.hex_line.specs.Text.{Placed};
ghost use Rattle.list_pads.specs.Pads.{pair_text, connector_text, pads_text};

use hex_line::{put_field, put_number, put_text};
use std::io::Write;

const CHANNELS: u16 = 64;

const CONNECTORS: u16 = 4;

// The characters of all 256 lines, 27 each.
const LISTING: usize = 6912;

// Puts the line of a pair at `at`, and answers where it ends.
fn put_pair(text: &mut [u8], at: usize, channel: u16, connector: u16) -> usize
    requires { at + length (pair_text channel connector) ≤ length text.old }
    ensures { Placed text.old at (pair_text channel connector) result text.new }
{
    let connector_at = put_number(text, at, u64::from(channel));
    let pad_at = put_field(text, connector_at, b" ", u64::from(connector));
    let end = put_field(text, pad_at, b" ", u64::from(s800::pad(channel, connector)));
    put_text(text, end, b"\n")
}

// Puts the lines of a connector's channels at `at`.
fn put_connector(text: &mut [u8], at: usize, connector: u16) -> usize
    requires { at + length (connector_text connector) ≤ length text.old }
    ensures { Placed text.old at (connector_text connector) result text.new }
{
    let mut end = at;
    for channel in 0..CHANNELS {
        end = put_pair(text, end, channel, connector);
    }
    end
}

// Puts the lines of all pairs, which fill the text.
fn put_pads(text: &mut [u8])
    requires { length text.old ≡ length pads_text }
    ensures { text.new ≡ pads_text }
{
    let mut end = 0;
    for connector in 0..CONNECTORS {
        end = put_connector(text, end, connector);
    }
}

fn main(rt: HostRuntime) {
    let mut text = [0u8; LISTING];
    put_pads(&mut text);
    let _ = rt.stdout().write_all(&text);
}
