// Content words that come in runs: opaque words, and pairs of an energy and a time.
ghost use Rattle.std.specs.Prelude.{Ok, ◌+◌, ◌%◌, ◌^◌, ◌≤◌, ◌<◌, ◌≡◌};
ghost use Rattle.event.specs.Parser.{each};
ghost use Rattle.event.specs.Scanning.{store_rows, Scanned};
ghost use Rattle.s800_layout.specs.Layout.{pair_rows};
ghost use Rattle.s800_reader.specs.Channel.{opaque_rows, pair_of, NoMore};
ghost use Rattle.s800_reader.specs.Opening.{opaques_of, pairs_of};

use crate::channel::check_channel;
use crate::packet::Packet;
use event::Row;
use event::channels::with_channel;
use event::kind::Kind;
use event::refusal::{Fault, Refusal, refuse};
use event::rows::store_row;
use s800_format::pair_energies;

// The words from word 2 on, a row each. They are never refused.
pub(crate) fn read_opaque(packet: Packet, rows: &mut [u32]) -> usize
    ensures { (result ≤ packet.entry.start + packet.entry.size) × Scanned (each opaque_rows) (opaques_of packet.entry) (packet.entry.count + 1) rows.old (Ok result) rows.new }
{
    // Counted, since with the row's place made from k reading opaque words took up to twice the time.
    let mut count = packet.count + 1;
    for k in 2..packet.size {
        let row = Row {
            kind: Kind::OpaqueWord as u32,
            unit: 0,
            channel: 0,
            datum: packet.word(k),
        };
        store_row(rows, count, row);
        count += 1;
    }
    count
}

// The pairs of an energy and a time from word 2 on, an even number of words.
pub(crate) fn read_pairs(packet: Packet, rows: &mut [u32]) -> Result<usize, Refusal>
    requires { packet.size % 2 ≡ 0 }
    ensures { Scanned (each pair_rows) (pairs_of packet.entry) (packet.entry.count + 1) rows.old result rows.new × NoMore (packet.entry.start + packet.entry.size) result }
{
    let format = pair_energies();
    let mut blocked = format.barred;
    for pair in 1..packet.size / 2 {
        let energy = packet.word(2 * pair);
        check_channel(format, blocked, energy, packet.start + 2 * pair)?;
        let time = packet.word(2 * pair + 1);
        let channel = energy / 4096;
        if time / 4096 != channel {
            return refuse(Fault::Data, packet.start + 2 * pair + 1);
        }
        blocked = with_channel(blocked, channel);
        store_pair(rows, packet.count + 2 * pair - 1, energy, time);
    }
    Ok(packet.count + packet.size - 1)
}

fn store_pair(rows: &mut [u32], at: usize, energy: u32, time: u32)
    requires { at + 1 < 2 ^ 64 }
    ensures { rows.new ≡ store_rows rows.old at (pair_rows (pair_of energy time)) }
{
    let first = Row {
        kind: Kind::Energy as u32,
        unit: 0,
        channel: energy / 4096,
        datum: energy % 4096,
    };
    store_row(rows, at, first);
    let second = Row {
        kind: Kind::Time as u32,
        unit: 0,
        channel: energy / 4096,
        datum: time % 4096,
    };
    store_row(rows, at + 1, second);
}
