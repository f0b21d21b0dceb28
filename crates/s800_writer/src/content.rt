// Content rows that come in runs, up to the next packet's own row. A run's end shows only at the row that ends it, so that a `for` would look at each row twice:
// the loops here count the row and the word by hand.
ghost use Rattle.std.specs.Prelude.{◌≡◌, [], ◌+◌, ◌<◌, ◌^◌, drop};
ghost use Rattle.event.specs.Parser.{many, several, each};
ghost use Rattle.event.specs.Words.{word_alone};
ghost use Rattle.event.specs.Scanning.{store_words, Writes};
ghost use Rattle.event.specs.Writing.{rows_in};
ghost use Rattle.s800_layout.specs.Layout.{channel_word, pair_words, pair_channels};
ghost use Rattle.s800_layout.specs.Writing.{at_packet, channel_rows, pair, datum_below};
ghost use Rattle.s800_format.specs.Format.{bits_of, format_of};
ghost use Rattle.s800_writer.specs.Rows.{datum_words, pair_of};

use crate::row::{before_kind, check_channel, check_limits, check_time};
use crate::run::Run;
use event::channels::with_channel;
use event::kind::Kind;
use event::refusal::Refusal;
use event::rows::row_at;
use event::words::store_word;
use event::{Part, Row};
use s800_format::{Format, pair_energies};

// The channel above, the number in the bits below.
pub(crate) fn channel_word(format: Format, channel: u32, number: u32) -> u32
    requires { (channel < 16) × (number < 2 ^ bits_of format) }
    ensures { result ≡ channel_word (format_of format) channel number }
{
    if format.wide {
        channel * 8192 + number
    } else {
        channel * 4096 + number
    }
}

// Times or energies of a format, no channel twice.
pub(crate) fn write_channels(run: Run, format: Format, words: &mut [u16]) -> Result<Part, Refusal>
    requires { 1 < format.kind }
    ensures { Writes 16 (each (datum_words format)) (channel_rows format.kind format.base (format_of format) run.entry.from (drop run.entry.from (rows_in run.entry.rows.now))) (rows_in run.entry.rows.now) run.entry.first words.old result words.new }
{
    let mut blocked = format.barred;
    let mut i = run.from;
    let mut at = run.first;
    while before_kind(run.rows, i, Kind::Packet) {
        let row = row_at(run.rows, i);
        check_channel(format, blocked, row, i)?;
        let channel = row.channel - format.base;
        blocked = with_channel(blocked, channel);
        store_word(words, at, channel_word(format, channel, row.datum) as usize);
        at += 1;
        i += 1;
    }
    Ok(Part { next: i, count: at })
}

// Pairs of an energy and a time, the channel the same in both, no channel twice.
pub(crate) fn write_pairs(run: Run, words: &mut [u16]) -> Result<Part, Refusal>
    ensures { Writes 16 (each pair_words) (many pair pair_channels at_packet [] run.entry.from (drop run.entry.from (rows_in run.entry.rows.now))) (rows_in run.entry.rows.now) run.entry.first words.old result words.new }
{
    let format = pair_energies();
    let mut blocked = format.barred;
    let mut i = run.from;
    let mut at = run.first;
    while before_kind(run.rows, i, Kind::Packet) {
        let energy = row_at(run.rows, i);
        check_channel(format, blocked, energy, i)?;
        let time = row_at(run.rows, i + 1);
        check_time(time, energy.channel, i + 1)?;
        blocked = with_channel(blocked, energy.channel);
        store_pair(words, at, energy, time);
        at += 2;
        i += 2;
    }
    Ok(Part { next: i, count: at })
}

fn store_pair(words: &mut [u16], at: usize, energy: Row, time: Row)
    requires { (at + 1 < 2 ^ 64) × (energy.channel < 16) × (energy.datum < 2 ^ 12) × (time.datum < 2 ^ 12) }
    ensures { words.new ≡ store_words 16 words.old at (pair_words (pair_of energy time)) }
{
    let high = energy.channel * 4096;
    store_word(words, at, (high + energy.datum) as usize);
    store_word(words, at + 1, (high + time.datum) as usize);
}

// Opaque words.
pub(crate) fn write_opaque_words(run: Run, words: &mut [u16]) -> Result<Part, Refusal>
    ensures { Writes 16 (each word_alone) (several (datum_below 11 0 (2 ^ 16)) at_packet run.entry.from (drop run.entry.from (rows_in run.entry.rows.now))) (rows_in run.entry.rows.now) run.entry.first words.old result words.new }
{
    let mut i = run.from;
    let mut at = run.first;
    while before_kind(run.rows, i, Kind::Packet) {
        let row = row_at(run.rows, i);
        check_limits(row, Kind::OpaqueWord, 0, 0, 65535, i)?;
        store_word(words, at, row.datum as usize);
        at += 1;
        i += 1;
    }
    Ok(Part { next: i, count: at })
}
