// The other lines of a page, as text in a lent buffer: each function answers where its text ends.
ghost use Rattle.std.specs.Prelude.{◌+◌, ◌≤◌, ◌≡◌, length};
ghost use Rattle.hex_line.specs.Text.{Placed};
ghost use Rattle.page_text.specs.Text.{head_text, eight_text, count_text, counts_text, last_label, last_text};

use crate::counts::Connector;
use crate::{Counts, Ending};
use hex_line::{put_field, put_text};

// Puts the first line at the front.
pub(crate) fn put_head(text: &mut [u8], events: u64, hits: u64, most: u32) -> usize
    requires { length (head_text events hits most) ≤ length text.old }
    ensures { Placed text.old 0 (head_text events hits most) result text.new }
{
    let hits_at = put_field(text, 0, b"page events ", events);
    let most_at = put_field(text, hits_at, b" hits ", hits);
    let end = put_field(text, most_at, b" most ", u64::from(most));
    put_text(text, end, b"\n")
}

// Puts the lines of all counts, eight channels a line.
pub(crate) fn put_counts(text: &mut [u8], at: usize, counts: &Counts) -> usize
    requires { at + length (counts_text counts.now) ≤ length text.old }
    ensures { Placed text.old at (counts_text counts.now) result text.new }
{
    let mut end = at;
    for line in 0..32 {
        let connector = Connector {
            counts,
            number: line / 8,
        };
        end = put_count(text, end, &connector, 8 * (line % 8));
    }
    end
}

// Puts a line of counts: those of a channel of a connector and of the seven behind it.
fn put_count(text: &mut [u8], at: usize, connector: &Connector, channel: usize) -> usize
    requires { (channel ≤ 56) × (at + length (count_text connector.now.counts.now connector.now.number channel) ≤ length text.old) }
    ensures { Placed text.old at (count_text connector.now.counts.now connector.now.number channel) result text.new }
{
    let channel_at = put_field(text, at, b"count ", connector.number as u64);
    let counts_at = put_field(text, channel_at, b" ", channel as u64);
    let end = put_eight(text, counts_at, connector, channel);
    put_text(text, end, b"\n")
}

fn put_eight(text: &mut [u8], at: usize, connector: &Connector, channel: usize) -> usize
    requires { (channel ≤ 56) × (at + length (eight_text connector.now.counts.now connector.now.number channel) ≤ length text.old) }
    ensures { Placed text.old at (eight_text connector.now.counts.now connector.now.number channel) result text.new }
{
    let mut end = at;
    for k in 0..8 {
        end = put_field(text, end, b" ", u64::from(connector.count(channel + k)));
    }
    end
}

// Puts the last line.
pub(crate) fn put_last(text: &mut [u8], at: usize, ending: Ending) -> usize
    requires { at + length (last_text ending.cut ending.added ending.refused ending.other) ≤ length text.old }
    ensures { Placed text.old at (last_text ending.cut ending.added ending.refused ending.other) result text.new }
{
    let refused_at = put_field(text, at, last_label(ending.cut), ending.added);
    let other_at = put_field(text, refused_at, b" refused ", ending.refused);
    let end = put_field(text, other_at, b" other ", ending.other);
    put_text(text, end, b"\n")
}

fn last_label(cut: bool) -> &'static [u8]
    ensures { result.now ≡ last_label cut }
{
    if cut { b"cut added " } else { b"end added " }
}
