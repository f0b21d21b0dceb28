// One scan serves the check and the filling: it stores a row only where the buffer has room for it.
ghost use Rattle.std.specs.Prelude.{length};
ghost use Rattle.event.specs.Scanning.{Scanned};
ghost use Rattle.s800_layout.specs.Layout.{rows as rows_of};
ghost use Rattle.s800_layout.specs.Reading.{event_parser};

use crate::channel::{channel_of, check_channel, store_channel};
use crate::head::begin;
use crate::open_packet::open_packet;
use crate::word::word;
use event::StampOrder;
use event::channels::with_channel;
use event::refusal::Refusal;

// Reads the event up to the first word that breaks a rule. The inner loop takes the channel words of a packet; what stands
// before them, and packets without any, `open_packet` has read. Where a packet ends is known only once it is opened, so that the outer loop has no range.
pub(crate) fn scan(words: &[u16], order: StampOrder, rows: &mut [u32]) -> Result<usize, Refusal>
    ensures { Scanned (rows_of order) (event_parser (length words.now) 0 words.now) 0 rows.old result rows.new }
{
    let begun = begin(words, order, rows)?;
    let mut next = begun.next;
    let mut count = begun.count;
    'packets: loop {
        if words.len() <= next {
            break 'packets Ok(count);
        }
        let channels = open_packet(words, next, rows, count)?;
        let mut blocked = channels.format.barred;
        count = channels.count;
        for i in channels.at..channels.end {
            let w = word(words, i);
            if let Err(refusal) = check_channel(channels.format, blocked, w, i) {
                break 'packets Err(refusal);
            }
            blocked = with_channel(blocked, channel_of(channels.format, w));
            store_channel(rows, count, channels.format, w);
            count += 1;
        }
        next = channels.end;
    }
}
