// What the functions that open packets share.
ghost use Rattle.std.specs.Prelude.{◌≡◌};
ghost use Rattle.event.specs.Kind.{number as kind_number};
ghost use Rattle.event.specs.Rows.{row, store_row};
ghost use Rattle.s800_layout.specs.Layout.{packet_row};
ghost use Rattle.s800_format.specs.Tag.{number as tag_number};

use event::Row;
use event::kind::Kind;
use event::rows::store_row;
use s800_format::tag::Tag;

// The packet's own row.
pub(crate) fn store_packet(rows: &mut [u32], at: usize, tag: Tag, id: u32)
    ensures { rows.new ≡ store_row rows.old at (packet_row (tag_number tag) id) }
{
    let row = Row {
        kind: Kind::Packet as u32,
        unit: tag.number(),
        channel: id,
        datum: 0,
    };
    store_row(rows, at, row);
}

// A row of which only the datum is not 0.
pub(crate) fn store_datum(rows: &mut [u32], at: usize, kind: Kind, datum: u32)
    ensures { rows.new ≡ store_row rows.old at (row (kind_number kind) 0 0 datum) }
{
    let row = Row {
        kind: kind.number(),
        unit: 0,
        channel: 0,
        datum,
    };
    store_row(rows, at, row);
}
