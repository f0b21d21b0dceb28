// Rows in a lent buffer, four elements each.
ghost use Rattle.std.specs.Prelude.{◌-◌, min, ◌≡◌};
ghost use Rattle.event.specs.Rows.{store_row};
ghost use Rattle.event.specs.Writing.{row_at};

use crate::Row;

// Stores row `at` where the buffer has room for it.
pub fn store_row(rows: &mut [u32], at: usize, row: Row)
    ensures { rows.new ≡ store_row rows.old at row }
{
    if at < rows.len() / 4 {
        let i = at * 4;
        rows[i] = row.kind;
        rows[i + 1] = row.unit;
        rows[i + 2] = row.channel;
        rows[i + 3] = row.datum;
    }
}

// Row `at` of the elements; past the last one a row of zeros: no row has kind 0.
pub fn row_at(rows: &[u32], at: usize) -> Row
    ensures { result ≡ row_at rows.now at }
{
    if at < rows.len() / 4 {
        let i = at * 4;
        return Row {
            kind: rows[i],
            unit: rows[i + 1],
            channel: rows[i + 2],
            datum: rows[i + 3],
        };
    }
    Row {
        kind: 0,
        unit: 0,
        channel: 0,
        datum: 0,
    }
}

// How many of `n` rows from row `at` on fit so much room.
pub fn fitting(n: usize, at: usize, room: usize) -> usize
    ensures { result ≡ min n (room - at) }
{
    n.min(room.saturating_sub(at))
}
