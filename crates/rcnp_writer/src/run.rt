// The rows of one word each that follow a region's own row.
ghost use Rattle.std.specs.Prelude.{◌≡◌, ◌<◌, length};
ghost use Rattle.event.specs.Writing.{rows_in, row_at};
ghost use Rattle.rcnp_writer.specs.Parts.{run_words};

use event::Row;
use event::kind::Kind;
use rcnp_format::Form;

// How many rows of one word each follow a region's own row: as many as its size says, but for scalers.
pub(crate) fn run_words(row: Row) -> usize
    ensures { result ≡ run_words row }
{
    if row.kind != Kind::Region as u32 {
        return 0;
    }
    if row.unit == Form::Scaler as u32 {
        return 0;
    }
    row.channel as usize
}

// A row that is there: `event::rows::row_at` without its test, which the loops over rows of one word each would make for each row.
#[tactic(auto, using(event::proofs::RowsIn::rows_count))]
pub(crate) fn row_there(rows: &[u32], at: usize) -> Row
    requires { at < length (rows_in rows.now) }
    ensures { result ≡ row_at rows.now at }
{
    let i = at * 4;
    Row {
        kind: rows[i],
        unit: rows[i + 1],
        channel: rows[i + 2],
        datum: rows[i + 3],
    }
}
