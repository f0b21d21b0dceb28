// The calls that bench/ times, each with the number of the dialect and the buffers of both widths, as in any_dialect. Each answers the count, or the place of a refusal, so that
// the two are not told apart. A reading into no rows is the check alone: its answer is then the rows needed, the place of 12. bench_calls_c exports them.
#![tactic(auto)]

ghost use Rattle.std.specs.Prelude.{◌≡◌, length};
ghost use Rattle.event.specs.Outcome.{default_order, answer_of, given, overlaid, count_or_place};
ghost use Rattle.event.specs.Rows.{flat, room};
ghost use Rattle.dialects.specs.Dialects.{dialect_of, reading_into, writing_into, of_width, over16, over32};

use dialects::Dialect;
use event::{StampOrder, count_or_place};

pub fn bench_read(dialect: u32, words: &[u16], longwords: &[u32], rows: &mut [u32]) -> usize
    ensures answer { result ≡ count_or_place (answer_of (reading_into (dialect_of dialect) (room (length rows.old)) default_order (of_width (dialect_of dialect) words.now longwords.now))) }
    ensures rows { rows.new ≡ overlaid (flat (given (reading_into (dialect_of dialect) (room (length rows.old)) default_order (of_width (dialect_of dialect) words.now longwords.now)))) rows.old }
{
    let read = any_dialect::read(
        Dialect::from(dialect),
        words,
        longwords,
        StampOrder::default(),
        rows,
    );
    count_or_place(read)
}

pub fn bench_write(dialect: u32, rows: &[u32], words: &mut [u16], longwords: &mut [u32]) -> usize
    ensures answer { result ≡ count_or_place (answer_of (writing_into (dialect_of dialect) (length (of_width (dialect_of dialect) words.old longwords.old)) default_order rows.now)) }
    ensures words { words.new ≡ over16 (dialect_of dialect) (given (writing_into (dialect_of dialect) (length (of_width (dialect_of dialect) words.old longwords.old)) default_order rows.now)) words.old }
    ensures longwords { longwords.new ≡ over32 (dialect_of dialect) (given (writing_into (dialect_of dialect) (length (of_width (dialect_of dialect) words.old longwords.old)) default_order rows.now)) longwords.old }
{
    let written = any_dialect::write(
        Dialect::from(dialect),
        rows,
        StampOrder::default(),
        words,
        longwords,
    );
    count_or_place(written)
}
