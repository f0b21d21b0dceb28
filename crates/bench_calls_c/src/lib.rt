// The calls of bench_calls in C's calling convention, as a static library. bench/calls.rs declares them.
#![tactic(auto)]

ghost use Rattle.std.specs.Prelude.{◌≡◌, length};
ghost use Rattle.event.specs.Outcome.{default_order, answer_of, given, overlaid, count_or_place};
ghost use Rattle.event.specs.Rows.{flat, room};
ghost use Rattle.dialects.specs.Dialects.{dialect_of, reading_into, writing_into, of_width, over16, over32};

#[unsafe(no_mangle)]
pub extern "C" fn bench_read(
    dialect: u32,
    words: &[u16],
    longwords: &[u32],
    rows: &mut [u32],
) -> usize
    ensures answer { result ≡ count_or_place (answer_of (reading_into (dialect_of dialect) (room (length rows.old)) default_order (of_width (dialect_of dialect) words.now longwords.now))) }
    ensures rows { rows.new ≡ overlaid (flat (given (reading_into (dialect_of dialect) (room (length rows.old)) default_order (of_width (dialect_of dialect) words.now longwords.now)))) rows.old }
{
    bench_calls::bench_read(dialect, words, longwords, rows)
}

#[unsafe(no_mangle)]
pub extern "C" fn bench_write(
    dialect: u32,
    rows: &[u32],
    words: &mut [u16],
    longwords: &mut [u32],
) -> usize
    ensures answer { result ≡ count_or_place (answer_of (writing_into (dialect_of dialect) (length (of_width (dialect_of dialect) words.old longwords.old)) default_order rows.now)) }
    ensures words { words.new ≡ over16 (dialect_of dialect) (given (writing_into (dialect_of dialect) (length (of_width (dialect_of dialect) words.old longwords.old)) default_order rows.now)) words.old }
    ensures longwords { longwords.new ≡ over32 (dialect_of dialect) (given (writing_into (dialect_of dialect) (length (of_width (dialect_of dialect) words.old longwords.old)) default_order rows.now)) longwords.old }
{
    bench_calls::bench_write(dialect, rows, words, longwords)
}
