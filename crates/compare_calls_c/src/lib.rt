// The calls of compare_calls in C's calling convention, as a static library: second/pair_calls.c declares them.
#![tactic(auto)]

ghost use Rattle.std.specs.Prelude.{◌≡◌, length};
ghost use Rattle.event.specs.Outcome.{order_of};
ghost use Rattle.dialects.specs.Dialects.{dialect_of};
ghost use Rattle.comparison.specs.Comparing.{differing_words, word_entries, row_entries, rows_apart, compared, written};
ghost use Rattle.compare_calls.specs.Calls.{answered};

#[unsafe(no_mangle)]
pub extern "C" fn compare_call16(
    dialect: u32,
    order: u32,
    first: &[u16],
    second: &[u16],
    words: &mut [u64],
    rows: &mut [u32],
    answer: &mut [u64],
)
    ensures words { words.new ≡ written (compared 16 (dialect_of dialect) (order_of order) first.now second.now (length words.old) (length rows.old)) (word_entries (differing_words first.now second.now)) words.old }
    ensures rows { rows.new ≡ written (compared 16 (dialect_of dialect) (order_of order) first.now second.now (length words.old) (length rows.old)) (row_entries (rows_apart 16 (dialect_of dialect) (order_of order) first.now second.now)) rows.old }
    ensures answer { answer.new ≡ answered (compared 16 (dialect_of dialect) (order_of order) first.now second.now (length words.old) (length rows.old)) answer.old }
{
    compare_calls::compare_call(dialect, order, first, second, words, rows, answer);
}

#[unsafe(no_mangle)]
pub extern "C" fn compare_call32(
    dialect: u32,
    order: u32,
    first: &[u32],
    second: &[u32],
    words: &mut [u64],
    rows: &mut [u32],
    answer: &mut [u64],
)
    ensures words { words.new ≡ written (compared 32 (dialect_of dialect) (order_of order) first.now second.now (length words.old) (length rows.old)) (word_entries (differing_words first.now second.now)) words.old }
    ensures rows { rows.new ≡ written (compared 32 (dialect_of dialect) (order_of order) first.now second.now (length words.old) (length rows.old)) (row_entries (rows_apart 32 (dialect_of dialect) (order_of order) first.now second.now)) rows.old }
    ensures answer { answer.new ≡ answered (compared 32 (dialect_of dialect) (order_of order) first.now second.now (length words.old) (length rows.old)) answer.old }
{
    compare_calls::compare_call(dialect, order, first, second, words, rows, answer);
}
