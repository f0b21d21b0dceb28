// The comparison by the numbers of the dialect and the stamp order: what second/ compares with the second reader. compare_calls_c exports it. The answer is three
// numbers in a lent buffer, as `numbers_of` has them; they are put where there is room for all three.
#![tactic(auto)]

ghost use Rattle.std.specs.Prelude.{◌≡◌, length};
ghost use Rattle.event.specs.Outcome.{order_of};
ghost use Rattle.dialects.specs.Dialects.{dialect_of};
ghost use Rattle.comparison.specs.Comparing.{differing_words, word_entries, row_entries, rows_apart, compared, written, numbers_of};
ghost use Rattle.compare_calls.specs.Calls.{answered};

use compare::{EventWord, compare};
use comparison::Listed;
use dialects::Dialect;
use event::StampOrder;
use event::refusal::Refusal;

pub fn compare_call<W: EventWord>(
    dialect: u32,
    order: u32,
    first: &[W],
    second: &[W],
    words: &mut [u64],
    rows: &mut [u32],
    answer: &mut [u64],
)
    ensures words { words.new ≡ written (compared W.bits (dialect_of dialect) (order_of order) (W.numbers first.now) (W.numbers second.now) (length words.old) (length rows.old)) (word_entries (differing_words (W.numbers first.now) (W.numbers second.now))) words.old }
    ensures rows { rows.new ≡ written (compared W.bits (dialect_of dialect) (order_of order) (W.numbers first.now) (W.numbers second.now) (length words.old) (length rows.old)) (row_entries (rows_apart W.bits (dialect_of dialect) (order_of order) (W.numbers first.now) (W.numbers second.now))) rows.old }
    ensures answer { answer.new ≡ answered (compared W.bits (dialect_of dialect) (order_of order) (W.numbers first.now) (W.numbers second.now) (length words.old) (length rows.old)) answer.old }
{
    let dialect = Dialect::from(dialect);
    let order = StampOrder::from(order);
    let found = compare(dialect, first, second, order, words, rows);
    put_answer(found, answer);
}

fn put_answer(found: Result<Listed, Refusal>, answer: &mut [u64])
    ensures { answer.new ≡ answered found answer.old }
{
    if answer.len() < 3 {
        return;
    }
    answer[..3].copy_from_slice(&numbers_of(found));
}

fn numbers_of(found: Result<Listed, Refusal>) -> [u64; 3]
    ensures { result ≡ numbers_of found }
{
    match found {
        Ok(listed) => [0, listed.words as u64, listed.rows as u64],
        Err(refusal) => [refusal.fault as u64, refusal.place as u64, 0],
    }
}
