// The rows of a region after its own row, as many as its size says: the first that breaks a rule, or the number of words up to there, the header's too.
ghost use Rattle.std.specs.Prelude.{◌≡◌, ◌≤◌, true, false, length, drop};
ghost use Rattle.event.specs.Parser.{times, each, alone};
ghost use Rattle.event.specs.Words.{word_alone};
ghost use Rattle.event.specs.Writing.{rows_in};
ghost use Rattle.rcnp_layout.specs.Layout.{scaler_words, next_index, begins};
ghost use Rattle.rcnp_layout.specs.Writing.{word, scaler_at, vdc_value};
ghost use Rattle.rcnp_writer.specs.Faults.{ChamberRight};
ghost use Rattle.rcnp_writer.specs.Parts.{vdc_words, Counts};

use crate::fault::{check_datum, check_vdc, last_kind, vdc_right};
use crate::run::row_there;
use event::Part;
use event::kind::Kind;
use event::refusal::Refusal;
use event::rows::row_at;

// n words as they are, from row `first` on.
#[tactic(auto, using(event::proofs::RowsIn::rows_count))]
pub(crate) fn judge_words(rows: &[u32], first: usize, n: u32) -> Result<Part, Refusal>
    requires { (1 ≤ first) × (first ≤ length (rows_in rows.now)) }
    ensures { Counts (each word_alone) (times (λ u. word) alone n tt first (drop first (rows_in rows.now))) (rows_in rows.now) 1 result }
{
    let count = n as usize;
    for k in 0..count {
        check_datum(
            row_at(rows, first + k),
            Kind::RegionWord,
            0,
            65536,
            first + k,
        )?;
    }
    Ok(Part {
        next: first + count,
        count: 1 + count,
    })
}

// n scalers, from row `first` on.
#[tactic(auto, using(event::proofs::RowsIn::rows_count))]
pub(crate) fn judge_scalers(rows: &[u32], first: usize, n: u32) -> Result<Part, Refusal>
    requires { (1 ≤ first) × (first ≤ length (rows_in rows.now)) }
    ensures { Counts (each scaler_words) (times scaler_at next_index n 0 first (drop first (rows_in rows.now))) (rows_in rows.now) 1 result }
{
    for index in 0..n {
        let i = first + index as usize;
        check_datum(row_at(rows, i), Kind::RegionScaler, index, 0x0100_0000, i)?;
    }
    let count = n as usize;
    Ok(Part {
        next: first + count,
        count: 1 + 2 * count,
    })
}

// Whether the n rows of a VDC region from row `first` on are there and break no rule. (No row ends the loop, so that several may be judged at once.)
#[tactic(auto, using(event::proofs::RowsIn::rows_count))]
fn chamber_right(rows: &[u32], first: usize, n: usize) -> bool
    requires { first ≤ length (rows_in rows.now) }
    ensures { result ≡ true → ChamberRight (rows_in rows.now) first n }
{
    if rows.len() / 4 - first < n {
        return false;
    }
    let mut right = true;
    let mut most = last_kind(false);
    for k in 0..n {
        right = right & vdc_right(row_there(rows, first + k), most);
        most = last_kind(true);
    }
    right
}

// n words of the vertical drift chamber, from row `first` on. The first that breaks a rule is looked for only where one does.
#[tactic(auto, using(event::proofs::RowsIn::rows_count))]
pub(crate) fn judge_chamber(rows: &[u32], first: usize, n: u32) -> Result<Part, Refusal>
    requires { (1 ≤ first) × (first ≤ length (rows_in rows.now)) }
    ensures { Counts (each vdc_words) (times vdc_value begins n false first (drop first (rows_in rows.now))) (rows_in rows.now) 1 result }
{
    let count = n as usize;
    if chamber_right(rows, first, count) {
        return Ok(Part {
            next: first + count,
            count: 1 + count,
        });
    }
    check_chamber(rows, first, count)
}

// Row by row.
#[tactic(auto, using(event::proofs::RowsIn::rows_count))]
fn check_chamber(rows: &[u32], first: usize, n: usize) -> Result<Part, Refusal>
    requires { (1 ≤ first) × (first ≤ length (rows_in rows.now)) }
    ensures { Counts (each vdc_words) (times vdc_value begins n false first (drop first (rows_in rows.now))) (rows_in rows.now) 1 result }
{
    let mut begun = false;
    for k in 0..n {
        check_vdc(row_at(rows, first + k), begun, first + k)?;
        begun = true;
    }
    Ok(Part {
        next: first + n,
        count: 1 + n,
    })
}
