// Entries of the lent lists: three numbers for words that differ, nine for rows.
ghost use Rattle.std.specs.Prelude.{◌≡◌, [], ◌∷◌, ◌+◌, ◌*◌, ◌≤◌, length};
ghost use Rattle.std.proofs.lemmas.List.Edits.{sets};
ghost use Rattle.event.specs.Rows.{flat_row};
ghost use Rattle.comparison.specs.Differences.{difference, entry};

use event::Row;

// Entry k of the list becomes the index and both words.
pub(crate) fn put_words(list: &mut [u64], k: usize, index: u64, x: u64, y: u64)
    requires { 3 * k + 3 ≤ length list.old }
    ensures { list.new ≡ sets list.old (3 * k) (index ∷ x ∷ y ∷ []) }
{
    let at = 3 * k;
    list[at..at + 3].copy_from_slice(&[index, x, y]);
}

// Entry k of the list becomes the index and both rows.
pub(crate) fn put_rows(list: &mut [u32], k: usize, index: u32, r: Row, s: Row)
    requires { 9 * k + 9 ≤ length list.old }
    ensures { list.new ≡ sets list.old (9 * k) (entry flat_row (difference index r s)) }
{
    let at = 9 * k;
    list[at..at + 9].copy_from_slice(&[
        index, r.kind, r.unit, r.channel, r.datum, s.kind, s.unit, s.channel, s.datum,
    ]);
}
