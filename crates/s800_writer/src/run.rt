// The rows that are to be written.
ghost use Rattle.std.specs.Prelude.{◌≤◌, ◌<◌, ◌*◌, length};
ghost use Rattle.event.specs.Writing.{rows_in};

// The rows from row `from` on, and the word that theirs begin at. A row gives at most four words, so that no count of words wraps.
#[derive(Clone, Copy)]
pub(crate) struct Run<'a> {
    pub(crate) rows: &'a [u32],
    pub(crate) from: usize,
    pub(crate) first: usize,
    ghost inside: { from ≤ length (rows_in rows.now) },
    ghost few: { first ≤ 4 * from },
}

// A packet's own row, row `at`.
#[derive(Clone, Copy)]
pub(crate) struct OwnRow<'a> {
    pub(crate) rows: &'a [u32],
    pub(crate) at: usize,
    ghost there: { at < length (rows_in rows.now) },
}
