// Words of an event by their width: the numbers they are, and the reading of an event in them.
ghost use Rattle.std.specs.Prelude.{ℕ, List, ◌≡◌, map, length};
ghost use Rattle.std.proofs.Common.{sym};
ghost use Rattle.std.proofs.lemmas.List.{map-id};
ghost use Rattle.event.specs.Outcome.{answer_of, given, overlaid, in_room};
ghost use Rattle.event.specs.Rows.{flat, room};
ghost use Rattle.comparison.specs.Comparing.{reading_of};

use dialects::Dialect;
use event::StampOrder;
use event::refusal::Refusal;
use event::words::Word;

// Words of 16 or of 32 bits, of which an event is made.
pub trait EventWord: Word {
    // The bits of a word, and the numbers that words are.
    ghost bits: { ℕ };

    ghost numbers: { List Self → List ℕ };

    // Reads one event of the dialect into rows, four elements each. A refused reading leaves every element as it was.
    fn read(
        dialect: Dialect,
        words: &[Self],
        order: StampOrder,
        rows: &mut [u32],
    ) -> Result<usize, Refusal>
        ensures answer { result ≡ answer_of (in_room (room (length rows.old)) (reading_of bits dialect order (numbers words.now))) }
        ensures rows { rows.new ≡ overlaid (flat (given (in_room (room (length rows.old)) (reading_of bits dialect order (numbers words.now))))) rows.old };

    ghost each_number: { (words : List Self) → numbers words ≡ map Self.number words };
}

impl EventWord for u16 {
    ghost bits = { 16 };

    ghost numbers = { λ words. words };

    fn read(
        dialect: Dialect,
        words: &[u16],
        order: StampOrder,
        rows: &mut [u32],
    ) -> Result<usize, Refusal> {
        any_dialect::read(dialect, words, &[], order, rows)
    }

    ghost each_number = { λ words. sym (map-id words) };
}

impl EventWord for u32 {
    ghost bits = { 32 };

    ghost numbers = { λ words. words };

    fn read(
        dialect: Dialect,
        words: &[u32],
        order: StampOrder,
        rows: &mut [u32],
    ) -> Result<usize, Refusal> {
        any_dialect::read(dialect, &[], words, order, rows)
    }

    ghost each_number = { λ words. sym (map-id words) };
}
