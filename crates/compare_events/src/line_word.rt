// Words of a hexadecimal line by their width.
ghost use Rattle.std.specs.Prelude.{◌≡◌, ◌≤◌, length};
ghost use Rattle.dialects.specs.Dialects.{width};
ghost use Rattle.hex_line.specs.Line.{line_words, most_words};
ghost use Rattle.compare_events.specs.Run.{WordsGiven};

use compare::EventWord;
use dialects::Dialect;
use event::refusal::Refusal;

pub(crate) trait LineWord: EventWord {
    // The words of a line of a dialect of this width, at the front of room for the words of any line: so 24 never shows.
    fn words_of<'a>(
        dialect: Dialect,
        line: &[u8],
        words: &'a mut [Self],
    ) -> Result<&'a [Self], Refusal>
        requires { (width dialect ≡ Self.bits) × (most_words dialect ≤ length words.old) }
        ensures { WordsGiven Self.numbers (line_words dialect line.now) result };
}

impl LineWord for u16 {
    fn words_of<'a>(
        dialect: Dialect,
        line: &[u8],
        words: &'a mut [u16],
    ) -> Result<&'a [u16], Refusal> {
        let count = hex_line::words(dialect, line, words, &mut [])?;
        Ok(&words[..count])
    }
}

impl LineWord for u32 {
    fn words_of<'a>(
        dialect: Dialect,
        line: &[u8],
        words: &'a mut [u32],
    ) -> Result<&'a [u32], Refusal> {
        let count = hex_line::words(dialect, line, &mut [], words)?;
        Ok(&words[..count])
    }
}
