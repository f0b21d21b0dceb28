// The dialects side by side: which there are, and how wide their words are. Demands 2 and 3 and the spoken cases are its specs/ and proofs/.
#![tactic(auto)]

ghost use Rattle.std.specs.Prelude.{◌≡◌};
ghost use Rattle.dialects.specs.Dialects.{width, dialect_of};

// S, one S800 event of version 5 in 16-bit words; F, one FRS VME event in 32-bit longwords (document 01, 'Two dialects'); R, one event of RCNP regions in
// 16-bit words (document 02, #101).
#[derive(Clone, Copy, Debug, PartialEq, Eq)]
pub enum Dialect {
    S,
    F,
    R,
}

// The most rows of an event of any dialect.
pub const LARGEST_ROWS: usize = 4096;

// The bits of a word.
pub fn width(dialect: Dialect) -> usize
    ensures { result ≡ width dialect }
{
    match dialect {
        Dialect::S => 16,
        Dialect::F => 32,
        Dialect::R => 16,
    }
}

// The dialect of a number, for a call that can pass no enum: 0 is S, 1 is F, any other R.
impl From<u32> for Dialect {
    ghost from_gives = { λ number dialect. dialect ≡ dialect_of number };

    fn from(number: u32) -> Dialect {
        match number {
            0 => Dialect::S,
            1 => Dialect::F,
            _ => Dialect::R,
        }
    }
}
