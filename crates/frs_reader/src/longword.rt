// The fields of a longword, and the layouts that one may have.
ghost use Rattle.std.specs.Prelude.{◌<◌, ◌/◌, ◌%◌, ◌^◌, ◌≡◌, length, get_or};
ghost use Rattle.event.specs.Refusal.{verdict};
ghost use Rattle.frs_reader.specs.Longword.{under, is_header, header_fault, value_fault, footer_fault};

use event::channels::contains;
use event::refusal::{Fault, Refusal, refuse};

pub(crate) fn word(words: &[u32], at: usize) -> u32
    requires { at < length words.now }
    ensures { result ≡ get_or words.now at 0 }
{
    words[at]
}

// GEO in bits 31-27.
pub(crate) fn geo_of(w: u32) -> u32
    ensures { result ≡ w / 2 ^ 27 }
{
    w / 0x0800_0000
}

// Flag in bits 26-24.
pub(crate) fn flag_of(w: u32) -> u32
    ensures { result ≡ w / 2 ^ 24 % 2 ^ 3 }
{
    w / 0x0100_0000 % 8
}

// Channel in bits 20-16.
pub(crate) fn channel_of(w: u32) -> u32
    ensures { result ≡ w / 2 ^ 16 % 2 ^ 5 }
{
    w / 0x0001_0000 % 32
}

// The data, bits 15-0, of the longword at `at`, whose upper half must be the one given.
pub(crate) fn data_under(upper: u32, words: &[u32], at: usize) -> Result<u32, Refusal>
    requires { at < length words.now }
    ensures { result ≡ under upper at (get_or words.now at 0) }
{
    let w = word(words, at);
    if w / 0x0001_0000 != upper {
        return refuse(Fault::Data, at);
    }
    Ok(w % 0x0001_0000)
}

// The footer of the module with this GEO: flag 4 over bits 23-16 zero. One comparison: with its fields compared one by one, which asks for no bound of the GEO, the
// loop over the data longwords, which is compiled with it, took half a nanosecond a longword more.
pub(crate) fn check_footer(geo: u32, w: u32, place: usize) -> Result<(), Refusal>
    requires { geo < 32 }
    ensures { result ≡ verdict (footer_fault geo w) place }
{
    if w / 0x0001_0000 != geo * 0x0800 + 0x0400 {
        return refuse(Fault::Inner, place);
    }
    Ok(())
}

// A module's header, its GEO apart: flag 6 over 0, or flag 2 over a count from 1 to 32.
fn is_header(w: u32) -> bool
    ensures { result ≡ is_header w }
{
    let low = w % 0x0100_0000;
    match flag_of(w) {
        6 => low == 0,
        2 => 1 <= low && low <= frs_format::LARGEST_COUNT,
        _ => false,
    }
}

// A module's header: its GEO is neither the pattern unit's nor the scaler's, nor among those seen.
pub(crate) fn check_header(seen: u32, w: u32, place: usize) -> Result<(), Refusal>
    ensures { result ≡ verdict (header_fault seen w) place }
{
    let geo = geo_of(w);
    if !is_header(w) || geo == frs_format::PATTERN_GEO || geo == frs_format::SCALER_GEO {
        return refuse(Fault::Tag, place);
    }
    if contains(seen, geo) {
        return refuse(Fault::Repeated, place);
    }
    Ok(())
}

// A data longword of the module with this GEO, with a channel not among those seen. Bits 31-21 and 15 must be the GEO over zeros, the flag 0 among them:
// written so, they are one mask and one comparison.
pub(crate) fn check_value(geo: u32, seen: u32, w: u32, place: usize) -> Result<(), Refusal>
    requires { geo < 32 }
    ensures { result ≡ verdict (value_fault geo seen w) place }
{
    let above = w / 0x0020_0000 * 0x0020_0000;
    let between = w % 0x0001_0000 / frs_format::DATUM_END * frs_format::DATUM_END;
    if above + between != geo * 0x0800_0000 {
        return refuse(Fault::Data, place);
    }
    if contains(seen, channel_of(w)) {
        return refuse(Fault::Repeated, place);
    }
    Ok(())
}
