// The numbers of dialect F that reading and writing share (document 01, 'Dialect F').
#![tactic(auto)]

// An event has from 7 to 1,062 longwords (document 01, 'Dialect F').
pub const SMALLEST_EVENT: usize = 7;

pub const LARGEST_EVENT: usize = 1062;

// The stamp: its first longword, and the upper halves of the other three.
pub const STAMP: u32 = 0x0000_0200;

pub const STAMP_WORD_1: u32 = 0x00f7;

pub const STAMP_WORD_2: u32 = 0x01f7;

pub const STAMP_WORD_3: u32 = 0x02f7;

// The scaler: its GEO, its header over the count (alone, with the least count and with the most), its footer.
pub const SCALER_GEO: u32 = 6;

pub const SCALER_HEADER: u32 = 0x3200_0000;

pub const SCALER_HEADER_LEAST: u32 = 0x3200_0001;

pub const SCALER_HEADER_MOST: u32 = 0x3200_0020;

pub const SCALER_END: u32 = 0x3400_0000;

// The pattern unit: its GEO, its header, the upper halves of its data, its footer.
pub const PATTERN_GEO: u32 = 5;

pub const PATTERN_HEADER: u32 = 0x2a00_0002;

pub const PATTERN_REGISTER: u32 = 0x2800;

pub const PATTERN_MULTIPLICITY: u32 = 0x2801;

pub const PATTERN_END: u32 = 0x2c00_0000;

// A block has at most this many values.
pub const LARGEST_COUNT: u32 = 32;

// A datum, bits 14-0 of a data longword, is below this number (document 02, #106).
pub const DATUM_END: u32 = 32768;
