// Text: numbers as digits, over the bytes from a place on; little-endian numbers among bytes.
#![tactic(auto)]

pub mod digits;
pub mod number;
