// Sets of at most 256 places as four words of bits: bit i of word j is place 64 j + i.
#![tactic(auto)]

pub mod cursor;
pub mod places;
pub mod word;
