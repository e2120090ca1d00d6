// A set that is gone through from its lowest place on.
ghost use Rattle.std.specs.Prelude.{◌≡◌, ◌≤◌, ◌<◌};
ghost use Rattle.bitset.specs.Places.{set_places};
ghost use Rattle.bitset.specs.Rest.{rest_of, coming_of, next_of, settled_of, cursor_of, advance_of, place_at, is_none, tail_of};

use crate::word::{drop_lowest, lowest};

// The word that is looked at, the place of its lowest bit, and the words after it. A byte holds every base, so no sum wraps.
#[derive(Clone, Copy)]
pub struct Cursor {
    pub base: u8,
    pub word: u64,
    pub second: u64,
    pub third: u64,
    pub fourth: u64,
}

fn next_word(c: Cursor) -> Cursor
    requires { c.base ≤ 128 }
    ensures { result ≡ next_of c }
{
    Cursor {
        base: c.base + 64,
        word: c.second,
        second: c.third,
        third: c.fourth,
        fourth: 0,
    }
}

// At a word that is not 0, where there is one.
fn settled(c: Cursor) -> Cursor
    ensures { (result ≡ settled_of c) × (rest_of result ≡ coming_of c) }
{
    let mut at = c;
    while at.word == 0 {
        if 128 < at.base {
            return at;
        }
        at = next_word(at);
    }
    at
}

// At the lowest place of a set.
pub fn cursor_of(w: [u64; 4]) -> Cursor
    ensures { (result ≡ cursor_of w) × (rest_of result ≡ set_places w) }
{
    settled(Cursor {
        base: 0,
        word: w[0],
        second: w[1],
        third: w[2],
        fourth: w[3],
    })
}

pub fn at_end(c: Cursor) -> bool
    ensures { result ≡ is_none (rest_of c) }
{
    c.word == 0
}

pub fn place_at(c: Cursor) -> usize
    ensures { (result ≡ place_at c) × (result < 320) }
{
    c.base as usize + lowest(c.word) as usize
}

// At the place after this one; at its end it stays.
pub fn advance(c: Cursor) -> Cursor
    ensures { (result ≡ advance_of c) × (rest_of result ≡ tail_of (rest_of c)) }
{
    if c.word == 0 {
        return c;
    }
    let rest = drop_lowest(c.word);
    let mut at = c;
    at.word = rest;
    if rest != 0 {
        return at;
    }
    settled(at)
}
