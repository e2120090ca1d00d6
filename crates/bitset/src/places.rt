// Sets of places: all below a place, one without another, both together, what a set has, its n lowest.
ghost use Rattle.std.specs.Prelude.{◌≡◌, ◌-◌, length};
ghost use Rattle.bitset.specs.Words.{ones_below};
ghost use Rattle.bitset.specs.Places.{Words, set_places, all_below, without_of, with_of, has_place, lowest_of};

use crate::word::{cleared, number, ones_below, take_part};

fn ones_from(n: u64, from: u64) -> u64
    ensures { result ≡ ones_below (n - from) }
{
    ones_below(n.saturating_sub(from))
}

// The places below n.
pub fn all_below(n: u64) -> [u64; 4]
    ensures { result ≡ all_below n }
{
    [
        ones_from(n, 0),
        ones_from(n, 64),
        ones_from(n, 128),
        ones_from(n, 192),
    ]
}

// The places of w that x does not have.
pub fn without(w: [u64; 4], x: [u64; 4]) -> [u64; 4]
    ensures { result ≡ without_of w x }
{
    [
        cleared(w[0], x[0]),
        cleared(w[1], x[1]),
        cleared(w[2], x[2]),
        cleared(w[3], x[3]),
    ]
}

// The places of w and of x.
pub fn with(w: [u64; 4], x: [u64; 4]) -> [u64; 4]
    ensures { result ≡ with_of w x }
{
    [w[0] | x[0], w[1] | x[1], w[2] | x[2], w[3] | x[3]]
}

pub fn has(w: [u64; 4], place: u64) -> bool
    ensures { result ≡ has_place w place }
{
    if 256 <= place {
        return false;
    }
    let j = (place / 64) as usize;
    (w[j] >> (place % 64)) % 2 == 1
}

// The n lowest places of a set, all where it has no more.
pub fn lowest_places(w: [u64; 4], n: u64) -> [u64; 4]
    ensures { (result ≡ lowest_of w n) × Words w }
{
    let a = take_part(w[0], n);
    let b = take_part(w[1], a.left);
    let c = take_part(w[2], b.left);
    let d = take_part(w[3], c.left);
    [a.taken, b.taken, c.taken, d.taken]
}

// How many places a set has.
pub fn count(w: [u64; 4]) -> u64
    ensures { (result ≡ length (set_places w)) × Words w }
{
    number(w[0]) + number(w[1]) + number(w[2]) + number(w[3])
}
