// One word of a set: how many bits, the lowest, the n lowest, the bits below one.
ghost use Rattle.std.specs.Prelude.{◌≡◌, ◌-◌, ◌≤◌, ◌<◌, ◌^◌};
ghost use Rattle.std.specs.Int.Bits.{bit_and};
ghost use Rattle.std.specs.Int.Count.{ones, count_trailing_zeros};
ghost use Rattle.bitset.specs.Words.{drop_bits, part_of, ones_below, cleared_of};

// Bits that were taken from a word, and how many are still wanted.
#[derive(Clone, Copy)]
pub struct Part {
    pub taken: u64,
    pub left: u64,
}

pub fn number(x: u64) -> u64
    ensures { (result ≡ ones x) × (result ≤ 64) × (x < 2 ^ 64) }
{
    u64::count_ones(x) as u64
}

// The place of the lowest set bit, 64 where there is none.
pub fn lowest(x: u64) -> u64
    ensures { result ≡ count_trailing_zeros 64 x }
{
    u64::trailing_zeros(x) as u64
}

// The lowest set bit is cleared, where there is one.
pub fn drop_lowest(x: u64) -> u64
    ensures { result ≡ bit_and x (x - 1) }
{
    if x == 0 { 0 } else { x & (x - 1) }
}

// The n lowest set bits are cleared.
fn drop_low(x: u64, n: u64) -> u64
    requires { n ≤ ones x }
    ensures { result ≡ drop_bits 64 x n }
{
    let mut rest = x;
    for _ in 0..n {
        rest = drop_lowest(rest);
    }
    rest
}

// The n lowest set bits of a word, all where it has no more; and how many are still wanted.
pub fn take_part(x: u64, n: u64) -> Part
    ensures { (result ≡ part_of x n) × (x < 2 ^ 64) }
{
    let have = number(x);
    if have <= n {
        return Part {
            taken: x,
            left: n - have,
        };
    }
    let rest = drop_low(x, n);
    Part {
        taken: x - rest,
        left: 0,
    }
}

// The n lowest bits, all where n is 64 or more.
pub fn ones_below(n: u64) -> u64
    ensures { result ≡ ones_below n }
{
    if 64 <= n {
        0xFFFF_FFFF_FFFF_FFFF
    } else {
        (1 << n) - 1
    }
}

// The bits of x are cleared.
pub fn cleared(w: u64, x: u64) -> u64
    ensures { result ≡ cleared_of w x }
{
    w - (w & x)
}
