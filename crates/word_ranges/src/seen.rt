// What the slots that were looked at come to.
ghost use Rattle.std.specs.Prelude.{◌≡◌};
ghost use Rattle.word_ranges.specs.Seen.{free_met, see_of, all_met};

use bitset::places::all_below;

// Whether each is good, the places that were met twice, and the places met, the free ones among them.
#[derive(Clone, Copy)]
pub struct Seen {
    pub good: bool,
    pub twice: u64,
    pub a: u64,
    pub b: u64,
    pub c: u64,
    pub d: u64,
}

// The largest last id of an idle slot: the one before the id that 1 follows.
const IDLE_LAST: u64 = 0xFFFF_FFFF_FFFF_FFFE;

pub fn free_met(free: [u64; 4]) -> Seen
    ensures { result ≡ free_met free }
{
    Seen {
        good: true,
        twice: 0,
        a: free[0],
        b: free[1],
        c: free[2],
        d: free[3],
    }
}

// One slot more: whether its first word is in its range, that word, its last id, its places. One with no request has no places to meet.
pub fn see_slot(s: Seen, bounded: bool, word: u64, last: u64, places: [u64; 4]) -> Seen
    ensures { result ≡ see_of s bounded word last places }
{
    let mut r = s;
    let good = s.good & bounded;
    let phase = word % 4;
    if phase < 2 {
        let held = places[0] | places[1] | places[2] | places[3];
        let largest = phase * IDLE_LAST;
        r.good = good & ((held == 0) & (last <= largest));
        return r;
    }
    r.good = good & (last != 0);
    r.twice = s.twice
        | (s.a & places[0])
        | (s.b & places[1])
        | (s.c & places[2])
        | (s.d & places[3]);
    r.a = s.a | places[0];
    r.b = s.b | places[1];
    r.c = s.c | places[2];
    r.d = s.d | places[3];
    r
}

// Every slot good, no place met twice, each place below `descriptors` met.
pub fn all_met(s: Seen, descriptors: u64) -> bool
    ensures { result ≡ all_met s descriptors }
{
    let all = all_below(descriptors);
    s.good & (s.twice == 0) & (s.a == all[0]) & (s.b == all[1]) & (s.c == all[2]) & (s.d == all[3])
}
