// The judge of core and slots: one pass over the slots, with no early exit.
ghost use Rattle.std.specs.Prelude.{◌≡◌, ◌*◌, length};
ghost use Rattle.word_ranges.specs.Judge.{slots_good, words_good};

use crate::bounds::{LAST, bounds_for, sizes_for};
use crate::scalars::core_good;
use crate::seen::{all_met, free_met, see_slot};
use words::cores::Core;
use words::row::{RECORD, places_at};

fn slots_good(
    slots: &[u64],
    endpoints: u8,
    descriptors: u64,
    limit: u64,
    unanswered: u8,
    free: [u64; 4],
) -> bool
    requires { length slots.now ≡ 6 * endpoints }
    ensures { result ≡ slots_good slots.now endpoints descriptors limit unanswered free }
{
    let bounds = bounds_for(unanswered);
    let sizes = sizes_for(limit);
    let mut s = free_met(free);
    for k in 0..endpoints {
        let at = RECORD * (k as usize);
        let word = slots[at];
        let bounded = word <= bounds[(word % 16) as usize];
        // The size less 1; 0 goes round to the last.
        let sized = (word / 16 % 2048 + LAST) % 2048 < sizes[(word % 16) as usize] as u64;
        s = see_slot(s, bounded & sized, word, slots[at + 1], places_at(slots, k));
    }
    all_met(s, descriptors)
}

// What a call that is lent core and slots asks.
pub fn words_good(c: Core, slots: &[u64]) -> bool
    ensures { result ≡ words_good c.settings c.rest slots.now }
{
    if !core_good(c) {
        return false;
    }
    let endpoints = c.settings.endpoints;
    if slots.len() != RECORD * (endpoints as usize) {
        return false;
    }
    slots_good(
        slots,
        endpoints,
        c.settings.descriptors,
        c.settings.limit,
        c.rest.unanswered,
        c.rest.free,
    )
}
