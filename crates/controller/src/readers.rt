// What a caller may ask of the words. Nothing changes. A slot that the row does not have is closed, with no request.
ghost use Rattle.std.specs.Prelude.{◌≡◌, ◌+◌, ◌*◌, length, slice_index};
ghost use Rattle.bitset.specs.Places.{set_places, has_place as in_places};
ghost use Rattle.pipe.specs.Endpoints.{flag_of};
ghost use Rattle.words.specs.Record.{places_at};
ghost use Rattle.controller.specs.Words.{held_at, open_at};

use bitset::places::{count, has};
use words::cores::Core;
use words::row::{RECORD, word_at};

// The number of free descriptors.
pub fn free_count(core: Core) -> u64
    ensures { result ≡ length (set_places core.rest.free) }
{
    count(core.rest.free)
}

// Whether a slot has an endpoint.
pub fn is_open(slots: &[u64], slot: u8) -> bool
    ensures { result ≡ open_at slots.now slot }
{
    word_at(slots, slot) % 4 != 0
}

// Whether a slot has an uncollected request.
pub fn uncollected(slots: &[u64], slot: u8) -> bool
    ensures { result ≡ held_at slots.now slot }
{
    2 <= word_at(slots, slot) % 4
}

// 0 beyond the row.
pub fn word_in(slots: &[u64], at: usize) -> u64
    ensures { result ≡ slice_index slots.now at }
{
    slots.get(at).copied().unwrap_or(0)
}

// The places of a slot's request, a bit each: whose tokens a host writes back.
pub fn request_places(slots: &[u64], slot: u8) -> [u64; 4]
    ensures { result ≡ places_at slots.now slot }
{
    let at = RECORD * (slot as usize);
    [
        word_in(slots, at + 2),
        word_in(slots, at + 3),
        word_in(slots, at + 4),
        word_in(slots, at + 5),
    ]
}

// Whether a place is one of those of a slot's request.
pub fn has_place(slots: &[u64], slot: u8, place: u64) -> bool
    ensures { result ≡ in_places (places_at slots.now slot) place }
{
    has(request_places(slots, slot), place)
}

pub fn running(core: Core) -> bool
    ensures { result ≡ flag_of core.rest.running }
{
    core.rest.running != 0
}

pub fn interrupts_enabled(core: Core) -> bool
    ensures { result ≡ flag_of core.rest.enabled }
{
    core.rest.enabled != 0
}

pub fn interrupts_pending(core: Core) -> u32
    ensures { result ≡ core.rest.pending }
{
    core.rest.pending
}

pub fn interrupts_masked(core: Core) -> u32
    ensures { result ≡ core.rest.masked }
{
    core.rest.masked
}
