// The lent row of slots: six words a slot.
ghost use Rattle.std.specs.Prelude.{◌≡◌, ◌+◌, ◌*◌, ◌≤◌, ◌<◌, length};
ghost use Rattle.words.specs.Record.{SlotFits, places_at, put_places, put_slot, size_in, slot_in, toggle_in, word_at, last_at};

use crate::record::{last_of, slot_in, word_of};
use slot::slot::Slot;

pub const RECORD: usize = 6;

// A slot's first word, 0 beyond the row.
pub fn word_at(slots: &[u64], k: u8) -> u64
    ensures { result ≡ word_at slots.now k }
{
    let at = RECORD * (k as usize);
    slots.get(at).copied().unwrap_or(0)
}

pub fn size_at(slots: &[u64], k: u8) -> u16
    ensures { result ≡ size_in (word_at slots.now k) }
{
    (word_at(slots, k) / 16 % 2048) as u16
}

pub fn toggle_at(slots: &[u64], k: u8) -> u8
    ensures { result ≡ toggle_in (word_at slots.now k) }
{
    (word_at(slots, k) / 0x8000 % 2) as u8
}

fn last_at(slots: &[u64], k: u8) -> u64
    ensures { result ≡ last_at slots.now k }
{
    let at = RECORD * (k as usize) + 1;
    slots.get(at).copied().unwrap_or(0)
}

// A slot beyond the row is closed.
pub fn slot_at(slots: &[u64], k: u8) -> Slot
    ensures { result ≡ slot_in (word_at slots.now k) (last_at slots.now k) }
{
    slot_in(word_at(slots, k), last_at(slots, k))
}

// The slot is replaced, its places stay.
pub fn put_slot(slots: &mut [u64], k: u8, e: Slot)
    requires k_in_bounds { 6 * k + 6 ≤ length slots.old }
    requires slot_fits { SlotFits e }
    ensures { slots.new ≡ put_slot slots.old k e }
{
    let at = RECORD * (k as usize);
    slots[at] = word_of(e);
    slots[at + 1] = last_of(e);
}

// The places of the slot's request.
pub fn places_at(slots: &[u64], k: u8) -> [u64; 4]
    requires { 6 * k + 6 ≤ length slots.now }
    ensures { result ≡ places_at slots.now k }
{
    let at = RECORD * (k as usize) + 2;
    [slots[at], slots[at + 1], slots[at + 2], slots[at + 3]]
}

pub fn put_places(slots: &mut [u64], k: u8, w: [u64; 4])
    requires { 6 * k + 6 ≤ length slots.old }
    ensures { slots.new ≡ put_places slots.old k w }
{
    let at = RECORD * (k as usize) + 2;
    slots[at] = w[0];
    slots[at + 1] = w[1];
    slots[at + 2] = w[2];
    slots[at + 3] = w[3];
}
