// One slot of the row: its first two words, taken apart and put together.
ghost use Rattle.std.specs.Prelude.{◌≡◌, ◌<◌};
ghost use Rattle.words.specs.Record.{SlotFits, id_in, last_of, request_in, slot_in, word_of};

use slot::slot::Slot;

pub const BOUNDARY: u64 = 0x4_0000_0000_0000;

pub const CANCELLED: u64 = 0x2_0000_0000_0000;

const LAST_ID: u64 = 0xFFFF_FFFF_FFFF_FFFF;

// The id of the slot's next request.
pub fn id_in(last: u64) -> u64
    ensures { result ≡ id_in last }
{
    if last == LAST_ID { 1 } else { last + 1 }
}

fn request_in(phase: u64, last: u64) -> u64
    ensures { result ≡ request_in phase last }
{
    if 2 <= phase { last } else { 0 }
}

pub fn slot_in(word: u64, last: u64) -> Slot
    ensures { result ≡ slot_in word last }
{
    let phase = word % 4;
    Slot {
        phase: phase as u8,
        kind: (word / 4 % 4) as u8,
        size: (word / 16 % 2048) as u16,
        toggle: (word / 0x8000 % 2) as u8,
        id: id_in(last),
        request: request_in(phase, last),
        direction: (word / 0x1_0000 % 2) as u8,
        length: (word / 0x2_0000 % 0x1_0000_0000) as u32,
        cancel: (word / CANCELLED % 2) as u8,
        boundary: (word / BOUNDARY) as u16,
    }
}

pub fn word_of(e: Slot) -> u64
    requires { SlotFits e }
    ensures { result ≡ word_of e }
{
    let low = e.phase as u64
        + 4 * (e.kind as u64)
        + 16 * (e.size as u64)
        + 0x8000 * (e.toggle as u64)
        + 0x1_0000 * (e.direction as u64);
    let high = CANCELLED * (e.cancel as u64) + BOUNDARY * (e.boundary as u64);
    low + 0x2_0000 * (e.length as u64) + high
}

pub fn last_of(e: Slot) -> u64
    requires { SlotFits e }
    ensures { result ≡ last_of e }
{
    if 2 <= e.phase { e.request } else { e.id - 1 }
}
