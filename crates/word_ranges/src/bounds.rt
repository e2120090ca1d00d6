// A slot's first word is at most a bound, by its lowest four bits: the phase and the kind. 0 where there is no such slot. Its packet size has
// a range of its own.
ghost use Rattle.std.specs.Prelude.{◌≡◌};
ghost use Rattle.word_ranges.specs.Bounds.{bounds_of, sizes_of};

use words::record::BOUNDARY;

const CLOSED: u64 = 0;

// A packet size and a toggle.
const IDLE: u64 = 0xFFFF;

// Direction and length besides.
const LINKED: u64 = 0x1_FFFF_FFFF_FFFF;

// Whether cancelled besides, and a FRINDEX.
const FRAME: u64 = 0xFFFF_FFFF_FFFF_FFFF;

const PACKET_MAX: u16 = 1024;

// As many as eleven bits have, and the last of them.
const SIZES: u16 = 2048;

pub const LAST: u64 = 2047;

// By kind, 0 to 3: of each phase. Those of unlinking control and bulk are put in.
const BOUNDS: [u64; 16] = [
    CLOSED, IDLE, LINKED, 0, 0, 0, 0, 0, 0, IDLE, LINKED, 0, 0, IDLE, LINKED, FRAME,
];

// The bounds, where so many unlinks are unanswered.
pub fn bounds_for(unanswered: u8) -> [u64; 16]
    ensures { result ≡ bounds_of unanswered }
{
    let most = BOUNDARY * (unanswered as u64 + 1) - 1;
    let mut bounds = BOUNDS;
    bounds[3] = most;
    bounds[11] = most;
    bounds
}

// How many packet sizes a slot may have, from 1 on, by the same four bits: of bulk and interrupt up to the limit; where it is closed, any.
pub fn sizes_for(limit: u64) -> [u16; 16]
    ensures { result ≡ sizes_of limit }
{
    let most = limit.min(PACKET_MAX as u64) as u16;
    [
        SIZES, PACKET_MAX, PACKET_MAX, PACKET_MAX, SIZES, most, most, most, SIZES, most, most,
        most, SIZES, most, most, most,
    ]
}
