// An advance is counted: each unlinking control or bulk request has one less to wait for.
ghost use Rattle.std.specs.Prelude.{◌≡◌, ◌*◌, length};
ghost use Rattle.words.specs.Record.{fallen_word, fall_to};

use crate::record::BOUNDARY;
use crate::row::RECORD;

fn fallen_word(word: u64) -> u64
    ensures { result ≡ fallen_word word }
{
    let phase = word % 4;
    let kind = word / 4 % 4;
    if phase == 3 && kind != 3 && BOUNDARY <= word {
        word - BOUNDARY
    } else {
        word
    }
}

pub fn fall(slots: &mut [u64], endpoints: u8)
    requires { length slots.old ≡ 6 * endpoints }
    ensures { slots.new ≡ fall_to slots.old endpoints }
{
    for k in 0..endpoints as usize {
        let at = RECORD * k;
        slots[at] = fallen_word(slots[at]);
    }
}
