// Whose each place of the pool is, by the words of the slots.
ghost use Rattle.std.specs.Prelude.{◌≡◌, ◌==◌};
ghost use Rattle.words.specs.View.{each_from, holds_bit, owner_from, view};
ghost use Rattle.store.specs.Tended.{lent_of};

use crate::store::slots_lent;
use controller::readers::word_in;
use words::cores::Core;
use words::row::RECORD;

fn holds(slots: &[u64], k: u8, place: u8) -> bool
    ensures { result ≡ (holds_bit slots.now k place == 1) }
{
    let i = place as u64;
    let j = (i / 64) as usize;
    let word = word_in(slots, RECORD * (k as usize) + (2 + j));
    (word >> (i % 64)) % 2 == 1
}

// The first slot that has it, plus 1; 0 where none has.
fn owner_of(slots: &[u64], place: u8) -> u8
    ensures { result ≡ owner_from 0 32 slots.now place }
{
    for k in 0..32 {
        if holds(slots, k, place) {
            return k + 1;
        }
    }
    0
}

fn owner_row(slots: &[u64]) -> [u8; 256]
    ensures { result ≡ each_from (owner_from 0 32 slots.now) 0 256 }
{
    let mut row = [0u8; 256];
    for (i, owner) in row.iter_mut().enumerate() {
        *owner = owner_of(slots, i as u8);
    }
    row
}

// The owner of each place, by the words that are lent.
pub fn owners(core: Core, slots: &[u64; 192]) -> [u8; 256]
    ensures { result ≡ (view core (lent_of core slots.now)).owner }
{
    owner_row(&slots[..slots_lent(core.settings)])
}
