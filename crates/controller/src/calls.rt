// The next device address, of a core in its ranges.
ghost use Rattle.std.specs.Prelude.{◌≡◌, ℕ, true, List};
ghost use Rattle.state.specs.Ranges.{in_ranges};
ghost use Rattle.words.specs.View.{view};
ghost use Rattle.controller.specs.Address.{allot_of};
ghost use Rattle.controller.specs.Words.{allotted_view};

use crate::left::Left;
use common::answer::Refusal;
use words::cores::Core;

pub fn allocate_address(core: Core) -> Left<u8>
    ensures by_index { (ws : List ℕ) → in_ranges (view core ws) ≡ true → allotted_view core.settings result ws ≡ allot_of (view core ws) }
    ensures free_value { result.rest.free ≡ core.rest.free }
{
    let mut rest = core.rest;
    let address = rest.address;
    if 127 < address {
        return Left {
            answer: Err(Refusal::SlotLimitReached),
            rest,
        };
    }
    rest.address = address + 1;
    Left {
        answer: Ok(address),
        rest,
    }
}
