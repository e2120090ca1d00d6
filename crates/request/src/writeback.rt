// What the controller writes back: one token.
ghost use Rattle.std.specs.Prelude.{◌≡◌, ℕ, true, List};
ghost use Rattle.controller.specs.Lent.{accepts_of};
ghost use Rattle.controller.specs.Plain.{Lengths};
ghost use Rattle.pool.specs.Words.{MarkingGood};
ghost use Rattle.settings.specs.Settings.{pool_length};
ghost use Rattle.words.specs.Good.{Good};
ghost use Rattle.words.specs.View.{view};
ghost use Rattle.request.specs.Words.{taken_place, written_view};
ghost use Rattle.request.specs.Writeback.{writeback_of};

use crate::answers::WrittenBack;
use bitset::places::has;
use common::answer::Refusal;
use pool::marking::Mark;
use words::cores::Core;

// Whether an uncollected request has a descriptor: it is one of the pool's and not free.
fn in_request(core: Core, place: u64) -> bool
    ensures { result ≡ taken_place core.settings core.rest place }
{
    place < core.settings.descriptors && !has(core.rest.free, place)
}

// Only that descriptor's token is written.
pub fn writeback(core: Core, place: u64, token: u32) -> WrittenBack
    ensures by_index { (ws : List ℕ) → Good core.settings core.rest ws → (lent : Lengths) → accepts_of (view core ws) lent ≡ true
        → written_view core.settings result ws ≡ writeback_of (view core ws) lent place token }
    ensures rest_value { result.rest ≡ core.rest }
    ensures marking_good { MarkingGood (pool_length core.settings) result.marking }
{
    let rest = core.rest;
    if !in_request(core, place) {
        return WrittenBack {
            answer: Err(Refusal::InvalidParameter),
            rest,
            marking: None,
        };
    }
    WrittenBack {
        answer: Ok(()),
        rest,
        marking: Some(Mark {
            place: place as usize,
            token,
        }),
    }
}
