// Submit: its checks, then what it takes, links and writes. The descriptors that it writes come out as a laying.
ghost use Rattle.std.specs.Prelude.{◌≡◌, ℕ, ◌+◌, ◌*◌, true, length};
ghost use Rattle.opening.specs.Opening.{rows_are_fit};
ghost use Rattle.pool.specs.Words.{LayingGood};
ghost use Rattle.settings.specs.Settings.{pool_length};
ghost use Rattle.words.specs.Good.{Good, Tidy};
ghost use Rattle.words.specs.View.{view};
ghost use Rattle.request.specs.Submit.{submit_of, submitted};
ghost use Rattle.request.specs.Words.{refused_words, submitted_view};

use crate::answers::Submitted;
use crate::judge::{TransferRequest, judge};
use crate::settle::settle;
use common::answer::Refusal;
use controller::lent::Readings;
use pipe::slots::{limit_of, pipe_at};
use pool::laying::no_laying;
use register::writes::Writes;
use token::chunks::need;
use words::cores::{Core, Rest};

fn refuse(rest: Rest, refusal: Refusal) -> Submitted
    ensures { result ≡ refused_words rest refusal }
{
    Submitted {
        answer: Err(refusal),
        rest,
        writes: Writes::none(),
        laying: no_laying(),
    }
}

pub fn submit(
    core: Core,
    slots: &mut [u64],
    heads: &mut [u32],
    frames: &mut [u32],
    setups: &mut [u8],
    readings: Readings,
    slot: u8,
    request: TransferRequest,
) -> Submitted
    requires good { Good core.settings core.rest slots.old }
    requires heads_len { (length heads.old ≡ 17 * (core.settings.endpoints + 1)) × (length frames.old ≡ 1024) × (length setups.old ≡ 8 * core.settings.endpoints) }
    ensures by_index { (pool : ℕ) → rows_are_fit core.settings pool (length heads.old) (length frames.old) (length setups.old) ≡ true
        → submitted (submitted_view core.settings result slots.new) heads.new frames.new setups.new
        ≡ submit_of (view core slots.old) pool heads.old frames.old setups.old readings slot request }
    ensures tidy { Tidy core.settings result.rest slots.new }
    ensures laying_good { LayingGood (pool_length core.settings) result.laying }
{
    let limit = limit_of(core.settings.limit, pipe_at(slots, slot));
    let wanted = need(request.kind, request.length, limit);
    match judge(core, slots, slot, request, wanted) {
        Err(refusal) => refuse(core.rest, refusal),
        Ok(()) => settle(
            core, slots, heads, frames, setups, readings, slot, request, limit, wanted,
        ),
    }
}
