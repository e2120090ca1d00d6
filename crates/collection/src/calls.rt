// Cancel and collect, on words in their ranges. The lengths of the rows that are not lent are those that opening fixed.
ghost use Rattle.std.specs.Prelude.{◌≡◌, ℕ, ◌+◌, ◌*◌, true, length};
ghost use Rattle.opening.specs.Opening.{rows_are_fit};
ghost use Rattle.words.specs.Good.{Good, Tidy};
ghost use Rattle.words.specs.View.{view};
ghost use Rattle.collection.specs.Calls.{cancel_of, collect_of, gathered};
ghost use Rattle.collection.specs.Unlinks.{left};
ghost use Rattle.collection.specs.Words.{cancelled_view, collected_view};

use crate::answers::{refuse_cancel, refuse_collect, still_pending};
use crate::collected::Collected;
use crate::finish::{collect_linked, collect_unlinking};
use crate::unlink::{mark, marked, unlink};
use common::answer::Refusal;
use controller::left::Settled;
use controller::lent::Readings;
use pipe::endpoints::Endpoint;
use pipe::slots::endpoint_at;
use pool::chain::View;
use words::cores::Core;

// As many unlinks as there are slots: none can be that of a slot that is still linked.
pub const UNLINKS: u8 = 32;

pub fn cancel(
    core: Core,
    slots: &mut [u64],
    heads: &mut [u32],
    frames: &mut [u32],
    readings: Readings,
    slot: u8,
    id: u64,
) -> Settled<()>
    requires good { Good core.settings core.rest slots.old }
    requires heads_len { (length heads.old ≡ 17 * (core.settings.endpoints + 1)) × (length frames.old ≡ 1024) }
    ensures by_index { (pool setups : ℕ) → rows_are_fit core.settings pool (length heads.old) (length frames.old) setups ≡ true
        → left (cancelled_view core.settings result slots.new) heads.new frames.new
        ≡ cancel_of (view core slots.old) pool heads.old frames.old setups readings slot id }
    ensures tidy { Tidy core.settings result.rest slots.new }
{
    match endpoint_at(core, slots, slot) {
        Endpoint::Closed => refuse_cancel(core.rest, Refusal::InvalidEndpoint),
        Endpoint::Idle(_) => refuse_cancel(core.rest, Refusal::InvalidEndpoint),
        Endpoint::Linked(p, r) => {
            let unanswered = core.rest.unanswered;
            if UNLINKS <= unanswered {
                return refuse_cancel(core.rest, Refusal::InvalidParameter);
            }
            let own = r.id;
            if own != id {
                return refuse_cancel(core.rest, Refusal::InvalidEndpoint);
            }
            unlink(core, slots, heads, frames, readings, slot, p, marked(r))
        }
        Endpoint::Unlinking(p, r, b) => {
            let own = r.id;
            if own != id {
                return refuse_cancel(core.rest, Refusal::InvalidEndpoint);
            }
            mark(core, slots, slot, p, r, b)
        }
    }
}

// `seen` is what the records of `ask` say.
pub fn collect(
    core: Core,
    slots: &mut [u64],
    heads: &mut [u32],
    frames: &mut [u32],
    readings: Readings,
    seen: View,
    slot: u8,
    id: u64,
) -> Settled<Collected>
    requires good { Good core.settings core.rest slots.old }
    requires heads_len { (length heads.old ≡ 17 * (core.settings.endpoints + 1)) × (length frames.old ≡ 1024) }
    ensures by_index { (pool setups : ℕ) → rows_are_fit core.settings pool (length heads.old) (length frames.old) setups ≡ true
        → gathered (collected_view core.settings result slots.new) heads.new frames.new
        ≡ collect_of (view core slots.old) pool heads.old frames.old setups readings seen slot id }
    ensures tidy { Tidy core.settings result.rest slots.new }
{
    match endpoint_at(core, slots, slot) {
        Endpoint::Closed => refuse_collect(core.rest, Refusal::InvalidEndpoint),
        Endpoint::Idle(_) => still_pending(core.rest),
        Endpoint::Linked(p, r) => {
            let unanswered = core.rest.unanswered;
            if UNLINKS <= unanswered {
                return refuse_collect(core.rest, Refusal::InvalidParameter);
            }
            let own = r.id;
            if own != id {
                return refuse_collect(core.rest, Refusal::InvalidEndpoint);
            }
            collect_linked(core, slots, heads, frames, readings, seen.stage, slot, p, r)
        }
        Endpoint::Unlinking(p, r, b) => {
            let own = r.id;
            if own != id {
                return refuse_collect(core.rest, Refusal::InvalidEndpoint);
            }
            collect_unlinking(core, slots, heads, readings, seen, slot, p, r, b)
        }
    }
}
