// Cancel: the one call on requests that is lent no pool records.
ghost use Rattle.std.specs.Prelude.{◌≡◌};
ghost use Rattle.common.specs.declared.answer.Refusal.TheVariants.{InvalidParameter};
ghost use Rattle.words.specs.View.{view};
ghost use Rattle.collection.specs.Calls.{cancel_of};
ghost use Rattle.collection.specs.Unlinks.{left};
ghost use Rattle.collection.specs.Words.{cancelled_view, refused_cancel_words};
ghost use Rattle.direct_calls.specs.Shapes.{FramesCall};

use crate::takes::takes_frames;
use collection::answers::refuse_cancel;
use common::answer::Refusal;
use controller::left::Settled;
use controller::lent::Readings;
use words::cores::Core;

pub fn cancel(
    core: Core,
    slots: &mut [u64],
    heads: &mut [u32],
    frames: &mut [u32],
    slot: u8,
    id: u64,
    readings: Readings,
) -> Settled<()>
    ensures { FramesCall core slots.old slots.new heads.old heads.new
        frames.old frames.new result (refused_cancel_words core.rest InvalidParameter) result.rest
        (left (cancelled_view core.settings result slots.new) heads.new frames.new)
        (λ pool setups. cancel_of (view core slots.old) pool heads.old frames.old setups readings slot id) }
{
    if !takes_frames(core, slots, heads, frames) {
        return refuse_cancel(core.rest, Refusal::InvalidParameter);
    }
    collection::calls::cancel(core, slots, heads, frames, readings, slot, id)
}
