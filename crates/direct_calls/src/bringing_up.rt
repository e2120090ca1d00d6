// Bringing the controller up. A step is lent the core alone.
ghost use Rattle.std.specs.Prelude.{◌≡◌};
ghost use Rattle.common.specs.declared.answer.Refusal.TheVariants.{InvalidParameter};
ghost use Rattle.bring_up.specs.BringUp.{start_of, step_of};
ghost use Rattle.bring_up.specs.Words.{brought_view, refused_words};
ghost use Rattle.direct_calls.specs.Shapes.{CoreCall, SlotsCall};

use bring_up::answers::BroughtUp;
use bring_up::calls::refuse;
use common::answer::Refusal;
use word_ranges::judge::words_good;
use word_ranges::scalars::core_good;
use words::cores::Core;

pub fn start_bring_up(core: Core, slots: &[u64]) -> BroughtUp
    ensures { SlotsCall core slots.now slots.now result (refused_words core.rest InvalidParameter) result.rest
        (brought_view core.settings result slots.now) start_of }
{
    if !words_good(core, slots) {
        return refuse(core.rest, Refusal::InvalidParameter);
    }
    bring_up::calls::start(core, slots)
}

// With what was read of the register that the call before asked for.
pub fn bring_up_step(core: Core, reading: u32) -> BroughtUp
    ensures { CoreCall core result (refused_words core.rest InvalidParameter) result.rest
        (brought_view core.settings result) (λ s. step_of s reading) }
{
    if !core_good(core) {
        return refuse(core.rest, Refusal::InvalidParameter);
    }
    bring_up::calls::step(core, reading)
}
