// Bringing the controller up.
ghost use Rattle.std.specs.Prelude.{◌≡◌};
ghost use Rattle.bring_up.specs.BringUp.{start_of, step_of};
ghost use Rattle.direct_calls.specs.Shapes.{CoreCall, SlotsCall};
ghost use Rattle.ehci.specs.Replies.{brought_answer};
ghost use Rattle.bench_port.specs.Numbers.{pack_of, refused_numbers};
ghost use Rattle.bench_port.specs.Border.{seen_brought, seen_in};

use crate::numbers::{Replied, pack};
use bring_up::answers::BroughtUp;
use direct_calls::bringing_up::{bring_up_step, start_bring_up};
use ehci::reply::brought_answer;
use words::cores::Core;

fn pack_brought(x: BroughtUp) -> Replied
    ensures { result ≡ pack_of x.rest (brought_answer x.answer x.read x.wait) x.writes }
{
    pack(x.rest, brought_answer(x.answer, x.read, x.wait), x.writes)
}

#[unsafe(no_mangle)]
pub extern "C" fn port_start_bring_up(core: Core, slots: &[u64]) -> Replied
    ensures { SlotsCall core slots.now slots.now result (refused_numbers core.rest) result.rest
        (seen_in core.settings result slots.now) (λ s. seen_brought (start_of s)) }
{
    pack_brought(start_bring_up(core, slots))
}

// With what was read of the register that the call before asked for.
#[unsafe(no_mangle)]
pub extern "C" fn port_bring_up_step(core: Core, reading: u32) -> Replied
    ensures { CoreCall core result (refused_numbers core.rest) result.rest (seen_in core.settings result) (λ s. seen_brought (step_of s reading)) }
{
    pack_brought(bring_up_step(core, reading))
}
