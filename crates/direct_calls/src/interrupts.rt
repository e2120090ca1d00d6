// The calls on interrupts. All but a drain are lent the core alone.
ghost use Rattle.std.specs.Prelude.{◌≡◌};
ghost use Rattle.interrupt.specs.Interrupts.{acknowledge_of, disable_of, drain_of, enable_of, rearm_of};
ghost use Rattle.interrupt.specs.Words.{acknowledged_view, drained_view, settled_view};
ghost use Rattle.direct_calls.specs.Refusals.{refused_acknowledgement, refused_drainage, refused_settled};
ghost use Rattle.direct_calls.specs.Shapes.{CoreCall, SlotsCall};

use common::answer::Refusal;
use controller::left::Settled;
use interrupt::answers::Event;
use register::writes::Writes;
use word_ranges::judge::words_good;
use word_ranges::scalars::core_good;
use words::cores::{Core, Rest};

// What rearm, enable and disable leave of a core that is not in its ranges.
fn refuse(rest: Rest) -> Settled<()>
    ensures { result ≡ refused_settled rest }
{
    Settled {
        answer: Err(Refusal::InvalidParameter),
        rest,
        writes: Writes::none(),
    }
}

fn refuse_acknowledge(rest: Rest) -> Settled<bool>
    ensures { result ≡ refused_acknowledgement rest }
{
    Settled {
        answer: Err(Refusal::InvalidParameter),
        rest,
        writes: Writes::none(),
    }
}

pub fn acknowledge(
    core: Core,
    status: u32,
    interrupts: u32,
    flag: bool,
    again: bool,
) -> Settled<bool>
    ensures { CoreCall core result (refused_acknowledgement core.rest) result.rest
        (acknowledged_view core.settings result) (λ s. acknowledge_of s status interrupts flag again) }
{
    if !core_good(core) {
        return refuse_acknowledge(core.rest);
    }
    interrupt::calls::acknowledge(core, status, interrupts, flag, again)
}

fn refuse_drain(rest: Rest) -> Settled<Event>
    ensures { result ≡ refused_drainage rest }
{
    Settled {
        answer: Err(Refusal::InvalidParameter),
        rest,
        writes: Writes::none(),
    }
}

// Given USBCMD as read, for the ring that a counted advance may make.
pub fn drain(core: Core, slots: &mut [u64], command: u32) -> Settled<Event>
    ensures { SlotsCall core slots.old slots.new result (refused_drainage core.rest) result.rest
        (drained_view core.settings result slots.new) (λ s. drain_of s command) }
{
    if !words_good(core, slots) {
        return refuse_drain(core.rest);
    }
    interrupt::calls::drain(core, slots, command)
}

pub fn rearm(core: Core) -> Settled<()>
    ensures { CoreCall core result (refused_settled core.rest) result.rest (settled_view core.settings result) rearm_of }
{
    if !core_good(core) {
        return refuse(core.rest);
    }
    interrupt::calls::rearm(core)
}

pub fn enable(core: Core) -> Settled<()>
    ensures { CoreCall core result (refused_settled core.rest) result.rest (settled_view core.settings result) enable_of }
{
    if !core_good(core) {
        return refuse(core.rest);
    }
    interrupt::calls::enable(core)
}

pub fn disable(core: Core) -> Settled<()>
    ensures { CoreCall core result (refused_settled core.rest) result.rest (settled_view core.settings result) disable_of }
{
    if !core_good(core) {
        return refuse(core.rest);
    }
    interrupt::calls::disable(core)
}
