// The calls on interrupts.
ghost use Rattle.std.specs.Prelude.{◌≡◌};
ghost use Rattle.pipe.specs.Endpoints.{flag_of};
ghost use Rattle.interrupt.specs.Interrupts.{acknowledge_of, disable_of, drain_of, enable_of, rearm_of};
ghost use Rattle.direct_calls.specs.Shapes.{CoreCall, SlotsCall};
ghost use Rattle.ehci.specs.Replies.{acknowledged_answer, drained_answer, simply};
ghost use Rattle.bench_port.specs.Numbers.{pack_of, refused_numbers};
ghost use Rattle.bench_port.specs.Border.{seen_acknowledged, seen_drained, seen_in, seen_settled};

use crate::numbers::{Replied, pack};
use controller::left::Settled;
use direct_calls::interrupts::{acknowledge, disable, drain, enable, rearm};
use ehci::reply::{acknowledged_answer, drained_answer, simple};
use interrupt::answers::Event;
use words::cores::Core;

fn pack_acknowledged(x: Settled<bool>) -> Replied
    ensures { result ≡ pack_of x.rest (acknowledged_answer x.answer) x.writes }
{
    pack(x.rest, acknowledged_answer(x.answer), x.writes)
}

fn pack_drained(x: Settled<Event>) -> Replied
    ensures { result ≡ pack_of x.rest (drained_answer x.answer) x.writes }
{
    pack(x.rest, drained_answer(x.answer), x.writes)
}

fn pack_settled(x: Settled<()>) -> Replied
    ensures { result ≡ pack_of x.rest (simply x.answer) x.writes }
{
    pack(x.rest, simple(x.answer), x.writes)
}

// A flag is any number but 0.
#[unsafe(no_mangle)]
pub extern "C" fn port_acknowledge(
    core: Core,
    status: u32,
    interrupts: u32,
    flag: u8,
    again: u8,
) -> Replied
    ensures { CoreCall core result (refused_numbers core.rest) result.rest (seen_in core.settings result)
        (λ s. seen_acknowledged (acknowledge_of s status interrupts (flag_of flag) (flag_of again))) }
{
    pack_acknowledged(acknowledge(core, status, interrupts, flag != 0, again != 0))
}

#[unsafe(no_mangle)]
pub extern "C" fn port_drain(core: Core, slots: &mut [u64], command: u32) -> Replied
    ensures { SlotsCall core slots.old slots.new result (refused_numbers core.rest) result.rest
        (seen_in core.settings result slots.new) (λ s. seen_drained (drain_of s command)) }
{
    pack_drained(drain(core, slots, command))
}

#[unsafe(no_mangle)]
pub extern "C" fn port_rearm(core: Core) -> Replied
    ensures { CoreCall core result (refused_numbers core.rest) result.rest (seen_in core.settings result) (λ s. seen_settled (rearm_of s)) }
{
    pack_settled(rearm(core))
}

#[unsafe(no_mangle)]
pub extern "C" fn port_enable(core: Core) -> Replied
    ensures { CoreCall core result (refused_numbers core.rest) result.rest (seen_in core.settings result) (λ s. seen_settled (enable_of s)) }
{
    pack_settled(enable(core))
}

#[unsafe(no_mangle)]
pub extern "C" fn port_disable(core: Core) -> Replied
    ensures { CoreCall core result (refused_numbers core.rest) result.rest (seen_in core.settings result) (λ s. seen_settled (disable_of s)) }
{
    pack_settled(disable(core))
}
