// The calls on interrupts.
ghost use Rattle.pipe.specs.Endpoints.{flag_of};
ghost use Rattle.interrupt.specs.Interrupts.{acknowledge_of, disable_of, drain_of, enable_of, rearm_of};
ghost use Rattle.direct_calls.specs.Shapes.{CoreCall, SlotsCall};
ghost use Rattle.bench_port.specs.Numbers.{refused_numbers};
ghost use Rattle.bench_port.specs.Border.{seen_acknowledged, seen_drained, seen_in, seen_settled};

use bench_port::numbers::Replied;
use words::cores::Core;

// A flag is any number but 0.
#[unsafe(no_mangle)]
pub extern "C" fn port_acknowledge(
    core: Core,
    status: u32,
    interrupts: u32,
    flag: u8,
    again: u8,
) -> Replied
    ensures { CoreCall core result (refused_numbers core.rest) result.rest (seen_in core.settings result)
        (λ s. seen_acknowledged (acknowledge_of s status interrupts (flag_of flag) (flag_of again))) }
{
    bench_port::interrupts::port_acknowledge(core, status, interrupts, flag, again)
}

#[unsafe(no_mangle)]
pub extern "C" fn port_drain(core: Core, slots: &mut [u64], command: u32) -> Replied
    ensures { SlotsCall core slots.old slots.new result (refused_numbers core.rest) result.rest
        (seen_in core.settings result slots.new) (λ s. seen_drained (drain_of s command)) }
{
    bench_port::interrupts::port_drain(core, slots, command)
}

#[unsafe(no_mangle)]
pub extern "C" fn port_rearm(core: Core) -> Replied
    ensures { CoreCall core result (refused_numbers core.rest) result.rest (seen_in core.settings result) (λ s. seen_settled (rearm_of s)) }
{
    bench_port::interrupts::port_rearm(core)
}

#[unsafe(no_mangle)]
pub extern "C" fn port_enable(core: Core) -> Replied
    ensures { CoreCall core result (refused_numbers core.rest) result.rest (seen_in core.settings result) (λ s. seen_settled (enable_of s)) }
{
    bench_port::interrupts::port_enable(core)
}

#[unsafe(no_mangle)]
pub extern "C" fn port_disable(core: Core) -> Replied
    ensures { CoreCall core result (refused_numbers core.rest) result.rest (seen_in core.settings result) (λ s. seen_settled (disable_of s)) }
{
    bench_port::interrupts::port_disable(core)
}
