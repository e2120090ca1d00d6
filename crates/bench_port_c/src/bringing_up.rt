// Bringing the controller up.
ghost use Rattle.bring_up.specs.BringUp.{start_of, step_of};
ghost use Rattle.direct_calls.specs.Shapes.{CoreCall, SlotsCall};
ghost use Rattle.bench_port.specs.Numbers.{refused_numbers};
ghost use Rattle.bench_port.specs.Border.{seen_brought, seen_in};

use bench_port::numbers::Replied;
use words::cores::Core;

#[unsafe(no_mangle)]
pub extern "C" fn port_start_bring_up(core: Core, slots: &[u64]) -> Replied
    ensures { SlotsCall core slots.now slots.now result (refused_numbers core.rest) result.rest
        (seen_in core.settings result slots.now) (λ s. seen_brought (start_of s)) }
{
    bench_port::bringing_up::port_start_bring_up(core, slots)
}

// With what was read of the register that the call before asked for.
#[unsafe(no_mangle)]
pub extern "C" fn port_bring_up_step(core: Core, reading: u32) -> Replied
    ensures { CoreCall core result (refused_numbers core.rest) result.rest (seen_in core.settings result) (λ s. seen_brought (step_of s reading)) }
{
    bench_port::bringing_up::port_bring_up_step(core, reading)
}
