// The calls on endpoints.
ghost use Rattle.words.specs.View.{view};
ghost use Rattle.pipe.specs.Endpoints.{kind_of};
ghost use Rattle.controller.specs.Address.{allot_of};
ghost use Rattle.endpoint.specs.Calls.{clear_halt_of, close_of, open_endpoint_of, set_address_of, set_packet_size_of};
ghost use Rattle.direct_calls.specs.Shapes.{CoreCall, HeadsCall, SlotsCall};
ghost use Rattle.bench_port.specs.Numbers.{refused_numbers};
ghost use Rattle.bench_port.specs.Border.{beside_heads, seen_allotted, seen_change, seen_changed, seen_in, seen_opened};

use bench_port::numbers::Replied;
use words::cores::Core;

#[unsafe(no_mangle)]
pub extern "C" fn port_allocate_address(core: Core) -> Replied
    ensures { CoreCall core result (refused_numbers core.rest) result.rest (seen_in core.settings result) (λ s. seen_allotted (allot_of s)) }
{
    bench_port::endpoints::port_allocate_address(core)
}

#[unsafe(no_mangle)]
pub extern "C" fn port_open_endpoint(
    core: Core,
    slots: &mut [u64],
    heads: &mut [u32],
    kind: u8,
    address: u8,
    number: u8,
    packet: u16,
) -> Replied
    ensures { HeadsCall core slots.old slots.new heads.old heads.new
        result (refused_numbers core.rest) result.rest
        (beside_heads (seen_in core.settings result slots.new) heads.new)
        (λ pool frames setups. seen_opened (open_endpoint_of (view core slots.old) pool heads.old frames setups (kind_of kind) address number packet)) }
{
    bench_port::endpoints::port_open_endpoint(core, slots, heads, kind, address, number, packet)
}

#[unsafe(no_mangle)]
pub extern "C" fn port_close(core: Core, slots: &mut [u64], heads: &mut [u32], slot: u8) -> Replied
    ensures { HeadsCall core slots.old slots.new heads.old heads.new
        result (refused_numbers core.rest) result.rest
        (beside_heads (seen_in core.settings result slots.new) heads.new)
        (λ pool frames setups. seen_changed (close_of (view core slots.old) pool heads.old frames setups slot)) }
{
    bench_port::endpoints::port_close(core, slots, heads, slot)
}

#[unsafe(no_mangle)]
pub extern "C" fn port_set_address(
    core: Core,
    slots: &[u64],
    heads: &mut [u32],
    slot: u8,
    address: u8,
) -> Replied
    ensures { HeadsCall core slots.now slots.now heads.old heads.new
        result (refused_numbers core.rest) result.rest
        (beside_heads (seen_in core.settings result slots.now) heads.new)
        (λ pool frames setups. seen_changed (set_address_of (view core slots.now) pool heads.old frames setups slot address)) }
{
    bench_port::endpoints::port_set_address(core, slots, heads, slot, address)
}

#[unsafe(no_mangle)]
pub extern "C" fn port_set_packet_size(
    core: Core,
    slots: &mut [u64],
    heads: &mut [u32],
    slot: u8,
    size: u8,
) -> Replied
    ensures { HeadsCall core slots.old slots.new heads.old heads.new
        result (refused_numbers core.rest) result.rest
        (beside_heads (seen_in core.settings result slots.new) heads.new)
        (λ pool frames setups. seen_changed (set_packet_size_of (view core slots.old) pool heads.old frames setups slot size)) }
{
    bench_port::endpoints::port_set_packet_size(core, slots, heads, slot, size)
}

#[unsafe(no_mangle)]
pub extern "C" fn port_clear_halt(core: Core, slots: &mut [u64], slot: u8) -> Replied
    ensures { SlotsCall core slots.old slots.new result (refused_numbers core.rest) result.rest
        (seen_in core.settings result slots.new) (λ s. seen_change (clear_halt_of s slot)) }
{
    bench_port::endpoints::port_clear_halt(core, slots, slot)
}
