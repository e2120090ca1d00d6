// The calls on endpoints.
ghost use Rattle.std.specs.Prelude.{◌≡◌};
ghost use Rattle.register.specs.Writes.{no_writes};
ghost use Rattle.words.specs.View.{view};
ghost use Rattle.pipe.specs.Endpoints.{kind_of};
ghost use Rattle.controller.specs.Address.{allot_of};
ghost use Rattle.endpoint.specs.Calls.{clear_halt_of, close_of, open_endpoint_of, set_address_of, set_packet_size_of};
ghost use Rattle.direct_calls.specs.Shapes.{CoreCall, HeadsCall, SlotsCall};
ghost use Rattle.ehci.specs.Replies.{allotted_answer, opened_answer, simply};
ghost use Rattle.bench_port.specs.Numbers.{pack_of, refused_numbers};
ghost use Rattle.bench_port.specs.Border.{beside_heads, seen_allotted, seen_change, seen_changed, seen_in, seen_opened};

use crate::numbers::{Replied, pack};
use controller::left::Left;
use direct_calls::endpoints::{
    allocate_address, clear_halt, close, open_endpoint, set_address, set_packet_size,
};
use ehci::reply::{allotted_answer, opened_answer, simple};
use pipe::endpoints::kind_of;
use register::writes::Writes;
use words::cores::Core;

fn pack_allotted(x: Left<u8>) -> Replied
    ensures { result ≡ pack_of x.rest (allotted_answer x.answer) no_writes }
{
    pack(x.rest, allotted_answer(x.answer), Writes::none())
}

fn pack_opened(x: Left<u8>) -> Replied
    ensures { result ≡ pack_of x.rest (opened_answer x.answer) no_writes }
{
    pack(x.rest, opened_answer(x.answer), Writes::none())
}

fn pack_change(x: Left<()>) -> Replied
    ensures { result ≡ pack_of x.rest (simply x.answer) no_writes }
{
    pack(x.rest, simple(x.answer), Writes::none())
}

#[unsafe(no_mangle)]
pub extern "C" fn port_allocate_address(core: Core) -> Replied
    ensures { CoreCall core result (refused_numbers core.rest) result.rest (seen_in core.settings result) (λ s. seen_allotted (allot_of s)) }
{
    pack_allotted(allocate_address(core))
}

#[unsafe(no_mangle)]
pub extern "C" fn port_open_endpoint(
    core: Core,
    slots: &mut [u64],
    heads: &mut [u32],
    kind: u8,
    address: u8,
    number: u8,
    packet: u16,
) -> Replied
    ensures { HeadsCall core slots.old slots.new heads.old heads.new
        result (refused_numbers core.rest) result.rest
        (beside_heads (seen_in core.settings result slots.new) heads.new)
        (λ pool frames setups. seen_opened (open_endpoint_of (view core slots.old) pool heads.old frames setups (kind_of kind) address number packet)) }
{
    pack_opened(open_endpoint(core, slots, heads, kind_of(kind), address, number, packet))
}

#[unsafe(no_mangle)]
pub extern "C" fn port_close(core: Core, slots: &mut [u64], heads: &mut [u32], slot: u8) -> Replied
    ensures { HeadsCall core slots.old slots.new heads.old heads.new
        result (refused_numbers core.rest) result.rest
        (beside_heads (seen_in core.settings result slots.new) heads.new)
        (λ pool frames setups. seen_changed (close_of (view core slots.old) pool heads.old frames setups slot)) }
{
    pack_change(close(core, slots, heads, slot))
}

#[unsafe(no_mangle)]
pub extern "C" fn port_set_address(
    core: Core,
    slots: &[u64],
    heads: &mut [u32],
    slot: u8,
    address: u8,
) -> Replied
    ensures { HeadsCall core slots.now slots.now heads.old heads.new
        result (refused_numbers core.rest) result.rest
        (beside_heads (seen_in core.settings result slots.now) heads.new)
        (λ pool frames setups. seen_changed (set_address_of (view core slots.now) pool heads.old frames setups slot address)) }
{
    pack_change(set_address(core, slots, heads, slot, address))
}

#[unsafe(no_mangle)]
pub extern "C" fn port_set_packet_size(
    core: Core,
    slots: &mut [u64],
    heads: &mut [u32],
    slot: u8,
    size: u8,
) -> Replied
    ensures { HeadsCall core slots.old slots.new heads.old heads.new
        result (refused_numbers core.rest) result.rest
        (beside_heads (seen_in core.settings result slots.new) heads.new)
        (λ pool frames setups. seen_changed (set_packet_size_of (view core slots.old) pool heads.old frames setups slot size)) }
{
    pack_change(set_packet_size(core, slots, heads, slot, size))
}

#[unsafe(no_mangle)]
pub extern "C" fn port_clear_halt(core: Core, slots: &mut [u64], slot: u8) -> Replied
    ensures { SlotsCall core slots.old slots.new result (refused_numbers core.rest) result.rest
        (seen_in core.settings result slots.new) (λ s. seen_change (clear_halt_of s slot)) }
{
    pack_change(clear_halt(core, slots, slot))
}
