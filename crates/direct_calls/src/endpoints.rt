// The calls on endpoints. The next address is of the core alone, clear-halt is lent the slots, each of the others the slots and the heads.
ghost use Rattle.std.specs.Prelude.{◌≡◌, Err};
ghost use Rattle.common.specs.declared.answer.Refusal.TheVariants.{InvalidParameter};
ghost use Rattle.controller.specs.Address.{allot_of};
ghost use Rattle.controller.specs.Words.{allotted_view};
ghost use Rattle.endpoint.specs.Calls.{change_left, clear_halt_of, close_of, open_endpoint_of, open_left, set_address_of, set_packet_size_of};
ghost use Rattle.endpoint.specs.Words.{changed_view, opened_view};
ghost use Rattle.words.specs.View.{view};
ghost use Rattle.direct_calls.specs.Refusals.{refused_allotment, refused_change, refused_endpoint};
ghost use Rattle.direct_calls.specs.Shapes.{CoreCall, HeadsCall, SlotsCall};

use crate::takes::takes_heads;
use common::answer::Refusal;
use common::kinds::EndpointType;
use controller::left::Left;
use word_ranges::judge::words_good;
use word_ranges::scalars::core_good;
use words::cores::{Core, Rest};

// What a call leaves of a core, or of rows, that are not in their ranges.
fn refuse<T>(rest: Rest) -> Left<T>
    ensures { result ≡ record { answer = Err InvalidParameter; rest = rest } }
{
    Left {
        answer: Err(Refusal::InvalidParameter),
        rest,
    }
}

pub fn allocate_address(core: Core) -> Left<u8>
    ensures { CoreCall core result (refused_allotment core.rest) result.rest (allotted_view core.settings result) allot_of }
{
    if !core_good(core) {
        return refuse(core.rest);
    }
    controller::calls::allocate_address(core)
}

pub fn open_endpoint(
    core: Core,
    slots: &mut [u64],
    heads: &mut [u32],
    kind: EndpointType,
    address: u8,
    number: u8,
    packet: u16,
) -> Left<u8>
    ensures { HeadsCall core slots.old slots.new heads.old heads.new
        result (refused_endpoint core.rest) result.rest
        (open_left (opened_view core.settings result slots.new) heads.new)
        (λ pool frames setups. open_endpoint_of (view core slots.old) pool heads.old frames setups kind address number packet) }
{
    if !takes_heads(core, slots, heads) {
        return refuse(core.rest);
    }
    Left {
        answer: endpoint::calls::open_endpoint(core, slots, heads, kind, address, number, packet),
        rest: core.rest,
    }
}

pub fn close(core: Core, slots: &mut [u64], heads: &mut [u32], slot: u8) -> Left<()>
    ensures { HeadsCall core slots.old slots.new heads.old heads.new
        result (refused_change core.rest) result.rest
        (change_left (changed_view core.settings result slots.new) heads.new)
        (λ pool frames setups. close_of (view core slots.old) pool heads.old frames setups slot) }
{
    if !takes_heads(core, slots, heads) {
        return refuse(core.rest);
    }
    Left {
        answer: endpoint::calls::close(core, slots, heads, slot),
        rest: core.rest,
    }
}

pub fn set_address(core: Core, slots: &[u64], heads: &mut [u32], slot: u8, address: u8) -> Left<()>
    ensures { HeadsCall core slots.now slots.now heads.old heads.new
        result (refused_change core.rest) result.rest
        (change_left (changed_view core.settings result slots.now) heads.new)
        (λ pool frames setups. set_address_of (view core slots.now) pool heads.old frames setups slot address) }
{
    if !takes_heads(core, slots, heads) {
        return refuse(core.rest);
    }
    Left {
        answer: endpoint::calls::set_address(core, slots, heads, slot, address),
        rest: core.rest,
    }
}

// A byte, which is raised to 8.
pub fn set_packet_size(
    core: Core,
    slots: &mut [u64],
    heads: &mut [u32],
    slot: u8,
    size: u8,
) -> Left<()>
    ensures { HeadsCall core slots.old slots.new heads.old heads.new
        result (refused_change core.rest) result.rest
        (change_left (changed_view core.settings result slots.new) heads.new)
        (λ pool frames setups. set_packet_size_of (view core slots.old) pool heads.old frames setups slot size) }
{
    if !takes_heads(core, slots, heads) {
        return refuse(core.rest);
    }
    Left {
        answer: endpoint::calls::set_packet_size(core, slots, heads, slot, size),
        rest: core.rest,
    }
}

// Judges the slots alone, as it is lent no heads.
pub fn clear_halt(core: Core, slots: &mut [u64], slot: u8) -> Left<()>
    ensures { SlotsCall core slots.old slots.new result (refused_change core.rest) result.rest
        (changed_view core.settings result slots.new) (λ s. clear_halt_of s slot) }
{
    if !words_good(core, slots) {
        return refuse(core.rest);
    }
    Left {
        answer: endpoint::calls::clear_halt(core, slots, slot),
        rest: core.rest,
    }
}
