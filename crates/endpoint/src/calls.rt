// Open endpoint, close, set address, set packet size, clear-halt, on words in their ranges. Clear-halt is lent the slots, each of the others
// the slots and the heads; the lengths of the rows that it is not lent are those that opening fixed.
ghost use Rattle.std.specs.Prelude.{◌≡◌, ℕ, ◌+◌, ◌*◌, max, true, length};
ghost use Rattle.opening.specs.Opening.{rows_are_fit};
ghost use Rattle.words.specs.Good.{Good, Tidy};
ghost use Rattle.words.specs.View.{view};
ghost use Rattle.controller.specs.Words.{leaving};
ghost use Rattle.endpoint.specs.Calls.{change_left, clear_halt_of, close_of, open_endpoint_of, open_left, set_address_of, set_packet_size_of, fields_good, with_size};
ghost use Rattle.pipe.specs.Endpoints.{kind_number};
ghost use Rattle.slot.specs.Ranges.{size_good};
ghost use Rattle.endpoint.specs.Words.{changed_view, chosen_words, opened_view, verdict_words};

use crate::heads::write_head;
use crate::lowest::lowest_closed;
use common::answer::Refusal;
use common::kinds::{EndpointType, is_control, is_isochronous};
use controller::readers::{is_open, uncollected};
use descriptor::head::{set_device_address, set_max_packet_size};
use opening::heads::{CHARACTERISTICS, HEAD_WORDS, put_head};
use pipe::endpoints::{Endpoint, Pipe, with_toggle};
use pipe::slots::{pipe_at, put_endpoint};
use words::cores::Core;

// A packet size; of a bulk or interrupt endpoint one packet at least fits the limit.
fn size_good(limit: u64, kind: EndpointType, size: u16) -> bool
    ensures { result ≡ size_good limit (kind_number kind) size }
{
    let control = is_control(kind);
    ((1 <= size) & (size <= 1024)) & (control | (size as u64 <= limit))
}

pub fn fields_good(limit: u64, kind: EndpointType, address: u8, number: u8, packet: u16) -> bool
    ensures { result ≡ fields_good limit kind address number packet }
{
    let sized = size_good(limit, kind, packet);
    (address <= 127) & (number <= 15) & sized
}

// The slot of a new endpoint, or why there is none.
fn choose(core: Core, slots: &[u64], kind: EndpointType, good: bool) -> Result<u8, Refusal>
    requires { Good core.settings core.rest slots.now }
    ensures { result ≡ chosen_words (view core slots.now) kind good }
{
    if is_isochronous(kind) {
        return Err(Refusal::NotSupported);
    }
    if !good {
        return Err(Refusal::InvalidParameter);
    }
    lowest_closed(core, slots).ok_or(Refusal::SlotLimitReached)
}

pub fn open_endpoint(
    core: Core,
    slots: &mut [u64],
    heads: &mut [u32],
    kind: EndpointType,
    address: u8,
    number: u8,
    packet: u16,
) -> Result<u8, Refusal>
    requires good { Good core.settings core.rest slots.old }
    requires heads_len { length heads.old ≡ 17 * (core.settings.endpoints + 1) }
    ensures by_index { (pool frames setups : ℕ) → rows_are_fit core.settings pool (length heads.old) frames setups ≡ true
        → open_left (opened_view core.settings (leaving core result) slots.new) heads.new
        ≡ open_endpoint_of (view core slots.old) pool heads.old frames setups kind address number packet }
    ensures tidy { Tidy core.settings core.rest slots.new }
{
    let good = fields_good(core.settings.limit, kind, address, number, packet);
    let slot = choose(core, slots, kind, good)?;
    write_head(heads, slot, kind, address, number, packet);
    let pipe = Pipe {
        kind,
        size: packet,
        toggle: false,
        next: 1,
    };
    put_endpoint(slots, slot, Endpoint::Idle(pipe));
    Ok(slot)
}

// The endpoint with another packet size.
fn resize(p: Pipe, size: u8) -> Pipe
    ensures { result ≡ with_size p (max size 8) }
{
    Pipe {
        size: size.max(8) as u16,
        ..p
    }
}

fn pipe_good(limit: u64, p: Pipe) -> bool
    ensures { result ≡ size_good limit (kind_number p.kind) p.size }
{
    size_good(limit, p.kind, p.size)
}

// What close, set address, set packet size and clear-halt ask, in 01's order; `good` where the value is in its range.
fn check_slot(core: Core, slots: &[u64], slot: u8, good: bool) -> Result<(), Refusal>
    requires { Good core.settings core.rest slots.now }
    ensures { result ≡ verdict_words (view core slots.now) slot good }
{
    if !is_open(slots, slot) {
        return Err(Refusal::InvalidEndpoint);
    }
    if uncollected(slots, slot) {
        return Err(Refusal::QueueFull);
    }
    if !good {
        return Err(Refusal::InvalidParameter);
    }
    Ok(())
}

pub fn close(core: Core, slots: &mut [u64], heads: &mut [u32], slot: u8) -> Result<(), Refusal>
    requires good { Good core.settings core.rest slots.old }
    requires heads_len { length heads.old ≡ 17 * (core.settings.endpoints + 1) }
    ensures by_index { (pool frames setups : ℕ) → rows_are_fit core.settings pool (length heads.old) frames setups ≡ true
        → change_left (changed_view core.settings (leaving core result) slots.new) heads.new
        ≡ close_of (view core slots.old) pool heads.old frames setups slot }
    ensures tidy { Tidy core.settings core.rest slots.new }
{
    check_slot(core, slots, slot, true)?;
    put_head(heads, slot as usize + 1, [0; 17]);
    put_endpoint(slots, slot, Endpoint::Closed);
    Ok(())
}

pub fn set_address(
    core: Core,
    slots: &[u64],
    heads: &mut [u32],
    slot: u8,
    address: u8,
) -> Result<(), Refusal>
    requires good { Good core.settings core.rest slots.now }
    requires heads_len { length heads.old ≡ 17 * (core.settings.endpoints + 1) }
    ensures { (pool frames setups : ℕ) → rows_are_fit core.settings pool (length heads.old) frames setups ≡ true
        → change_left (changed_view core.settings (leaving core result) slots.now) heads.new
        ≡ set_address_of (view core slots.now) pool heads.old frames setups slot address }
{
    check_slot(core, slots, slot, address <= 127)?;
    let at = HEAD_WORDS * (slot as usize + 1) + CHARACTERISTICS;
    heads[at] = set_device_address(heads[at], address);
    Ok(())
}

// A byte, which is raised to 8: the head and the slot have it from then on.
pub fn set_packet_size(
    core: Core,
    slots: &mut [u64],
    heads: &mut [u32],
    slot: u8,
    size: u8,
) -> Result<(), Refusal>
    requires good { Good core.settings core.rest slots.old }
    requires heads_len { length heads.old ≡ 17 * (core.settings.endpoints + 1) }
    ensures by_index { (pool frames setups : ℕ) → rows_are_fit core.settings pool (length heads.old) frames setups ≡ true
        → change_left (changed_view core.settings (leaving core result) slots.new) heads.new
        ≡ set_packet_size_of (view core slots.old) pool heads.old frames setups slot size }
    ensures tidy { Tidy core.settings core.rest slots.new }
{
    let pipe = resize(pipe_at(slots, slot), size);
    check_slot(core, slots, slot, pipe_good(core.settings.limit, pipe))?;
    let at = HEAD_WORDS * (slot as usize + 1) + CHARACTERISTICS;
    heads[at] = set_max_packet_size(heads[at], size);
    put_endpoint(slots, slot, Endpoint::Idle(pipe));
    Ok(())
}

// The toggle of the next packet is 0, as the device has it after its halt is cleared.
pub fn clear_halt(core: Core, slots: &mut [u64], slot: u8) -> Result<(), Refusal>
    requires { Good core.settings core.rest slots.old }
    ensures slots_after { changed_view core.settings (leaving core result) slots.new ≡ clear_halt_of (view core slots.old) slot }
    ensures tidy { Tidy core.settings core.rest slots.new }
{
    check_slot(core, slots, slot, true)?;
    let old = pipe_at(slots, slot);
    put_endpoint(slots, slot, Endpoint::Idle(with_toggle(old, false)));
    Ok(())
}
