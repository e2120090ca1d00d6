// Whether a request is accepted: the checks of document 01, in its order.
ghost use Rattle.std.specs.Prelude.{◌≡◌};
ghost use Rattle.words.specs.Good.{Good};
ghost use Rattle.words.specs.View.{view};
ghost use Rattle.request.specs.Submit.{judge_of, need_of_request, buffer_good, control_good, ranges_good};

use bitset::places::count;
use common::answer::Refusal;
use common::kinds::{Direction, EndpointType, is_control, is_isochronous};
use pipe::endpoints::{direction_number, kind_number};
use settings::settings::MEMORY_END;
use words::cores::Core;
use words::row::word_at;

pub const CONTROL_MAX: u64 = 16384;

// Six bytes.
pub const SETUP_END: u64 = 0x1_0000_0000_0000;

// A buffer is an address and a length; bytes 0 to 5 of a setup packet are one number, byte 0 lowest.
#[derive(Clone, Copy)]
pub struct TransferRequest {
    pub kind: EndpointType,
    pub direction: Direction,
    pub setup: u64,
    pub address: u64,
    pub length: u64,
}

fn buffer_good(address: u64, length: u64) -> bool
    ensures { result ≡ buffer_good address length }
{
    length == 0 || (length <= MEMORY_END && address <= MEMORY_END - length)
}

fn control_good(t: TransferRequest) -> bool
    ensures { result ≡ control_good t }
{
    let bit = direction_number(t.direction) as u64;
    (t.length <= CONTROL_MAX) & (t.setup / 128 % 2 == bit) & (t.setup < SETUP_END)
}

pub fn ranges_good(t: TransferRequest) -> bool
    ensures { result ≡ ranges_good t }
{
    let buffer = buffer_good(t.address, t.length);
    if is_control(t.kind) {
        return buffer & control_good(t);
    }
    buffer
}

// `wanted` is what the request needs.
pub fn judge(
    core: Core,
    slots: &[u64],
    slot: u8,
    t: TransferRequest,
    wanted: u64,
) -> Result<(), Refusal>
    requires good { Good core.settings core.rest slots.now }
    requires wanted_value { wanted ≡ need_of_request (view core slots.now) slot t }
    ensures { result ≡ judge_of (view core slots.now) slot t }
{
    let kind = t.kind;
    let word = word_at(slots, slot);
    let phase = word % 4;
    if phase == 0 {
        return Err(Refusal::InvalidEndpoint);
    }
    let running = core.rest.running;
    if running == 0 {
        return Err(Refusal::NotReady);
    }
    if 2 <= phase {
        return Err(Refusal::QueueFull);
    }
    if is_isochronous(kind) {
        return Err(Refusal::NotSupported);
    }
    if kind_number(kind) as u64 != word / 4 % 4 {
        return Err(Refusal::InvalidEndpoint);
    }
    if !ranges_good(t) {
        return Err(Refusal::InvalidParameter);
    }
    let free = core.rest.free;
    if count(free) < wanted {
        return Err(Refusal::NoMemory);
    }
    Ok(())
}
