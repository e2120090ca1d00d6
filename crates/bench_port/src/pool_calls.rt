// The three calls that are lent the pool's records: through the one door.
ghost use Rattle.std.specs.Prelude.{◌≡◌, length as size};
ghost use Rattle.ehci.specs.WordsDoor.{WordsAfter, accepts_words, apply_words};
ghost use Rattle.ehci.specs.declared.call.Call.TheVariants.{Writeback};
ghost use Rattle.bench_port.specs.Border.{beside_rows, collect_of, seen_applied, seen_in, submit_of};

use crate::numbers::{Replied, pack_reply};
use controller::lent::Readings;
use descriptor::qtd::QueueTransferDescriptor;
use ehci::call::Call;
use ehci::door::apply;
use pipe::endpoints::{direction_of, kind_of};
use request::judge::TransferRequest;
use words::cores::Core;

fn submit_call(
    slot: u8,
    kind: u8,
    direction: u8,
    setup: u64,
    address: u64,
    length: u64,
    command: u32,
    frame: u32,
) -> Call
    ensures { result ≡ submit_of slot kind direction setup address length command frame }
{
    let request = TransferRequest {
        kind: kind_of(kind),
        direction: direction_of(direction),
        setup,
        address,
        length,
    };
    let readings = Readings {
        command,
        frame,
        overlay: 0,
    };
    Call::Submit(slot, request, readings)
}

fn writeback_call(place: u64, token: u32) -> Call
    ensures { result ≡ Writeback place token }
{
    Call::Writeback(place, token)
}

fn collect_call(slot: u8, id: u64, command: u32, frame: u32, overlay: u32) -> Call
    ensures { result ≡ collect_of slot id command frame overlay }
{
    let readings = Readings {
        command,
        frame,
        overlay,
    };
    Call::Collect(slot, id, readings)
}

#[unsafe(no_mangle)]
pub extern "C" fn port_submit(
    core: Core,
    rows: &mut [QueueTransferDescriptor],
    slots: &mut [u64],
    heads: &mut [u32],
    frames: &mut [u32],
    setups: &mut [u8],
    slot: u8,
    kind: u8,
    direction: u8,
    setup: u64,
    address: u64,
    length: u64,
    command: u32,
    frame: u32,
) -> Replied
    ensures setups_after { beside_rows (seen_in core.settings result slots.new) rows.new heads.new frames.new setups.new
        ≡ seen_applied (apply_words core slots.old rows.old heads.old frames.old setups.old
        (submit_of slot kind direction setup address length command frame)) }
    ensures words_after { WordsAfter (accepts_words core slots.old (size rows.old) (size heads.old) (size frames.old) (size setups.old))
        core slots.old result.rest slots.new }
{
    let call = submit_call(
        slot, kind, direction, setup, address, length, command, frame,
    );
    let reply = apply(core, rows, slots, heads, frames, setups, call);
    pack_reply(reply)
}

#[unsafe(no_mangle)]
pub extern "C" fn port_writeback(
    core: Core,
    rows: &mut [QueueTransferDescriptor],
    slots: &mut [u64],
    heads: &mut [u32],
    frames: &mut [u32],
    setups: &mut [u8],
    place: u64,
    token: u32,
) -> Replied
    ensures setups_after { beside_rows (seen_in core.settings result slots.new) rows.new heads.new frames.new setups.new
        ≡ seen_applied (apply_words core slots.old rows.old heads.old frames.old setups.old
        (Writeback place token)) }
    ensures words_after { WordsAfter (accepts_words core slots.old (size rows.old) (size heads.old) (size frames.old) (size setups.old))
        core slots.old result.rest slots.new }
{
    let call = writeback_call(place, token);
    let reply = apply(core, rows, slots, heads, frames, setups, call);
    pack_reply(reply)
}

#[unsafe(no_mangle)]
pub extern "C" fn port_collect(
    core: Core,
    rows: &mut [QueueTransferDescriptor],
    slots: &mut [u64],
    heads: &mut [u32],
    frames: &mut [u32],
    setups: &mut [u8],
    slot: u8,
    id: u64,
    command: u32,
    frame: u32,
    overlay: u32,
) -> Replied
    ensures setups_after { beside_rows (seen_in core.settings result slots.new) rows.new heads.new frames.new setups.new
        ≡ seen_applied (apply_words core slots.old rows.old heads.old frames.old setups.old
        (collect_of slot id command frame overlay)) }
    ensures words_after { WordsAfter (accepts_words core slots.old (size rows.old) (size heads.old) (size frames.old) (size setups.old))
        core slots.old result.rest slots.new }
{
    let call = collect_call(slot, id, command, frame, overlay);
    let reply = apply(core, rows, slots, heads, frames, setups, call);
    pack_reply(reply)
}
