// What a call decides on a state in words. It never sees the pool's records: what they say comes in, what is written to them goes out.
ghost use Rattle.std.specs.Prelude.{◌≡◌, ℕ, ◌+◌, ◌*◌, true, List, length};
ghost use Rattle.state.specs.Ranges.{in_ranges};
ghost use Rattle.opening.specs.Opening.{rows_are_fit};
ghost use Rattle.controller.specs.Lent.{accepts_of};
ghost use Rattle.controller.specs.Plain.{Lengths};
ghost use Rattle.settings.specs.Settings.{pool_length};
ghost use Rattle.words.specs.Good.{Good, Tidy};
ghost use Rattle.words.specs.View.{view};
ghost use Rattle.ehci.specs.Decides.{acknowledge_decided, allot_decided, came, cancel_decided, collect_decided, drain_decided, heads_came, links_came, open_decided, submit_decided, writeback_decided};
ghost use Rattle.ehci.specs.WordsDecides.{Keeps, Tidies, Writable, decide_words, decided_view};
ghost use Rattle.ehci.specs.WordsDoor.{Judged, WordsAfter};

use crate::call::{Call, EndpointFields, InterruptReadings};
use crate::reply::{
    Decided, Reply, acknowledged_answer, allotted_answer, collected_answer, drained_answer, laid,
    leave, marked, of_brought_up, of_change, of_settled, opened_answer, refused, simple,
    submitted_answer,
};
use bring_up::calls::{start, step};
use collection::calls::{cancel, collect};
use common::answer::Refusal;
use controller::calls::allocate_address;
use controller::lent::Readings;
use endpoint::calls::{clear_halt, close, open_endpoint, set_address, set_packet_size};
use interrupt::calls::{acknowledge, disable, drain, enable, rearm};
use pool::chain::View;
use register::writes::Writes;
use request::judge::TransferRequest;
use request::submit::submit;
use request::writeback::writeback;
use words::cores::Core;

fn on_allocate(core: Core) -> Decided
    ensures by_index { (ws : List ℕ) → in_ranges (view core ws) ≡ true → decided_view core.settings result ws ≡ allot_decided (view core ws) }
    ensures keeps { Keeps core result }
{
    let a = allocate_address(core);
    leave(a.rest, allotted_answer(a.answer), Writes::none())
}

fn on_open(core: Core, slots: &mut [u64], heads: &mut [u32], fields: EndpointFields) -> Decided
    requires good { Good core.settings core.rest slots.old }
    requires heads_len { length heads.old ≡ 17 * (core.settings.endpoints + 1) }
    ensures by_index { (pool frames setups : ℕ) → rows_are_fit core.settings pool (length heads.old) frames setups ≡ true
        → heads_came (decided_view core.settings result slots.new) heads.new
        ≡ open_decided (view core slots.old) pool heads.old frames setups fields }
    ensures tidies { Tidies core result slots.new }
{
    let answer = open_endpoint(
        core,
        slots,
        heads,
        fields.kind,
        fields.address,
        fields.number,
        fields.packet,
    );
    leave(core.rest, opened_answer(answer), Writes::none())
}

fn on_submit(
    core: Core,
    slots: &mut [u64],
    heads: &mut [u32],
    frames: &mut [u32],
    setups: &mut [u8],
    readings: Readings,
    slot: u8,
    request: TransferRequest,
) -> Decided
    requires good { Good core.settings core.rest slots.old }
    requires heads_len { (length heads.old ≡ 17 * (core.settings.endpoints + 1)) × (length frames.old ≡ 1024) × (length setups.old ≡ 8 * core.settings.endpoints) }
    ensures by_index { (pool : ℕ) → rows_are_fit core.settings pool (length heads.old) (length frames.old) (length setups.old) ≡ true
        → came (decided_view core.settings result slots.new) heads.new frames.new setups.new
        ≡ submit_decided (view core slots.old) pool heads.old frames.old setups.old readings slot request }
    ensures tidy { Tidy core.settings result.reply.rest slots.new }
    ensures writable { Writable (pool_length core.settings) result.writing }
{
    let x = submit(core, slots, heads, frames, setups, readings, slot, request);
    let answer = x.answer;
    Decided {
        reply: Reply {
            rest: x.rest,
            answer: submitted_answer(answer),
            writes: x.writes,
        },
        writing: laid(x.laying),
    }
}

fn on_writeback(core: Core, place: u64, token: u32) -> Decided
    ensures by_index { (ws : List ℕ) → Good core.settings core.rest ws → (lent : Lengths) → accepts_of (view core ws) lent ≡ true
        → decided_view core.settings result ws ≡ writeback_decided (view core ws) lent place token }
    ensures rest_value { result.reply.rest ≡ core.rest }
    ensures writable { Writable (pool_length core.settings) result.writing }
{
    let x = writeback(core, place, token);
    let answer = x.answer;
    Decided {
        reply: Reply {
            rest: x.rest,
            answer: simple(answer),
            writes: Writes::none(),
        },
        writing: marked(x.marking),
    }
}

fn on_cancel(
    core: Core,
    slots: &mut [u64],
    heads: &mut [u32],
    frames: &mut [u32],
    readings: Readings,
    slot: u8,
    id: u64,
) -> Decided
    requires good { Good core.settings core.rest slots.old }
    requires heads_len { (length heads.old ≡ 17 * (core.settings.endpoints + 1)) × (length frames.old ≡ 1024) }
    ensures by_index { (pool setups : ℕ) → rows_are_fit core.settings pool (length heads.old) (length frames.old) setups ≡ true
        → links_came (decided_view core.settings result slots.new) heads.new frames.new
        ≡ cancel_decided (view core slots.old) pool heads.old frames.old setups readings slot id }
    ensures tidies { Tidies core result slots.new }
{
    let x = cancel(core, slots, heads, frames, readings, slot, id);
    leave(x.rest, simple(x.answer), x.writes)
}

fn on_collect(
    core: Core,
    slots: &mut [u64],
    heads: &mut [u32],
    frames: &mut [u32],
    readings: Readings,
    seen: View,
    slot: u8,
    id: u64,
) -> Decided
    requires good { Good core.settings core.rest slots.old }
    requires heads_len { (length heads.old ≡ 17 * (core.settings.endpoints + 1)) × (length frames.old ≡ 1024) }
    ensures by_index { (pool setups : ℕ) → rows_are_fit core.settings pool (length heads.old) (length frames.old) setups ≡ true
        → links_came (decided_view core.settings result slots.new) heads.new frames.new
        ≡ collect_decided (view core slots.old) pool heads.old frames.old setups readings seen slot id }
    ensures tidies { Tidies core result slots.new }
{
    let x = collect(core, slots, heads, frames, readings, seen, slot, id);
    leave(x.rest, collected_answer(x.answer), x.writes)
}

fn on_acknowledge(core: Core, readings: InterruptReadings) -> Decided
    ensures by_index { (ws : List ℕ) → in_ranges (view core ws) ≡ true → decided_view core.settings result ws ≡ acknowledge_decided (view core ws) readings }
    ensures keeps { Keeps core result }
{
    let x = acknowledge(
        core,
        readings.status,
        readings.interrupts,
        readings.flag,
        readings.again,
    );
    leave(x.rest, acknowledged_answer(x.answer), x.writes)
}

fn on_drain(core: Core, slots: &mut [u64], command: u32) -> Decided
    requires { Good core.settings core.rest slots.old }
    ensures slots_after { decided_view core.settings result slots.new ≡ drain_decided (view core slots.old) command }
    ensures tidies { Tidies core result slots.new }
{
    let x = drain(core, slots, command);
    leave(x.rest, drained_answer(x.answer), x.writes)
}

// `good` is what `look` found, `seen` what the records of its ask say.
pub fn decide(
    core: Core,
    records: usize,
    slots: &mut [u64],
    heads: &mut [u32],
    frames: &mut [u32],
    setups: &mut [u8],
    good: bool,
    seen: View,
    call: Call,
) -> Decided
    requires { good ≡ true → Judged core slots.old records (length heads.old) (length frames.old) (length setups.old) }
    ensures setups_after { came (decided_view core.settings result slots.new) heads.new frames.new setups.new
        ≡ decide_words core slots.old good records heads.old frames.old setups.old seen call }
    ensures words_after { WordsAfter good core slots.old result.reply.rest slots.new }
    ensures writable { Writable records result.writing }
{
    if !good {
        return refused(core.rest, Refusal::InvalidParameter);
    }
    match call {
        Call::StartBringUp => of_brought_up(start(core, slots)),
        Call::BringUpStep(reading) => of_brought_up(step(core, reading)),
        Call::AllocateAddress => on_allocate(core),
        Call::OpenEndpoint(fields) => on_open(core, slots, heads, fields),
        Call::Close(slot) => of_change(core.rest, close(core, slots, heads, slot)),
        Call::SetAddress(slot, address) => of_change(
            core.rest,
            set_address(core, slots, heads, slot, address),
        ),
        Call::SetPacketSize(slot, size) => of_change(
            core.rest,
            set_packet_size(core, slots, heads, slot, size),
        ),
        Call::Submit(slot, request, readings) => on_submit(
            core, slots, heads, frames, setups, readings, slot, request,
        ),
        Call::Writeback(place, token) => on_writeback(core, place, token),
        Call::Cancel(slot, id, readings) => on_cancel(
            core, slots, heads, frames, readings, slot, id,
        ),
        Call::Collect(slot, id, readings) => on_collect(
            core, slots, heads, frames, readings, seen, slot, id,
        ),
        Call::Acknowledge(readings) => on_acknowledge(core, readings),
        Call::Drain(command) => on_drain(core, slots, command),
        Call::Rearm => of_settled(rearm(core)),
        Call::Enable => of_settled(enable(core)),
        Call::Disable => of_settled(disable(core)),
        Call::ClearHalt(slot) => of_change(core.rest, clear_halt(core, slots, slot)),
    }
}
