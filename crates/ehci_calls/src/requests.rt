// The calls on requests that are lent the pool's records, by name.
ghost use Rattle.std.specs.Prelude.{◌≡◌, length};
ghost use Rattle.ehci.specs.Door.{applied};
ghost use Rattle.ehci.specs.WordsDoor.{WordsAfter, accepts_words, apply_words, reply_view};
ghost use Rattle.ehci.specs.declared.call.Call.TheVariants.{Submit, Writeback, Collect};

use controller::lent::Readings;
use descriptor::qtd::QueueTransferDescriptor;
use ehci::call::Call;
use ehci::door::apply;
use ehci::reply::Reply;
use request::judge::TransferRequest;
use words::cores::Core;

fn as_submit(slot: u8, request: TransferRequest, readings: Readings) -> Call
    ensures { result ≡ Submit slot request readings }
{
    Call::Submit(slot, request, readings)
}

pub fn submit(
    core: Core,
    rows: &mut [QueueTransferDescriptor],
    slots: &mut [u64],
    heads: &mut [u32],
    frames: &mut [u32],
    setups: &mut [u8],
    slot: u8,
    request: TransferRequest,
    readings: Readings,
) -> Reply
    ensures setups_after { applied (reply_view core.settings result slots.new) rows.new heads.new frames.new setups.new
        ≡ apply_words core slots.old rows.old heads.old frames.old setups.old (Submit slot request readings) }
    ensures words_after { WordsAfter (accepts_words core slots.old (length rows.old) (length heads.old) (length frames.old) (length setups.old))
        core slots.old result.rest slots.new }
{
    let call = as_submit(slot, request, readings);
    apply(core, rows, slots, heads, frames, setups, call)
}

fn as_writeback(place: u64, token: u32) -> Call
    ensures { result ≡ Writeback place token }
{
    Call::Writeback(place, token)
}

pub fn writeback(
    core: Core,
    rows: &mut [QueueTransferDescriptor],
    slots: &mut [u64],
    heads: &mut [u32],
    frames: &mut [u32],
    setups: &mut [u8],
    place: u64,
    token: u32,
) -> Reply
    ensures setups_after { applied (reply_view core.settings result slots.new) rows.new heads.new frames.new setups.new
        ≡ apply_words core slots.old rows.old heads.old frames.old setups.old (Writeback place token) }
    ensures words_after { WordsAfter (accepts_words core slots.old (length rows.old) (length heads.old) (length frames.old) (length setups.old))
        core slots.old result.rest slots.new }
{
    let call = as_writeback(place, token);
    apply(core, rows, slots, heads, frames, setups, call)
}

fn as_collect(slot: u8, id: u64, readings: Readings) -> Call
    ensures { result ≡ Collect slot id readings }
{
    Call::Collect(slot, id, readings)
}

pub fn collect(
    core: Core,
    rows: &mut [QueueTransferDescriptor],
    slots: &mut [u64],
    heads: &mut [u32],
    frames: &mut [u32],
    setups: &mut [u8],
    slot: u8,
    id: u64,
    readings: Readings,
) -> Reply
    ensures setups_after { applied (reply_view core.settings result slots.new) rows.new heads.new frames.new setups.new
        ≡ apply_words core slots.old rows.old heads.old frames.old setups.old (Collect slot id readings) }
    ensures words_after { WordsAfter (accepts_words core slots.old (length rows.old) (length heads.old) (length frames.old) (length setups.old))
        core slots.old result.rest slots.new }
{
    let call = as_collect(slot, id, readings);
    apply(core, rows, slots, heads, frames, setups, call)
}
