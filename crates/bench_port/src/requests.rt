// Cancel: the call on requests that is lent no records.
ghost use Rattle.std.specs.Prelude.{◌≡◌};
ghost use Rattle.words.specs.View.{view};
ghost use Rattle.collection.specs.Calls.{cancel_of};
ghost use Rattle.direct_calls.specs.Shapes.{FramesCall};
ghost use Rattle.ehci.specs.Replies.{simply};
ghost use Rattle.bench_port.specs.Numbers.{pack_of, refused_numbers};
ghost use Rattle.bench_port.specs.Border.{beside_links, readings_of, seen_cancelled, seen_in};

use crate::numbers::{Replied, pack};
use controller::left::Settled;
use controller::lent::Readings;
use direct_calls::requests::cancel;
use ehci::reply::simple;
use words::cores::Core;

fn pack_cancelled(x: Settled<()>) -> Replied
    ensures { result ≡ pack_of x.rest (simply x.answer) x.writes }
{
    pack(x.rest, simple(x.answer), x.writes)
}

#[unsafe(no_mangle)]
pub extern "C" fn port_cancel(
    core: Core,
    slots: &mut [u64],
    heads: &mut [u32],
    frames: &mut [u32],
    slot: u8,
    id: u64,
    command: u32,
    frame: u32,
) -> Replied
    ensures { FramesCall core slots.old slots.new heads.old heads.new
        frames.old frames.new result (refused_numbers core.rest) result.rest
        (beside_links (seen_in core.settings result slots.new) heads.new frames.new)
        (λ pool setups. seen_cancelled (cancel_of (view core slots.old) pool heads.old frames.old setups (readings_of command frame 0) slot id)) }
{
    let readings = Readings {
        command,
        frame,
        overlay: 0,
    };
    pack_cancelled(cancel(core, slots, heads, frames, slot, id, readings))
}
