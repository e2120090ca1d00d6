// Opening. The core, which the caller keeps, and the root hub's record come back by value.
ghost use Rattle.std.specs.Prelude.{◌≡◌};
ghost use Rattle.opening.specs.Words.{open_words};
ghost use Rattle.bench_port.specs.Opens.{OpensPort, beside_opened, pack_opening, seen_opening};

use common::answer::number_of;
use descriptor::qtd::QueueTransferDescriptor;
use opening::hub::EhciRootHub;
use opening::open::{Opening, open};
use settings::settings::Settings;
use words::cores::Core;

#[repr(C)]
#[derive(Clone, Copy)]
pub struct PortOpened {
    pub core: Core,
    pub hub: EhciRootHub,
    pub number: u8,
}

fn pack_opening(opening: Opening) -> PortOpened
    ensures { result ≡ pack_opening opening }
{
    PortOpened {
        core: opening.core,
        hub: opening.hub,
        number: number_of(opening.answer),
    }
}

#[unsafe(no_mangle)]
pub extern "C" fn port_open(
    settings: Settings,
    rows: &mut [QueueTransferDescriptor],
    slots: &mut [u64],
    heads: &mut [u32],
    frames: &mut [u32],
    setups: &mut [u8],
) -> PortOpened
    ensures setups_after { beside_opened result rows.new heads.new frames.new setups.new
        ≡ seen_opening (open_words settings rows.old slots.old heads.old frames.old setups.old) }
    ensures opens_port { OpensPort settings result slots.old slots.new }
{
    let opening = open(settings, rows, slots, heads, frames, setups);
    pack_opening(opening)
}
