// The public calls that change the record where the caller keeps it: 000's `changed_ports`, one reading at a time.
ghost use Rattle.std.specs.Prelude.{◌≡◌};
ghost use Rattle.root_hub.specs.Calls.{start_of, step_of};

use crate::calls::{ScanReply, start, step};
use opening::hub::EhciRootHub;

pub fn scan_start(hub: &mut EhciRootHub) -> ScanReply
    ensures { (result ≡ (start_of hub.old).reply) × (hub.new ≡ (start_of hub.old).hub) }
{
    let h = *hub;
    let begun = start(h);
    *hub = begun.hub;
    begun.reply
}

pub fn scan_step(hub: &mut EhciRootHub, reading: u32) -> ScanReply
    ensures { (result ≡ (step_of hub.old reading).reply) × (hub.new ≡ (step_of hub.old reading).hub) }
{
    let h = *hub;
    let s = step(h, reading);
    *hub = s.hub;
    s.reply
}
