// The head of a slot.
ghost use Rattle.std.specs.Prelude.{◌≡◌, ◌+◌, ◌*◌, ◌≤◌, length};
ghost use Rattle.descriptor.specs.Heads.{endpoint_head, words_of};
ghost use Rattle.endpoint.specs.Calls.{with_head};

use common::kinds::EndpointType;
use descriptor::head::QueueHead;
use opening::heads::put_head;

// The head of a new endpoint, over the words that its slot has.
pub fn write_head(
    heads: &mut [u32],
    slot: u8,
    kind: EndpointType,
    address: u8,
    number: u8,
    packet: u16,
)
    requires slot_bound { (slot + 1 ≤ 32) × (17 * (slot + 1) + 17 ≤ length heads.old) }
    requires address_bound { (address ≤ 127) × (number ≤ 15) × (packet ≤ 1024) }
    ensures { heads.new
        ≡ with_head heads.old slot (words_of (endpoint_head kind address number packet)) }
{
    let head = QueueHead::endpoint(kind, address, number, packet);
    put_head(heads, slot as usize + 1, head.words());
}
