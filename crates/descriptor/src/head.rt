// A queue head (EHCI 3.6): 000's `QueueHead`, and the changes of its characteristics.
ghost use Rattle.std.specs.Prelude.{◌≡◌, ◌≤◌};
ghost use Rattle.token.specs.Tokens.{only_if};
ghost use Rattle.descriptor.specs.Heads.{
  qh_link,
  characteristics_of,
  capabilities_of,
  endpoint_head,
  ring_head,
  words_of,
  with_address,
  with_packet_size,
};

use crate::qtd::{EHCI_LINK_TERMINATE, QueueTransferDescriptor};
use common::kinds::{EndpointType, is_control, is_interrupt};
use register::bits::{with_bits, without_bits};

// The type of a link that leads to a queue head.
pub const EHCI_QH_LINK_TYPE_QH: u32 = 0b01 << 1;

// High speed.
const SPEED: u32 = 0b10 << 12;

const TOGGLE_CONTROL: u32 = 1 << 14;

const HEAD_OF_LIST: u32 = 1 << 15;

const NAK_RELOAD: u32 = 0x0f << 28;

const ADDRESS_MASK: u32 = 0x7f;

const PACKET_SIZE_SHIFT: u32 = 16;

const PACKET_SIZE_MASK: u32 = 0x7ff << 16;

const MULTIPLIER: u32 = 1 << 30;

// The first microframe of a frame.
const START_MASK: u32 = 1 << 0;

#[repr(C)]
#[derive(Clone, Copy, PartialEq, Eq)]
pub struct QueueHead {
    pub link: u32,
    pub characteristics: u32,
    pub capabilities: u32,
    pub current: u32,
    pub overlay: QueueTransferDescriptor,
}

// The link value of a head at an address.
pub fn ehci_qh_link(address: u32) -> u32
    ensures { result ≡ qh_link address }
{
    address - address % 32 + EHCI_QH_LINK_TYPE_QH
}

fn bit_if(set: bool, bit: u32) -> u32
    ensures value { result ≡ only_if set bit }
    ensures upper_bound { result ≤ bit }
{
    if set { bit } else { 0 }
}

impl QueueHead {
    // The ring head, linked to itself.
    pub fn async_head(address: u32) -> QueueHead
        ensures { result ≡ ring_head address }
    {
        QueueHead {
            link: ehci_qh_link(address),
            characteristics: HEAD_OF_LIST + 64 * 0x1_0000,
            capabilities: MULTIPLIER,
            current: 0,
            overlay: QueueTransferDescriptor::terminated(),
        }
    }

    // The head of an endpoint as it is opened.
    pub fn endpoint(kind: EndpointType, address: u8, number: u8, packet: u16) -> QueueHead
        requires address_bound { address ≤ 127 }
        requires number_bound { number ≤ 15 }
        requires packet_bound { packet ≤ 1024 }
        ensures { result ≡ endpoint_head kind address number packet }
    {
        let fields = (address as u32) + (number as u32) * 0x100 + (packet as u32) * 0x1_0000;
        QueueHead {
            link: EHCI_LINK_TERMINATE,
            characteristics: fields + SPEED + NAK_RELOAD + bit_if(is_control(kind), TOGGLE_CONTROL),
            capabilities: MULTIPLIER + bit_if(is_interrupt(kind), START_MASK),
            current: 0,
            overlay: QueueTransferDescriptor::terminated(),
        }
    }

    // The words in the order in which the controller reads them.
    pub fn words(self) -> [u32; 17]
        ensures { result ≡ words_of self }
    {
        let o = self.overlay;
        let p = o.pages;
        let u = o.upper;
        [
            self.link,
            self.characteristics,
            self.capabilities,
            self.current,
            o.next,
            o.alternate,
            o.token,
            p[0],
            p[1],
            p[2],
            p[3],
            p[4],
            u[0],
            u[1],
            u[2],
            u[3],
            u[4],
        ]
    }
}

// A characteristics word with another device address.
pub fn set_device_address(characteristics: u32, address: u8) -> u32
    ensures { result ≡ with_address characteristics address }
{
    let others = without_bits(characteristics, ADDRESS_MASK);
    with_bits(others, (address % 128) as u32)
}

// A characteristics word with another packet size, which is raised to 8.
pub fn set_max_packet_size(characteristics: u32, size: u8) -> u32
    ensures { result ≡ with_packet_size characteristics size }
{
    let others = without_bits(characteristics, PACKET_SIZE_MASK);
    with_bits(others, (size.max(8) as u32) << PACKET_SIZE_SHIFT)
}
