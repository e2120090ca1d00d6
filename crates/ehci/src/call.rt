// A call on an opened controller, as data: what a log holds, and what the promises range over.
use common::kinds::EndpointType;
use controller::lent::Readings;
use request::judge::TransferRequest;

// The parameters of a new endpoint.
#[derive(Clone, Copy)]
pub struct EndpointFields {
    pub kind: EndpointType,
    pub address: u8,
    pub number: u8,
    pub packet: u16,
}

// USBSTS and USBINTR as read, and the interrupt flag as read before and after the first write of USBINTR.
#[derive(Clone, Copy)]
pub struct InterruptReadings {
    pub status: u32,
    pub interrupts: u32,
    pub flag: bool,
    pub again: bool,
}

// A slot is the first number of a call that has one, an id its second.
#[derive(Clone, Copy)]
pub enum Call {
    StartBringUp,
    BringUpStep(u32),
    AllocateAddress,
    OpenEndpoint(EndpointFields),
    Close(u8),
    SetAddress(u8, u8),
    SetPacketSize(u8, u8),
    Submit(u8, TransferRequest, Readings),
    Writeback(u64, u32),
    Cancel(u8, u64, Readings),
    Collect(u8, u64, Readings),
    Acknowledge(InterruptReadings),
    Drain(u32),
    Rearm,
    Enable,
    Disable,
    ClearHalt(u8),
}
