// One slot of the state, in numbers.
#[derive(Clone, Copy)]
pub struct Slot {
    pub phase: u8,
    pub kind: u8,
    // The endpoint's packet size, 0 where it is closed.
    pub size: u16,
    // The data toggle of its next packet, 0 where it is closed.
    pub toggle: u8,
    pub id: u64,
    pub request: u64,
    pub direction: u8,
    pub length: u32,
    pub cancel: u8,
    pub boundary: u16,
}
