// What a call on a controller is lent, and the readings that it is given.

// USBCMD, FRINDEX and the token in the overlay of the slot's head, as they were read for the call. A call looks at those that it needs; only a
// collect needs the last.
#[derive(Clone, Copy)]
pub struct Readings {
    pub command: u32,
    pub frame: u32,
    pub overlay: u32,
}
