// A port's status (EHCI 2.3.9): 000's `EhciPortStatus`.
ghost use Rattle.std.specs.Prelude.{◌≡◌, not, eqb};
ghost use Rattle.token.specs.EhciPortsc.{portsc_table, masks, current_connect, port_enabled};
ghost use Rattle.token.specs.Ports.{is_set, high_speed_ready};

use register::bits::any_of;

#[repr(C)]
#[derive(Clone, Copy)]
pub struct EhciPortStatus(pub u32);

impl EhciPortStatus {
    pub const CURRENT_CONNECT: u32 = 1 << 0;

    pub const CONNECT_CHANGE: u32 = 1 << 1;

    pub const PORT_ENABLED: u32 = 1 << 2;

    pub const ENABLE_CHANGE: u32 = 1 << 3;

    pub const OVER_CURRENT_CHANGE: u32 = 1 << 5;

    pub const RESET: u32 = 1 << 8;

    pub const POWER: u32 = 1 << 12;

    pub const OWNER: u32 = 1 << 13;

    // The change bits, which a write of 1 clears: all three, and those other than the connect change.
    pub const CHANGES: u32 = EhciPortStatus::CONNECT_CHANGE | EhciPortStatus::OTHER_CHANGES;

    pub const OTHER_CHANGES: u32 = EhciPortStatus::ENABLE_CHANGE
        | EhciPortStatus::OVER_CURRENT_CHANGE;

    pub fn from_raw(raw: u32) -> EhciPortStatus
        ensures { result.0 ≡ raw }
    {
        EhciPortStatus(raw)
    }

    pub fn connected(self) -> bool
        ensures { result ≡ is_set (current_connect self.0) }
    {
        any_of(self.0, Self::CURRENT_CONNECT)
    }

    pub fn enabled(self) -> bool
        ensures { result ≡ is_set (port_enabled self.0) }
    {
        any_of(self.0, Self::PORT_ENABLED)
    }

    pub fn is_high_speed_device_ready(self) -> bool
        ensures { result ≡ high_speed_ready self.0 }
    {
        if self.connected() {
            self.enabled()
        } else {
            false
        }
    }

    // The bits above, each held to its row of EHCI's table.
    pub fn table() -> [u32; 8]
        ensures { result ≡ masks portsc_table }
    {
        [
            Self::CURRENT_CONNECT,
            Self::CONNECT_CHANGE,
            Self::PORT_ENABLED,
            Self::ENABLE_CHANGE,
            Self::OVER_CURRENT_CHANGE,
            Self::RESET,
            Self::POWER,
            Self::OWNER,
        ]
    }
}
