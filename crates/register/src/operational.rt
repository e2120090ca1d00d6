// The operational registers of EHCI 2.3, as offsets, and the bits of USBCMD, USBSTS and USBINTR.
// PORTSC's bits belong to the port status type.
ghost use Rattle.std.specs.Prelude.{◌≡◌, ◌≤◌};
ghost use Rattle.register.specs.EhciRegisters.{
  offset_table,
  portsc_of,
  usbcmd_table,
  usbsts_table,
  usbintr_table,
  masks,
};

pub const USBCMD: u32 = 0x00;

pub const USBSTS: u32 = 0x04;

pub const USBINTR: u32 = 0x08;

pub const FRINDEX: u32 = 0x0c;

pub const CTRLDSSEGMENT: u32 = 0x10;

pub const PERIODICLISTBASE: u32 = 0x14;

pub const ASYNCLISTADDR: u32 = 0x18;

pub const CONFIGFLAG: u32 = 0x40;

pub const PORTSC_BASE: u32 = 0x44;

pub const USBCMD_RUN_STOP: u32 = 1 << 0;

pub const USBCMD_HCRESET: u32 = 1 << 1;

pub const USBCMD_PERIODIC_ENABLE: u32 = 1 << 4;

pub const USBCMD_ASYNC_ENABLE: u32 = 1 << 5;

pub const USBCMD_INT_ASYNC_ADVANCE_DOORBELL: u32 = 1 << 6;

pub const USBSTS_USBINT: u32 = 1 << 0;

pub const USBSTS_USBERRINT: u32 = 1 << 1;

pub const USBSTS_PORT_CHANGE: u32 = 1 << 2;

pub const USBSTS_FRAME_LIST_ROLLOVER: u32 = 1 << 3;

pub const USBSTS_HOST_SYSTEM_ERROR: u32 = 1 << 4;

pub const USBSTS_INTERRUPT_ASYNC_ADVANCE: u32 = 1 << 5;

pub const USBSTS_HALTED: u32 = 1 << 12;

pub const USBINTR_USBINT: u32 = 1 << 0;

pub const USBINTR_USBERRINT: u32 = 1 << 1;

pub const USBINTR_PORT_CHANGE: u32 = 1 << 2;

pub const USBINTR_ASYNC_ADVANCE: u32 = 1 << 5;

// The offset of a port's status and control register; ports count from 1.
pub fn port_offset(port: u8) -> u32
    requires { 1 ≤ port }
    ensures { result ≡ portsc_of port }
{
    PORTSC_BASE + (port as u32 - 1) * 4
}

// The constants above, each held to its row of EHCI's table: a constant that is off is not proved.

pub fn offset_table() -> [u32; 9]
    ensures { result ≡ offset_table }
{
    [
        USBCMD,
        USBSTS,
        USBINTR,
        FRINDEX,
        CTRLDSSEGMENT,
        PERIODICLISTBASE,
        ASYNCLISTADDR,
        CONFIGFLAG,
        PORTSC_BASE,
    ]
}

pub fn usbcmd_table() -> [u32; 5]
    ensures { result ≡ masks usbcmd_table }
{
    [
        USBCMD_RUN_STOP,
        USBCMD_HCRESET,
        USBCMD_PERIODIC_ENABLE,
        USBCMD_ASYNC_ENABLE,
        USBCMD_INT_ASYNC_ADVANCE_DOORBELL,
    ]
}

pub fn usbsts_table() -> [u32; 7]
    ensures { result ≡ masks usbsts_table }
{
    [
        USBSTS_USBINT,
        USBSTS_USBERRINT,
        USBSTS_PORT_CHANGE,
        USBSTS_FRAME_LIST_ROLLOVER,
        USBSTS_HOST_SYSTEM_ERROR,
        USBSTS_INTERRUPT_ASYNC_ADVANCE,
        USBSTS_HALTED,
    ]
}

pub fn usbintr_table() -> [u32; 4]
    ensures { result ≡ masks usbintr_table }
{
    [
        USBINTR_USBINT,
        USBINTR_USBERRINT,
        USBINTR_PORT_CHANGE,
        USBINTR_ASYNC_ADVANCE,
    ]
}
