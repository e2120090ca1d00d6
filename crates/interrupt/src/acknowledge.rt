// What an acknowledgment writes and notes.
ghost use Rattle.std.specs.Prelude.{◌≡◌};
ghost use Rattle.interrupt.specs.Interrupts.{mask_word, acknowledge_writes};

use register::bits::{only_bits, without_bits};
use register::operational::{
    USBINTR, USBINTR_ASYNC_ADVANCE, USBINTR_PORT_CHANGE, USBINTR_USBERRINT, USBINTR_USBINT, USBSTS,
    USBSTS_HOST_SYSTEM_ERROR, USBSTS_INTERRUPT_ASYNC_ADVANCE, USBSTS_PORT_CHANGE, USBSTS_USBERRINT,
    USBSTS_USBINT,
};
use register::writes::Writes;

// What is enabled, and so what is masked.
pub const MASKABLE: u32 = USBINTR_USBINT
    | USBINTR_USBERRINT
    | USBINTR_PORT_CHANGE
    | USBINTR_ASYNC_ADVANCE;

// What is acknowledged: the same, and the host system error.
pub const PENDING: u32 = USBSTS_USBINT
    | USBSTS_USBERRINT
    | USBSTS_PORT_CHANGE
    | USBSTS_HOST_SYSTEM_ERROR
    | USBSTS_INTERRUPT_ASYNC_ADVANCE;

fn mask_word(p: u32, interrupts: u32, flag: bool) -> u32
    ensures { result ≡ mask_word p interrupts flag }
{
    if flag {
        without_bits(interrupts, only_bits(p, MASKABLE))
    } else {
        0
    }
}

// USBSTS, and USBINTR by the first flag reading; once more where the second differs.
pub fn acknowledge_writes(p: u32, interrupts: u32, flag: bool, again: bool) -> Writes
    ensures { result ≡ acknowledge_writes p interrupts flag again }
{
    let writes = Writes::none()
        .and_then(USBSTS, p)
        .and_then(USBINTR, mask_word(p, interrupts, flag));
    if flag == again {
        return writes;
    }
    writes.and_then(USBINTR, mask_word(p, interrupts, again))
}
