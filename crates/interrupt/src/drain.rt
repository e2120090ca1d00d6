// What a drain counts, and what it takes.
ghost use Rattle.std.specs.Prelude.{◌≡◌};
ghost use Rattle.interrupt.specs.Interrupts.{counted_of, cleared_of};
ghost use Rattle.interrupt.specs.Words.{counted_view};
ghost use Rattle.words.specs.Good.{Good, Tidy};
ghost use Rattle.words.specs.View.{view};

use crate::answers::Event;
use register::bits::{any_of, without_bits};
use register::operational::{
    USBSTS_INTERRUPT_ASYNC_ADVANCE, USBSTS_PORT_CHANGE, USBSTS_USBERRINT, USBSTS_USBINT,
};
use register::writes::Writes;
use schedule::bell::{Bell, advanced};
use words::cores::{Core, Rest};
use words::fall::fall;

pub const ACTIVITY: u32 = USBSTS_USBINT | USBSTS_USBERRINT | USBSTS_INTERRUPT_ASYNC_ADVANCE;

// What a drain takes of what is pending, and what it leaves.
#[derive(Clone, Copy)]
pub struct Cleared {
    pub event: Event,
    pub left: u32,
}

#[derive(Clone, Copy)]
pub struct Counted {
    pub rest: Rest,
    pub writes: Writes,
}

// Port change first, then activity, then what is left.
pub fn clear_pending(pending: u32) -> Cleared
    ensures { result ≡ cleared_of pending }
{
    if any_of(pending, USBSTS_PORT_CHANGE) {
        return Cleared {
            event: Event::PortChange,
            left: without_bits(pending, USBSTS_PORT_CHANGE),
        };
    }
    if any_of(pending, ACTIVITY) {
        return Cleared {
            event: Event::TransferActivity,
            left: without_bits(pending, ACTIVITY),
        };
    }
    Cleared {
        event: Event::Stopped,
        left: 0,
    }
}

// A noted advance counts once.
pub fn count_noted(core: Core, slots: &mut [u64], command: u32) -> Counted
    requires { Good core.settings core.rest slots.old }
    ensures slots_after { counted_view core.settings result slots.new ≡ counted_of (view core slots.old) command }
    ensures tidy { Tidy core.settings result.rest slots.new }
{
    let mut rest = core.rest;
    if rest.noted == 0 {
        return Counted {
            rest,
            writes: Writes::none(),
        };
    }
    let bell = Bell {
        noted: rest.noted,
        doorbell: rest.doorbell,
        unanswered: rest.unanswered,
    };
    let rung = advanced(bell, Writes::none(), command);
    fall(slots, core.settings.endpoints);
    rest.noted = rung.bell.noted;
    rest.doorbell = rung.bell.doorbell;
    rest.unanswered = rung.bell.unanswered;
    let writes = rung.writes;
    Counted { rest, writes }
}
