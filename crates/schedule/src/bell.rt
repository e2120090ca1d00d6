// The doorbell of the asynchronous schedule: ringing it, counting its answers, and the boundaries of unlinked requests.
ghost use Rattle.std.specs.Prelude.{◌≡◌, ◌<◌, ◌≤◌};
ghost use Rattle.schedule.specs.Bell.{command_word, ring_of, unlinked_of, advanced_of, frame_of, frames_passed};

use register::bits::{with_bits, without_bits};
use register::operational::{USBCMD, USBCMD_INT_ASYNC_ADVANCE_DOORBELL};
use register::writes::Writes;

// An advance noted since the ring, whether the doorbell is up, how many unlinks are unanswered.
#[derive(Clone, Copy)]
pub struct Bell {
    pub noted: u8,
    pub doorbell: u8,
    pub unanswered: u8,
}

#[derive(Clone, Copy)]
pub struct Rung {
    pub bell: Bell,
    pub writes: Writes,
}

// The micro-frames after which the controller has forgotten an unlinked interrupt head.
pub const PERIODIC_UNLINK_SAFE_UFRAMES: u32 = 9;

// A value for USBCMD that is no ring.
pub fn command_word(value: u32) -> u32
    ensures { result ≡ command_word value }
{
    without_bits(value, USBCMD_INT_ASYNC_ADVANCE_DOORBELL)
}

// Rings where the doorbell is down and an unlink is unanswered.
pub fn ring(bell: Bell, writes: Writes, command: u32) -> Rung
    requires { writes.count < 6 }
    ensures { result ≡ ring_of bell writes command }
{
    if bell.doorbell == 0 && 1 <= bell.unanswered {
        return Rung {
            bell: Bell {
                doorbell: 1,
                ..bell
            },
            writes: writes.and_then(
                USBCMD,
                with_bits(command, USBCMD_INT_ASYNC_ADVANCE_DOORBELL),
            ),
        };
    }
    Rung { bell, writes }
}

// One more unlink.
pub fn unlinked(bell: Bell, writes: Writes, command: u32) -> Rung
    requires count_bound { writes.count < 6 }
    requires unanswered_bound { bell.unanswered < 255 }
    ensures { result ≡ unlinked_of bell writes command }
{
    let more = Bell {
        unanswered: bell.unanswered + 1,
        ..bell
    };
    ring(more, writes, command)
}

// One unlink is answered.
pub fn advanced(bell: Bell, writes: Writes, command: u32) -> Rung
    requires count_bound { writes.count < 6 }
    requires le_unanswered { 1 ≤ bell.unanswered }
    ensures { result ≡ advanced_of bell writes command }
{
    let fewer = Bell {
        noted: 0,
        doorbell: 0,
        unanswered: bell.unanswered - 1,
    };
    ring(fewer, writes, command)
}

// FRINDEX as a boundary keeps it.
pub fn frame_of(reading: u32) -> u16
    ensures { result ≡ frame_of reading }
{
    (reading % 16384) as u16
}

// Whether the boundary of an interrupt request has passed.
pub fn frames_passed(start: u16, reading: u32) -> bool
    requires { start < 16384 }
    ensures { result ≡ frames_passed start reading }
{
    let distance = (reading % 16384 + (16384 - start as u32)) % 16384;
    PERIODIC_UNLINK_SAFE_UFRAMES <= distance
}
