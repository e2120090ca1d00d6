// The stages of bring-up: for each what its reading must show, what it writes, and what is read next.
ghost use Rattle.std.specs.Prelude.{◌≡◌, ◌<◌};
ghost use Rattle.bring_up.specs.BringUp.{
  stage_of,
  register_of,
  ready,
  set_up,
  command,
  stage_writes,
  on_to,
  moved_on,
};

use register::bits::{any_of, with_bits, without_bits};
use register::operational::{
    ASYNCLISTADDR, CONFIGFLAG, CTRLDSSEGMENT, PERIODICLISTBASE, USBCMD, USBCMD_ASYNC_ENABLE,
    USBCMD_HCRESET, USBCMD_PERIODIC_ENABLE, USBCMD_RUN_STOP, USBSTS, USBSTS_FRAME_LIST_ROLLOVER,
    USBSTS_HALTED, USBSTS_HOST_SYSTEM_ERROR, USBSTS_INTERRUPT_ASYNC_ADVANCE, USBSTS_PORT_CHANGE,
    USBSTS_USBERRINT, USBSTS_USBINT,
};
use register::writes::Writes;
use schedule::bell::command_word;

// Run/Stop and both schedules.
pub const RUNNING: u32 = USBCMD_RUN_STOP | USBCMD_ASYNC_ENABLE | USBCMD_PERIODIC_ENABLE;

// Every status bit that is cleared by writing it.
pub const STATUS: u32 = USBSTS_USBINT
    | USBSTS_USBERRINT
    | USBSTS_PORT_CHANGE
    | USBSTS_FRAME_LIST_ROLLOVER
    | USBSTS_HOST_SYSTEM_ERROR
    | USBSTS_INTERRUPT_ASYNC_ADVANCE;

pub const SETTLE_MS: u32 = 100;

// What the reading of a step is for.
#[derive(Clone, Copy)]
pub enum Stage {
    Stop,
    Halting,
    Reset,
    Resetting,
    Run,
    Starting,
}

// What a ready reading leads to.
#[derive(Clone, Copy)]
pub struct Moved {
    pub running: u8,
    pub step: u8,
    pub read: Option<u32>,
    pub wait: u32,
}

pub fn stage_of(step: u8) -> Stage
    ensures { result ≡ stage_of step }
{
    match step {
        1 => Stage::Stop,
        2 => Stage::Halting,
        3 => Stage::Reset,
        4 => Stage::Resetting,
        5 => Stage::Run,
        _ => Stage::Starting,
    }
}

pub fn register_of(stage: Stage) -> u32
    ensures { result ≡ register_of stage }
{
    match stage {
        Stage::Stop => USBCMD,
        Stage::Halting => USBSTS,
        Stage::Reset => USBCMD,
        Stage::Resetting => USBCMD,
        Stage::Run => USBCMD,
        Stage::Starting => USBSTS,
    }
}

pub fn is_ready(stage: Stage, reading: u32) -> bool
    ensures { result ≡ ready stage reading }
{
    match stage {
        Stage::Stop => true,
        Stage::Halting => any_of(reading, USBSTS_HALTED),
        Stage::Reset => true,
        Stage::Resetting => !any_of(reading, USBCMD_HCRESET),
        Stage::Run => true,
        Stage::Starting => !any_of(reading, USBSTS_HALTED),
    }
}

// The areas' addresses, and a clean status.
fn set_up(frames: u64, heads: u64) -> Writes
    requires frames_bound { frames < 4294967296 }
    requires heads_bound { heads < 4294967296 }
    ensures { result ≡ set_up frames heads }
{
    Writes::none()
        .and_then(CTRLDSSEGMENT, 0)
        .and_then(PERIODICLISTBASE, frames as u32)
        .and_then(ASYNCLISTADDR, heads as u32)
        .and_then(CONFIGFLAG, 1)
        .and_then(USBSTS, STATUS)
}

fn command(value: u32) -> Writes
    ensures { result ≡ command value }
{
    Writes::none().and_then(USBCMD, command_word(value))
}

pub fn stage_writes(stage: Stage, reading: u32, frames: u64, heads: u64) -> Writes
    requires frames_bound { frames < 4294967296 }
    requires heads_bound { heads < 4294967296 }
    ensures { result ≡ stage_writes stage reading frames heads }
{
    match stage {
        Stage::Stop => command(without_bits(reading, RUNNING)),
        Stage::Halting => Writes::none(),
        Stage::Reset => command(with_bits(reading, USBCMD_HCRESET)),
        Stage::Resetting => set_up(frames, heads),
        Stage::Run => command(with_bits(reading, RUNNING)),
        Stage::Starting => Writes::none(),
    }
}

fn on_to(step: u8, register: u32) -> Moved
    ensures { result ≡ on_to step register }
{
    Moved {
        running: 0,
        step,
        read: Some(register),
        wait: 0,
    }
}

pub fn moved_on(stage: Stage) -> Moved
    ensures { result ≡ moved_on stage }
{
    match stage {
        Stage::Stop => on_to(2, USBSTS),
        Stage::Halting => on_to(3, USBCMD),
        Stage::Reset => on_to(4, USBCMD),
        Stage::Resetting => on_to(5, USBCMD),
        Stage::Run => on_to(6, USBSTS),
        Stage::Starting => Moved {
            running: 1,
            step: 0,
            read: None,
            wait: SETTLE_MS,
        },
    }
}
