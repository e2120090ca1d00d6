// What the reading of one step of a scan does, and where the scan goes.
ghost use Rattle.std.specs.Prelude.{◌≡◌, ◌≤◌};
ghost use Rattle.root_hub.specs.Ports.{port_state};
ghost use Rattle.root_hub.specs.Scan.{
  awaited_of,
  onward,
  await,
  status_turn,
  again_turn,
  gone_turn,
  reset_turn,
  release_turn,
  owner_turn,
  turn_of,
  place_after,
  port_writes,
};

use crate::ports::{PortEvent, PortState, Speed, port_state};
use opening::hub::{PROBED, RESETED, UNINIT};
use register::bits::{with_bits, without_bits};
use register::operational::port_offset;
use register::writes::Writes;
use token::port::EhciPortStatus;

pub const RESET_MS: u32 = 50;

pub const RECOVERY_MS: u32 = 20;

// What the reading of a step is: the port's status, or the value that a write alters.
#[derive(Clone, Copy)]
pub enum Awaited {
    Status,
    Gone,
    Reset,
    Release,
    Again,
    Owner,
}

// What a reading does to its port: the state that it leaves, and the step that is next there, 0 where it is done with.
#[derive(Clone, Copy)]
pub struct Turned {
    pub state: u8,
    pub step: u8,
    pub change: Option<u32>,
    pub event: Option<PortEvent>,
    pub wait: u32,
}

#[derive(Clone, Copy)]
pub struct Place {
    pub port: u8,
    pub step: u8,
    pub read: Option<u32>,
}

pub fn awaited_of(step: u8) -> Awaited
    ensures { result ≡ awaited_of step }
{
    match step {
        1 => Awaited::Status,
        2 => Awaited::Gone,
        3 => Awaited::Reset,
        4 => Awaited::Release,
        5 => Awaited::Again,
        _ => Awaited::Owner,
    }
}

fn onward(state: u8) -> Turned
    ensures { result ≡ onward state }
{
    Turned {
        state,
        step: 0,
        change: None,
        event: None,
        wait: 0,
    }
}

fn await_step(state: u8, step: u8) -> Turned
    ensures { result ≡ await state step }
{
    Turned {
        state,
        step,
        change: None,
        event: None,
        wait: 0,
    }
}

// The first reading of a port.
fn status_turn(state: u8, connected: bool) -> Turned
    ensures { result ≡ status_turn (port_state state) state connected }
{
    match port_state(state) {
        PortState::Uninit => {
            if connected {
                await_step(state, 3)
            } else {
                onward(state)
            }
        }
        PortState::Reseted => {
            if connected {
                await_step(state, 5)
            } else {
                onward(state)
            }
        }
        PortState::Probed => {
            if connected {
                onward(state)
            } else {
                await_step(state, 2)
            }
        }
    }
}

// The reading after the reset.
fn again_turn(state: u8, port: u8, connected: bool, enabled: bool) -> Turned
    ensures { result ≡ again_turn state port connected enabled }
{
    if !connected {
        return onward(state);
    }
    if !enabled {
        return await_step(state, 6);
    }
    Turned {
        state: PROBED,
        step: 0,
        change: None,
        event: Some(PortEvent::Connected(port, Speed::High)),
        wait: 0,
    }
}

// A device that was reported is gone.
fn gone_turn(port: u8, reading: u32) -> Turned
    ensures { result ≡ gone_turn port reading }
{
    let value = with_bits(reading, EhciPortStatus::CONNECT_CHANGE);
    Turned {
        state: UNINIT,
        step: 0,
        change: Some(without_bits(value, EhciPortStatus::OTHER_CHANGES)),
        event: Some(PortEvent::Disconnected(port)),
        wait: 0,
    }
}

// 000's `reset_port`, its first half.
fn reset_turn(state: u8, reading: u32) -> Turned
    ensures { result ≡ reset_turn state reading }
{
    let value = with_bits(reading, EhciPortStatus::POWER | EhciPortStatus::RESET);
    Turned {
        state,
        step: 4,
        change: Some(without_bits(value, EhciPortStatus::CHANGES)),
        event: None,
        wait: RESET_MS,
    }
}

// Its second half.
fn release_turn(reading: u32) -> Turned
    ensures { result ≡ release_turn reading }
{
    Turned {
        state: RESETED,
        step: 5,
        change: Some(without_bits(reading, EhciPortStatus::RESET)),
        event: None,
        wait: RECOVERY_MS,
    }
}

// A device that is not of high speed goes to the companion controller.
fn owner_turn(state: u8, reading: u32) -> Turned
    ensures { result ≡ owner_turn state reading }
{
    Turned {
        state,
        step: 0,
        change: Some(with_bits(reading, EhciPortStatus::OWNER)),
        event: None,
        wait: 0,
    }
}

pub fn turn(awaited: Awaited, state: u8, port: u8, reading: u32) -> Turned
    ensures { result ≡ turn_of awaited state port reading }
{
    let status = EhciPortStatus::from_raw(reading);
    match awaited {
        Awaited::Status => status_turn(state, status.connected()),
        Awaited::Gone => gone_turn(port, reading),
        Awaited::Reset => reset_turn(state, reading),
        Awaited::Release => release_turn(reading),
        Awaited::Again => again_turn(state, port, status.connected(), status.enabled()),
        Awaited::Owner => owner_turn(state, reading),
    }
}

// Where a scan goes from a port: on there, to the next port, or to its end.
pub fn place_after(port: u8, ports: u8, step: u8) -> Place
    requires le_port { 1 ≤ port }
    requires ports_bound { ports ≤ 15 }
    ensures { result ≡ place_after port ports step }
{
    if step != 0 {
        return Place {
            port,
            step,
            read: Some(port_offset(port)),
        };
    }
    if port < ports {
        return Place {
            port: port + 1,
            step: 1,
            read: Some(port_offset(port + 1)),
        };
    }
    Place {
        port: 0,
        step: 0,
        read: None,
    }
}

pub fn port_writes(port: u8, change: Option<u32>) -> Writes
    requires { 1 ≤ port }
    ensures { result ≡ port_writes port change }
{
    match change {
        None => Writes::none(),
        Some(value) => Writes::none().and_then(port_offset(port), value),
    }
}
