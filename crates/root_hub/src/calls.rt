// The calls by value: port power, the start of a scan, a step of it.
ghost use Rattle.std.specs.Prelude.{◌≡◌};
ghost use Rattle.common.specs.declared.answer.Refusal.TheVariants.{InvalidParameter};
ghost use Rattle.root_hub.specs.Calls.{refused_scan, start_of, step_of, refused_power, power_of};

use crate::ports::PortEvent;
use crate::ranges::{hub_good, index_of};
use crate::scan::{RECOVERY_MS, awaited_of, place_after, port_writes, turn};
use common::answer::Refusal;
use opening::hub::EhciRootHub;
use register::bits::{with_bits, without_bits};
use register::operational::port_offset;
use register::writes::Writes;
use token::port::EhciPortStatus;

// What a caller is told: the writes, then the milliseconds to wait, then the register to read.
#[derive(Clone, Copy)]
pub struct ScanReply {
    pub answer: Result<(), Refusal>,
    pub event: Option<PortEvent>,
    pub writes: Writes,
    pub read: Option<u32>,
    pub wait: u32,
}

#[derive(Clone, Copy)]
pub struct Scanned {
    pub hub: EhciRootHub,
    pub reply: ScanReply,
}

#[derive(Clone, Copy)]
pub struct PortPower {
    pub answer: Result<(), Refusal>,
    pub writes: Writes,
    pub wait: u32,
}

// Begins at port 1, also where a scan is begun.
pub fn start(mut hub: EhciRootHub) -> Scanned
    ensures { result ≡ start_of hub }
{
    if !hub_good(hub) {
        return refuse(hub, Refusal::InvalidParameter);
    }
    hub.port = 1;
    hub.step = 1;
    Scanned {
        hub,
        reply: ScanReply {
            answer: Ok(()),
            event: None,
            writes: Writes::none(),
            read: Some(port_offset(1)),
            wait: 0,
        },
    }
}

// Given the register that the last answer named.
pub fn step(mut hub: EhciRootHub, reading: u32) -> Scanned
    ensures { result ≡ step_of hub reading }
{
    if !hub_good(hub) {
        return refuse(hub, Refusal::InvalidParameter);
    }
    let now = hub.step;
    if now == 0 {
        return refuse(hub, Refusal::InvalidParameter);
    }
    let port = hub.port;
    let at = index_of(port);
    let turned = turn(awaited_of(now), hub.states[at], port, reading);
    let place = place_after(port, hub.ports, turned.step);
    hub.states[at] = turned.state;
    hub.port = place.port;
    hub.step = place.step;
    Scanned {
        hub,
        reply: ScanReply {
            answer: Ok(()),
            event: turned.event,
            writes: port_writes(port, turned.change),
            read: place.read,
            wait: turned.wait,
        },
    }
}

fn refuse(hub: EhciRootHub, refusal: Refusal) -> Scanned
    ensures { result ≡ refused_scan hub refusal }
{
    Scanned {
        hub,
        reply: ScanReply {
            answer: Err(refusal),
            event: None,
            writes: Writes::none(),
            read: None,
            wait: 0,
        },
    }
}

// 000's `init_ports` for one port, given its register's reading.
pub fn port_power(hub: EhciRootHub, port: u8, reading: u32) -> PortPower
    ensures { result ≡ power_of hub port reading }
{
    if !hub_good(hub) {
        return no_power();
    }
    if !((1 <= port) & (port <= hub.ports)) {
        return no_power();
    }
    let value = with_bits(reading, EhciPortStatus::POWER);
    PortPower {
        answer: Ok(()),
        writes: Writes::none().and_then(
            port_offset(port),
            without_bits(value, EhciPortStatus::CHANGES),
        ),
        wait: RECOVERY_MS,
    }
}

fn no_power() -> PortPower
    ensures { result ≡ refused_power InvalidParameter }
{
    PortPower {
        answer: Err(Refusal::InvalidParameter),
        writes: Writes::none(),
        wait: 0,
    }
}
