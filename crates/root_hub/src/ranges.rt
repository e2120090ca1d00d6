// The ranges of the ports' record, which every call asks first.
ghost use Rattle.std.specs.Prelude.{◌≡◌, ◌-◌, ◌≤◌};
ghost use Rattle.root_hub.specs.Ranges.{
  state_good,
  states_good,
  fits,
  place_good,
  hub_good,
};

use crate::scan::{Awaited, awaited_of};
use opening::hub::{EhciRootHub, PROBED, RESETED, UNINIT};

// The place of a port in the record.
pub fn index_of(port: u8) -> usize
    requires { 1 ≤ port }
    ensures { result ≡ port - 1 }
{
    port as usize - 1
}

fn state_good(ports: u8, k: u64, state: u8) -> bool
    ensures { result ≡ state_good ports k state }
{
    if k < ports as u64 {
        state <= PROBED
    } else {
        state == UNINIT
    }
}

fn states_good(hub: EhciRootHub) -> bool
    ensures { result ≡ states_good 0 15 hub }
{
    let mut good = true;
    for k in 0..15 {
        good &= state_good(hub.ports, k as u64, hub.states[k]);
    }
    good
}

// Whether a port in a state can be at a step.
fn step_fits(awaited: Awaited, state: u8) -> bool
    ensures { result ≡ fits awaited state }
{
    match awaited {
        Awaited::Status => true,
        Awaited::Gone => state == PROBED,
        Awaited::Reset => state == UNINIT,
        Awaited::Release => state == UNINIT,
        Awaited::Again => state == RESETED,
        Awaited::Owner => state == RESETED,
    }
}

fn place_good(hub: EhciRootHub) -> bool
    requires { hub.ports ≤ 15 }
    ensures { result ≡ place_good hub }
{
    let port = hub.port;
    let step = hub.step;
    if port == 0 {
        return step == 0;
    }
    if hub.ports < port {
        return false;
    }
    let at = index_of(port);
    let state = hub.states[at];
    (1 <= step) & (step <= 6) & step_fits(awaited_of(step), state)
}

pub fn hub_good(hub: EhciRootHub) -> bool
    ensures { result ≡ hub_good hub }
{
    (1 <= hub.ports) & (hub.ports <= 15) && (states_good(hub) & place_good(hub))
}
