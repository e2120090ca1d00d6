// A port's state and what a scan reports of it.
ghost use Rattle.std.specs.Prelude.{◌≡◌};
ghost use Rattle.root_hub.specs.Ports.{port_state, event_port};

use opening::hub::{RESETED, UNINIT};

#[derive(Clone, Copy)]
pub enum PortState {
    Uninit,
    Reseted,
    Probed,
}

#[derive(Clone, Copy)]
pub enum Speed {
    Low,
    Full,
    High,
}

#[derive(Clone, Copy)]
pub enum PortEvent {
    Connected(u8, Speed),
    Disconnected(u8),
}

pub fn port_state(number: u8) -> PortState
    ensures { result ≡ port_state number }
{
    match number {
        UNINIT => PortState::Uninit,
        RESETED => PortState::Reseted,
        _ => PortState::Probed,
    }
}

// The port that an event is of, 0 where there is none.
pub fn event_port(event: Option<PortEvent>) -> u8
    ensures { result ≡ event_port event }
{
    match event {
        None => 0,
        Some(PortEvent::Connected(port, _)) => port,
        Some(PortEvent::Disconnected(port)) => port,
    }
}
