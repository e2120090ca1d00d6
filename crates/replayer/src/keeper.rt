// The controller that a log is replayed on, and what one record does to it.
ghost use Rattle.std.specs.Prelude.{◌≡◌};
ghost use Rattle.replayer.specs.Replays.{
  act_of,
  call_effect,
  fresh_keeper,
  no_effect,
  open_effect,
  power_effect,
  scan_effect,
};
ghost use Rattle.replayer.specs.Words.{effect_of, keeper_view};
ghost use Rattle.root_hub.specs.Calls.{power_of};
ghost use Rattle.store.specs.Stores.{call_store, open_store};
ghost use Rattle.store.specs.Words.{store_view};

pub use crate::kept::Keeper;
use call_log::call_line::{call_line, scan_line};
use call_log::line::Line;
use call_log::record::Entry;
use ehci::call::Call;
use ehci::reply::{Answered, Given};
use opening::hub::EhciRootHub;
use register::writes::Writes;
use root_hub::calls::Scanned;
use root_hub::ports::PortEvent;
use settings::settings::Settings;
use store::store::{blank_store, call_on, open_in};

// What is kept after a record, the first line of its block, and its writes.
#[derive(Clone, Copy)]
pub struct Acted {
    pub keeper: Keeper,
    pub line: Line,
    pub opening: bool,
    pub writes: Writes,
}

pub fn fresh_keeper() -> Keeper
    ensures { keeper_view result ≡ fresh_keeper }
{
    Keeper {
        store: blank_store(),
        hub: EhciRootHub::new(0),
        opened: false,
    }
}

// A refused opening leaves the earlier controller as it was.
fn act_open(k: Keeper, n: u64, number: u8, settings: Settings) -> Acted
    ensures { effect_of result ≡ open_effect (keeper_view k) n number (open_store (store_view k.store) settings) }
{
    let opened = open_in(k.store, settings);
    match opened.answer {
        Ok(()) => Acted {
            keeper: Keeper {
                store: opened.store,
                hub: opened.hub,
                opened: true,
            },
            line: call_line(n, number, Ok(Answered::Done(Given::Nothing))),
            opening: true,
            writes: Writes::none(),
        },
        Err(refusal) => Acted {
            keeper: k,
            line: call_line(n, number, Err(refusal)),
            opening: false,
            writes: Writes::none(),
        },
    }
}

fn act_call(k: Keeper, n: u64, number: u8, call: Call) -> Acted
    ensures { effect_of result ≡ call_effect (keeper_view k) n number (call_store (store_view k.store) call) }
{
    let called = call_on(k.store, call);
    Acted {
        keeper: Keeper {
            store: called.store,
            hub: k.hub,
            opened: k.opened,
        },
        line: call_line(n, number, called.answer),
        opening: false,
        writes: called.writes,
    }
}

fn act_scan(k: Keeper, n: u64, number: u8, scanned: Scanned) -> Acted
    ensures { effect_of result ≡ scan_effect (keeper_view k) n number scanned }
{
    let reply = scanned.reply;
    Acted {
        keeper: Keeper {
            store: k.store,
            hub: scanned.hub,
            opened: k.opened,
        },
        line: scan_line(n, number, reply.answer, reply.read, reply.wait, reply.event),
        opening: false,
        writes: reply.writes,
    }
}

// Port power reads nothing next and has no event.
fn act_power(k: Keeper, n: u64, number: u8, port: u8, reading: u32) -> Acted
    ensures { effect_of result ≡ power_effect (keeper_view k) n number (power_of k.hub port reading) }
{
    let powered = root_hub::calls::port_power(k.hub, port, reading);
    let line = scan_line(n, number, powered.answer, None, powered.wait, None);
    Acted {
        keeper: k,
        line,
        opening: false,
        writes: powered.writes,
    }
}

fn act_nothing(k: Keeper, n: u64, number: u8) -> Acted
    ensures { effect_of result ≡ no_effect (keeper_view k) n number }
{
    Acted {
        keeper: k,
        line: call_line(n, number, Ok(Answered::Pending)),
        opening: false,
        writes: Writes::none(),
    }
}

// None is a bad record, which does nothing: the log ends at it.
pub fn act(k: Keeper, n: u64, number: u8, entry: Option<Entry>) -> Acted
    ensures { effect_of result ≡ act_of (keeper_view k) n number entry }
{
    let Some(entry) = entry else {
        return act_nothing(k, n, number);
    };
    match entry {
        Entry::Open(settings) => act_open(k, n, number, settings),
        Entry::Call(call) => act_call(k, n, number, call),
        Entry::StartScan => act_scan(k, n, number, root_hub::calls::start(k.hub)),
        Entry::ScanStep(reading) => act_scan(k, n, number, root_hub::calls::step(k.hub, reading)),
        Entry::PortPower(port, reading) => act_power(k, n, number, port, reading),
    }
}
