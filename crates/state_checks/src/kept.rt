// What is kept from record to record, and what a call does to it.
use crate::lend::{Lent, Rows, called, opened};
use call_log::call_line::{call_line, scan_line};
use call_log::fields::Fields;
use call_log::line::Line;
use call_log::record::Entry;
use common::answer::Refusal;
use controller::lent::Readings;
use descriptor::qtd::QueueTransferDescriptor;
use ehci::call::Call;
use ehci::reply::{Answered, Given};
use opening::hub::EhciRootHub;
use pipe::endpoints::{direction_of, kind_of};
use register::writes::Writes;
use request::judge::TransferRequest;
use root_hub::calls::Scanned;
use root_hub::ports::PortEvent;
use settings::settings::Settings;
use words::cores::Core;

// `trial` is the last record that told of a trial, until a call comes.
#[derive(Clone, Copy)]
pub struct Kept {
    pub core: Core,
    pub hub: EhciRootHub,
    pub rows: Rows,
    pub lent: Lent,
    pub trial: Option<Fields>,
}

// The line of a call, and its writes.
#[derive(Clone, Copy)]
pub struct Said {
    pub line: Line,
    pub writes: Writes,
}

const NO_ROW: Lent = Lent {
    pool: 0,
    slots: 0,
    heads: 0,
    frames: 0,
    setups: 0,
};

fn sevens() -> Rows {
    let seven = QueueTransferDescriptor {
        next: 7,
        alternate: 7,
        token: 7,
        pages: [7; 5],
        upper: [7; 5],
    };
    Rows {
        pool: [seven; 258],
        slots: [7; 193],
        heads: [7; 562],
        frames: [7; 1025],
        setups: [7; 257],
    }
}

fn answered(answer: Result<(), Refusal>) -> Result<Answered, Refusal> {
    match answer {
        Ok(()) => Ok(Answered::Done(Given::Nothing)),
        Err(refusal) => Err(refusal),
    }
}

// A submit with any setup number: a log's are below 2^48.
fn any_submit(f: Fields) -> Call {
    let [slot, kind, direction, ..] = f.bytes;
    let [setup, address, length, ..] = f.numbers;
    let request = TransferRequest {
        kind: kind_of(kind),
        direction: direction_of(direction),
        setup,
        address,
        length,
    };
    let readings = Readings {
        command: 0,
        frame: 0,
        overlay: 0,
    };
    Call::Submit(slot, request, readings)
}

impl Kept {
    // Rows of sevens, and what a refused opening gives.
    pub fn blank() -> Kept {
        let mut rows = sevens();
        let opening = opened(Settings::default(), &mut rows, NO_ROW);
        Kept {
            core: opening.core,
            hub: opening.hub,
            rows,
            lent: NO_ROW,
            trial: None,
        }
    }

    // What a refused opening gives is taken too: no call accepts it.
    fn open(&mut self, n: u64, settings: Settings) -> Said {
        let opening = opened(settings, &mut self.rows, self.lent);
        self.core = opening.core;
        self.hub = opening.hub;
        Said {
            line: call_line(n, 1, answered(opening.answer)),
            writes: Writes::none(),
        }
    }

    fn call(&mut self, n: u64, number: u8, call: Call) -> Said {
        let reply = called(self.core, &mut self.rows, self.lent, call);
        self.core.rest = reply.rest;
        Said {
            line: call_line(n, number, reply.answer),
            writes: reply.writes,
        }
    }

    fn scan(&mut self, n: u64, number: u8, scanned: Scanned) -> Said {
        self.hub = scanned.hub;
        let reply = scanned.reply;
        Said {
            line: scan_line(n, number, reply.answer, reply.read, reply.wait, reply.event),
            writes: reply.writes,
        }
    }

    // Port power reads nothing next and has no event.
    fn power(&self, n: u64, port: u8, reading: u32) -> Said {
        let powered = root_hub::calls::port_power(self.hub, port, reading);
        Said {
            line: scan_line(n, 20, powered.answer, None, powered.wait, None),
            writes: powered.writes,
        }
    }

    pub fn act(&mut self, n: u64, f: Fields, entry: Option<Entry>) -> Said {
        let Some(entry) = entry else {
            return self.call(n, f.number, any_submit(f));
        };
        match entry {
            Entry::Open(settings) => self.open(n, settings),
            Entry::Call(call) => self.call(n, f.number, call),
            Entry::StartScan => self.scan(n, f.number, root_hub::calls::start(self.hub)),
            Entry::ScanStep(reading) => {
                self.scan(n, f.number, root_hub::calls::step(self.hub, reading))
            }
            Entry::PortPower(port, reading) => self.power(n, port, reading),
        }
    }
}
