// Changes that no call makes, by the numbers of a record.
use crate::kept::Kept;
use crate::lend::{Lent, Rows};
use crate::trial::TRIAL;
use call_log::fields::Fields;
use descriptor::qtd::QueueTransferDescriptor;
use opening::hub::EhciRootHub;
use settings::settings::Settings;
use words::cores::Rest;

// The first number of a change: a log's records have lower ones.
pub const CHANGES: u8 = 64;

fn low_byte(value: u64) -> u8 {
    (value % 256) as u8
}

fn low_word(value: u64) -> u32 {
    (value % 0x1_0000_0000) as u32
}

fn change_settings(s: &mut Settings, field: u8, value: u64) {
    match field {
        0 => s.descriptors = value,
        1 => s.endpoints = low_byte(value),
        2 => s.ports = low_byte(value),
        3 => s.limit = value,
        4 => s.wait = value,
        5 => s.pool = value,
        6 => s.heads = value,
        7 => s.frames = value,
        _ => s.setups = value,
    }
}

// The free words are the last four.
fn change_rest(rest: &mut Rest, field: u8, value: u64) {
    match field {
        0 => rest.running = low_byte(value),
        1 => rest.step = low_byte(value),
        2 => rest.waited = value,
        3 => rest.address = low_byte(value),
        4 => rest.enabled = low_byte(value),
        5 => rest.pending = low_word(value),
        6 => rest.masked = low_word(value),
        7 => rest.noted = low_byte(value),
        8 => rest.doorbell = low_byte(value),
        9 => rest.unanswered = low_byte(value),
        10..=12 => rest.free[(field - 10) as usize] = value,
        _ => rest.free[3] = value,
    }
}

// One word and `more` after it: n2 to n7 at most.
fn change_slots(slots: &mut [u64; 193], at: u64, more: u8, values: &[u64]) {
    let first = (at % 193) as usize;
    for i in 0..values.len().min(more as usize + 1) {
        slots[(first + i) % 193] = values[i];
    }
}

fn change_record(r: &mut QueueTransferDescriptor, word: u8, value: u32) {
    match word {
        0 => r.next = value,
        1 => r.alternate = value,
        2 => r.token = value,
        3..=7 => r.pages[(word - 3) as usize] = value,
        _ => r.upper[((word - 8) % 5) as usize] = value,
    }
}

fn change_rows(rows: &mut Rows, f: Fields) {
    let [_, word, ..] = f.bytes;
    let [at, value, ..] = f.numbers;
    match f.number {
        66 => change_slots(&mut rows.slots, at, word, &f.numbers[1..]),
        67 => change_record(&mut rows.pool[(at % 258) as usize], word, low_word(value)),
        68 => rows.heads[(at % 562) as usize] = low_word(value),
        69 => rows.frames[(at % 1025) as usize] = low_word(value),
        _ => rows.setups[(at % 257) as usize] = low_byte(value),
    }
}

fn lent_by(f: Fields) -> Lent {
    let [pool, slots, heads, frames, setups, ..] = f.numbers;
    Lent {
        pool,
        slots,
        heads,
        frames,
        setups,
    }
}

// One state and the place of a scan.
fn change_hub(hub: &mut EhciRootHub, f: Fields) {
    let [ports, port, step, ..] = f.bytes;
    let [at, state, ..] = f.numbers;
    hub.ports = ports;
    hub.port = port;
    hub.step = step;
    hub.states[(at % 15) as usize] = low_byte(state);
}

impl Kept {
    pub fn change(&mut self, f: Fields) {
        let [_, field, ..] = f.bytes;
        let [_, value, ..] = f.numbers;
        match f.number {
            64 => change_settings(&mut self.core.settings, field, value),
            65 => change_rest(&mut self.core.rest, field, value),
            66..=70 => change_rows(&mut self.rows, f),
            71 => self.lent = lent_by(f),
            73 => change_hub(&mut self.hub, f),
            TRIAL => self.trial = Some(f),
            _ => {}
        }
    }
}
