// Register bits, tokens, plans and chunks, and the port's status.
use crate::Record;
use crate::out::{flag, low_byte, low_word, put, word};
use common::kinds::{Direction, EndpointType};
use register::bits;
use token::port::EhciPortStatus;
use token::qtd::{QtdPid, QtdToken};
use token::{chunks, plan};

fn pid(k: u64) -> QtdPid {
    match k {
        0 => QtdPid::Out,
        1 => QtdPid::In,
        _ => QtdPid::Setup,
    }
}

fn direction(k: u64) -> Direction {
    if k == 0 {
        Direction::Out
    } else {
        Direction::In
    }
}

pub fn kind(k: u64) -> EndpointType {
    match k {
        0 => EndpointType::Control,
        1 => EndpointType::Isochronous,
        2 => EndpointType::Bulk,
        _ => EndpointType::Interrupt,
    }
}

fn bits(value: u32, chosen: u32) {
    word(bits::with_bits(value, chosen));
    word(bits::without_bits(value, chosen));
    word(bits::only_bits(value, chosen));
    flag(bits::any_of(value, chosen));
}

fn made(pid: QtdPid, bytes: u64, interrupt: bool, toggle: bool) {
    word(QtdToken::new(pid, bytes).raw());
    word(QtdToken::started(pid, bytes, interrupt, toggle).raw());
}

fn changed(token: QtdToken, count: u8, set: bool) {
    word(token.with_error_counter(count).raw());
    word(token.with_active(set).raw());
    word(token.with_interrupt_on_complete(set).raw());
    word(token.with_data_toggle(set).raw());
}

fn read(token: QtdToken) {
    word(token.total_bytes());
    flag(token.active());
    flag(token.has_error());
    flag(token.retried());
}

// Nothing is printed of a data stage that is absent.
fn control(direction: Direction, length: u64) {
    let plan = plan::build_control_td_plan(direction, length);
    let stage = plan.data;
    word(plan.setup.raw());
    if let Some(token) = stage {
        word(token.raw());
    }
    word(plan.status.raw());
}

fn lengths(length: u64, limit: u32, shown: u32) {
    for k in 0..shown {
        put(chunks::chunk_length(k, length, limit));
    }
}

// A request at limit 0 has no number of chunks.
fn chunked(kind: EndpointType, length: u64, limit: u32, shown: u32) {
    if limit == 0 {
        return;
    }
    put(chunks::need(kind, length, limit as u64));
    put(chunks::chunk_count(length, limit as u64));
    lengths(length, limit, shown);
}

fn port(raw: u32) {
    let status = EhciPortStatus::from_raw(raw);
    flag(status.connected());
    flag(status.enabled());
    flag(status.is_high_speed_device_ready());
}

pub fn token_line(record: Record) {
    let Record {
        function,
        a,
        b,
        c,
        d,
    } = record;
    match function {
        1 => bits(low_word(a), low_word(b)),
        2 => made(pid(a), b, c == 1, d == 1),
        3 => changed(QtdToken(low_word(a)), low_byte(b), c == 1),
        4 => read(QtdToken(low_word(a))),
        5 => control(direction(a), b),
        6 => word(plan::chunk_token(direction(a), b, c == 1).raw()),
        7 => chunked(kind(a), b, low_word(c), low_word(d)),
        8 => port(low_word(a)),
        9 => put(chunks::chunk_length(low_word(a), b, low_word(c))),
        _ => put(chunks::working_limit(kind(a), b, c)),
    }
}
