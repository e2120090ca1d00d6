// What an accepted request takes, links and writes.
ghost use Rattle.std.specs.Prelude.{◌≡◌, ◌+◌, ◌*◌, ◌^◌, ◌<◌, ◌≤◌, length, Ok, false};
ghost use Rattle.bitset.specs.Places.{set_places};
ghost use Rattle.descriptor.specs.Heads.{qh_link};
ghost use Rattle.pipe.specs.Endpoints.{encoded, limit_at};
ghost use Rattle.pool.specs.Words.{LayingGood};
ghost use Rattle.schedule.specs.Links.{links};
ghost use Rattle.settings.specs.Settings.{pool_length, shared_address};
ghost use Rattle.token.specs.Overlay.{overlay_token};
ghost use Rattle.words.specs.Good.{Good, Tidy};
ghost use Rattle.words.specs.Record.{SlotFits, id_in, last_at, put_places, put_slot, word_at};
ghost use Rattle.words.specs.View.{view};
ghost use Rattle.request.specs.Submit.{judge_of, linked_rows, need_of_request, settled_submit, submitted, setups_with};
ghost use Rattle.request.specs.Words.{accepted_words, first_of, head_of, laying_for, request_with, submitted_view};

use crate::answers::Submitted;
use crate::judge::TransferRequest;
use bitset::cursor::{cursor_of, place_at};
use bitset::places::{lowest_places, without};
use common::kinds::{EndpointType, is_control, is_interrupt};
use common::rows::put_at;
use controller::lent::Readings;
use descriptor::head::ehci_qh_link;
use descriptor::setup::setup_packet_bytes;
use pipe::endpoints::{Endpoint, Pipe, Request};
use pipe::slots::put_endpoint;
use pool::laying::Laying;
use pool::transfer::{Transfer, alternate_word};
use register::bits::with_bits;
use register::operational::USBCMD;
use register::writes::Writes;
use schedule::bell::command_word;
use schedule::links::{attach_frames, attach_ring, head_address, start_overlay};
use token::overlay::overlay_token;
use words::cores::Core;
use words::record::id_in;
use words::row::{RECORD, put_places, size_at, toggle_at};

// Run, periodic schedule, asynchronous schedule.
pub const USBCMD_SCHEDULES: u32 = 0x31;

pub fn link_head(
    heads: &mut [u32],
    frames: &mut [u32],
    kind: EndpointType,
    slot: u8,
    link: u32,
    first: u32,
    token: u32,
)
    requires slot_in_bounds { 17 * (slot + 1) + 6 < length heads.old }
    requires frames_nonzero { 0 < length frames.old }
    ensures { links heads.new frames.new ≡ linked_rows heads.old frames.old kind slot link first token }
{
    start_overlay(heads, slot, first, token);
    if is_interrupt(kind) {
        attach_frames(heads, frames, slot, link);
    } else {
        attach_ring(heads, slot, link);
    }
}

// A control request has a setup packet.
pub fn put_setup(setups: &mut [u8], slot: u8, t: TransferRequest)
    requires { 8 * slot + 8 ≤ length setups.old }
    ensures { setups.new ≡ setups_with setups.old slot t }
{
    if is_control(t.kind) {
        let packet = setup_packet_bytes(t.setup, t.length);
        put_at(setups, 8 * (slot as usize), &packet);
    }
}

// The head starts at the lowest of the places taken, and goes into its schedule.
fn link_rows(
    core: Core,
    heads: &mut [u32],
    frames: &mut [u32],
    slot: u8,
    t: TransferRequest,
    toggle: bool,
    places: [u64; 4],
)
    requires slot_in_bounds { (17 * (slot + 1) + 17 ≤ length heads.old) × (0 < length frames.old) }
    requires in_bounds { (1 ≤ length (set_places places)) × (first_of core.settings places < 2 ^ 32) × (head_of core.settings slot < 2 ^ 32) }
    ensures { links heads.new frames.new
        ≡ linked_rows heads.old frames.old t.kind slot (qh_link (head_of core.settings slot)) (first_of core.settings places)
        (overlay_token t.kind toggle) }
{
    let first = (core.settings.pool + 64 * (place_at(cursor_of(places)) as u64)) as u32;
    let link = ehci_qh_link(head_address(core, slot));
    link_head(
        heads,
        frames,
        t.kind,
        slot,
        link,
        first,
        overlay_token(t.kind, toggle),
    );
}

// The slot has a linked request with these places.
fn put_request(slots: &mut [u64], slot: u8, t: TransferRequest, id: u64, places: [u64; 4])
    requires { (6 * slot + 6 ≤ length slots.old) × (t.length < 2 ^ 32) }
    ensures slots_after { slots.new ≡ put_places (put_slot slots.old slot (encoded (request_with t (word_at slots.old slot) id))) slot places }
    ensures slot_fits { SlotFits (encoded (request_with t (word_at slots.old slot) id)) }
{
    let pipe = Pipe {
        kind: t.kind,
        size: size_at(slots, slot),
        toggle: toggle_at(slots, slot) != 0,
        next: id_in(id),
    };
    let request = Request {
        id,
        direction: t.direction,
        length: t.length as u32,
        cancelled: false,
    };
    put_endpoint(slots, slot, Endpoint::Linked(pipe, request));
    put_places(slots, slot, places);
}

fn laying_for(core: Core, slot: u8, t: TransferRequest, limit: u64, places: [u64; 4]) -> Laying
    requires { (core.settings.setups ≤ 2 ^ 32) × (shared_address core.settings < 2 ^ 32) }
    ensures { result ≡ laying_for core.settings slot t limit places }
{
    let setup = core.settings.setups + 8 * (slot as u64);
    let shared = (core.settings.pool + 64 * core.settings.descriptors) as u32;
    let alternate = alternate_word(t.kind, t.direction, shared);
    Laying {
        places,
        base: core.settings.pool,
        transfer: Transfer {
            kind: t.kind,
            direction: t.direction,
            address: t.address,
            length: t.length,
            limit,
            setup,
            alternate,
        },
    }
}

// The id that the slot's request gets.
fn id_at(slots: &[u64], slot: u8) -> u64
    requires { 6 * slot + 6 ≤ length slots.now }
    ensures { result ≡ id_in (last_at slots.now slot) }
{
    id_in(slots[RECORD * (slot as usize) + 1])
}

// What an accepted submit answers: its places are no longer free.
fn accepted(
    core: Core,
    readings: Readings,
    slot: u8,
    t: TransferRequest,
    limit: u64,
    id: u64,
    places: [u64; 4],
) -> Submitted
    requires { (core.settings.setups ≤ 2 ^ 32) × (shared_address core.settings < 2 ^ 32) }
    ensures { result ≡ accepted_words core readings slot t limit id places }
{
    let mut rest = core.rest;
    rest.free = without(rest.free, places);
    let word = command_word(with_bits(readings.command, USBCMD_SCHEDULES));
    Submitted {
        answer: Ok(id),
        rest,
        writes: Writes::none().and_then(USBCMD, word),
        laying: laying_for(core, slot, t, limit, places),
    }
}

// An accepted submit; `limit` is that of the slot's chunks, `wanted` what the request needs.
pub fn settle(
    core: Core,
    slots: &mut [u64],
    heads: &mut [u32],
    frames: &mut [u32],
    setups: &mut [u8],
    readings: Readings,
    slot: u8,
    t: TransferRequest,
    limit: u64,
    wanted: u64,
) -> Submitted
    requires good { Good core.settings core.rest slots.old }
    requires heads_len { (length heads.old ≡ 17 * (core.settings.endpoints + 1)) × (length frames.old ≡ 1024) × (length setups.old ≡ 8 * core.settings.endpoints) }
    requires limit_value { (limit ≡ limit_at (view core slots.old) slot) × (wanted ≡ need_of_request (view core slots.old) slot t) }
    requires t_value { judge_of (view core slots.old) slot t ≡ (Ok tt) }
    ensures setups_after { submitted (submitted_view core.settings result slots.new) heads.new frames.new setups.new
        ≡ settled_submit (view core slots.old) heads.old frames.old setups.old readings slot t }
    ensures tidy { Tidy core.settings result.rest slots.new }
    ensures laying_good { LayingGood (pool_length core.settings) result.laying }
{
    let places = lowest_places(core.rest.free, wanted);
    link_rows(
        core,
        heads,
        frames,
        slot,
        t,
        toggle_at(slots, slot) != 0,
        places,
    );
    put_setup(setups, slot, t);
    let id = id_at(slots, slot);
    put_request(slots, slot, t, id, places);
    accepted(core, readings, slot, t, limit, id, places)
}
