// Opening a controller: the core by value, and the row of slots beside the other lent rows.
ghost use Rattle.std.specs.Prelude.{◌≡◌, ◌^◌, ◌<◌, ◌≤◌, length, ◌==◌};
ghost use Rattle.opening.specs.Words.{OpensWords, accepted_words, decide_words, decided_words, open_count, open_words, opened_rows, refused_words, slots_fit};
ghost use Rattle.words.specs.Opened.{opened_rest};
ghost use Rattle.settings.specs.Settings.{pool_length};
ghost use Rattle.opening.specs.Opening.{rows_are_fit, opened_heads};

use crate::heads::put_head;
use crate::hub::EhciRootHub;
use bitset::places::all_below;
use common::answer::Refusal;
use common::rows::fill;
use descriptor::head::QueueHead;
use descriptor::qtd::{EHCI_LINK_TERMINATE, QueueTransferDescriptor};
use pool::marking::open_first;
use settings::settings::Settings;
use words::cores::{Core, Rest};
use words::row::RECORD;

pub const FRAMES: u64 = 1024;

// The words of a head.
const HEAD: u64 = 17;

#[derive(Clone, Copy)]
pub struct Opening {
    pub answer: Result<(), Refusal>,
    pub core: Core,
    pub hub: EhciRootHub,
}

// D records and the shared one.
fn pool_fits(s: Settings, pool: u64) -> bool
    ensures { result ≡ (pool == pool_length s) }
{
    pool != 0 && pool - 1 == s.descriptors
}

// Lengths other than those that opening fixes are refused by every call that is lent the rows.
pub fn rows_fit(s: Settings, pool: u64, heads: u64, frames: u64, setups: u64) -> bool
    ensures { result ≡ rows_are_fit s pool heads frames setups }
{
    let endpoints = s.endpoints as u64;
    pool_fits(s, pool)
        & (heads == HEAD * (endpoints + 1))
        & (frames == FRAMES)
        & (setups == 8 * endpoints)
}

// The ring head, linked to itself; every other head zero.
pub fn open_heads(heads: &mut [u32], area: u64)
    requires area_bound { area < 2 ^ 32 }
    requires in_bounds { 17 ≤ length heads.old }
    ensures { heads.new ≡ opened_heads area (length heads.old) }
{
    fill(heads, 0);
    put_head(heads, 0, QueueHead::async_head(area as u32).words());
}

pub fn row_length(count: usize) -> u64
    ensures { result ≡ count }
{
    count as u64
}

// Not running, interrupts off, every descriptor free.
fn fresh_rest(descriptors: u64) -> Rest
    ensures { result ≡ opened_rest descriptors }
{
    Rest {
        running: 0,
        step: 0,
        address: 1,
        enabled: 0,
        noted: 0,
        doorbell: 0,
        unanswered: 0,
        pending: 0,
        masked: 0,
        waited: 0,
        free: all_below(descriptors),
    }
}

// Any other length is refused by every call that is lent the row.
pub fn slots_fit(s: Settings, words: usize) -> bool
    ensures { result ≡ slots_fit s words }
{
    words == RECORD * (s.endpoints as usize)
}

// A core and a hub record that no call accepts.
fn refuse(refusal: Refusal) -> Opening
    ensures { result ≡ refused_words refusal }
{
    Opening {
        answer: Err(refusal),
        core: Core {
            settings: Settings::default(),
            rest: fresh_rest(0),
        },
        hub: EhciRootHub::new(0),
    }
}

fn accept(settings: Settings) -> Opening
    ensures { result ≡ accepted_words settings }
{
    Opening {
        answer: Ok(()),
        core: Core {
            settings,
            rest: fresh_rest(settings.descriptors),
        },
        hub: EhciRootHub::new(settings.ports),
    }
}

// What is decided: all but the pool, of which the length is given.
pub fn decide_open(
    settings: Settings,
    pool: u64,
    slots: &mut [u64],
    heads: &mut [u32],
    frames: &mut [u32],
    setups: &mut [u8],
) -> Opening
    ensures { decided_words result slots.new heads.new frames.new setups.new
        ≡ decide_words settings pool slots.old heads.old frames.old setups.old }
{
    if !slots_fit(settings, slots.len()) {
        return refuse(Refusal::InvalidParameter);
    }
    if !settings.good() {
        return refuse(Refusal::InvalidParameter);
    }
    if !rows_fit(
        settings,
        pool,
        heads.len() as u64,
        frames.len() as u64,
        setups.len() as u64,
    ) {
        return refuse(Refusal::InvalidParameter);
    }
    fill(slots, 0);
    open_heads(heads, settings.heads);
    fill(frames, EHCI_LINK_TERMINATE);
    fill(setups, 0);
    accept(settings)
}

// How many of so many records are opened: all or none.
fn open_count(o: Opening, pool: u64) -> usize
    ensures { result ≡ open_count o.answer pool }
{
    let answer = o.answer;
    match answer {
        Ok(()) => pool as usize,
        Err(_) => 0,
    }
}

pub fn open(
    settings: Settings,
    rows: &mut [QueueTransferDescriptor],
    slots: &mut [u64],
    heads: &mut [u32],
    frames: &mut [u32],
    setups: &mut [u8],
) -> Opening
    ensures setups_after { opened_rows result rows.new heads.new frames.new setups.new
        ≡ open_words settings rows.old slots.old heads.old frames.old setups.old }
    ensures opens_words { OpensWords settings result slots.old slots.new }
{
    let count = row_length(rows.len());
    let opening = decide_open(settings, count, slots, heads, frames, setups);
    let opened = open_count(opening, count);
    open_first(rows, opened);
    opening
}
