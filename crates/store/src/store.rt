// A store: a controller's core, and the five rows that every call is lent. Of each row the first places are lent, as many as
// the settings say; the rest stays as it was. Where the state that the words stand for is in its ranges they are tidy, so no
// call is refused for them.
ghost use Rattle.std.specs.Prelude.{◌≡◌, ℕ, ◌^◌, ◌<◌, slice_index};
ghost use Rattle.store.specs.Stores.{
  records_lent,
  words_lent,
  bytes_lent,
  blank_store,
  open_store,
  call_store,
};
ghost use Rattle.store.specs.Words.{OpenedIn, Opens, called_view, opened_view, slots_lent, store_view};
ghost use Rattle.opening.specs.Words.{blank_core};

pub use crate::rows::{Rows, Store};
use common::answer::Refusal;
use descriptor::qtd::QueueTransferDescriptor;
use ehci::call::Call;
use ehci::door::apply;
use ehci::reply::Answered;
use opening::heads::HEAD_WORDS;
use opening::hub::EhciRootHub;
use opening::open::{decide_open, open};
use register::writes::Writes;
use settings::settings::Settings;
use words::cores::Core;
use words::row::RECORD;

#[derive(Clone, Copy)]
pub struct Called {
    pub store: Store,
    pub answer: Result<Answered, Refusal>,
    pub writes: Writes,
}

#[derive(Clone, Copy)]
pub struct OpenedStore {
    pub store: Store,
    pub hub: EhciRootHub,
    pub answer: Result<(), Refusal>,
}

// How many records are lent: the shared one is after the others.
fn records_lent(s: Settings) -> usize
    ensures { result ≡ records_lent s }
{
    s.descriptors.min(256) as usize + 1
}

// How many words of the slots are lent.
pub fn slots_lent(s: Settings) -> usize
    ensures { result ≡ slots_lent s }
{
    (RECORD * s.endpoints as usize).min(192)
}

// How many words of the heads are lent.
fn words_lent(s: Settings) -> usize
    ensures { result ≡ words_lent s }
{
    (HEAD_WORDS * (s.endpoints as usize + 1)).min(561)
}

// How many bytes of the setups are lent.
fn bytes_lent(s: Settings) -> usize
    ensures { result ≡ bytes_lent s }
{
    (8 * s.endpoints as usize).min(256)
}

// The core that a refused opening gives.
fn blank_core() -> Core
    ensures { result ≡ blank_core }
{
    let mut slots: [u64; 1] = [0; 1];
    let mut heads: [u32; 1] = [0; 1];
    let mut frames: [u32; 1] = [0; 1];
    let mut setups: [u8; 1] = [0; 1];
    let refused = decide_open(
        Settings::default(),
        0,
        &mut slots,
        &mut heads,
        &mut frames,
        &mut setups,
    );
    refused.core
}

// No call accepts it; it is there to open a controller in.
pub fn blank_store() -> Store
    ensures { store_view result ≡ blank_store }
{
    let blank = QueueTransferDescriptor {
        next: 0,
        alternate: 0,
        token: 0,
        pages: [0; 5],
        upper: [0; 5],
    };
    Store {
        core: blank_core(),
        rows: Rows {
            pool: [blank; 257],
            slots: [0; 192],
            heads: [0; 561],
            frames: [0; 1024],
            setups: [0; 256],
        },
    }
}

// A refused opening leaves the store as it was.
pub fn open_in(store: Store, settings: Settings) -> OpenedStore
    ensures result_value { opened_view result ≡ open_store (store_view store) settings }
    ensures opens { Opens result }
{
    let Rows {
        mut pool,
        mut slots,
        mut heads,
        mut frames,
        mut setups,
    } = store.rows;
    let opening = open(
        settings,
        &mut pool[..records_lent(settings)],
        &mut slots[..slots_lent(settings)],
        &mut heads[..words_lent(settings)],
        &mut frames,
        &mut setups[..bytes_lent(settings)],
    );
    match opening.answer {
        Ok(()) => OpenedStore {
            store: Store {
                core: opening.core,
                rows: Rows {
                    pool,
                    slots,
                    heads,
                    frames,
                    setups,
                },
            },
            hub: opening.hub,
            answer: opening.answer,
        },
        Err(_) => OpenedStore {
            store,
            hub: opening.hub,
            answer: opening.answer,
        },
    }
}

// What a row's type says of each word, in a place where the search finds it.
fn words_fit(row: &[u64])
    ensures { (i : ℕ) → slice_index row.now i < 2 ^ 64 }
{}

pub fn call_on(store: Store, call: Call) -> Called
    ensures result_value { called_view result ≡ call_store (store_view store) call }
    ensures stays_open { OpenedIn store → OpenedIn result.store }
{
    words_fit(&store.rows.slots);
    words_fit(&store.core.rest.free);
    let settings = store.core.settings;
    let Rows {
        mut pool,
        mut slots,
        mut heads,
        mut frames,
        mut setups,
    } = store.rows;
    let reply = apply(
        store.core,
        &mut pool[..records_lent(settings)],
        &mut slots[..slots_lent(settings)],
        &mut heads[..words_lent(settings)],
        &mut frames,
        &mut setups[..bytes_lent(settings)],
        call,
    );
    Called {
        store: Store {
            core: Core {
                settings,
                rest: reply.rest,
            },
            rows: Rows {
                pool,
                slots,
                heads,
                frames,
                setups,
            },
        },
        answer: reply.answer,
        writes: reply.writes,
    }
}
