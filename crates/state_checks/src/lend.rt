// The rows, each one longer than any opening lends it, of which the first places are lent.
use descriptor::qtd::QueueTransferDescriptor;
use ehci::call::Call;
use ehci::door::apply;
use ehci::reply::Reply;
use opening::open::{Opening, open};
use settings::settings::Settings;
use words::cores::Core;

#[derive(Clone, Copy)]
pub struct Rows {
    pub pool: [QueueTransferDescriptor; 258],
    pub slots: [u64; 193],
    pub heads: [u32; 562],
    pub frames: [u32; 1025],
    pub setups: [u8; 257],
}

// How many of each are lent. Each number fits: the remainders below are for the proof.
#[derive(Clone, Copy)]
pub struct Lent {
    pub pool: u64,
    pub slots: u64,
    pub heads: u64,
    pub frames: u64,
    pub setups: u64,
}

pub fn opened(settings: Settings, rows: &mut Rows, lent: Lent) -> Opening {
    let mut all = *rows;
    let opening = open(
        settings,
        &mut all.pool[..(lent.pool % 259) as usize],
        &mut all.slots[..(lent.slots % 194) as usize],
        &mut all.heads[..(lent.heads % 563) as usize],
        &mut all.frames[..(lent.frames % 1026) as usize],
        &mut all.setups[..(lent.setups % 258) as usize],
    );
    *rows = all;
    opening
}

pub fn called(core: Core, rows: &mut Rows, lent: Lent, call: Call) -> Reply {
    let mut all = *rows;
    let reply = apply(
        core,
        &mut all.pool[..(lent.pool % 259) as usize],
        &mut all.slots[..(lent.slots % 194) as usize],
        &mut all.heads[..(lent.heads % 563) as usize],
        &mut all.frames[..(lent.frames % 1026) as usize],
        &mut all.setups[..(lent.setups % 258) as usize],
        call,
    );
    *rows = all;
    reply
}
