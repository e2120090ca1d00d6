// The links of the ring and of the frame list: attaching a head, unlinking it, and its overlay.
ghost use Rattle.std.specs.Prelude.{◌≡◌, ◌+◌, ◌*◌, ◌^◌, ◌<◌, ◌≤◌, length, if◌then◌else◌};
ghost use Rattle.words.specs.Good.{Good};
ghost use Rattle.words.specs.View.{view};
ghost use Rattle.schedule.specs.Links.{detach_of, detached, head_address, periodic, predecessor_of, search_from, attached_ring, attached_frames, links, with_link_word, started_overlay, ended_overlay};
ghost use Rattle.schedule.specs.Words.{precedes_word};

use common::rows::{fill, put_at};
use descriptor::qtd::EHCI_LINK_TERMINATE;
use words::cores::Core;
use words::row::RECORD;

// Who gives way to a head that is unlinked.
#[derive(Clone, Copy)]
pub enum Predecessor {
    // The ring head, or the frame entries.
    First,
    Head(u8),
    Missing,
}

// A control or bulk head goes in just after the ring head.
pub fn attach_ring(heads: &mut [u32], k: u8, link: u32)
    requires { 17 * (k + 1) < length heads.old }
    ensures { heads.new ≡ attached_ring heads.old k link }
{
    let at = 17 * (k as usize + 1);
    heads[at] = heads[0];
    heads[0] = link;
}

// An interrupt head goes in front of every frame.
pub fn attach_frames(heads: &mut [u32], frames: &mut [u32], k: u8, link: u32)
    requires k_in_bounds { 17 * (k + 1) < length heads.old }
    requires frames_nonzero { 0 < length frames.old }
    ensures { links heads.new frames.new ≡ attached_frames heads.old frames.old k link }
{
    let at = 17 * (k as usize + 1);
    heads[at] = frames[0];
    fill(frames, link);
}

// A link word for slot j, where the row has that head.
pub fn give_link(heads: &mut [u32], j: u8, word: u32)
    ensures { heads.new ≡ with_link_word heads.old j word }
{
    let at = 17 * (j as usize + 1);
    if at < heads.len() {
        heads[at] = word;
    }
}

// The overlay of a head whose request starts.
pub fn start_overlay(heads: &mut [u32], k: u8, first: u32, token: u32)
    requires { 17 * (k + 1) + 6 < length heads.old }
    ensures { heads.new ≡ started_overlay heads.old k first token }
{
    let at = 17 * (k as usize + 1);
    heads[at + 4] = first;
    heads[at + 5] = EHCI_LINK_TERMINATE;
    heads[at + 6] = token;
}

// The current descriptor and the overlay of a head whose request is collected.
pub fn end_overlay(heads: &mut [u32], k: u8)
    requires { 17 * (k + 1) + 17 ≤ length heads.old }
    ensures { heads.new ≡ ended_overlay heads.old k }
{
    let words: [u32; 14] = [0, 1, 1, 0, 0, 0, 0, 0, 0, 0, 0, 0, 0, 0];
    put_at(heads, 17 * (k as usize + 1) + 3, &words);
}

// The address of a slot's head.
pub fn head_address(core: Core, k: u8) -> u32
    requires { core.settings.heads + 128 * (k + 1) < 2 ^ 32 }
    ensures { result ≡ core.settings.heads + 128 * (k + 1) }
{
    (core.settings.heads + 128 * (k as u64 + 1)) as u32
}

fn precedes(j: u8, k: u8, mark: u64, framed: bool, word: u32, address: u32) -> bool
    ensures { result ≡ precedes_word j k mark framed word address }
{
    let together = framed == (mark / 4 % 4 == 3);
    (j != k) & (mark % 4 == 2) & together & (word / 32 == address / 32)
}

// The lowest slot whose head precedes slot k's.
fn search(
    core: Core,
    slots: &[u64],
    heads: &[u32],
    k: u8,
    framed: bool,
    address: u32,
) -> Predecessor
    requires good { Good core.settings core.rest slots.now }
    requires k_lt_endpoints { (k < core.settings.endpoints) × (length heads.now ≡ 17 * (core.settings.endpoints + 1)) }
    requires framed_value { framed ≡ periodic (view core slots.now) k }
    requires address_value { address ≡ head_address (view core slots.now) k }
    ensures { result ≡ search_from (view core slots.now) heads.now k 0 core.settings.endpoints }
{
    for j in 0..core.settings.endpoints {
        let other = j as usize;
        let word = heads[17 * (other + 1)];
        let mark = slots[RECORD * other];
        if precedes(j, k, mark, framed, word, address) {
            return Predecessor::Head(j);
        }
    }
    Predecessor::Missing
}

fn first_word(framed: bool, frame: u32, ring: u32) -> u32
    ensures { result ≡ (if framed then frame else ring) }
{
    if framed { frame } else { ring }
}

// Who gives way to slot k's head.
fn find_predecessor(
    core: Core,
    slots: &[u64],
    heads: &[u32],
    frames: &[u32],
    k: u8,
    framed: bool,
    address: u32,
) -> Predecessor
    requires good { Good core.settings core.rest slots.now }
    requires k_lt_endpoints { (k < core.settings.endpoints) × (length heads.now ≡ 17 * (core.settings.endpoints + 1)) × (0 < length frames.now) }
    requires framed_value { framed ≡ periodic (view core slots.now) k }
    requires address_value { address ≡ head_address (view core slots.now) k }
    ensures { result ≡ predecessor_of (view core slots.now) heads.now frames.now k }
{
    let first = first_word(framed, frames[0], heads[0]);
    if first / 32 == address / 32 {
        return Predecessor::First;
    }
    search(core, slots, heads, k, framed, address)
}

// Gives the head's link to its predecessor. The head's own stays.
pub fn detach(
    core: Core,
    slots: &[u64],
    heads: &mut [u32],
    frames: &mut [u32],
    k: u8,
    framed: bool,
    address: u32,
) -> Predecessor
    requires good { Good core.settings core.rest slots.now }
    requires k_lt_endpoints { (k < core.settings.endpoints) × (length heads.old ≡ 17 * (core.settings.endpoints + 1)) × (0 < length frames.old) }
    requires framed_value { framed ≡ periodic (view core slots.now) k }
    requires address_value { address ≡ head_address (view core slots.now) k }
    ensures { detached result heads.new frames.new
        ≡ detach_of (view core slots.now) heads.old frames.old k }
{
    let found = find_predecessor(core, slots, heads, frames, k, framed, address);
    let word = heads[17 * (k as usize + 1)];
    match found {
        Predecessor::First => {
            if framed {
                fill(frames, word);
            } else {
                heads[0] = word;
            }
        }
        Predecessor::Head(j) => give_link(heads, j, word),
        Predecessor::Missing => {}
    }
    found
}
