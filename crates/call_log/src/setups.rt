// The setup packets that changed.
ghost use Rattle.std.specs.Prelude.{◌≡◌, ◌+◌, ◌*◌, ◌≤◌, length};
ghost use Rattle.common.specs.Rows.{put_at};
ghost use Rattle.call_log.specs.Changes.{same_eight, setup_change, setup_lines};

use crate::line::put_line;
use crate::lines::setup_line;
use text::number::number64;

// The packets as numbers.
fn same_eight(a: &[u8], b: &[u8], p: usize) -> bool
    requires p_in_bounds { p + 8 ≤ length a.now }
    requires p_in_bounds_2 { p + 8 ≤ length b.now }
    ensures { result ≡ same_eight a.now b.now p }
{
    number64(a, p) == number64(b, p)
}

fn put_setup(out: &mut [u8], at: usize, slot: usize, before: &[u8], after: &[u8]) -> usize
    requires at_in_bounds { at + 296 ≤ length out.old }
    requires slot_in_bounds { 8 * slot + 8 ≤ length before.now }
    requires slot_in_bounds_2 { 8 * slot + 8 ≤ length after.now }
    ensures out_after { out.new ≡ put_at out.old at (setup_change before.now after.now slot) }
    ensures value { result ≡ at + length (setup_change before.now after.now slot) }
{
    let p = 8 * slot;
    if same_eight(before, after, p) {
        return at;
    }
    let line = setup_line(
        slot as u64,
        [
            after[p],
            after[p + 1],
            after[p + 2],
            after[p + 3],
            after[p + 4],
            after[p + 5],
            after[p + 6],
            after[p + 7],
        ],
    );
    put_line(out, at, line)
}

pub fn put_setups(out: &mut [u8], at: usize, slots: usize, before: &[u8], after: &[u8]) -> usize
    requires slots_bound { slots ≤ 32 }
    requires slots_in_bounds { 8 * slots ≤ length before.now }
    requires slots_in_bounds_2 { 8 * slots ≤ length after.now }
    requires slots_in_bounds_3 { at + 40 * slots + 296 ≤ length out.old }
    ensures out_after { out.new ≡ put_at out.old at (setup_lines slots before.now after.now) }
    ensures value { result ≡ at + length (setup_lines slots before.now after.now) }
{
    let mut place = at;
    for slot in 0..slots {
        place = put_setup(out, place, slot, before, after);
    }
    place
}
