// A sheet's bytes in, what is printed of it out.
ghost use Rattle.std.specs.Prelude.{◌≡◌, ◌+◌, ◌*◌, ◌≤◌, ◌<◌, length, take};
ghost use Rattle.common.specs.Rows.{put_at};
ghost use Rattle.job_run.specs.Prints.{outcome_of, printed_of, longest_sheet};
ghost use Rattle.job_run.specs.Words.{outcome_view, ran_view};

use crate::run::{Ran, run};
use job_sheet::listing::put_bad;
use job_sheet::outcome::{Outcome, put_listing};
use job_sheet::sheet::read_sheet;
use store::owners::owners;

// What the listing shows of a run: the pool at its end, and whose each place is.
fn outcome_of(ran: Ran) -> Outcome
    ensures { outcome_view result ≡ outcome_of (ran_view ran) }
{
    let owner = owners(ran.store.core, &ran.store.rows.slots);
    let pool = ran.store.rows.pool;
    Outcome {
        opened: ran.opened,
        submitted: ran.submitted,
        owner,
        pool,
    }
}

// The longest listing fits into the room that is asked.
pub fn print_sheet(bytes: &[u8], out: &mut [u8]) -> usize
    requires { 8 * 44 + 64 * (65 + 16 * 86) ≤ length out.old }
    ensures out_after { out.new ≡ put_at out.old 0 (printed_of bytes.now) }
    ensures value { result ≡ length (printed_of bytes.now) }
    ensures upper_bound { result ≤ length out.new }
{
    match read_sheet(bytes) {
        Some(job) => put_listing(out, 0, &outcome_of(run(&job))),
        None => put_bad(out, 0),
    }
}

// The first n bytes of what was read: the room is for one byte more than the longest sheet, so that what is too long is seen
// to be.
pub fn print_read(room: &[u8], n: usize, out: &mut [u8]) -> usize
    requires longest_sheet_in_bounds { longest_sheet < length room.now }
    requires n_in_bounds { n ≤ length room.now }
    requires in_bounds { 8 * 44 + 64 * (65 + 16 * 86) ≤ length out.old }
    ensures out_after { out.new ≡ put_at out.old 0 (printed_of (take n room.now)) }
    ensures value { result ≡ length (printed_of (take n room.now)) }
    ensures upper_bound { result ≤ length out.new }
{
    print_sheet(&room[..n], out)
}
