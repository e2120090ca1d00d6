// The runs of frame entries that changed to one value.
ghost use Rattle.std.specs.Prelude.{◌≡◌, ◌+◌, ◌*◌, ◌<◌, ◌≤◌, Bool, length, if◌then◌else◌};
ghost use Rattle.common.specs.Rows.{put_at};
ghost use Rattle.text.specs.Text.{only_if};
ghost use Rattle.call_log.specs.Changes.{frame_lines, goes_further, run_ends};
ghost use Rattle.call_log.specs.Lines.{frame_line};

use crate::line::put_line;
use crate::lines::frame_line;

// The next entry is of the same run.
fn goes_on(before: &[u32], after: &[u32], i: usize) -> bool
    requires before_len { length before.now ≡ length after.now }
    requires i_in_bounds { i < length after.now }
    ensures { result ≡ goes_further before.now after.now i }
{
    if i + 1 < after.len() {
        return (before[i] != after[i])
            & (before[i + 1] != after[i + 1])
            & (after[i] == after[i + 1]);
    }
    false
}

fn run_ends(before: &[u32], after: &[u32], i: usize, on: bool) -> bool
    requires before_len { length before.now ≡ length after.now }
    requires i_in_bounds { i < length after.now }
    ensures { result ≡ run_ends before.now after.now i on }
{
    (before[i] != after[i]) & !on
}

// Where the run of the next entry begins.
fn next_first(on: bool, first: usize, i: usize) -> usize
    requires { i < 65536 }
    ensures { result ≡ (if on then first else i + 1) }
{
    if on { first } else { i + 1 }
}

fn put_frame(out: &mut [u8], at: usize, ends: bool, first: usize, i: usize, value: u32) -> usize
    requires { at + 296 ≤ length out.old }
    ensures out_after { out.new ≡ put_at out.old at (only_if ends (frame_line first i value)) }
    ensures value { result ≡ at + length (only_if ends (frame_line first i value)) }
{
    if ends {
        let line = frame_line(first as u64, i as u64, value);
        return put_line(out, at, line);
    }
    at
}

pub fn put_frames(out: &mut [u8], at: usize, before: &[u32], after: &[u32]) -> usize
    requires before_len { length before.now ≡ length after.now }
    requires after_len_bound { length after.now ≤ 1024 }
    requires after_in_bounds { at + 53 * length after.now + 296 ≤ length out.old }
    ensures out_after { out.new ≡ put_at out.old at (frame_lines before.now after.now) }
    ensures value { result ≡ at + length (frame_lines before.now after.now) }
{
    let mut place = at;
    let mut first = 0;
    for i in 0..after.len() {
        let on = goes_on(before, after, i);
        let ends = run_ends(before, after, i, on);
        place = put_frame(out, place, ends, first, i, after[i]);
        first = next_first(on, first, i);
    }
    place
}
