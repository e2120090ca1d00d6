// What a call did: its line and its writes as in a log, then a sum of the core, of each row and of the root hub's record.
ghost use Rattle.std.specs.Prelude.{◌≤◌};

use crate::kept::{Kept, Said};
use crate::sums::{core_sum, hub_sum, row_sum};
use call_log::line::{Line, Part, put_line};
use call_log::writes::put_writes;

const STDOUT: i32 = 1;

fn sums_line(kept: &Kept) -> Line {
    Line::of(
        b'S',
        &[
            Part::Word(core_sum(kept.core)),
            Part::Word(row_sum(0, &kept.rows.slots)),
            Part::Word(row_sum(0, &kept.rows.pool)),
            Part::Word(row_sum(0, &kept.rows.heads)),
            Part::Word(row_sum(0, &kept.rows.frames)),
            Part::Word(row_sum(0, &kept.rows.setups)),
            Part::Word(hub_sum(kept.hub)),
        ],
    )
}

fn put_said(out: &mut [u8; 1024], said: Said, kept: &Kept) -> usize
    ensures { result ≤ 1024 }
{
    let writes = put_line(out, 0, said.line);
    let sums = put_writes(out, writes, said.writes);
    put_line(out, sums, sums_line(kept))
}

pub fn show(said: Said, kept: &Kept) {
    let mut out = [0u8; 1024];
    let end = put_said(&mut out, said, kept);
    io::write_all(STDOUT, &out[..end]);
}

// The sum over the bytes that would be shown.
pub fn shown_sum(sum: u32, said: Said, kept: &Kept) -> u32 {
    let mut out = [0u8; 1024];
    let end = put_said(&mut out, said, kept);
    row_sum(sum, &out[..end])
}

fn put_alone(out: &mut [u8; 512], line: Line) -> usize
    ensures { result ≤ 512 }
{
    put_line(out, 0, line)
}

pub fn show_line(line: Line) {
    let mut out = [0u8; 512];
    let end = put_alone(&mut out, line);
    io::write_all(STDOUT, &out[..end]);
}
