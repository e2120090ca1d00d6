// What a call changed, a line for each change, in ascending order.
ghost use Rattle.std.specs.Prelude.{◌≡◌, ◌+◌, ◌*◌, ◌≤◌, length};
ghost use Rattle.common.specs.Rows.{put_at};
ghost use Rattle.call_log.specs.Changes.{
  head_change,
  head_lines,
  port_change,
  port_lines,
};

use crate::line::put_line;
use crate::lines::{head_line, port_line};
use opening::heads::HEAD_WORDS;

fn put_head(out: &mut [u8], at: usize, i: usize, before: u32, after: u32) -> usize
    requires { at + 296 ≤ length out.old }
    ensures out_after { out.new ≡ put_at out.old at (head_change i before after) }
    ensures value { result ≡ at + length (head_change i before after) }
{
    if before == after {
        return at;
    }
    let line = head_line((i / HEAD_WORDS) as u64, (i % HEAD_WORDS) as u64, after);
    put_line(out, at, line)
}

pub fn put_heads(out: &mut [u8], at: usize, before: &[u32], after: &[u32]) -> usize
    requires before_len { length before.now ≡ length after.now }
    requires after_in_bounds { at + 53 * length after.now + 296 ≤ length out.old }
    ensures out_after { out.new ≡ put_at out.old at (head_lines before.now after.now) }
    ensures value { result ≡ at + length (head_lines before.now after.now) }
{
    let mut place = at;
    for i in 0..after.len() {
        place = put_head(out, place, i, before[i], after[i]);
    }
    place
}

// Ports are counted from 1.
fn put_port(out: &mut [u8], at: usize, i: usize, opening: bool, before: u8, after: u8) -> usize
    requires i_bound { i ≤ 254 }
    requires at_in_bounds { at + 296 ≤ length out.old }
    ensures out_after { out.new ≡ put_at out.old at (port_change opening i before after) }
    ensures value { result ≡ at + length (port_change opening i before after) }
{
    if opening | (before != after) {
        let line = port_line((i + 1) as u8, after);
        return put_line(out, at, line);
    }
    at
}

// The ports are the controller's own.
pub fn put_ports(
    out: &mut [u8],
    at: usize,
    opening: bool,
    ports: u8,
    before: &[u8],
    after: &[u8],
) -> usize
    requires after_len_bound { length after.now ≤ 255 }
    requires before_len { length before.now ≡ length after.now }
    requires after_in_bounds { at + 44 * length after.now + 296 ≤ length out.old }
    ensures out_after { out.new ≡ put_at out.old at (port_lines opening ports before.now after.now) }
    ensures value { result ≡ at + length (port_lines opening ports before.now after.now) }
{
    let mut place = at;
    for i in 0..(ports as usize).min(after.len()) {
        place = put_port(out, place, i, opening, before[i], after[i]);
    }
    place
}
