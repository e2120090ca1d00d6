// A block: what a call did, as lines.
ghost use Rattle.std.specs.Prelude.{◌≡◌, ℕ, ◌+◌, ◌≤◌, true, List, [], ◌∷◌, length};
ghost use Rattle.common.specs.Rows.{put_at};
ghost use Rattle.call_log.specs.Block.{block_of, rows_lines};
ghost use Rattle.call_log.specs.Words.{Shows, rest_shown, shown_in};
ghost use Rattle.call_log.specs.Changes.{frame_lines, head_lines, port_lines, setup_lines};
ghost use Rattle.text.specs.Text.{only_if};
ghost use Rattle.call_log.specs.Lines.{line_bytes, shown_line};
ghost use Rattle.words.specs.View.{view};

use crate::frames::put_frames;
use crate::line::{Line, put_line};
use crate::lines::state_line;
use crate::records::put_records;
use crate::rows::{put_heads, put_ports};
use crate::setups::put_setups;
use crate::writes::put_writes;
use descriptor::qtd::QueueTransferDescriptor;
use register::writes::Writes;
use text::digits::put;
use words::cores::Core;

// The rows and the ports' states, before a call or after it.
#[derive(Clone, Copy)]
pub struct Rows {
    pub pool: [QueueTransferDescriptor; 257],
    pub heads: [u32; 561],
    pub frames: [u32; 1024],
    pub setups: [u8; 256],
    pub ports: [u8; 15],
}

pub fn put_rows(out: &mut [u8], at: usize, before: &Rows, after: &Rows) -> usize
    requires { at + 121561 ≤ length out.old }
    ensures out_after { out.new ≡ put_at out.old at (rows_lines before.now after.now) }
    ensures value { result ≡ at + length (rows_lines before.now after.now) }
{
    let heads = put_records(out, at, &before.pool, &after.pool);
    let frames = put_heads(out, heads, &before.heads, &after.heads);
    let setups = put_frames(out, frames, &before.frames, &after.frames);
    put_setups(out, setups, 32, &before.setups, &after.setups)
}

// The controller's line, once one is opened.
fn put_state(out: &mut [u8], at: usize, opened: bool, core: Core) -> usize
    requires { at + 296 ≤ length out.old }
    ensures out_after { out.new ≡ put_at out.old at (only_if opened (shown_line (shown_in core))) }
    ensures value { result ≡ at + length (only_if opened (shown_line (shown_in core))) }
{
    if opened {
        let line = state_line(core);
        return put_line(out, at, line);
    }
    at
}

// A line with a single `.`.
fn put_end(out: &mut [u8], at: usize) -> usize
    requires { at + 2 ≤ length out.old }
    ensures out_after { out.new ≡ put_at out.old at (46 ∷ 10 ∷ []) }
    ensures value { result ≡ at + 2 }
{
    let next = put(out, at, b'.');
    put(out, next, b'\n')
}

// The lines after the rows.
fn put_rest(out: &mut [u8], at: usize, opened: bool, core: Core, writes: Writes) -> usize
    requires { at + 850 ≤ length out.old }
    ensures out_after { out.new ≡ put_at out.old at (rest_shown opened (shown_in core) writes) }
    ensures value { result ≡ at + length (rest_shown opened (shown_in core) writes) }
{
    let first = put_state(out, at, opened, core);
    let last = put_writes(out, first, writes);
    put_end(out, last)
}

// A whole block: its first line is made by the caller. The row of slots is what the free places are told by, so none is shown.
pub fn put_block(
    out: &mut [u8],
    first: Line,
    opening: bool,
    before: &Rows,
    after: &Rows,
    opened: bool,
    core: Core,
    writes: Writes,
) -> usize
    requires { 131072 ≤ length out.old }
    ensures by_index { (ws : List ℕ) → (opened ≡ true → Shows core ws)
        → out.new ≡ put_at out.old 0 (block_of (line_bytes first) opening before.now after.now opened (view core ws) writes) }
    ensures by_index_2 { (ws : List ℕ) → (opened ≡ true → Shows core ws)
        → result ≡ length (block_of (line_bytes first) opening before.now after.now opened (view core ws) writes) }
    ensures upper_bound { result ≤ length out.new }
{
    let rows = put_line(out, 0, first);
    let ports = put_rows(out, rows, before, after);
    let rest = put_ports(
        out,
        ports,
        opening,
        core.settings.ports,
        &before.ports,
        &after.ports,
    );
    put_rest(out, rest, opened, core, writes)
}
