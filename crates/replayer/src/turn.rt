// One record of a log: read, done, and its block put over the bytes of a lent row.
ghost use Rattle.std.specs.Prelude.{◌≡◌, ◌≤◌, length};
ghost use Rattle.common.specs.Rows.{put_at};
ghost use Rattle.replayer.specs.Replays.{
  bad_line,
  rows_of,
  said_of,
  shown_of,
  turned_of,
};
ghost use Rattle.replayer.specs.Words.{effect_of, keeper_view, turned_view};

use crate::keeper::{Acted, Keeper, act};
use call_log::block::{Rows, put_block};
use call_log::record::read_record;
use common::rows::put_at;
use text::digits::{put, put_decimal};

// What is kept, where the log goes on, and where what is said ends.
#[derive(Clone, Copy)]
pub struct Turned {
    pub keeper: Option<Keeper>,
    pub end: usize,
}

fn put_bad(out: &mut [u8], n: u64) -> usize
    requires { 131072 ≤ length out.old }
    ensures out_after { out.new ≡ put_at out.old 0 (bad_line n) }
    ensures value { result ≡ length (bad_line n) }
    ensures upper_bound { result ≤ length out.new }
{
    put_at(out, 0, b"bad record ");
    let next = put_decimal(out, 11, n);
    put(out, next, b'\n')
}

fn rows_of(k: &Keeper) -> Rows
    ensures { result ≡ rows_of (keeper_view k.now) }
{
    Rows {
        pool: k.store.rows.pool,
        heads: k.store.rows.heads,
        frames: k.store.rows.frames,
        setups: k.store.rows.setups,
        ports: k.hub.states,
    }
}

fn put_shown(out: &mut [u8], k: &Keeper, acted: Acted) -> usize
    requires { 131072 ≤ length out.old }
    ensures out_after { out.new ≡ put_at out.old 0 (shown_of (keeper_view k.now) (effect_of acted)) }
    ensures value { result ≡ length (shown_of (keeper_view k.now) (effect_of acted)) }
    ensures upper_bound { result ≤ length out.new }
{
    let keeper = acted.keeper;
    let before = rows_of(k);
    let after = rows_of(&keeper);
    put_block(
        out,
        acted.line,
        acted.opening,
        &before,
        &after,
        keeper.opened,
        keeper.store.core,
        acted.writes,
    )
}

// Record n, counted from 0; what is said of it is put from the first byte on.
pub fn turn(out: &mut [u8], k: Keeper, n: u64, bytes: &[u8]) -> Turned
    requires { 131072 ≤ length out.old }
    ensures out_after { out.new ≡ put_at out.old 0 (said_of (keeper_view k) n bytes.now) }
    ensures result_value { turned_view result ≡ turned_of (keeper_view k) n bytes.now }
    ensures end_in_bounds { result.end ≤ length out.new }
{
    let Some(entry) = read_record(bytes) else {
        let end = put_bad(out, n);
        return Turned { keeper: None, end };
    };
    let number = bytes.first().copied().unwrap_or(0);
    let acted = act(k, n, number, Some(entry));
    let end = put_shown(out, &k, acted);
    Turned {
        keeper: Some(acted.keeper),
        end,
    }
}
