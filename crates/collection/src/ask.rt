// Which records a collect looks at.
ghost use Rattle.std.specs.Prelude.{◌≡◌, ◌+◌, ◌*◌, ◌≤◌, length};
ghost use Rattle.words.specs.Good.{Good};
ghost use Rattle.words.specs.View.{view};
ghost use Rattle.pool.specs.Words.{AskWordsGood};
ghost use Rattle.settings.specs.Settings.{pool_length};
ghost use Rattle.collection.specs.Asks.{ask_of};
ghost use Rattle.collection.specs.Words.{ask_view, request_ask_words};

use pipe::endpoints::{Endpoint, Pipe, Request};
use pipe::slots::{endpoint_at, limit_of};
use pool::asked::{AskWords, no_ask_words};
use pool::transfer::ends_short;
use words::cores::Core;
use words::row::places_at;

fn ask_for(core: Core, slots: &[u64], slot: u8, p: Pipe, r: Request) -> AskWords
    requires { (6 * slot + 6 ≤ length slots.now) × (core.settings.limit ≤ 16384) }
    ensures { result ≡ request_ask_words core.settings slots.now slot p r }
{
    let limit = limit_of(core.settings.limit, p) as u32;
    let stops = ends_short(p.kind, r.direction);
    AskWords {
        places: places_at(slots, slot),
        kind: p.kind,
        length: r.length as u64,
        limit,
        stops,
    }
}

// Nothing where the slot has no request.
pub fn ask(core: Core, slots: &[u64], slot: u8) -> AskWords
    requires { Good core.settings core.rest slots.now }
    ensures result_value { ask_view result ≡ ask_of (view core slots.now) (pool_length core.settings) slot }
    ensures ask_words_good { AskWordsGood (pool_length core.settings) result }
{
    match endpoint_at(core, slots, slot) {
        Endpoint::Closed => no_ask_words(),
        Endpoint::Idle(_) => no_ask_words(),
        Endpoint::Linked(p, r) => ask_for(core, slots, slot, p, r),
        Endpoint::Unlinking(p, r, _) => ask_for(core, slots, slot, p, r),
    }
}
