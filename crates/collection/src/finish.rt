// What a collect does with a request, by whether its boundary is set.
ghost use Rattle.std.specs.Prelude.{◌≡◌, ◌+◌, ◌*◌, ◌<◌, length};
ghost use Rattle.pipe.specs.Endpoints.{endpoint_at, with_toggle};
ghost use Rattle.token.specs.Overlay.{kept_toggle};
ghost use Rattle.pipe.specs.declared.endpoints.Endpoint.TheVariants.{Linked, Unlinking};
ghost use Rattle.words.specs.Good.{Good, Tidy};
ghost use Rattle.words.specs.View.{view};
ghost use Rattle.collection.specs.Calls.{ended, finish_of, gathered, keeping, linked_of, unlinking_of};
ghost use Rattle.collection.specs.Words.{collected_view};

use crate::answers::{refuse_collect, still_pending};
use crate::collected::{Collected, outcome_of, pending_of};
use crate::unlink::{is_lost, passed, waiting};
use bitset::places::with;
use common::answer::Refusal;
use controller::left::Settled;
use controller::lent::Readings;
use pipe::endpoints::{Endpoint, Pipe, Request, UnlinkBoundary, with_toggle};
use pipe::slots::put_endpoint;
use pool::chain::{Standing, View};
use register::writes::Writes;
use schedule::links::end_overlay;
use token::overlay::kept_toggle;
use words::cores::Core;
use words::row::{places_at, put_places};

// The slot is idle again with the toggle that the controller left, its descriptors are free.
fn finish(
    core: Core,
    slots: &mut [u64],
    seen: View,
    k: u8,
    p: Pipe,
    r: Request,
    b: UnlinkBoundary,
    overlay: u32,
) -> Settled<Collected>
    requires good { Good core.settings core.rest slots.old }
    requires k_value { endpoint_at (view core slots.old) k ≡ Unlinking p r b }
    ensures slots_after { collected_view core.settings result slots.new ≡ finish_of (view core slots.old) seen k (with_toggle p (kept_toggle overlay)) r }
    ensures tidy { Tidy core.settings result.rest slots.new }
{
    let mut rest = core.rest;
    rest.free = with(rest.free, places_at(slots, k));
    let kept = with_toggle(p, kept_toggle(overlay));
    put_endpoint(slots, k, Endpoint::Idle(kept));
    put_places(slots, k, [0; 4]);
    Settled {
        answer: outcome_of(r.cancelled, seen),
        rest,
        writes: Writes::none(),
    }
}

// Boundary not set: unlinked where no active descriptor comes first. It does what `unlink` does without a call of it, which
// would copy the core once more.
pub fn collect_linked(
    core: Core,
    slots: &mut [u64],
    heads: &mut [u32],
    frames: &mut [u32],
    readings: Readings,
    stage: Standing,
    k: u8,
    p: Pipe,
    r: Request,
) -> Settled<Collected>
    requires good { Good core.settings core.rest slots.old }
    requires k_value { (endpoint_at (view core slots.old) k ≡ Linked p r) × (core.rest.unanswered < 32) }
    requires heads_len { (length heads.old ≡ 17 * (core.settings.endpoints + 1)) × (0 < length frames.old) }
    ensures frames_after { gathered (collected_view core.settings result slots.new) heads.new frames.new
        ≡ linked_of (view core slots.old) heads.old frames.old readings stage k p r }
    ensures tidy { Tidy core.settings result.rest slots.new }
{
    if stage.stands_active() {
        return still_pending(core.rest);
    }
    if is_lost(core, slots, heads, frames, k, p.kind) {
        return refuse_collect(core.rest, Refusal::InvalidEndpoint);
    }
    let left = waiting(core, slots, readings, k, p, r);
    let answer = left.answer;
    Settled {
        answer: pending_of(answer),
        rest: left.rest,
        writes: left.writes,
    }
}

// Boundary set: finished where it has passed.
pub fn collect_unlinking(
    core: Core,
    slots: &mut [u64],
    heads: &mut [u32],
    readings: Readings,
    seen: View,
    k: u8,
    p: Pipe,
    r: Request,
    boundary: UnlinkBoundary,
) -> Settled<Collected>
    requires good { Good core.settings core.rest slots.old }
    requires k_value { endpoint_at (view core slots.old) k ≡ Unlinking p r boundary }
    requires heads_len { length heads.old ≡ 17 * (core.settings.endpoints + 1) }
    ensures heads_after { ended (collected_view core.settings result slots.new) heads.new
        ≡ unlinking_of (view core slots.old) heads.old readings.frame seen k (keeping readings p) r boundary }
    ensures tidy { Tidy core.settings result.rest slots.new }
{
    if !passed(boundary, readings.frame) {
        return still_pending(core.rest);
    }
    end_overlay(heads, k);
    finish(core, slots, seen, k, p, r, boundary, readings.overlay)
}
