// Unlinking a request: its head out of the schedule, the boundary that it waits for, and the mark of a cancelled one.
ghost use Rattle.std.specs.Prelude.{◌≡◌, ◌+◌, ◌*◌, ◌<◌, length};
ghost use Rattle.pipe.specs.Endpoints.{endpoint_at};
ghost use Rattle.pipe.specs.declared.endpoints.Endpoint.TheVariants.{Unlinking};
ghost use Rattle.common.specs.Kinds.{is_interrupt};
ghost use Rattle.schedule.specs.Links.{detach_of, links, periodic};
ghost use Rattle.words.specs.Good.{Good, Tidy};
ghost use Rattle.words.specs.View.{view};
ghost use Rattle.collection.specs.Calls.{marked_of, marked};
ghost use Rattle.collection.specs.Unlinks.{is_missing, left, unlink_of, waiting_of, asked_of, bounded_of, frame_below, passed_boundary};
ghost use Rattle.collection.specs.Words.{OwnRequest, cancelled_view};
ghost use Rattle.pipe.specs.declared.endpoints.UnlinkBoundary.TheVariants.{Async};

use crate::answers::refuse_cancel;
use common::answer::Refusal;
use common::kinds::{EndpointType, is_interrupt};
use controller::left::Settled;
use controller::lent::Readings;
use pipe::endpoints::{Endpoint, Pipe, Request, UnlinkBoundary};
use pipe::slots::put_endpoint;
use register::writes::Writes;
use schedule::bell::{Bell, Rung, frame_of, frames_passed, unlinked};
use schedule::links::{Predecessor, detach, head_address};
use words::cores::Core;

// The boundary of a request that is unlinked, and the doorbell then.
#[derive(Clone, Copy)]
pub struct Bounded {
    pub boundary: UnlinkBoundary,
    pub rung: Rung,
}

fn advances(unanswered: u8) -> UnlinkBoundary
    ensures { result ≡ Async unanswered }
{
    UnlinkBoundary::Async(unanswered as u16)
}

// One more unlink that an advance answers.
fn asked(bell: Bell, command: u32) -> Bounded
    requires { bell.unanswered < 32 }
    ensures { result ≡ asked_of bell command }
{
    let boundary = advances(bell.unanswered + 1);
    let rung = unlinked(bell, Writes::none(), command);
    Bounded { boundary, rung }
}

pub fn boundary_now(bell: Bell, kind: EndpointType, readings: Readings) -> Bounded
    requires { bell.unanswered < 32 }
    ensures { result ≡ bounded_of bell kind readings }
{
    match kind {
        EndpointType::Interrupt => Bounded {
            boundary: UnlinkBoundary::Periodic(frame_of(readings.frame)),
            rung: Rung {
                bell,
                writes: Writes::none(),
            },
        },
        _ => asked(bell, readings.command),
    }
}

// A request that is cancelled.
pub fn marked(r: Request) -> Request
    ensures { result ≡ marked r }
{
    Request {
        cancelled: true,
        ..r
    }
}

// Whether a boundary has passed.
pub fn passed(boundary: UnlinkBoundary, frame: u32) -> bool
    requires { frame_below boundary }
    ensures { result ≡ passed_boundary boundary frame }
{
    match boundary {
        UnlinkBoundary::Async(n) => n == 0,
        UnlinkBoundary::Periodic(start) => frames_passed(start, frame),
    }
}

// The slot's request waits for its boundary. `r` is the slot's own request, marked or not.
pub fn waiting(
    core: Core,
    slots: &mut [u64],
    readings: Readings,
    k: u8,
    p: Pipe,
    r: Request,
) -> Settled<()>
    requires good { Good core.settings core.rest slots.old }
    requires k_lt_endpoints { (k < core.settings.endpoints) × (core.rest.unanswered < 32) }
    requires own_request { OwnRequest (view core slots.old) k p r }
    ensures slots_after { cancelled_view core.settings result slots.new ≡ waiting_of (view core slots.old) readings k p r }
    ensures tidy { Tidy core.settings result.rest slots.new }
{
    let mut rest = core.rest;
    let bell = Bell {
        noted: rest.noted,
        doorbell: rest.doorbell,
        unanswered: rest.unanswered,
    };
    let until = boundary_now(bell, p.kind, readings);
    rest.noted = until.rung.bell.noted;
    rest.doorbell = until.rung.bell.doorbell;
    rest.unanswered = until.rung.bell.unanswered;
    let writes = until.rung.writes;
    put_endpoint(slots, k, Endpoint::Unlinking(p, r, until.boundary));
    Settled {
        answer: Ok(()),
        rest,
        writes,
    }
}

// Gives the link of a slot's head to its predecessor. Lost is a head that no linked one leads to: then no word moves.
pub fn is_lost(
    core: Core,
    slots: &[u64],
    heads: &mut [u32],
    frames: &mut [u32],
    k: u8,
    kind: EndpointType,
) -> bool
    requires good { Good core.settings core.rest slots.now }
    requires k_lt_endpoints { (k < core.settings.endpoints) × (length heads.old ≡ 17 * (core.settings.endpoints + 1)) × (0 < length frames.old) }
    requires kind_value { is_interrupt kind ≡ periodic (view core slots.now) k }
    ensures value { result ≡ is_missing (detach_of (view core slots.now) heads.old frames.old k).predecessor }
    ensures frames_after { links heads.new frames.new
        ≡ (detach_of (view core slots.now) heads.old frames.old k).rows }
{
    let address = head_address(core, k);
    let found = detach(core, slots, heads, frames, k, is_interrupt(kind), address);
    matches!(found, Predecessor::Missing)
}

// Refused where the head is lost.
pub fn unlink(
    core: Core,
    slots: &mut [u64],
    heads: &mut [u32],
    frames: &mut [u32],
    readings: Readings,
    k: u8,
    p: Pipe,
    r: Request,
) -> Settled<()>
    requires good { Good core.settings core.rest slots.old }
    requires k_lt_endpoints { (k < core.settings.endpoints) × (core.rest.unanswered < 32) }
    requires own_request { OwnRequest (view core slots.old) k p r }
    requires heads_len { (length heads.old ≡ 17 * (core.settings.endpoints + 1)) × (0 < length frames.old) }
    ensures frames_after { left (cancelled_view core.settings result slots.new) heads.new frames.new
        ≡ unlink_of (view core slots.old) heads.old frames.old readings k p r }
    ensures tidy { Tidy core.settings result.rest slots.new }
{
    if is_lost(core, slots, heads, frames, k, p.kind) {
        return refuse_cancel(core.rest, Refusal::InvalidEndpoint);
    }
    waiting(core, slots, readings, k, p, r)
}

// A request that is unlinking already is only marked.
pub fn mark(
    core: Core,
    slots: &mut [u64],
    k: u8,
    p: Pipe,
    r: Request,
    b: UnlinkBoundary,
) -> Settled<()>
    requires good { Good core.settings core.rest slots.old }
    requires k_value { endpoint_at (view core slots.old) k ≡ Unlinking p r b }
    ensures slots_after { cancelled_view core.settings result slots.new ≡ marked_of (view core slots.old) k p r b }
    ensures tidy { Tidy core.settings result.rest slots.new }
{
    put_endpoint(slots, k, Endpoint::Unlinking(p, marked(r), b));
    Settled {
        answer: Ok(()),
        rest: core.rest,
        writes: Writes::none(),
    }
}
