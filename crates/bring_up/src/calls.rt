// Start and step, on a state in its ranges. A step looks at the core alone.
ghost use Rattle.std.specs.Prelude.{◌≡◌, ℕ, ◌<◌, true, List};
ghost use Rattle.state.specs.Ranges.{in_ranges};
ghost use Rattle.bring_up.specs.BringUp.{again_of, start_of, step_of};
ghost use Rattle.bring_up.specs.Words.{brought_view, refused_words};
ghost use Rattle.words.specs.Good.{Good};
ghost use Rattle.words.specs.View.{view};

use crate::answers::BroughtUp;
use crate::busy::any_uncollected;
use crate::stage::{is_ready, moved_on, register_of, stage_of, stage_writes};
use common::answer::Refusal;
use register::operational::{USBCMD, USBINTR};
use register::writes::Writes;
use words::cores::{Core, Rest};

pub fn refuse(rest: Rest, refusal: Refusal) -> BroughtUp
    ensures { result ≡ refused_words rest refusal }
{
    BroughtUp {
        answer: Err(refusal),
        rest,
        writes: Writes::none(),
        read: None,
        wait: 0,
    }
}

// The W-th read that is not ready ends the bring-up.
fn wait_again(core: Core, register: u32) -> BroughtUp
    requires { core.rest.waited < 65536 }
    ensures by_index { (ws : List ℕ) → brought_view core.settings result ws ≡ again_of (view core ws) register }
    ensures free_value { result.rest.free ≡ core.rest.free }
{
    let mut rest = core.rest;
    let waited = rest.waited + 1;
    rest.running = 0;
    if waited < core.settings.wait {
        rest.waited = waited;
        return BroughtUp {
            answer: Ok(()),
            rest,
            writes: Writes::none(),
            read: Some(register),
            wait: 0,
        };
    }
    rest.step = 0;
    rest.waited = 0;
    refuse(rest, Refusal::Timeout)
}

// Begins, also where one is begun or the controller runs.
pub fn start(core: Core, slots: &[u64]) -> BroughtUp
    requires { Good core.settings core.rest slots.now }
    ensures slots_value { brought_view core.settings result slots.now ≡ start_of (view core slots.now) }
    ensures free_value { result.rest.free ≡ core.rest.free }
{
    let mut rest = core.rest;
    if any_uncollected(slots, core.settings.endpoints) {
        return refuse(rest, Refusal::QueueFull);
    }
    rest.running = 0;
    rest.step = 1;
    rest.waited = 0;
    rest.enabled = 0;
    BroughtUp {
        answer: Ok(()),
        rest,
        writes: Writes::none().and_then(USBINTR, 0),
        read: Some(USBCMD),
        wait: 0,
    }
}

// Given the register that the last answer named, on a core whose settings and scalars are in their ranges.
pub fn step(core: Core, reading: u32) -> BroughtUp
    requires waited_bound { core.rest.waited < 65536 }
    requires frames_bound { (core.settings.frames < 4294967296) × (core.settings.heads < 4294967296) }
    ensures by_index { (ws : List ℕ) → in_ranges (view core ws) ≡ true → brought_view core.settings result ws ≡ step_of (view core ws) reading }
    ensures free_value { result.rest.free ≡ core.rest.free }
{
    let mut rest = core.rest;
    let at = rest.step;
    if at == 0 {
        return refuse(rest, Refusal::InvalidParameter);
    }
    let stage = stage_of(at);
    if is_ready(stage, reading) {
        let writes = stage_writes(stage, reading, core.settings.frames, core.settings.heads);
        let moved = moved_on(stage);
        rest.running = moved.running;
        rest.step = moved.step;
        rest.waited = 0;
        return BroughtUp {
            answer: Ok(()),
            rest,
            writes,
            read: moved.read,
            wait: moved.wait,
        };
    }
    wait_again(core, register_of(stage))
}
