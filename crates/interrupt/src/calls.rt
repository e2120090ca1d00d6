// Acknowledge, drain, rearm, enable, disable, on a state in its ranges. All but a drain look at the core alone.
ghost use Rattle.std.specs.Prelude.{◌≡◌, ℕ, true, not, ◌&&◌, List, ◌==◌};
ghost use Rattle.register.specs.Bits.{any_of};
ghost use Rattle.token.specs.Tokens.{only_if};
ghost use Rattle.state.specs.Ranges.{in_ranges};
ghost use Rattle.interrupt.specs.Interrupts.{note_if, acknowledge_of, drain_of, rearm_of, enable_of, disable_of};
ghost use Rattle.interrupt.specs.Words.{acknowledged_view, drained_view, settled_view};
ghost use Rattle.words.specs.Good.{Good, Tidy};
ghost use Rattle.words.specs.View.{view};

use crate::acknowledge::{MASKABLE, PENDING, acknowledge_writes};
use crate::answers::Event;
use crate::drain::{clear_pending, count_noted};
use controller::left::Settled;
use register::bits::{any_of, only_bits, with_bits};
use register::operational::{USBINTR, USBSTS_INTERRUPT_ASYNC_ADVANCE};
use register::writes::Writes;
use words::cores::Core;

// An advance is noted only while the doorbell is up.
fn noted_after(doorbell: u8, noted: u8, p: u32) -> u8
    ensures { result ≡ note_if (any_of p 0x20 && doorbell == 1) noted }
{
    if any_of(p, USBSTS_INTERRUPT_ASYNC_ADVANCE) && doorbell == 1 {
        1
    } else {
        noted
    }
}

pub fn acknowledge(
    core: Core,
    status: u32,
    interrupts: u32,
    flag: bool,
    again: bool,
) -> Settled<bool>
    ensures by_index { (ws : List ℕ) → in_ranges (view core ws) ≡ true
        → acknowledged_view core.settings result ws ≡ acknowledge_of (view core ws) status interrupts flag again }
    ensures free_value { result.rest.free ≡ core.rest.free }
{
    let mut rest = core.rest;
    let p = only_bits(status, PENDING);
    if p == 0 {
        return Settled {
            answer: Ok(false),
            rest,
            writes: Writes::none(),
        };
    }
    let noted = noted_after(rest.doorbell, rest.noted, p);
    rest.pending = with_bits(rest.pending, p);
    rest.masked = with_bits(rest.masked, only_bits(p, MASKABLE));
    rest.noted = noted;
    Settled {
        answer: Ok(true),
        rest,
        writes: acknowledge_writes(p, interrupts, flag, again),
    }
}

// Given USBCMD as read, for the ring that a counted advance may make.
pub fn drain(core: Core, slots: &mut [u64], command: u32) -> Settled<Event>
    requires { Good core.settings core.rest slots.old }
    ensures slots_after { drained_view core.settings result slots.new ≡ drain_of (view core slots.old) command }
    ensures tidy { Tidy core.settings result.rest slots.new }
{
    let pending = core.rest.pending;
    if pending == 0 {
        return Settled {
            answer: Ok(Event::Nothing),
            rest: core.rest,
            writes: Writes::none(),
        };
    }
    let counted = count_noted(core, slots, command);
    let cleared = clear_pending(pending);
    let mut rest = counted.rest;
    rest.pending = cleared.left;
    let answer = Ok(cleared.event);
    Settled {
        answer,
        rest,
        writes: counted.writes,
    }
}

fn enabled_word(enabled: u8) -> u32
    ensures { result ≡ only_if (not (enabled == 0)) 0x27 }
{
    if enabled != 0 { MASKABLE } else { 0 }
}

pub fn rearm(core: Core) -> Settled<()>
    ensures by_index { (ws : List ℕ) → in_ranges (view core ws) ≡ true → settled_view core.settings result ws ≡ rearm_of (view core ws) }
    ensures free_value { result.rest.free ≡ core.rest.free }
{
    let mut rest = core.rest;
    if rest.masked == 0 {
        return Settled {
            answer: Ok(()),
            rest,
            writes: Writes::none(),
        };
    }
    rest.masked = 0;
    let word = enabled_word(rest.enabled);
    Settled {
        answer: Ok(()),
        rest,
        writes: Writes::none().and_then(USBINTR, word),
    }
}

pub fn enable(core: Core) -> Settled<()>
    ensures by_index { (ws : List ℕ) → in_ranges (view core ws) ≡ true → settled_view core.settings result ws ≡ enable_of (view core ws) }
    ensures free_value { result.rest.free ≡ core.rest.free }
{
    let mut rest = core.rest;
    rest.enabled = 1;
    Settled {
        answer: Ok(()),
        rest,
        writes: Writes::none().and_then(USBINTR, MASKABLE),
    }
}

pub fn disable(core: Core) -> Settled<()>
    ensures by_index { (ws : List ℕ) → in_ranges (view core ws) ≡ true → settled_view core.settings result ws ≡ disable_of (view core ws) }
    ensures free_value { result.rest.free ≡ core.rest.free }
{
    let mut rest = core.rest;
    rest.enabled = 0;
    Settled {
        answer: Ok(()),
        rest,
        writes: Writes::none().and_then(USBINTR, 0),
    }
}
