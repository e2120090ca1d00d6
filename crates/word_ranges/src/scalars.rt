// The ranges of the core: its settings, and every field of the rest but the free places.
ghost use Rattle.std.specs.Prelude.{◌≡◌};
ghost use Rattle.state.specs.Ranges.{machine_good, interrupt_good, doorbell_good};
ghost use Rattle.word_ranges.specs.Judge.{bare_state, scalars_good, core_good};

use register::bits::without_bits;
use words::cores::Core;

fn machine_good(c: Core) -> bool
    ensures { result ≡ machine_good (bare_state c.settings c.rest) }
{
    (c.rest.running <= 1)
        & (c.rest.step <= 6)
        & (c.rest.waited < c.settings.wait)
        & ((1 <= c.rest.address) & (c.rest.address <= 128))
}

fn interrupt_good(c: Core) -> bool
    ensures { result ≡ interrupt_good (bare_state c.settings c.rest) }
{
    let pending = without_bits(c.rest.pending, 0x37);
    let masked = without_bits(c.rest.masked, 0x27);
    (c.rest.enabled <= 1) & (pending == 0) & (masked == 0)
}

fn doorbell_good(c: Core) -> bool
    ensures { result ≡ doorbell_good (bare_state c.settings c.rest) }
{
    (c.rest.doorbell <= 1)
        & (c.rest.noted <= c.rest.doorbell)
        & ((c.rest.doorbell <= c.rest.unanswered) & (c.rest.unanswered <= 32))
}

pub fn scalars_good(c: Core) -> bool
    ensures { result ≡ scalars_good c.settings c.rest }
{
    let machine = machine_good(c);
    let interrupt = interrupt_good(c);
    let doorbell = doorbell_good(c);
    machine & interrupt & doorbell
}

// What a call that is lent the core alone asks.
pub fn core_good(c: Core) -> bool
    ensures { result ≡ core_good c.settings c.rest }
{
    c.settings.good() && scalars_good(c)
}
