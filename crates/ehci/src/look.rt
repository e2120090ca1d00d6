// What every call asks first, once: the rows' lengths and the state's ranges; and which records it looks at.
ghost use Rattle.std.specs.Prelude.{◌≡◌, true};
ghost use Rattle.words.specs.Good.{Good};
ghost use Rattle.ehci.specs.WordsDecides.{AsksGood, LooksGood};
ghost use Rattle.ehci.specs.WordsDoor.{accepts_words};

use crate::call::Call;
use collection::ask::ask;
use opening::open::rows_fit;
use pool::asked::{AskWords, no_ask_words};
use word_ranges::judge::words_good;
use words::cores::Core;

#[derive(Clone, Copy)]
pub struct Looked {
    pub good: bool,
    pub ask: AskWords,
}

// The lengths of the rows that are lent besides the slots.
#[derive(Clone, Copy)]
pub struct Lent {
    pub pool: usize,
    pub heads: usize,
    pub frames: usize,
    pub setups: usize,
}

fn accepts(core: Core, slots: &[u64], lent: Lent) -> bool
    ensures { result ≡ accepts_words core slots.now lent.pool lent.heads lent.frames lent.setups }
{
    let fit = rows_fit(
        core.settings,
        lent.pool as u64,
        lent.heads as u64,
        lent.frames as u64,
        lent.setups as u64,
    );
    let good = words_good(core, slots);
    fit & good
}

// A collect looks at its slot's request; nothing is asked of a state outside its ranges.
fn asks(core: Core, slots: &[u64], good: bool, call: Call) -> AskWords
    requires { good ≡ true → Good core.settings core.rest slots.now }
    ensures { AsksGood core slots.now good call result }
{
    if !good {
        return no_ask_words();
    }
    match call {
        Call::Collect(slot, _, _) => ask(core, slots, slot),
        _ => no_ask_words(),
    }
}

pub fn look(
    core: Core,
    slots: &[u64],
    pool: usize,
    heads: usize,
    frames: usize,
    setups: usize,
    call: Call,
) -> Looked
    ensures { LooksGood core slots.now pool heads frames setups call result }
{
    let lent = Lent {
        pool,
        heads,
        frames,
        setups,
    };
    let good = accepts(core, slots, lent);
    let ask = asks(core, slots, good, call);
    Looked { good, ask }
}
