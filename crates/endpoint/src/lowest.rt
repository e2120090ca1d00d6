// The slot that a new endpoint gets.
ghost use Rattle.std.specs.Prelude.{◌≡◌};
ghost use Rattle.words.specs.Good.{Good};
ghost use Rattle.words.specs.View.{view};
ghost use Rattle.endpoint.specs.Words.{lowest_of};

use words::cores::Core;
use words::row::RECORD;

// The lowest closed slot, if there is one.
pub fn lowest_closed(core: Core, slots: &[u64]) -> Option<u8>
    requires { Good core.settings core.rest slots.now }
    ensures { result ≡ lowest_of (view core slots.now) }
{
    let endpoints = core.settings.endpoints;
    for k in 0..endpoints {
        let word = slots[RECORD * (k as usize)];
        if word % 4 == 0 {
            return Some(k);
        }
    }
    None
}
