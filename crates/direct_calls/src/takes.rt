// What a call that is lent heads, or heads and frames, asks first: their lengths, and the ranges of core and slots.
ghost use Rattle.std.specs.Prelude.{◌≡◌, length};
ghost use Rattle.direct_calls.specs.Shapes.{takes_frames, takes_heads};

use opening::heads::HEAD_WORDS;
use opening::open::FRAMES;
use word_ranges::judge::words_good;
use words::cores::Core;

pub fn takes_heads(core: Core, slots: &[u64], heads: &[u32]) -> bool
    ensures { result ≡ takes_heads core slots.now (length heads.now) }
{
    let endpoints = core.settings.endpoints as usize;
    heads.len() == HEAD_WORDS * (endpoints + 1) && words_good(core, slots)
}

pub fn takes_frames(core: Core, slots: &[u64], heads: &[u32], frames: &[u32]) -> bool
    ensures { result ≡ takes_frames core slots.now (length heads.now) (length frames.now) }
{
    frames.len() as u64 == FRAMES && takes_heads(core, slots, heads)
}
