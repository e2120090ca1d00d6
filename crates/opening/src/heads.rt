// The words of a head, in the lent row of heads.
ghost use Rattle.std.specs.Prelude.{◌≡◌, ◌+◌, ◌*◌, ◌≤◌, length};
ghost use Rattle.common.specs.Rows.{put_at};

use common::rows::put_at;

pub const HEAD_WORDS: usize = 17;

// The word of a head that holds its characteristics.
pub const CHARACTERISTICS: usize = 1;

// The 17 words of a head, at its place.
pub fn put_head(heads: &mut [u32], place: usize, words: [u32; 17])
    requires place_bound { place ≤ 32 }
    requires place_in_bounds { 17 * place + 17 ≤ length heads.old }
    ensures { heads.new ≡ put_at heads.old (17 * place) words }
{
    put_at(heads, HEAD_WORDS * place, &words);
}
