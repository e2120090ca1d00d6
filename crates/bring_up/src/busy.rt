// Whether any slot has an uncollected request.
ghost use Rattle.std.specs.Prelude.{◌≡◌, ◌*◌, length};
ghost use Rattle.bring_up.specs.Words.{any_held};

use words::row::RECORD;

pub fn any_uncollected(slots: &[u64], endpoints: u8) -> bool
    requires { length slots.now ≡ 6 * endpoints }
    ensures { result ≡ any_held 0 endpoints slots.now }
{
    let mut busy = false;
    for k in 0..endpoints as usize {
        let phase = slots[RECORD * k] % 4;
        busy |= 2 <= phase;
    }
    busy
}
