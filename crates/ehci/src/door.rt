// The one door: any call, over the core by value and the five lent rows.
ghost use Rattle.std.specs.Prelude.{◌≡◌, length};
ghost use Rattle.ehci.specs.Door.{applied};
ghost use Rattle.ehci.specs.WordsDoor.{WordsAfter, accepts_words, apply_words, reply_view};

use crate::call::Call;
use crate::decide::decide;
use crate::look::look;
use crate::reply::Reply;
use descriptor::qtd::QueueTransferDescriptor;
use pool::asked::fold_places;
use pool::writing::write;
use words::cores::Core;

pub fn apply(
    core: Core,
    rows: &mut [QueueTransferDescriptor],
    slots: &mut [u64],
    heads: &mut [u32],
    frames: &mut [u32],
    setups: &mut [u8],
    call: Call,
) -> Reply
    ensures setups_after { applied (reply_view core.settings result slots.new) rows.new heads.new frames.new setups.new
        ≡ apply_words core slots.old rows.old heads.old frames.old setups.old call }
    ensures words_after { WordsAfter (accepts_words core slots.old (length rows.old) (length heads.old) (length frames.old) (length setups.old))
        core slots.old result.rest slots.new }
{
    let looked = look(
        core,
        slots,
        rows.len(),
        heads.len(),
        frames.len(),
        setups.len(),
        call,
    );
    let seen = fold_places(rows, looked.ask);
    let decided = decide(
        core,
        rows.len(),
        slots,
        heads,
        frames,
        setups,
        looked.good,
        seen,
        call,
    );
    write(rows, decided.writing);
    decided.reply
}
