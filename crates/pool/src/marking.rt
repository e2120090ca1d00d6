// The token of one record is replaced, the other words stay. And the records as opening leaves them.
ghost use Rattle.std.specs.Prelude.{◌≡◌, ◌+◌, ◌-◌, ◌≤◌, ◌<◌, length};
ghost use Rattle.pool.specs.Words.{MarkingGood, marked_of, opened_to};
ghost use Rattle.pool.specs.Chains.{fresh_at};
ghost use Rattle.pool.specs.Places.{up_from};

use crate::chain::no_record;
use crate::row::replace;
use crate::tokens::set_token;
use descriptor::qtd::QueueTransferDescriptor;

// A token, and the place of the record that gets it.
#[derive(Clone, Copy, PartialEq, Eq)]
pub struct Mark {
    pub place: usize,
    pub token: u32,
}

pub fn mark_token(rows: &mut [QueueTransferDescriptor], marking: Option<Mark>)
    requires { MarkingGood (length rows.old) marking }
    ensures { rows.new ≡ marked_of marking rows.old }
{
    match marking {
        None => {}
        Some(mark) => set_token(rows, mark.place, mark.token),
    }
}

// The k-th of so many records: zero words, and the last is the shared one, which is never active.
fn fresh_record(k: usize, count: usize) -> QueueTransferDescriptor
    requires { k < count }
    ensures { result ≡ fresh_at (up_from (k + 1) (count - (k + 1))) }
{
    if k + 1 == count {
        return QueueTransferDescriptor::terminated();
    }
    no_record()
}

// The first records as opening leaves them.
pub fn open_first(rows: &mut [QueueTransferDescriptor], count: usize)
    requires { count ≤ length rows.old }
    ensures { rows.new ≡ opened_to count rows.old }
{
    for k in 0..count {
        let r = fresh_record(k, count);
        replace(rows, k, r);
    }
}
