// The calls that read or replace one record of the lent row, for any place: one beyond the row is refused.
ghost use Rattle.std.specs.Prelude.{◌≡◌};
ghost use Rattle.pool.specs.RecordCalls.{read_of, replace_of, replaced};

use crate::row::{record_at, replace};
use common::answer::Refusal;
use descriptor::qtd::QueueTransferDescriptor;

const BEYOND: Refusal = Refusal::InvalidParameter;

// The record at a place, if the row has it.
pub fn read_record(
    rows: &[QueueTransferDescriptor],
    place: usize,
) -> Result<QueueTransferDescriptor, Refusal>
    ensures { result ≡ read_of rows.now place }
{
    let count = rows.len();
    if place < count {
        return Ok(record_at(rows, place));
    }
    Err(BEYOND)
}

// The record at a place is replaced, if the row has it; else the row stays as it is.
pub fn replace_record(
    rows: &mut [QueueTransferDescriptor],
    place: usize,
    r: QueueTransferDescriptor,
) -> Result<(), Refusal>
    ensures { replaced result rows.new ≡ replace_of rows.old place r }
{
    let length = rows.len();
    if place < length {
        replace(rows, place, r);
        return Ok(());
    }
    Err(BEYOND)
}
