// The lent row of descriptor records: read one, replace one.
ghost use Rattle.std.specs.Prelude.{◌≡◌, ◌<◌, length, get_or, set};
ghost use Rattle.pool.specs.Chains.{blank};

use descriptor::qtd::QueueTransferDescriptor;

// The record at a place.
pub fn record_at(rows: &[QueueTransferDescriptor], place: usize) -> QueueTransferDescriptor
    requires { place < length rows.now }
    ensures { result ≡ get_or rows.now place blank }
{
    rows[place]
}

// The record at a place is replaced.
pub fn replace(rows: &mut [QueueTransferDescriptor], place: usize, r: QueueTransferDescriptor)
    requires { place < length rows.old }
    ensures { rows.new ≡ set rows.old place r }
{
    rows[place] = r;
}
