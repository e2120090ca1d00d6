// The token of one record of the lent row, read and written where it lies.
ghost use Rattle.std.specs.Prelude.{◌≡◌, ◌<◌, length, get_or, set};
ghost use Rattle.pool.specs.Chains.{blank, with_token};

use descriptor::qtd::QueueTransferDescriptor;

pub fn token_at(rows: &[QueueTransferDescriptor], place: usize) -> u32
    requires { place < length rows.now }
    ensures { result ≡ (get_or rows.now place blank).token }
{
    rows[place].token
}

pub fn set_token(rows: &mut [QueueTransferDescriptor], place: usize, token: u32)
    requires { place < length rows.old }
    ensures { rows.new ≡ set rows.old place (with_token (get_or rows.old place blank) token) }
{
    rows[place].token = token;
}
