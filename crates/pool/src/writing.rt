// What a call writes to the pool: a transfer's records at a set of places, or one token.
ghost use Rattle.std.specs.Prelude.{◌≡◌, length};
ghost use Rattle.pool.specs.Words.{WritingGood, no_writing, written_with};

use crate::laying::{Laying, lay, no_laying};
use crate::marking::{Mark, mark_token};
use descriptor::qtd::QueueTransferDescriptor;

#[derive(Clone, Copy)]
pub struct Writing {
    pub laying: Laying,
    pub marking: Option<Mark>,
}

// Nothing is written.
pub fn no_writing() -> Writing
    ensures { result ≡ no_writing }
{
    Writing {
        laying: no_laying(),
        marking: None,
    }
}

// A transfer's records, then the token.
pub fn write(rows: &mut [QueueTransferDescriptor], w: Writing)
    requires { WritingGood (length rows.old) w }
    ensures { rows.new ≡ written_with w rows.old }
{
    lay(rows, w.laying);
    mark_token(rows, w.marking);
}
