// What the tokens of a request say, one after another.
ghost use Rattle.std.specs.Prelude.{◌≡◌, [], ◌-◌, ◌<◌};
ghost use Rattle.token.specs.EhciQtd.{total_bytes};
ghost use Rattle.pool.specs.Chains.{blank, is_active, is_erring, is_retried, is_short, number_if, or_else, stage_else, stage_of, standing_numbered, view_of, stands_active};

use descriptor::qtd::QueueTransferDescriptor;
use token::qtd::QtdToken;

// Where a request's descriptors stand: none is active or erring, an error comes before any active one, an active one comes first.
#[derive(Clone, Copy, PartialEq, Eq)]
pub enum Standing {
    Inactive,
    Erring,
    Active,
}

impl Standing {
    pub fn stands_active(self) -> bool
        ensures { result ≡ stands_active self }
    {
        matches!(self, Standing::Active)
    }
}

// For callers that hold a number: 0 is inactive, 2 active. Any other is erring, as no later token changes it.
pub fn standing_numbered(number: u8) -> Standing
    ensures { result ≡ standing_numbered number }
{
    match number {
        0 => Standing::Inactive,
        2 => Standing::Active,
        _ => Standing::Erring,
    }
}

// `failed` is the first erring token, which is never 0; 0 where none is.
#[derive(Clone, Copy, PartialEq, Eq)]
pub struct View {
    pub stage: Standing,
    pub retried: u16,
    pub failed: u32,
    pub moved: u64,
}

pub fn nothing_seen() -> View
    ensures { result ≡ view_of [] }
{
    View {
        stage: Standing::Inactive,
        retried: 0,
        failed: 0,
        moved: 0,
    }
}

// An active token decides before its errors do.
fn stage_of(token: QtdToken) -> Standing
    ensures { result ≡ stage_of token.0 }
{
    if token.active() {
        return Standing::Active;
    }
    if token.has_error() {
        return Standing::Erring;
    }
    Standing::Inactive
}

pub fn stage_with(stage: Standing, token: QtdToken) -> Standing
    ensures { result ≡ stage_else stage (stage_of token.0) }
{
    match stage {
        Standing::Inactive => stage_of(token),
        _ => stage,
    }
}

// The same over numbers, for callers that hold one: any number but 0 is kept.
pub fn stage_numbered_with(stage: u8, token: QtdToken) -> u8
    ensures { result ≡ or_else stage (number_if (is_active token.0) 2 (number_if (is_erring token.0) 1 0)) }
{
    if stage != 0 {
        return stage;
    }
    match stage_of(token) {
        Standing::Inactive => 0,
        Standing::Erring => 1,
        Standing::Active => 2,
    }
}

pub fn failed_with(failed: u32, token: QtdToken) -> u32
    ensures { result ≡ or_else failed (number_if (is_erring token.0) token.0 0) }
{
    if failed != 0 {
        return failed;
    }
    if token.has_error() {
        return token.0;
    }
    0
}

// Whether a packet of its descriptor went through only in a retry, as a number.
pub fn retried_of(token: QtdToken) -> u16
    ensures { result ≡ number_if (is_retried token.0) 1 0 }
{
    if token.retried() {
        return 1;
    }
    0
}

// Done without error, with bytes left.
pub fn is_short(token: QtdToken) -> bool
    ensures { result ≡ is_short token.0 }
{
    if token.active() {
        return false;
    }
    if token.has_error() {
        return false;
    }
    token.total_bytes() != 0
}

pub fn moved_of(requested: u64, token: QtdToken) -> u64
    ensures { result ≡ requested - total_bytes token.0 }
{
    requested.saturating_sub(token.total_bytes() as u64)
}

pub fn no_record() -> QueueTransferDescriptor
    ensures { result ≡ blank }
{
    QueueTransferDescriptor {
        next: 0,
        alternate: 0,
        token: 0,
        pages: [0; 5],
        upper: [0; 5],
    }
}
