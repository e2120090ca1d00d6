// A transfer descriptor's token (EHCI 3.5.3): 000's `QtdPid` and `QtdToken`.
ghost use Rattle.std.specs.Prelude.{◌≡◌, min, not, eqb};
ghost use Rattle.register.specs.Bits.{with_field};
ghost use Rattle.token.specs.EhciQtd.{total_bytes, active, halted, transaction_error};
ghost use Rattle.token.specs.Tokens.{pid_of, only_if, new_token, token_of, with_flag};

use register::bits::{any_of, with_bits, without_bits};

#[derive(Clone, Copy, PartialEq, Eq)]
pub enum QtdPid {
    Out = 0,
    In = 1,
    Setup = 2,
}

impl QtdPid {
    pub fn token_bits(self) -> u32
        ensures { result ≡ pid_of self }
    {
        self as u32
    }
}

#[repr(C)]
#[derive(Clone, Copy, PartialEq, Eq)]
pub struct QtdToken(pub u32);

impl QtdToken {
    pub const HALTED: u32 = 1 << 6;

    pub const TRANSACTION_ERROR: u32 = 1 << 3;

    pub const ACTIVE: u32 = 1 << 7;

    pub const PID_SHIFT: u32 = 8;

    pub const ERROR_COUNTER_SHIFT: u32 = 10;

    pub const ERROR_COUNTER_MASK: u32 = 0b11 << Self::ERROR_COUNTER_SHIFT;

    pub const INTERRUPT_ON_COMPLETE: u32 = 1 << 15;

    pub const TOTAL_BYTES_SHIFT: u32 = 16;

    pub const TOTAL_BYTES_MASK: u32 = 0x7fff << Self::TOTAL_BYTES_SHIFT;

    pub const TOTAL_BYTES_MAX: u64 = 0x7fff;

    pub const DATA_TOGGLE: u32 = 1 << 31;

    // A count above the field's largest is written as that.
    pub fn new(pid: QtdPid, bytes: u64) -> QtdToken
        ensures { result.0 ≡ new_token pid bytes }
    {
        let total = bytes.min(Self::TOTAL_BYTES_MAX) as u32;
        QtdToken((pid.token_bits() << Self::PID_SHIFT) | (total << Self::TOTAL_BYTES_SHIFT))
    }

    pub fn raw(self) -> u32
        ensures { result ≡ self.0 }
    {
        self.0
    }

    pub fn with_error_counter(self, count: u8) -> QtdToken
        ensures { result.0 ≡ with_field self.0 10 2 (min count 3) }
    {
        let kept = without_bits(self.0, Self::ERROR_COUNTER_MASK);
        let held = count.min(3) as u32;
        QtdToken(with_bits(kept, held << Self::ERROR_COUNTER_SHIFT))
    }

    pub fn with_active(self, set: bool) -> QtdToken
        ensures { result.0 ≡ with_field self.0 7 1 (only_if set 1) }
    {
        QtdToken(with_flag(self.0, Self::ACTIVE, set))
    }

    pub fn with_interrupt_on_complete(self, set: bool) -> QtdToken
        ensures { result.0 ≡ with_field self.0 15 1 (only_if set 1) }
    {
        QtdToken(with_flag(self.0, Self::INTERRUPT_ON_COMPLETE, set))
    }

    pub fn with_data_toggle(self, set: bool) -> QtdToken
        ensures { result.0 ≡ with_field self.0 31 1 (only_if set 1) }
    {
        QtdToken(with_flag(self.0, Self::DATA_TOGGLE, set))
    }

    pub fn total_bytes(self) -> u32
        ensures { result ≡ total_bytes self.0 }
    {
        (self.0 & Self::TOTAL_BYTES_MASK) >> Self::TOTAL_BYTES_SHIFT
    }

    pub fn active(self) -> bool
        ensures { result ≡ not (eqb (active self.0) 0) }
    {
        any_of(self.0, Self::ACTIVE)
    }

    // Halted alone: the other three stay set though a retry went through.
    pub fn has_error(self) -> bool
        ensures { result ≡ not (eqb (halted self.0) 0) }
    {
        any_of(self.0, Self::HALTED)
    }

    pub fn retried(self) -> bool
        ensures { result ≡ not (eqb (transaction_error self.0) 0) }
    {
        any_of(self.0, Self::TRANSACTION_ERROR)
    }

    // An active token with three tries, as every descriptor of a request starts.
    pub fn started(pid: QtdPid, bytes: u64, interrupt: bool, toggle: bool) -> QtdToken
        ensures { result ≡ token_of pid bytes interrupt toggle }
    {
        QtdToken::new(pid, bytes)
            .with_error_counter(3)
            .with_active(true)
            .with_interrupt_on_complete(interrupt)
            .with_data_toggle(toggle)
    }
}

// The bits of a mask all set, or all clear.
fn with_flag(word: u32, mask: u32, set: bool) -> u32
    ensures { result ≡ with_flag word mask set }
{
    if set {
        with_bits(word, mask)
    } else {
        without_bits(word, mask)
    }
}
