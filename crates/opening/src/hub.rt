// The root ports' record, which the caller keeps: numbers only.
ghost use Rattle.std.specs.Prelude.{◌≡◌};
ghost use Rattle.opening.specs.Hub.{opened_hub};

// A port's state.
pub const UNINIT: u8 = 0;

pub const RESETED: u8 = 1;

pub const PROBED: u8 = 2;

#[repr(C)]
#[derive(Clone, Copy)]
pub struct EhciRootHub {
    pub ports: u8,
    pub states: [u8; 15],
    // The port that a scan has come to, counted from 1, and the step that a reading is awaited for; 0 where none is begun.
    pub port: u8,
    pub step: u8,
}

impl EhciRootHub {
    // Every port Uninit, no scan begun. With no ports it is outside its ranges.
    pub fn new(ports: u8) -> EhciRootHub
        ensures { result ≡ opened_hub ports }
    {
        EhciRootHub {
            ports,
            states: [UNINIT; 15],
            port: 0,
            step: 0,
        }
    }
}
