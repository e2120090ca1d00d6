// The controller that a sheet's job is run on: opened in a store of its own, and brought up through its steps.
ghost use Rattle.std.specs.Prelude.{◌≡◌};
ghost use Rattle.job_run.specs.Runs.{sheet_settings, after_call, running_store};
ghost use Rattle.store.specs.Words.{store_view};

use ehci::call::Call;
use settings::settings::Settings;
use store::store::{Store, blank_store, call_on, open_in};

fn sheet_settings() -> Settings
    ensures { result ≡ sheet_settings }
{
    Settings {
        descriptors: 16,
        endpoints: 8,
        ports: 1,
        limit: 16384,
        wait: 1,
        pool: 0x100000,
        heads: 0x200000,
        frames: 0x300000,
        setups: 0x400000,
    }
}

fn after_call(store: Store, call: Call) -> Store
    ensures { store_view result ≡ after_call (store_view store) call }
{
    call_on(store, call).store
}

// The six readings: USBCMD; USBSTS halted; USBCMD; USBCMD, reset over; USBCMD; USBSTS, not halted.
pub fn running_store() -> Store
    ensures { store_view result ≡ running_store }
{
    let fresh = open_in(blank_store(), sheet_settings()).store;
    let started = after_call(fresh, Call::StartBringUp);
    let stopped = after_call(started, Call::BringUpStep(0));
    let halted = after_call(stopped, Call::BringUpStep(0x1000));
    let reset = after_call(halted, Call::BringUpStep(0));
    let set_up = after_call(reset, Call::BringUpStep(0));
    let run = after_call(set_up, Call::BringUpStep(0));
    after_call(run, Call::BringUpStep(0))
}
