// The controller that a log is replayed on.
ghost use Rattle.std.specs.Prelude.{◌≡◌, true};
ghost use Rattle.store.specs.Tended.{WordsOpened};

use opening::hub::EhciRootHub;
use store::store::Store;

// Before a first accepted opening every call answers 1.
#[derive(Clone, Copy)]
pub struct Keeper {
    pub store: Store,
    pub hub: EhciRootHub,
    pub opened: bool,
    pub ghost kept: { opened ≡ true → WordsOpened store.core store.rows.slots },
}
