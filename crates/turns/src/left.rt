// A proved loop has to end: that of a program counts down from more turns than any input has.
ghost use Rattle.std.specs.Prelude.{◌<◌};

// Fewer than before, and none where nothing more comes.
pub fn after_turn(left: u64, more: bool) -> u64
    requires { 0 < left }
    ensures { result < left }
{
    if more { left - 1 } else { 0 }
}
