// Where the program begins.
ghost use Rattle.std.specs.Prelude.{◌≡◌};
ghost use Rattle.program.specs.States.{start};

use freshboard::fresh;
use program::State;
use storing::no_settings;

// Before the first byte.
pub fn start() -> State
    ensures { result ≡ start }
{
    states::start(no_settings(), fresh())
}
