// What demand 3 says of the calls of a history is defined in specs/ and proved in proofs/ of any machine that keeps notices so. A
// crate needs a function: this one answers how many copies a notice has that stood open so many ticks.
#![tactic(auto)]

ghost use Rattle.std.specs.Prelude.{◌≡◌};
ghost use Rattle.watch.specs.Marks.{copies_due};

use session::Session;

// So many repeats, at most: one at each time for a copy before the notice is given up.
const MOST_REPEATS: u64 = (Session::GIVEN_UP_AT - 1) / Session::COPY_EVERY;

pub fn copies_due(ticks: u64) -> u64
    ensures { result ≡ copies_due ticks }
{
    1 + (ticks / Session::COPY_EVERY).min(MOST_REPEATS)
}
