// Demand 3 and the words in which it is read off a history are defined in specs/, and what is proved of every history stands in proofs/.
// A crate needs a function: this one answers how many ticks a taken notice may wait, of a kind of which so many are held.
#![tactic(auto)]

ghost use Rattle.std.specs.Prelude.{◌≡◌};
ghost use Rattle.model.specs.Limits.{longest_wait as longest};

use session::Session;

pub fn longest_wait(most: u32) -> u64
    ensures { result ≡ longest most }
{
    u64::from(most.saturating_sub(1)) * Session::GIVEN_UP_AT
}
