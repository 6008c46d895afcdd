// A session's phase and idle count, loaded from their bytes in the table and stored there.
#![tactic(auto)]

ghost use Rattle.std.specs.Prelude.{◌≡◌, ◌≤◌, length};
ghost use Rattle.head.specs.Head.{phase_of, phase_last, head_size, head_of, head_formed, Storable, Area};

use session::{Phase, Session};

// The session's constant, which fits the byte that it bounds.
const IDLE_LIMIT: u8 = Session::IDLE_LIMIT as u8;

// The last of the bytes that are a phase.
const PHASE_LAST: u8 = Phase::Started as u8;

// Every byte gives a phase, so that a load cannot fail. No `From`: it would stand in `session`, away from the map that the bytes follow.
fn phase_from(b: u8) -> Phase
    ensures { result ≡ phase_of b }
{
    match b {
        0 => Phase::Closed,
        1 => Phase::Opened,
        _ => Phase::Started,
    }
}

// The bytes are lent as a slice: callers cut them from the table, and an array would be a conversion more at each call.

#[tactic(auto, unfolding(crate::specs::Head::head_formed))]
pub fn is_formed(head: &[u8]) -> bool
    requires { length head.now ≡ head_size }
    ensures { result ≡ head_formed head.now }
{
    head[0] <= PHASE_LAST && head[1] < IDLE_LIMIT
}

#[tactic(auto, unfolding(crate::specs::Head::head_of))]
pub fn load(head: &[u8]) -> Session
    requires { length head.now ≡ head_size }
    ensures { result ≡ head_of head.now }
{
    Session {
        phase: phase_from(head[0]),
        idle: u64::from(head[1]),
    }
}

pub fn store(head: &mut [u8], x: Session)
    requires { (length head.old ≡ head_size) × Storable x }
    ensures { (head_of head.new ≡ x) × Area head.new }
{
    head[0] = x.phase as u8;
    head[1] = x.idle as u8;
}
