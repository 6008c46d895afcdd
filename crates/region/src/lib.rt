// A session in its region of the table: its phase and idle count, the run that it is receiving, and a lane for each kind of notice. What is
// done here changes the region and nothing else, and tells by value what is then to be said.
//
// It is lent as a slice, and that it is good is a clause: with a struct around the slice, what the table is to know of its bytes after a
// call did not prove.
#![tactic(auto)]

ghost use Rattle.std.specs.Prelude.{◌≡◌, cond, map, ◌≤◌, ◌<◌, length};
ghost use Rattle.std.specs.List.{list_all};
ghost use Rattle.model.specs.Limits.{run_kept, identifier_length, idle_limit};
ghost use Rattle.model.specs.Bytes.{padded};
ghost use Rattle.model.specs.Runs.{empty_run, longer};
ghost use Rattle.model.specs.Named.{place_of};
ghost use Rattle.model.specs.Notices.{is_subscribed, beats};
ghost use Rattle.model.specs.Session.{closed, fresh, is_closed as is_closed_session, no_subscriptions};
ghost use Rattle.session.specs.Meaning.{deed_of};
ghost use Rattle.session.specs.declared.Take.TheVariants.{Not};
ghost use Rattle.session.specs.Decisions.{is_started as is_started_so};
ghost use Rattle.run.specs.Area.{run_of};
ghost use Rattle.head.specs.Head.{head_of};
ghost use Rattle.places.specs.Places.{place_count};
ghost use Rattle.places.specs.Free.{marked};
ghost use Rattle.lane.specs.Kinds.{lane_size};
ghost use Rattle.lane.specs.Lane.{Reading, lane_formed};
ghost use Rattle.region.specs.Region.{region_size, head_area, run_area, lane_at as lane_begins, lane_range, lane_in, subscriptions_in};
ghost use Rattle.region.specs.Region.{session_of, region_formed, Good, run_bytes as bytes_of_run, Becomes, Changes, LanesCleared};
ghost use Rattle.region.specs.Region.{places_held};
ghost use Rattle.region.specs.Said.{DealtTo, DealtToAll, TickStays, Ticks, Answers, Taking, Holds};
ghost use Rattle.region.specs.Said.{StandsSo, Rules, CarryingOut, CarriesOut, ended_by, RunEnds};

use message::{Common, Standing};
use model::{IDENTIFIER_LENGTH, KIND_COUNT, KINDS, Kind};
use session::{Decision, Deed, Phase, Reply, Session, Take, Taken};
use std::ops::Range;

// How many bytes it has.
pub const SIZE: usize = 288;

// Where the phase and the idle count end, and where the run is.
const HEAD_END: usize = 2;

const RUN_AT: usize = 8;

const RUN_END: usize = 56;

// By kind: where its lane begins.
fn lane_at(kind: Kind) -> usize
    ensures { result ≡ lane_begins (place_of kind) }
{
    match kind {
        Kind::Identifiers => 56,
        Kind::Tightenings => 128,
        Kind::Alarms => 160,
    }
}

// Where it is.
fn range_of(kind: Kind) -> Range<usize>
    ensures { result ≡ lane_range (place_of kind) }
{
    let at = lane_at(kind);
    at..at + lane::size(kind)
}

// ---- reading

// The lane of a kind, as it stands.
pub fn lane(region: &[u8], kind: Kind) -> &[u8]
    requires { length region.now ≡ region_size }
    ensures bytes { result.now ≡ lane_in (place_of kind) region.now }
    ensures size { length result.now ≡ lane_size (place_of kind) }
{
    &region[range_of(kind)]
}

// The bytes of the run that it has received last, as they stand.
pub fn run_bytes(region: &[u8]) -> &[u8]
    requires { length region.now ≡ region_size }
    ensures { result.now ≡ bytes_of_run region.now }
{
    run::bytes(&region[RUN_AT..RUN_END])
}

// Whether every lane is well formed.
fn lanes_formed(region: &[u8]) -> bool
    requires { length region.now ≡ region_size }
    ensures { result ≡ list_all (λ kind. lane_formed (place_of kind) (lane_in (place_of kind) region.now))
        KINDS }
{
    KINDS
        .iter()
        .all(|&kind| lane::is_formed(lane(region, kind), kind))
}

#[tactic(auto, using(crate::proofs::Walks::each_passes), unfolding(crate::specs::Region::region_formed))]
pub fn is_formed(region: &[u8]) -> bool
    requires { length region.now ≡ region_size }
    ensures { result ≡ region_formed region.now }
{
    head::is_formed(&region[..HEAD_END])
        && run::is_formed(&region[RUN_AT..RUN_END])
        && lanes_formed(region)
}

// Its phase and its idle count.
#[tactic(auto, using(crate::proofs::Areas::head_there, crate::proofs::Areas::head_few))]
fn load(region: &[u8]) -> Session
    requires { Good region.now }
    ensures { (result ≡ head_of (head_area region.now)) × (result.idle < idle_limit) }
{
    head::load(&region[..HEAD_END])
}

#[tactic(auto, using(crate::proofs::Ticks::means_so))]
pub fn is_closed(region: &[u8]) -> bool
    requires { Good region.now }
    ensures { (read : Reading) → result ≡ is_closed_session (session_of read region.now) }
{
    matches!(load(region).phase, Phase::Closed)
}

// ---- its areas change

fn store(region: &mut [u8], x: Session)
    requires { Good region.old × (x.idle < idle_limit) }
    ensures { (read : Reading) → Changes read region.old x (run_of (run_area region.old))
        (subscriptions_in read region.old) region.new }
{
    head::store(&mut region[..HEAD_END], x);
}

// More bytes of its run.
pub fn lengthen(region: &mut [u8], bytes: &[u8])
    requires { Good region.old }
    ensures { (read : Reading) → Becomes read region.old (head_of (head_area region.old))
        (longer (run_of (run_area region.old)) bytes.now) (subscriptions_in read region.old)
        region.new }
{
    run::lengthen(&mut region[RUN_AT..RUN_END], bytes);
}

// Its run is over.
fn clear_run(region: &mut [u8])
    requires { Good region.old }
    ensures { (read : Reading) → Changes read region.old (head_of (head_area region.old)) empty_run
        (subscriptions_in read region.old) region.new }
{
    run::clear(&mut region[RUN_AT..RUN_END]);
}

// A deed to the notices of one kind: whether a copy of the one that is then open is due.
#[tactic(auto, using(crate::proofs::Areas::lent))]
fn deal(region: &mut [u8], kind: Kind, deed: Deed) -> bool
    requires { Good region.old }
    ensures { (read : Reading) → DealtTo read (place_of kind) (deed_of deed) region.old result region.new }
{
    lane::deal(&mut region[range_of(kind)], kind, deed)
}

// A second passes for the notices of every kind: of which a copy is due.
fn beat(region: &mut [u8]) -> [bool; KIND_COUNT]
    requires { Good region.old }
    ensures { (read : Reading) → DealtToAll read (λ kind. beats) region.old result region.new }
{
    let mut due = [false; KIND_COUNT];
    for kind in KINDS {
        due[kind.place()] = lane::beat(&mut region[range_of(kind)], kind);
    }
    due
}

// Nothing is held of any kind, whatever the bytes of the lanes were.
#[tactic(auto, using(crate::proofs::Walks::clearing))]
fn clear_lanes(region: &mut [u8])
    requires { length region.old ≡ region_size }
    ensures { LanesCleared region.old region.new }
{
    for kind in KINDS {
        lane::clear(&mut region[range_of(kind)], kind);
    }
}

// ---- a start, an opening, a hang-up

// Whatever the bytes were, it is closed.
pub fn start(region: &mut [u8])
    requires { length region.old ≡ region_size }
    ensures { Good region.new × ((read : Reading) → session_of read region.new ≡ closed) }
{
    head::store(&mut region[..HEAD_END], Session::cleared());
    run::clear(&mut region[RUN_AT..RUN_END]);
    clear_lanes(region);
}

// The session begins.
pub fn open(region: &mut [u8])
    requires { Good region.old }
    ensures { Good region.new × ((read : Reading) → session_of read region.new ≡ fresh) }
{
    store(region, Session::fresh());
    clear_run(region);
}

// The session ends.
pub fn hang_up(region: &mut [u8])
    requires { Good region.old }
    ensures { Good region.new × ((read : Reading) → session_of read region.new ≡ closed) }
{
    store(region, Session::cleared());
}

// ---- a tick

// What a tick does to one that stays: x is its phase, and its idle count, which has gone up already.
fn tick_stays(region: &mut [u8], x: Session) -> [bool; KIND_COUNT]
    requires { Good region.old × (x.idle < idle_limit) }
    ensures { (read : Reading) → TickStays read x region.old result region.new }
{
    store(region, x);
    match x.phase {
        Phase::Closed | Phase::Opened => [false; KIND_COUNT],
        Phase::Started => beat(region),
    }
}

// What it leaves to say: of which kinds a copy of the open notice; or, where there is none, that the session is closed.
pub fn tick(region: &mut [u8]) -> Option<[bool; KIND_COUNT]>
    requires { Good region.old }
    ensures { (read : Reading) → Ticks read region.old result region.new }
{
    let Some(x) = session::idled(load(region)) else {
        store(region, Session::cleared());
        return None;
    };
    Some(tick_stays(region, x))
}

// ---- an event

// Where it is not started, nothing becomes of it.
fn not_taken() -> Taken
    ensures { result.take ≡ Not }
{
    Taken {
        take: Take::Not,
        next: session::unsubscribed(),
    }
}

// What becomes of an event of that kind.
#[tactic(auto, using(crate::proofs::Ticks::answers))]
pub fn taking(region: &[u8], kind: Kind) -> Taken
    requires { Good region.now }
    ensures { Answers (place_of kind) region.now result }
{
    match load(region).phase {
        Phase::Closed | Phase::Opened => not_taken(),
        Phase::Started => lane::taking(lane(region, kind), kind),
    }
}

// Its notice is held so: `slot` is what is kept of it, which means that notice to whoever reads it.
#[tactic(auto, using(crate::proofs::Ticks::taken_so))]
pub fn take(region: &mut [u8], kind: Kind, taken: Taken, slot: &[u8])
    requires { Taking (place_of kind) taken slot.now region.old }
    ensures { Holds (place_of kind) taken.take slot.now region.old region.new }
{
    lane::take(&mut region[range_of(kind)], kind, taken, slot);
}

// The places that it has open or waiting are marked as used.
#[tactic(auto, using(crate::proofs::Places::tightenings_good), unfolding(crate::specs::Region::places_held, places::specs::Free::marked))]
pub fn mark(region: &[u8], used: &mut [u8])
    requires { Good region.now × (length used.old ≡ place_count) }
    ensures { used.new ≡ marked used.old (places_held region.now) }
{
    if is_started(load(region).phase) {
        places::mark(used, lane::places(lane(region, Kind::Tightenings)));
    }
}

// ---- the end of a run

fn is_started(phase: Phase) -> bool
    ensures { result ≡ is_started_so phase }
{
    matches!(phase, Phase::Started)
}

// To which kinds of notice it is subscribed.
fn subscribed(region: &[u8]) -> [bool; KIND_COUNT]
    requires { Good region.now }
    ensures { (read : Reading) → result ≡ map is_subscribed (subscriptions_in read region.now) }
{
    let mut known = [false; KIND_COUNT];
    for kind in KINDS {
        known[kind.place()] = lane::is_subscribed(lane(region, kind));
    }
    known
}

// What the tests of a message look at.
#[tactic(auto, using(crate::proofs::Walks::stands_so))]
fn standing(region: &[u8], x: Session, common: Common) -> Standing
    requires { Good region.now }
    ensures { StandsSo x common region.now result }
{
    Standing {
        started: is_started(x.phase),
        common,
        subscribed: subscribed(region),
    }
}

// An identifier: what a data field says, padded right with spaces.
fn announce(data_field: &[u8]) -> [u8; IDENTIFIER_LENGTH]
    requires { length data_field.now ≤ identifier_length }
    ensures { result ≡ padded identifier_length data_field.now }
{
    let mut identifier = [b' '; IDENTIFIER_LENGTH];
    text::replace(&mut identifier[..data_field.len()], data_field);
    identifier
}

// What is ruled on a run: the decision, and the identifier that is made known, if one is.
#[derive(Clone, Copy)]
struct Ruling {
    decision: Decision,
    identified: Option<[u8; IDENTIFIER_LENGTH]>,
}

// On a run of so many bytes, of which `run` are kept.
fn rule(region: &[u8], common: Common, run: &[u8], count: usize) -> Ruling
    requires { Good region.now × (length run.now ≤ run_kept) }
    ensures { Rules common region.now (record { kept = run.now; count = count }) result }
{
    let x = load(region);
    let decision = session::decide(x, standing(region, x, common), run, count);
    let identified = if decision.identifies {
        Some(announce(frame::data_field(run)))
    } else {
        None
    };
    Ruling {
        decision,
        identified,
    }
}

// What it held is gone, where it begins.
fn let_go(region: &mut [u8], begins: bool)
    requires { Good region.old }
    ensures { (read : Reading) → Changes read region.old (head_of (head_area region.old))
        (run_of (run_area region.old)) (cond begins no_subscriptions (subscriptions_in read region.old))
        region.new }
{
    if begins {
        clear_lanes(region);
    }
}

// What a decision does to the session: the kind of which a copy of the notice that is then open is due, if one is.
fn carry_out(region: &mut [u8], d: Decision) -> Option<Kind>
    requires { CarryingOut d region.old }
    ensures { (read : Reading) → CarriesOut read d region.old result region.new }
{
    clear_run(region);
    let_go(region, d.begins);
    store(region, d.next);
    let (kind, deed) = d.deed?;
    deal(region, kind, deed).then_some(kind)
}

// What the end of a run leaves to say: the reply, if there is one, whose header, if it is one that was received, stands in the slice that
// is lent or in the region; the kind of which a copy of the open notice is due, if one is; and the identifier that is made known to all,
// if one is.
#[derive(Clone, Copy)]
pub struct Ended {
    pub whole: bool,
    pub reply: Option<Reply>,
    pub due: Option<Kind>,
    pub identified: Option<[u8; IDENTIFIER_LENGTH]>,
}

fn left_to_say(ruling: Ruling, whole: bool, due: Option<Kind>) -> Ended
    ensures { result ≡ ended_by ruling «whole» due }
{
    Ended {
        whole,
        reply: ruling.decision.reply,
        due,
        identified: ruling.identified,
    }
}

// The bytes end a run; what all sessions share is told as far as the tests look at it. A run that begins in the slice stands whole in it,
// and is read there; one that began in an earlier slice is read where it is kept.
pub fn end_run(region: &mut [u8], common: Common, bytes: &[u8]) -> Ended
    requires { Good region.old }
    ensures { (read : Reading) → RunEnds read common bytes.now region.old result region.new }
{
    if run::count(&region[RUN_AT..RUN_END]) == 0 {
        let ruling = rule(region, common, run::kept_of(bytes), run::count_of(bytes));
        let due = carry_out(region, ruling.decision);
        return left_to_say(ruling, true, due);
    }
    lengthen(region, bytes);
    let now: &[u8] = region;
    let area = &now[RUN_AT..RUN_END];
    let ruling = rule(now, common, run::kept(area), run::count(area));
    let due = carry_out(region, ruling.decision);
    left_to_say(ruling, false, due)
}
