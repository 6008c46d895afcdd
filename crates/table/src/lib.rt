// The lent table: what all sessions share, and the region of each.
#![tactic(auto)]

ghost use Rattle.std.specs.Prelude.{◌≡◌, true, cond, [], ◌∷◌, suc, ◌+◌, ◌≤◌, ◌<◌, length};
ghost use Rattle.model.specs.Named.{place_of};
ghost use Rattle.model.specs.Limits.{session_count, table_least, identifier_length, number_greatest};
ghost use Rattle.model.specs.Records.{settings_of, settings_length};
ghost use Rattle.model.specs.Kinds.{kinds, tightenings, kind_at, copy_most, copies_most, session_most, event_most, receive_most, tick_most};
ghost use Rattle.model.specs.Runs.{cut};
ghost use Rattle.model.specs.Session.{is_closed as is_closed_session};
ghost use Rattle.model.specs.Local.{tick as one_tick};
ghost use Rattle.model.specs.World.{session_at, begun, uncounted, to as to_one, opens, hangs_up, hears, ticks, next};
ghost use Rattle.frame.specs.Places.{notice_in};
ghost use Rattle.run.specs.Area.{Ends};
ghost use Rattle.places.specs.Places.{place_count};
ghost use Rattle.places.specs.Free.{is_free};
ghost use Rattle.lane.specs.Lane.{first_in};
ghost use Rattle.region.specs.Region.{region_size, lane_in, places_held};
ghost use Rattle.region.specs.Said.{copies_out, due_copy, due_copies, ending, Shows, end_said};
ghost use Rattle.shared.specs.Shared.{settings_part};
ghost use Rattle.table.specs.Table.{shared_area, places_area, region_in, regions, kept_in, reading_in, decode, settings_in};
ghost use Rattle.table.specs.Table.{table_formed, Table, Openable, Becomes};
ghost use Rattle.table.specs.Table.{WentUpTo, region_range};
ghost use Rattle.table.specs.Says.{Lent, Wrote, CopyLent, OpenLent, DueLent, EndLent, subscription_to, subscriptions_to};
ghost use Rattle.table.specs.Says.{Opened, asked_in, told_by as told_so};
ghost use Rattle.table.specs.Passes.{EventTo, AskedLent, Copies, EventLent, TellsOne, Tells, Happens, unended};
ghost use Rattle.table.specs.Passes.{Roomy, StandLent, Stood, PlacedLent, KeepLent, Keeps, Notes};
ghost use Rattle.table.specs.Passes.{Received};

use frame::{Asked, To};
use message::Common;
use model::{KIND_COUNT, KINDS, Kind, SESSION_COUNT};
use region::Ended;
use session::{Form, Reply, Take, Taken};
use std::ops::Range;

// A table is lent as bytes, as C lends it, and each function asks for what it needs of them: a type that says so would ask more of whoever
// calls the functions that other crates and the documents name.

// Where the places begin.
const SHARED: usize = shared::SIZE;

// Where the regions begin, and the size of each.
const REGIONS: usize = shared::SIZE + places::SIZE;

const SIZE: usize = region::SIZE;

// Where the region of session s is.
fn range_of(s: u64) -> Range<usize>
    requires { s < session_count }
    ensures { result ≡ region_range s }
{
    let at = REGIONS + s as usize * SIZE;
    at..at + SIZE
}

// The region of session s, as it stands.
fn region_of(table: &[u8], s: u64) -> &[u8]
    requires { (table_least ≤ length table.now) × (s < session_count) }
    ensures bytes { result.now ≡ region_in s table.now }
    ensures size { length result.now ≡ region_size }
{
    &table[range_of(s)]
}

// ---- reading

pub fn is_formed(table: &[u8]) -> bool
    requires { table_least ≤ length table.now }
    ensures { result ≡ table_formed table.now }
{
    if !shared::is_formed(&table[0..SHARED]) {
        return false;
    }
    for s in 0..SESSION_COUNT {
        if !region::is_formed(region_of(table, s)) {
            return false;
        }
    }
    true
}

// Whether session s is closed.
#[tactic(auto, using(crate::proofs::Regions::part_is, crate::proofs::Regions::region_good, crate::proofs::Regions::part_in))]
pub fn is_closed(table: &[u8], s: u64) -> bool
    requires { Table table.now × (s < session_count) }
    ensures { result ≡ is_closed_session (session_at (decode table.now) s) }
{
    region::is_closed(region_of(table, s))
}

// The last tightening number.
#[tactic(auto, unfolding(crate::specs::Table::decode))]
pub fn last(table: &[u8]) -> u64
    requires { Table table.now }
    ensures { (result ≡ (decode table.now).shared.last) × (result < suc number_greatest) }
{
    shared::last(&table[0..SHARED])
}

// The identifier in force, as it stands.
#[tactic(auto, using(crate::proofs::Regions::in_force_size, crate::proofs::Regions::length_shared), unfolding(crate::specs::Table::decode))]
pub fn in_force(table: &[u8]) -> &[u8]
    requires { Table table.now }
    ensures { (result.now ≡ (decode table.now).shared.in_force) × (length result.now ≡ identifier_length) }
{
    shared::in_force(&table[0..SHARED])
}

// The settings' payload, as it stands.
#[tactic(auto, using(crate::proofs::Regions::length_settings, crate::proofs::Regions::length_shared))]
pub fn settings(table: &[u8]) -> &[u8]
    requires { Table table.now }
    ensures { (result.now ≡ settings_part (shared_area table.now)) × (length result.now ≡ settings_length) }
{
    shared::settings(&table[0..SHARED])
}

// What the tests of a message look at of what all sessions share.
fn common(table: &[u8]) -> Common
    requires { Table table.now }
    ensures { Shows result (decode table.now).shared }
{
    Common {
        granted: session::is_granted(settings(table)),
        newest: last(table),
        kept: shared::count(&table[0..SHARED]),
    }
}

// ---- a start

// A start with these settings: it becomes a table, whatever the bytes were.
pub fn start(table: &mut [u8], payload: &[u8])
    requires { (table_least ≤ length table.old) × (length payload.now ≡ settings_length) }
    ensures { Becomes table.old (begun (settings_of payload.now) 0) table.new }
{
    for s in 0..SESSION_COUNT {
        region::start(&mut table[range_of(s)]);
    }
    shared::start(&mut table[0..SHARED], payload);
}

// ---- an opening, a hang-up

// Session s, which is closed, is opened.
pub fn open(table: &mut [u8], s: u64)
    requires { Openable table.old s }
    ensures { Becomes table.old (uncounted (next (decode table.old) (opens s))) table.new }
{
    region::open(&mut table[range_of(s)]);
}

// Session s is hung up.
pub fn hang_up(table: &mut [u8], s: u64)
    requires { Table table.old × (s < session_count) }
    ensures { Becomes table.old (uncounted (next (decode table.old) (hangs_up s))) table.new }
{
    region::hang_up(&mut table[range_of(s)]);
}

// ---- saying: the table is lent beside the output

// How a session asked for notices of that kind.
fn asked_by(table: &[u8], s: u64, kind: Kind) -> Asked
    requires { Table table.now × (s < session_count) }
    ensures { result ≡ asked_in kind (region_in s table.now) }
{
    let subscription = lane::load(region::lane(region_of(table, s), kind));
    Asked {
        kind,
        revision: subscription.revision,
        no_acknowledge: matches!(subscription.form, Form::Plain),
    }
}

// The bytes of the open notice of that kind: they stand in a place, or in the lane itself.
fn open_notice(table: &[u8], s: u64, kind: Kind) -> &[u8]
    requires { Opened table.now s (place_of kind) }
    ensures { result.now ≡ kept_in (places_area table.now) (place_of kind)
        (first_in (place_of kind) (lane_in (place_of kind) (region_in s table.now))) }
{
    let slot = lane::first(region::lane(region_of(table, s), kind), kind);
    if kind == Kind::Tightenings {
        return places::at(&table[SHARED..REGIONS], usize::from(slot[0]));
    }
    slot
}

// A copy of a notice, to a session that is subscribed to its kind.
fn put_copy(table: &[u8], out: &mut [u8], to: To, kind: Kind, notice: &[u8]) -> usize
    requires { CopyLent table.now out.old to (place_of kind) notice.now }
    ensures { Wrote (copy_most (kind_at (place_of kind))) (copies_out (settings_in table.now) (place_of kind)
        (subscription_to to (place_of kind) table.now) (notice_in (place_of kind) notice.now ∷ []))
        to out.old result out.new }
{
    let asked = asked_by(table, to.session, kind);
    frame::put_copy(out, to, asked, settings(table), notice)
}

// A copy of the open notice of that kind, of which one is due.
fn say_one(table: &[u8], out: &mut [u8], to: To, kind: Kind) -> usize
    requires { OpenLent table.now out.old to (place_of kind) }
    ensures { Wrote (copy_most (kind_at (place_of kind))) (due_copy (settings_in table.now) (place_of kind)
        true (subscription_to to (place_of kind) table.now)) to out.old result out.new }
{
    put_copy(table, out, to, kind, open_notice(table, to.session, kind))
}

// Copies of the open notices of the kinds of which one is due, in order of kind.
fn say(table: &[u8], out: &mut [u8], to: To, due: [bool; KIND_COUNT]) -> usize
    requires { DueLent table.now out.old to due }
    ensures { Wrote (copies_most kinds) (due_copies (settings_in table.now) 0 due
        (subscriptions_to to table.now)) to out.old result out.new }
{
    let mut at = to.at;
    for kind in KINDS {
        if due[kind.place()] {
            at = say_one(table, out, To { at, ..to }, kind);
        }
    }
    at
}

// ---- a tick

// To one session.
fn tick_session(table: &mut [u8], out: &mut [u8], to: To) -> usize
    requires { Lent table.old out.old to (copies_most kinds) }
    ensures { WentUpTo table.old out.old to.at (copies_most kinds)
        (to_one to.session one_tick ∷ []) result table.new out.new }
{
    match region::tick(&mut table[range_of(to.session)]) {
        Some(due) => say(table, out, to, due),
        None => frame::put_close(out, to),
    }
}

// To every session, in order.
pub fn tick(table: &mut [u8], out: &mut [u8], at: usize) -> usize
    requires { Table table.old × (at + tick_most ≤ length out.old) }
    ensures { WentUpTo table.old out.old at tick_most (ticks ∷ []) result table.new
        out.new }
{
    let mut at = at;
    for session in 0..SESSION_COUNT {
        at = tick_session(table, out, To { session, at });
    }
    at
}

// ---- an event

// What an event did: the place behind what went out, and the sum of 2^s over the sessions s that took it.
#[derive(Clone, Copy)]
pub struct Told {
    pub at: usize,
    pub taken: u64,
}

// A copy that was written: where its record begins, and how it was asked for.
#[derive(Clone, Copy)]
struct Copied {
    from: usize,
    asked: Asked,
}

// Where the next copy of an event goes; the one that was written last, which ends there; and the place where the event's notice stands.
#[derive(Clone, Copy)]
struct Next {
    to: To,
    copied: Option<Copied>,
    place: Option<usize>,
}

// A copy of an event, to a session that asked for it so: the one that was written last, once more, where it was asked for alike.
fn put_event(table: &[u8], out: &mut [u8], next: Next, asked: Asked, notice: &[u8]) -> usize
    requires { AskedLent table.now out.old next asked notice.now }
    ensures { Copies (settings_in table.now) asked notice.now next.to out.old result
        out.new }
{
    if let Some(copied) = next.copied {
        if copied.asked == asked {
            return frame::put_again(out, next.to, copied.from);
        }
    }
    frame::put_copy(out, next.to, asked, settings(table), notice)
}

// The first place that no session has open or waiting: one is free, since one session holds fewer than it may.
fn free_place(table: &[u8]) -> usize
    requires { Table table.now × Roomy table.now }
    ensures { (result < place_count) × (is_free result (regions places_held table.now) ≡ true) }
{
    let mut used = [0; places::COUNT];
    for s in 0..SESSION_COUNT {
        region::mark(region_of(table, s), &mut used);
    }
    places::first_free(&used).unwrap()
}

// A result that a session is to hold stands in a place: the one where it stands already, or one that is free.
fn stand(table: &mut [u8], res: &[u8], place: Option<usize>) -> usize
    requires { StandLent table.old res.now place }
    ensures { Stood table.old res.now place result table.new }
{
    match place {
        Some(stands) => stands,
        None => {
            let free = free_place(table);
            places::put(&mut table[SHARED..REGIONS], free, res);
            free
        }
    }
}

// A tightening of which that becomes, to one session, which holds its place: where it stands then.
fn keep_placed(table: &mut [u8], s: u64, taken: Taken, res: &[u8], place: Option<usize>) -> usize
    requires { PlacedLent table.old s taken res.now place }
    ensures { Keeps table.old s tightenings res.now place taken.take table.new (Some result) }
{
    let stands = stand(table, res, place);
    region::take(
        &mut table[range_of(s)],
        Kind::Tightenings,
        taken,
        &[stands as u8],
    );
    stands
}

// An event of that kind, to one session, which holds its notice or does not: what becomes of it, and the place where it stands then.
fn keep(table: &mut [u8], s: u64, kind: Kind, notice: &[u8], place: &mut Option<usize>) -> Take
    requires { KeepLent table.old s (place_of kind) notice.now place.old }
    ensures { Keeps table.old s (place_of kind) notice.now place.old result table.new place.new }
{
    let taken = region::taking(region_of(table, s), kind);
    if lane::is_held(taken.take) {
        if kind == Kind::Tightenings {
            *place = Some(keep_placed(table, s, taken, notice, *place));
        } else {
            region::take(&mut table[range_of(s)], kind, taken, notice);
        }
    }
    taken.take
}

// An event of that kind, to one session: whether it is taken.
fn tell_session(
    table: &mut [u8],
    out: &mut [u8],
    next: &mut Next,
    kind: Kind,
    notice: &[u8],
) -> bool
    requires { EventLent table.old out.old next.old (place_of kind) notice.now }
    ensures { TellsOne table.old out.old next.old (place_of kind) notice.now result table.new
        out.new next.new }
{
    let take = keep(table, next.to.session, kind, notice, &mut next.place);
    if lane::is_told(take) {
        let asked = asked_by(table, next.to.session, kind);
        let from = next.to.at;
        next.to.at = put_event(table, out, *next, asked, notice);
        next.copied = Some(Copied { from, asked });
    }
    lane::is_taken(take)
}

// An event of that kind to every session, in order.
fn tell(table: &mut [u8], out: &mut [u8], at: usize, kind: Kind, notice: &[u8]) -> Told
    requires { EventTo table.old (place_of kind) notice.now × (at + event_most (place_of kind) ≤ length out.old) }
    ensures { Tells table.old out.old at (place_of kind) notice.now result table.new out.new }
{
    let mut next = Next {
        to: To { session: 0, at },
        copied: None,
        place: None,
    };
    let mut taken = 0;
    for session in 0..SESSION_COUNT {
        next.to.session = session;
        if tell_session(table, out, &mut next, kind, notice) {
            taken += 1 << session;
        }
    }
    Told {
        at: next.to.at,
        taken,
    }
}

// What the event leaves to all sessions: the identifier in force, or the last number and the tightening that has it; an alarm nothing.
fn note(table: &mut [u8], kind: Kind, notice: &[u8])
    requires { EventTo table.old (place_of kind) notice.now }
    ensures { Notes table.old (place_of kind) notice.now table.new }
{
    match kind {
        Kind::Identifiers => shared::put_in_force(&mut table[0..SHARED], notice),
        Kind::Tightenings => shared::remember(&mut table[0..SHARED], notice),
        Kind::Alarms => {}
    }
}

// An event of that kind, whose notice is in those bytes.
pub fn happens(table: &mut [u8], out: &mut [u8], at: usize, kind: Kind, notice: &[u8]) -> Told
    requires { EventTo table.old (place_of kind) notice.now × (at + event_most (place_of kind) ≤ length out.old) }
    ensures { Happens table.old out.old at (place_of kind) notice.now result table.new
        out.new }
{
    let told = tell(table, out, at, kind, notice);
    note(table, kind, notice);
    told
}

// ---- received bytes

// More bytes of the run of session s.
fn lengthen(table: &mut [u8], s: u64, bytes: &[u8])
    requires { Table table.old × (s < session_count) }
    ensures { Becomes table.old
        (uncounted (next (decode table.old) (hears s (unended bytes.now)))) table.new }
{
    region::lengthen(&mut table[range_of(s)], bytes);
}

// Where the bytes of a run are that is over: in the slice that it ended in, if it began there, or where they were kept.
fn ended_in<'a>(bytes: &'a [u8], kept: &'a [u8], whole: bool) -> &'a [u8]
    ensures { result.now ≡ cond whole bytes.now kept.now }
{
    if whole { bytes } else { kept }
}

// What a reply tells besides the settings: of a tightening that is kept its payload, as it stands; of a 9999 the run.
fn told_by<'a>(table: &'a [u8], run: &'a [u8], reply: Option<Reply>) -> &'a [u8]
    requires { table_least ≤ length table.now }
    ensures { result.now ≡ told_so (shared_area table.now) run.now reply }
{
    match reply {
        Some(Reply::Kept { number }) => shared::kept(&table[0..SHARED], number),
        _ => run,
    }
}

// What the end of a run leaves to say: the reply, and behind it the copy that is due.
fn answer<'a>(table: &'a [u8], out: &mut [u8], to: To, bytes: &'a [u8], ended: Ended) -> usize
    requires { EndLent table.now out.old to bytes.now ended }
    ensures { Wrote session_most (end_said (reading_in table.now) (decode table.now).shared
        bytes.now ended (region_in to.session table.now)) to out.old result out.new }
{
    let kept = region::run_bytes(region_of(table, to.session));
    let run = ended_in(bytes, kept, ended.whole);
    let told = told_by(table, run, ended.reply);
    let at = session::put_reply(out, to, settings(table), told, ended.reply);
    match ended.due {
        Some(kind) => say_one(table, out, To { at, ..to }, kind),
        None => at,
    }
}

// The bytes end a run of a session. An identifier that they make known is an event to every session.
fn end_run(table: &mut [u8], out: &mut [u8], to: To, bytes: &[u8]) -> usize
    requires { Lent table.old out.old to receive_most }
    ensures { Received table.old out.old to (ending bytes.now) result table.new
        out.new }
{
    let common = common(table);
    let ended = region::end_run(&mut table[range_of(to.session)], common, bytes);
    let at = answer(table, out, to, bytes, ended);
    match ended.identified {
        Some(identifier) => happens(table, out, at, Kind::Identifiers, &identifier).at,
        None => at,
    }
}

// Received bytes to a session, which are read up to `end`.
pub fn receive(table: &mut [u8], out: &mut [u8], to: To, bytes: &[u8], end: usize) -> usize
    requires { Lent table.old out.old to receive_most × Ends bytes.now end }
    ensures { Received table.old out.old to (cut bytes.now) result table.new
        out.new }
{
    if end < bytes.len() {
        return end_run(table, out, to, &bytes[0..end]);
    }
    lengthen(table, to.session, bytes);
    to.at
}
