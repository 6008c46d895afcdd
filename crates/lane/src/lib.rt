// A lane: a session's subscription to one kind of notice and the notices that it holds, in one part of the lent table. Its functions
// change it and say whether a copy is to be sent; what is sent is written elsewhere.
//
// It is lent as bare bytes, with its kind beside them, and that they are a lane is a clause: no proof closes with a struct around them,
// since of a part of the table that a struct holds, as in `Lane { kind, bytes: &mut region[a..e] }`, its length alone is known afterwards.
#![tactic(auto)]

ghost use Rattle.std.specs.Prelude.{◌≡◌, true, List, ℕ, ◌≤◌, ◌<◌, length};
ghost use Rattle.model.specs.Kinds.{room_of, tightenings};
ghost use Rattle.model.specs.Named.{place_of};
ghost use Rattle.model.specs.Bytes.{all};
ghost use Rattle.model.specs.Events.{Notice};
ghost use Rattle.places.specs.Places.{is_place};
ghost use Rattle.model.specs.Notices.{is_subscribed as is_subscribed_so, beats};
ghost use Rattle.session.specs.Meaning.{deed_of, is_taken as is_taken_so};
ghost use Rattle.session.specs.Control.{taken, taken_busy};
ghost use Rattle.lane.specs.Kinds.{row_of as row_so, slot_size as slot_size_of, control_size, lane_size};
ghost use Rattle.lane.specs.Lane.{
  form_of,
  control_of,
  first_in,
  lane_by,
  places_in,
  slots_formed,
  lane_formed,
  Lane,
  Cleared,
  SlotsTested,
  Storing,
  Stored,
  Shifting,
  Shifts,
  Deals,
  is_told as is_told_so,
  is_held as is_held_so,
  Pushing,
  Pushes,
  Taking,
  TakesSo,
};

use model::Kind;
use session::{Deed, Form, Session, Subscription, Take, Taken};

// ---- the kinds

// What is to be known of a kind: how many notices are held at most, how many bytes the slot of each takes, whether beside the open one the
// newest alone waits, and whether a slot is the place where the notice stands.
#[derive(Clone, Copy)]
struct Row {
    most: u64,
    size: usize,
    newest: bool,
    placed: bool,
}

// A place, by its number.
const PLACE_NUMBER_SIZE: usize = 1;

// The one function that has a case for each kind.
fn row_of(kind: Kind) -> Row
    ensures { result ≡ row_so (place_of kind) }
{
    match kind {
        Kind::Identifiers => Row {
            most: Session::IDENTIFIERS_HELD,
            size: model::IDENTIFIER_LENGTH,
            newest: true,
            placed: false,
        },
        Kind::Tightenings => Row {
            most: Session::TIGHTENINGS_HELD,
            size: PLACE_NUMBER_SIZE,
            newest: false,
            placed: true,
        },
        Kind::Alarms => Row {
            most: Session::ALARMS_HELD,
            size: model::ALARM_LENGTH,
            newest: false,
            placed: false,
        },
    }
}

// How many bytes the slot of a notice of that kind takes.
fn slot_size(kind: Kind) -> usize
    ensures { result ≡ slot_size_of (place_of kind) }
{
    row_of(kind).size
}

// The control is before the slots.
const CONTROL_SIZE: usize = 16;

// Before it in the control: the form, the clock, how many are held.
const REVISION_AT: usize = 8;

// How many bytes a lane of that kind takes. Here and below a cast is proved to lose nothing: no `From` narrows, and the error of a
// `TryFrom` would never come.
pub fn size(kind: Kind) -> usize
    ensures { result ≡ lane_size (place_of kind) }
{
    let row = row_of(kind);
    CONTROL_SIZE + row.most as usize * row.size
}

// ---- the control

const FORM_GREATEST: u8 = Form::Acknowledged as u8;

const PLACE_GREATEST: u8 = places::COUNT as u8 - 1;

// No `From`, since neither type is this crate's. A byte that no form is stored as is read as the last of them.
fn form_from(b: u8) -> Form
    ensures { result ≡ form_of b }
{
    match b {
        0 => Form::Not,
        1 => Form::Plain,
        _ => Form::Acknowledged,
    }
}

// Whether each of the first so many slots is one of the places that there are, where they are places.
#[tactic(auto, using(crate::proofs::Slots::not_tested, crate::proofs::Slots::in_lane, crate::proofs::Slots::is_tested))]
fn slots_formed(lane: &[u8], kind: Kind, held: usize) -> bool
    requires { SlotsTested (place_of kind) held lane.now }
    ensures { result ≡ slots_formed (place_of kind) held lane.now }
{
    !row_of(kind).placed
        || text::all_within(&lane[CONTROL_SIZE..CONTROL_SIZE + held], 0, PLACE_GREATEST)
}

// Whether the control is that of a subscription to that kind, and what it holds can be held.
#[tactic(auto, unfolding(crate::specs::Lane::lane_formed))]
pub fn is_formed(lane: &[u8], kind: Kind) -> bool
    requires { length lane.now ≡ lane_size (place_of kind) }
    ensures { result ≡ lane_formed (place_of kind) lane.now }
{
    lane[0] <= FORM_GREATEST
        && u64::from(lane[1]) < Session::GIVEN_UP_AT
        && u64::from(lane[2]) <= row_of(kind).most
        && slots_formed(lane, kind, usize::from(lane[2]))
}

// The subscription.
#[tactic(auto, unfolding(crate::specs::Lane::control_of))]
pub fn load(lane: &[u8]) -> Subscription
    requires { control_size ≤ length lane.now }
    ensures { result ≡ control_of lane.now }
{
    Subscription {
        form: form_from(lane[0]),
        revision: text::little(lane, REVISION_AT, 8),
        clock: u64::from(lane[1]),
        held: u64::from(lane[2]),
    }
}

// Here and in `clear` the kind is asked for by the contract alone.
fn store(lane: &mut [u8], kind: Kind, x: Subscription)
    requires { Storing (place_of kind) x lane.old }
    ensures { Stored (place_of kind) x lane.old lane.new }
{
    lane[..3].copy_from_slice(&[x.form as u8, x.clock as u8, x.held as u8]);
    text::put_little(lane, REVISION_AT, 8, x.revision);
}

// Whatever the bytes were: a lane that is not subscribed.
#[tactic(auto, using(crate::proofs::Controls::cleared))]
pub fn clear(lane: &mut [u8], kind: Kind)
    requires { length lane.old ≡ lane_size (place_of kind) }
    ensures { Cleared (place_of kind) lane.new }
{
    lane[..REVISION_AT].fill(0);
}

// Whatever the kind, and whatever is held.
#[tactic(auto, using(crate::proofs::Controls::subscribed_byte))]
pub fn is_subscribed(lane: &[u8]) -> bool
    requires { control_size ≤ length lane.now }
    ensures { (read : List ℕ → Notice) (kind : ℕ) → result ≡ is_subscribed_so (lane_by read kind lane.now) }
{
    lane[0] != 0
}

// The first slot, as it stands: the open notice is there, where one is open.
pub fn first(lane: &[u8], kind: Kind) -> &[u8]
    requires { length lane.now ≡ lane_size (place_of kind) }
    ensures { result.now ≡ first_in (place_of kind) lane.now }
{
    &lane[CONTROL_SIZE..CONTROL_SIZE + slot_size(kind)]
}

// ---- a deed

// The first notice is gone, and those that wait shift down.
fn shift_down(lane: &mut [u8], kind: Kind, held: u64)
    requires { Shifting (place_of kind) held lane.old }
    ensures { Shifts (place_of kind) held true lane.old lane.new }
{
    let size = slot_size(kind);
    let others = (held - 1) as usize * size;
    let second = CONTROL_SIZE + size;
    lane.copy_within(second..second + others, CONTROL_SIZE);
}

// Any deed but an event: whether a copy of what is then the open notice is to be sent.
pub fn deal(lane: &mut [u8], kind: Kind, deed: Deed) -> bool
    requires { Lane (place_of kind) lane.old }
    ensures { (read : List ℕ → Notice) → Deals read (place_of kind) (deed_of deed) lane.old result lane.new }
{
    let x = load(lane);
    let step = session::dealt(x, deed);
    if step.shift {
        shift_down(lane, kind, x.held);
    }
    store(lane, kind, step.next);
    step.send
}

// A second passes: where none is held there is nothing to do.
#[tactic(auto, using(crate::proofs::Controls::none_beats))]
pub fn beat(lane: &mut [u8], kind: Kind) -> bool
    requires { Lane (place_of kind) lane.old }
    ensures { (read : List ℕ → Notice) → Deals read (place_of kind) beats lane.old result lane.new }
{
    if lane[2] == 0 {
        return false;
    }
    deal(lane, kind, Deed::Beats)
}

// ---- an event

// Where one is open: the newest waits alone; or it waits behind the others, where there is room.
fn busy(x: Subscription, kind: Kind) -> Taken
    ensures { result ≡ taken_busy (room_of (place_of kind)) x }
{
    let row = row_of(kind);
    if row.newest {
        return Taken {
            take: Take::Waits(1),
            next: Subscription {
                held: row.most,
                ..x
            },
        };
    }
    if x.held >= row.most {
        return Taken {
            take: Take::Not,
            next: x,
        };
    }
    Taken {
        take: Take::Waits(x.held),
        next: Subscription {
            held: x.held + 1,
            ..x
        },
    }
}

// What becomes of its notice, and the subscription after it.
#[tactic(auto, unfolding(session::specs::Control::taken))]
pub fn taking(lane: &[u8], kind: Kind) -> Taken
    requires { Lane (place_of kind) lane.now }
    ensures { result ≡ taken (room_of (place_of kind)) (control_of lane.now) }
{
    let x = load(lane);
    match x.form {
        Form::Not => Taken {
            take: Take::Not,
            next: x,
        },
        Form::Plain => Taken {
            take: Take::Once,
            next: x,
        },
        Form::Acknowledged if x.held == 0 => Taken {
            take: Take::Opens,
            next: Subscription {
                clock: 0,
                held: 1,
                ..x
            },
        },
        Form::Acknowledged => busy(x, kind),
    }
}

// Whether its notice is taken, whether a copy of it is to be sent now, and whether it is held.
pub fn is_taken(t: Take) -> bool
    ensures { result ≡ is_taken_so t }
{
    t != Take::Not
}

pub fn is_told(t: Take) -> bool
    ensures { result ≡ is_told_so t }
{
    matches!(t, Take::Once | Take::Opens)
}

pub fn is_held(t: Take) -> bool
    ensures { result ≡ is_held_so t }
{
    matches!(t, Take::Opens | Take::Waits(_))
}

// What is to be held of a notice goes to slot i, as the last of those held, and the subscription that holds it to the control.
fn put(lane: &mut [u8], kind: Kind, i: u64, slot: &[u8], next: Subscription)
    requires { Pushing (place_of kind) i slot.now next lane.old }
    ensures { Pushes (place_of kind) i slot.now next lane.old lane.new }
{
    let at = CONTROL_SIZE + i as usize * slot_size(kind);
    text::replace(&mut lane[at..at + slot.len()], slot);
    store(lane, kind, next);
}

// An event of which that becomes; `slot` is what is held of its notice.
pub fn take(lane: &mut [u8], kind: Kind, taken: Taken, slot: &[u8])
    requires { Taking (place_of kind) taken slot.now lane.old }
    ensures { TakesSo (place_of kind) taken.take slot.now lane.old lane.new }
{
    match taken.take {
        Take::Not | Take::Once => {}
        Take::Opens => put(lane, kind, 0, slot, taken.next),
        Take::Waits(i) => put(lane, kind, i, slot, taken.next),
    }
}

// The places of the notices that are held, where the slots are places.
#[tactic(auto, using(crate::proofs::Controls::places_fit, crate::proofs::Controls::places_held, crate::proofs::Controls::held_are_places))]
pub fn places(lane: &[u8]) -> &[u8]
    requires { Lane tightenings lane.now }
    ensures { (result.now ≡ places_in lane.now) × (all is_place result.now ≡ true) }
{
    &lane[CONTROL_SIZE..CONTROL_SIZE + usize::from(lane[2])]
}
