// One session by value: what a tick and a message do to it, and what is done to a subscription of it. The bytes of its notices and of its
// run are kept elsewhere: the answers here say which place is written, whether the places shift down, and whether the first one is sent.
#![tactic(auto)]

ghost use Rattle.std.specs.Prelude.{◌≡◌, cond, ◌+◌, ◌≤◌, length, drop};
ghost use Rattle.model.specs.Limits.{header_length};
ghost use Rattle.model.specs.Records.{settings_of, settings_length};
ghost use Rattle.model.specs.Kinds.{reply_most};
ghost use Rattle.model.specs.Messages.{entry_of};
ghost use Rattle.text.specs.Put.{WrittenUpTo};
ghost use Rattle.frame.specs.Header.{header_of};
ghost use Rattle.message.specs.Meaning.{effect_found, effect_listed, error_in};
ghost use Rattle.session.specs.Control.{
  fresh as fresh_session,
  cleared as cleared_session,
  beat_at,
  Advances,
  step_at,
  still as still_one,
  next_goes_out,
  by_beat,
  ticked as ticked_to,
  acknowledged as acknowledged_to,
  holding as holding_so,
  dealt as dealt_to,
  subscribed as subscribed_to,
  unsubscribed as unsubscribed_one,
  idled_open as idled_open_to,
  idled as idled_to,
};
ghost use Rattle.session.specs.Decisions.{
  begun as begun_so,
  replied as replied_so,
  start as start_so,
  identify as identify_so,
  deal as deal_so,
  refused as refused_with,
  accepted as accepted_as,
  decided_started,
  decided_opened,
  decision,
};
ghost use Rattle.session.specs.Effects.{written, out_bytes, ReplyLent};

use frame::{Header, To};
use message::{Effect, Error, Outline, Standing};
use model::Kind;

// ---- a session

#[derive(Clone, Copy, PartialEq, Eq)]
pub enum Phase {
    Closed,
    Opened,
    Started,
}

// How a session is subscribed to a kind of notice: not at all, with no acknowledge asked, with acknowledges. (Not at all is a form as well:
// the table that is lent has a place for the rest of the subscription whatever the form is.)
#[derive(Clone, Copy, PartialEq, Eq)]
pub enum Form {
    Not,
    Plain,
    Acknowledged,
}

// A session's subscription to one kind. Of the notices held the first is the open one, and the clock is its.
#[derive(Clone, Copy)]
pub struct Subscription {
    pub form: Form,
    pub revision: u64,
    pub clock: u64,
    pub held: u64,
}

// What it is besides its subscriptions, which stand with the notices that they hold.
#[derive(Clone, Copy)]
pub struct Session {
    pub phase: Phase,
    pub idle: u64,
}

impl Session {
    // Ticks without a message until the time-out.
    pub const IDLE_LIMIT: u64 = 15;

    // Ticks of an open notice from one copy to the next.
    pub const COPY_EVERY: u64 = 20;

    // Ticks of an open notice until it is given up.
    pub const GIVEN_UP_AT: u64 = 120;

    // Identifiers that a session holds: the open one, and the newest of those that came since.
    pub const IDENTIFIERS_HELD: u64 = 2;

    // Tightenings that a session holds, the open one included.
    pub const TIGHTENINGS_HELD: u64 = 8;

    // Alarms, the open one included.
    pub const ALARMS_HELD: u64 = 4;

    // How an opening begins.
    pub fn fresh() -> Session
        ensures { result ≡ fresh_session }
    {
        Session {
            phase: Phase::Opened,
            idle: 0,
        }
    }

    // What is left of one that is closed.
    pub fn cleared() -> Session
        ensures { result ≡ cleared_session }
    {
        Session {
            phase: Phase::Closed,
            idle: 0,
        }
    }
}

// ---- subscribing

pub fn unsubscribed() -> Subscription
    ensures { result ≡ unsubscribed_one }
{
    Subscription {
        form: Form::Not,
        revision: 0,
        clock: 0,
        held: 0,
    }
}

// The form of a subscription that is asked for.
fn form_asked(no_acknowledge: bool) -> Form
    ensures { result ≡ cond no_acknowledge Form.Plain Form.Acknowledged }
{
    if no_acknowledge {
        Form::Plain
    } else {
        Form::Acknowledged
    }
}

// One that is subscribed already stays as it is.
pub fn subscribed(x: Subscription, revision: u64, no_acknowledge: bool) -> Subscription
    ensures { result ≡ subscribed_to x revision no_acknowledge }
{
    match x.form {
        Form::Not => Subscription {
            form: form_asked(no_acknowledge),
            revision,
            ..unsubscribed()
        },
        Form::Plain | Form::Acknowledged => x,
    }
}

// ---- the clock of an open notice

// What a tick does to an open notice: its clock runs; it runs, and it is time for another copy; or the notice is given up.
#[derive(Clone, Copy, PartialEq, Eq)]
pub enum Beat {
    Runs(u64),
    Copy(u64),
    GivenUp,
}

// The clock is handed in, and out in the answer.
#[tactic(auto, unfolding(crate::specs::Control::beat_at))]
pub fn beat_of(clock: u64) -> Beat
    ensures { result ≡ beat_at clock }
{
    if clock >= Session::GIVEN_UP_AT - 1 {
        return Beat::GivenUp;
    }
    let next = clock + 1;
    if next % Session::COPY_EVERY == 0 {
        return Beat::Copy(next);
    }
    Beat::Runs(next)
}

// The clock of an open notice as a record, which whoever holds it lends.
#[derive(Clone, Copy)]
pub struct Clock {
    pub ticks: u64,
}

// What it is time for, once a clock is advanced, if it is for anything: another copy; to give the notice up.
#[derive(Clone, Copy, PartialEq, Eq)]
pub enum Due {
    Copy,
    GivenUp,
}

// The same as `beat_of`, in place: the clock is lent. The notice after one that is given up begins with a new clock.
pub fn advance(clock: &mut Clock) -> Option<Due>
    ensures { Advances clock.old result clock.new }
{
    let (ticks, due) = match beat_of(clock.ticks) {
        Beat::Runs(ticks) => (ticks, None),
        Beat::Copy(ticks) => (ticks, Some(Due::Copy)),
        Beat::GivenUp => (0, Some(Due::GivenUp)),
    };
    clock.ticks = ticks;
    due
}

// ---- a tick and an acknowledge, to a subscription

// The subscription after it; whether the held notices shift down, so that the first is gone; whether the one that is then the
// first is sent.
#[derive(Clone, Copy)]
pub struct Step {
    pub next: Subscription,
    pub shift: bool,
    pub send: bool,
}

fn still(x: Subscription) -> Step
    ensures { result ≡ still_one x }
{
    Step {
        next: x,
        shift: false,
        send: false,
    }
}

// The same subscription, so many notices held and the open one's clock at `clock`.
pub fn holding(x: Subscription, clock: u64, held: u64) -> Subscription
    ensures { result ≡ holding_so x clock held }
{
    Subscription { clock, held, ..x }
}

// The open one is gone, and the next, if there is one, goes out with a new clock.
fn next_one(x: Subscription) -> Step
    ensures { result ≡ next_goes_out x }
{
    if x.held == 0 {
        return still(x);
    }
    Step {
        next: holding(x, 0, x.held - 1),
        shift: true,
        send: x.held > 1,
    }
}

// What is done where the open one's clock came to `clock`.
fn done_at(x: Subscription, clock: u64, due: Option<Due>) -> Step
    ensures { result ≡ step_at x clock due }
{
    let same = still(Subscription { clock, ..x });
    match due {
        None => same,
        Some(Due::Copy) => Step { send: true, ..same },
        Some(Due::GivenUp) => next_one(x),
    }
}

// One is open: its clock is advanced in place.
fn beaten(x: Subscription) -> Step
    ensures { result ≡ by_beat x (beat_at x.clock) }
{
    let mut clock = Clock { ticks: x.clock };
    let due = advance(&mut clock);
    done_at(x, clock.ticks, due)
}

#[tactic(auto, unfolding(crate::specs::Control::ticked))]
pub fn ticked(x: Subscription) -> Step
    ensures { result ≡ ticked_to x }
{
    match x.form {
        Form::Acknowledged if x.held > 0 => beaten(x),
        Form::Not | Form::Plain | Form::Acknowledged => still(x),
    }
}

#[tactic(auto, unfolding(crate::specs::Control::acknowledged))]
pub fn acknowledged(x: Subscription) -> Step
    ensures { result ≡ acknowledged_to x }
{
    match x.form {
        Form::Not | Form::Plain => still(x),
        Form::Acknowledged => next_one(x),
    }
}

// ---- a deed, to a subscription

// What is done to a subscription, an event aside: nothing; a tick; an acknowledge; it is subscribed to; it is unsubscribed from.
#[derive(Clone, Copy, PartialEq, Eq)]
pub enum Deed {
    Nothing,
    Beats,
    Acks,
    Asks { revision: u64, no_acknowledge: bool },
    Drops,
}

pub fn dealt(x: Subscription, deed: Deed) -> Step
    ensures { result ≡ dealt_to x deed }
{
    match deed {
        Deed::Nothing => still(x),
        Deed::Beats => ticked(x),
        Deed::Acks => acknowledged(x),
        Deed::Asks {
            revision,
            no_acknowledge,
        } => still(subscribed(x, revision, no_acknowledge)),
        Deed::Drops => still(unsubscribed()),
    }
}

// ---- an event, to a subscription

// What becomes of its notice: it is not taken; sent once, and not held; held at place 0 as the open one, and sent; held at the
// place that is named, and not sent yet. (Not taken is a case beside the others, and no `None`: of one that is sent once the subscription
// stays as it is, too.)
#[derive(Clone, Copy, PartialEq, Eq)]
pub enum Take {
    Not,
    Once,
    Opens,
    Waits(u64),
}

// That, and the subscription after it.
#[derive(Clone, Copy)]
pub struct Taken {
    pub take: Take,
    pub next: Subscription,
}

// ---- the idle count

fn idled_open(x: Session) -> Option<Session>
    ensures { result ≡ idled_open_to x }
{
    if x.idle < Session::IDLE_LIMIT - 1 {
        Some(Session {
            idle: x.idle + 1,
            ..x
        })
    } else {
        None
    }
}

// The session after a tick, or none: it times out.
#[tactic(auto, unfolding(crate::specs::Control::idled))]
pub fn idled(x: Session) -> Option<Session>
    ensures { result ≡ idled_to x }
{
    match x.phase {
        Phase::Closed => Some(x),
        Phase::Opened | Phase::Started => idled_open(x),
    }
}

// ---- a message, to a session

// What goes back to whom a message came from: 0002; 0005, with the message's number; 0004, with that and the error's; 0065, with the number
// of a tightening that is kept; its own header.
#[derive(Clone, Copy, PartialEq, Eq)]
pub enum Reply {
    Started,
    Accepted { mid: u64 },
    Error { mid: u64, code: u64 },
    Kept { number: u64 },
    Mirrored,
}

// What a run does.
#[derive(Clone, Copy)]
pub struct Decision {
    // If there is one.
    pub reply: Option<Reply>,
    // The session after it, but for its subscriptions.
    pub next: Session,
    // What it was subscribed to, and held, is gone.
    pub begins: bool,
    // Then a deed is done, if there is one, to its notices of that kind.
    pub deed: Option<(Kind, Deed)>,
    // The data field is made known as an identifier.
    pub identifies: bool,
}

// It is started, and a message came.
fn begun() -> Session
    ensures { result ≡ begun_so }
{
    Session {
        phase: Phase::Started,
        idle: 0,
    }
}

// A reply, if there is one, and nothing is done to its notices.
fn replied(reply: Option<Reply>, next: Session) -> Decision
    ensures { result ≡ replied_so reply next }
{
    Decision {
        reply,
        next,
        begins: false,
        deed: None,
        identifies: false,
    }
}

// 0001 is accepted.
fn start() -> Decision
    ensures { result ≡ start_so }
{
    Decision {
        begins: true,
        ..replied(Some(Reply::Started), begun())
    }
}

// 0050 is accepted.
fn identify(mid: u64) -> Decision
    ensures { result ≡ identify_so mid }
{
    Decision {
        identifies: true,
        ..replied(Some(Reply::Accepted { mid }), begun())
    }
}

// A message for one kind of notice is accepted.
fn deal(reply: Option<Reply>, kind: Kind, deed: Deed) -> Decision
    ensures { result ≡ deal_so reply kind deed }
{
    Decision {
        deed: Some((kind, deed)),
        ..replied(reply, begun())
    }
}

// A message with an error, to a session that is started.
fn refused(mid: u64, effect: Option<Effect>, error: Error) -> Decision
    ensures { result ≡ refused_with mid (effect_found effect) (error_in (Err error)) }
{
    let code = message::error_code(Err(error));
    let reply = message::gets_reply(effect).then_some(Reply::Error { mid, code });
    replied(reply, begun())
}

// A message with no error, to a session that is started; the number is that of the tightening that it asks for, if it asks for one.
fn accepted(h: Header, number: u64, effect: Option<Effect>) -> Decision
    ensures { result ≡ accepted_as h.mid h.revision h.no_acknowledge number (effect_found effect) }
{
    let reply = Some(Reply::Accepted { mid: h.mid });
    match effect {
        None | Some(Effect::Starts) => replied(None, begun()),
        Some(Effect::Stops) => replied(reply, Session::fresh()),
        Some(Effect::Identifies { .. }) => identify(h.mid),
        Some(Effect::Subscribes { kind, .. }) => {
            let asks = Deed::Asks {
                revision: h.revision,
                no_acknowledge: h.no_acknowledge,
            };
            deal(reply, kind, asks)
        }
        Some(Effect::Unsubscribes { kind, .. }) => deal(reply, kind, Deed::Drops),
        Some(Effect::Acknowledges { kind }) => deal(None, kind, Deed::Acks),
        Some(Effect::Fetches { .. }) => replied(Some(Reply::Kept { number }), begun()),
        Some(Effect::Mirrors) => replied(Some(Reply::Mirrored), begun()),
    }
}

fn decide_started(h: Header, number: u64, found: Result<(), Error>) -> Decision
    ensures { result ≡ decided_started h.mid h.revision h.no_acknowledge number (effect_listed (entry_of h.mid)) (error_in found) }
{
    let effect = message::effect_of(h.mid);
    match found {
        Ok(()) => accepted(h, number, effect),
        Err(error) => refused(h.mid, effect, error),
    }
}

// 0001 alone counts.
fn decide_opened(x: Session, mid: u64, found: Result<(), Error>) -> Decision
    ensures { result ≡ decided_opened x mid (error_in found) }
{
    if mid != 1 {
        return replied(None, x);
    }
    match found {
        Ok(()) => start(),
        Err(error) => {
            let code = message::error_code(Err(error));
            replied(Some(Reply::Error { mid, code }), x)
        }
    }
}

// What a run of count bytes does, whose first are these.
#[tactic(auto, using(message::proofs::Order::by_number), unfolding(crate::specs::Decisions::decision))]
pub fn decide(x: Session, standing: Standing, run: &[u8], count: usize) -> Decision
    ensures { result ≡ decision x standing (header_of run.now «count») (drop header_length run.now) }
{
    let read = frame::read_header(run, count);
    let Some(h) = read.header else {
        return replied(None, x);
    };
    let number = message::number_meant(standing, read.field);
    let outline = Outline {
        mid: h.mid,
        size: h.size,
    };
    let found = message::judge(standing, outline, h.revision, number, read.field);
    match x.phase {
        Phase::Closed => replied(None, x),
        Phase::Opened => decide_opened(x, h.mid, found),
        Phase::Started => decide_started(h, number, found),
    }
}

// ---- the reply, as an output record

// What it tells, besides the settings: of a 9999 the run that was decided on, whose header goes back as it came; of a tightening that is
// kept its payload.
pub fn put_reply(
    out: &mut [u8],
    to: To,
    settings: &[u8],
    told: &[u8],
    reply: Option<Reply>,
) -> usize
    requires { ReplyLent out.old settings.now told.now to reply }
    ensures { WrittenUpTo out.old to.at reply_most
        (out_bytes to.session (written (settings_of settings.now) told.now reply)) result out.new }
{
    match reply {
        None => to.at,
        Some(Reply::Started) => frame::put_0002(out, to, settings),
        Some(Reply::Accepted { mid }) => frame::put_0005(out, to, mid),
        Some(Reply::Error { mid, code }) => frame::put_0004(out, to, mid, code),
        Some(Reply::Kept { number }) => frame::put_0065(out, to, number, told),
        Some(Reply::Mirrored) => frame::put_9999(out, to, told),
    }
}

// Whether identifiers are taken over the net.
#[tactic(auto, unfolding(model::specs::Records::settings_of))]
pub fn is_granted(settings: &[u8]) -> bool
    requires { length settings.now ≡ settings_length }
    ensures { result ≡ (settings_of settings.now).granted }
{
    text::little(settings, 3, 1) == 1
}
