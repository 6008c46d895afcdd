// What a message does, and the error that it has (01, "What a message does"; 02, P2 and P5): decided by value, whatever the numbers are.
#![tactic(auto)]

ghost use Rattle.std.specs.Prelude.{◌≡◌, true, cond, ◌&&◌, eqb, ℕ, List, MatchOption};
ghost use Rattle.std.proofs.Math.Option.{none, some};
ghost use Rattle.model.specs.Bytes.{within as is_within};
ghost use Rattle.model.specs.Messages.{entry_of, number_asked as number_asked_in, own, error_of};
ghost use Rattle.model.specs.Messages.{good_among, in_digits as in_digits_so, good_data};
ghost use Rattle.model.specs.Named.{place_of};
ghost use Rattle.message.specs.Meaning.{effect_in, effect_found, effect_found_by, effect_listed, answered, meant as meant_by, is_among};
ghost use Rattle.message.specs.Meaning.{standing_of, standing_with, error_in, error_number};
ghost use Rattle.message.specs.Inner.{revision_in, entry_in, own_error_in};

use model::{KIND_COUNT, Kind, NUMBER_DIGITS};

// ---- what a message does

// What a message that is known does when it has no error; the number is that of its own error. K is what kinds of notice are told by: their
// names, or whatever else a caller has, as numbers of which more may be than there are kinds.
#[derive(Clone, Copy, PartialEq, Eq)]
pub enum Effect<K = Kind> {
    Starts,
    Stops,
    Identifies { error: u64 },
    Subscribes { kind: K, error: u64 },
    Unsubscribes { kind: K, error: u64 },
    Acknowledges { kind: K },
    Fetches { error: u64 },
    Mirrors,
}

// Whether a message is ever answered: an acknowledge is not, whatever its kind, and one that is unknown, and has no effect, is.
pub fn gets_reply<K: Copy>(effect: Option<Effect<K>>) -> bool
    ensures { (place : K → ℕ) → result ≡ answered (effect_found_by place effect) }
{
    !matches!(effect, Some(Effect::Acknowledges { .. }))
}

// ---- each message's length and revision

// From the first number to the second.
#[derive(Clone, Copy)]
struct Span(u64, u64);

impl Span {
    fn contains(self, n: u64) -> bool
        ensures { result ≡ is_within self.0 self.1 n }
    {
        (self.0..=self.1).contains(&n)
    }
}

// A message: its number, how long it is, its revision, if that is read, and what it does.
#[derive(Clone, Copy)]
struct Row {
    mid: u64,
    length: Span,
    revision: Option<Span>,
    effect: Effect,
}

// The length of a message that is its header alone.
const HEADER_ALONE: Span = Span(20, 20);

static MESSAGES: [Row; 14] = [
    Row {
        mid: 1,
        length: HEADER_ALONE,
        revision: Some(Span(1, 1)),
        effect: Effect::Starts,
    },
    Row {
        mid: 3,
        length: HEADER_ALONE,
        revision: None,
        effect: Effect::Stops,
    },
    Row {
        mid: 50,
        length: Span(21, 45),
        revision: Some(Span(1, 1)),
        effect: Effect::Identifies { error: 8 },
    },
    Row {
        mid: 51,
        length: HEADER_ALONE,
        revision: Some(Span(1, 2)),
        effect: Effect::Subscribes {
            kind: Kind::Identifiers,
            error: 6,
        },
    },
    Row {
        mid: 53,
        length: HEADER_ALONE,
        revision: None,
        effect: Effect::Acknowledges {
            kind: Kind::Identifiers,
        },
    },
    Row {
        mid: 54,
        length: HEADER_ALONE,
        revision: None,
        effect: Effect::Unsubscribes {
            kind: Kind::Identifiers,
            error: 7,
        },
    },
    Row {
        mid: 60,
        length: HEADER_ALONE,
        revision: Some(Span(1, 6)),
        effect: Effect::Subscribes {
            kind: Kind::Tightenings,
            error: 9,
        },
    },
    Row {
        mid: 62,
        length: HEADER_ALONE,
        revision: None,
        effect: Effect::Acknowledges {
            kind: Kind::Tightenings,
        },
    },
    Row {
        mid: 63,
        length: HEADER_ALONE,
        revision: None,
        effect: Effect::Unsubscribes {
            kind: Kind::Tightenings,
            error: 10,
        },
    },
    Row {
        mid: 70,
        length: HEADER_ALONE,
        revision: Some(Span(1, 1)),
        effect: Effect::Subscribes {
            kind: Kind::Alarms,
            error: 11,
        },
    },
    Row {
        mid: 72,
        length: HEADER_ALONE,
        revision: None,
        effect: Effect::Acknowledges { kind: Kind::Alarms },
    },
    Row {
        mid: 73,
        length: HEADER_ALONE,
        revision: None,
        effect: Effect::Unsubscribes {
            kind: Kind::Alarms,
            error: 12,
        },
    },
    Row {
        mid: 64,
        length: Span(30, 30),
        revision: Some(Span(1, 1)),
        effect: Effect::Fetches { error: 15 },
    },
    Row {
        mid: 9999,
        length: HEADER_ALONE,
        revision: None,
        effect: Effect::Mirrors,
    },
];

// The row of a message, by its number.
#[tactic(auto, unfolding(model::specs::Messages::entry_of))]
fn listed_of(mid: u64) -> Option<&'static Row>
    ensures { MatchOption result (none ≡ entry_of mid) (λ row. some (entry_in row.now) ≡ entry_of mid) }
{
    // A `match` on the number, as 01 asks: what comes to its closing arm is unknown.
    match mid {
        1 => Some(&MESSAGES[0]),
        3 => Some(&MESSAGES[1]),
        50 => Some(&MESSAGES[2]),
        51 => Some(&MESSAGES[3]),
        53 => Some(&MESSAGES[4]),
        54 => Some(&MESSAGES[5]),
        60 => Some(&MESSAGES[6]),
        62 => Some(&MESSAGES[7]),
        63 => Some(&MESSAGES[8]),
        70 => Some(&MESSAGES[9]),
        72 => Some(&MESSAGES[10]),
        73 => Some(&MESSAGES[11]),
        64 => Some(&MESSAGES[12]),
        9999 => Some(&MESSAGES[13]),
        _ => None,
    }
}

// What a message of that number does.
pub fn effect_of(mid: u64) -> Option<Effect>
    ensures { effect_found result ≡ effect_listed (entry_of mid) }
{
    listed_of(mid).map(|row| row.effect)
}

// ---- the tests

// What the tests look at of what all sessions share: whether identifiers are taken over the net; the number of the newest tightening, and
// how many are kept, of which the others have the numbers before it.
#[derive(Clone, Copy)]
pub struct Common {
    pub granted: bool,
    pub newest: u64,
    pub kept: u64,
}

// What the tests look at besides the message; by kind of notice, whether the session is subscribed to it.
#[derive(Clone, Copy)]
pub struct Standing {
    pub started: bool,
    pub common: Common,
    pub subscribed: [bool; KIND_COUNT],
}

// What the tests may find; an own error has its number.
#[derive(Clone, Copy, PartialEq, Eq)]
pub enum Error {
    Unknown,
    AlreadyStarted,
    Length,
    Revision,
    Data,
    Own(u64),
}

// The number that a reply gives for what the tests found, and 0 for no error.
pub fn error_code(found: Result<(), Error>) -> u64
    ensures { result ≡ error_number (error_in found) }
{
    match found {
        Ok(()) => 0,
        Err(Error::Unknown) => 99,
        Err(Error::AlreadyStarted) => 96,
        Err(Error::Length) => 1,
        Err(Error::Revision) => 97,
        Err(Error::Data) => 1,
        Err(Error::Own(error)) => error,
    }
}

// Whether 0001 comes to a session that is started.
fn starts_again(started: bool, mid: u64) -> bool
    ensures { result ≡ (started && eqb mid 1) }
{
    started && mid == 1
}

// Whether the revision is one that the message has.
fn is_revision(revisions: Option<Span>, revision: u64) -> bool
    ensures { result ≡ good_among (revision_in revisions) revision }
{
    revisions.is_none_or(|span| span.contains(revision))
}

fn subscribed(x: Standing, kind: Kind) -> bool
    ensures { result ≡ (standing_of x).subscribed (place_of kind) }
{
    x.subscribed[kind.place()]
}

// The number that a data field asks for.
fn number_asked(data_field: &[u8]) -> u64
    ensures { result ≡ number_asked_in data_field.now }
{
    text::number(&data_field[..data_field.len().min(NUMBER_DIGITS)])
}

// The number of the tightening that is meant by the one that is asked for: 0 asks for the newest.
fn meant(x: Common, asked: u64) -> u64
    ensures { result ≡ meant_by x asked }
{
    if asked == 0 { x.newest } else { asked }
}

// That of a message with that data field.
pub fn number_meant(x: Standing, data_field: &[u8]) -> u64
    ensures { result ≡ meant_by x.common (number_asked_in data_field.now) }
{
    meant(x.common, number_asked(data_field))
}

// Whether the tightening with that number is kept.
fn is_kept(x: Common, n: u64) -> bool
    ensures { result ≡ is_among x n }
{
    n <= x.newest && x.newest - n < x.kept
}

// Whether the data of a message have to be digits.
fn in_digits(effect: Effect) -> bool
    ensures { result ≡ in_digits_so (effect_in effect) }
{
    matches!(effect, Effect::Fetches { .. })
}

// Whether the data are what they have to be.
fn is_good(effect: Effect, data_field: &[u8]) -> bool
    ensures { result ≡ good_data (effect_in effect) data_field.now }
{
    if in_digits(effect) {
        text::is_digits(data_field)
    } else {
        text::is_text(data_field)
    }
}

// An own error, where its test applies.
fn own_if(applies: bool, error: u64) -> Result<(), Error>
    ensures { error_in result ≡ cond applies (some (own error)) none }
{
    if applies {
        Err(Error::Own(error))
    } else {
        Ok(())
    }
}

// The message's own test; whatever its data are, the number is that of the tightening that they mean.
fn own_error(x: Standing, effect: Effect, number: u64) -> Result<(), Error>
    ensures { (bs : List ℕ) → error_in result ≡ own_error_in (standing_with x number) (effect_in effect) bs }
{
    match effect {
        Effect::Identifies { error } => own_if(!x.common.granted, error),
        Effect::Subscribes { kind, error } => own_if(subscribed(x, kind), error),
        Effect::Unsubscribes { kind, error } => own_if(!subscribed(x, kind), error),
        Effect::Fetches { error } => own_if(!is_kept(x.common, number), error),
        Effect::Starts | Effect::Stops | Effect::Acknowledges { .. } | Effect::Mirrors => Ok(()),
    }
}

// A message by its number and its length.
#[derive(Clone, Copy)]
pub struct Outline {
    pub mid: u64,
    pub size: usize,
}

// The error of a message of that revision and data: the tests in order, the first of which is that it is listed. The number is that of the
// tightening that the data mean.
#[tactic(auto, unfolding(model::specs::Messages::error_of))]
pub fn judge(
    x: Standing,
    m: Outline,
    revision: u64,
    number: u64,
    data_field: &[u8],
) -> Result<(), Error>
    ensures { error_in result ≡ error_of (standing_with x number) m.mid m.size revision data_field.now }
{
    let row = listed_of(m.mid).ok_or(Error::Unknown)?;
    if starts_again(x.started, row.mid) {
        return Err(Error::AlreadyStarted);
    }
    if !row.length.contains(m.size as u64) {
        return Err(Error::Length);
    }
    if !is_revision(row.revision, revision) {
        return Err(Error::Revision);
    }
    if !is_good(row.effect, data_field) {
        return Err(Error::Data);
    }
    own_error(x, row.effect, number)
}
