// House records: which slices are good settings and tool records, and which identifier is meant.
#![tactic(auto)]

ghost use Rattle.std.specs.Prelude.{◌≡◌, ◌||◌, leb, eqb, length, drop, map, IsTrue, IfSome};
ghost use Rattle.model.specs.Limits.{never_set};
ghost use Rattle.model.specs.Records.{
  record_head,
  is_record as is_record_of,
  good_in_time,
  is_time as is_time_of,
  item_length as item_length_of,
  good_item as good_item_of,
  payload as payload_of,
  payload_length,
  parts,
  good_parts,
  good_record as good_record_of,
  settings_length,
  read_settings,
  read_tool,
};
ghost use Rattle.model.specs.Events.{identifier_of};
ghost use Rattle.record.specs.Items.{item_of, items_of, number_of};
ghost use Rattle.record.specs.Tools.{settings_in, tool_in, size_of};

use model::{
    ALARM_LENGTH, ALARM_RECORD_KIND, IDENTIFIER_LENGTH, NEVER_SET, NUMBER_GREATEST, RECORD_HEAD,
    SCANNED_RECORD_KIND, SETTINGS_LENGTH, SETTINGS_RECORD_KIND, TIGHTENING_LENGTH,
    TIGHTENING_RECORD_KIND, TIME_LENGTH,
};

// ---- times

// Whether b is good at a place of a time, counted from 1.
fn good_at(place: usize, b: u8) -> bool
    ensures { result ≡ good_in_time place b }
{
    match place {
        5 | 8 => b == b'-',
        11 | 14 | 17 => b == b':',
        _ => b.is_ascii_digit(),
    }
}

pub fn is_time(s: &[u8]) -> bool
    ensures { result ≡ is_time_of s.now }
{
    s.iter().enumerate().all(|(i, &b)| good_at(i + 1, b))
}

// ---- payloads: what their items are, and which items each has

#[derive(Clone, Copy)]
enum Item {
    // a number in one byte, in two, or in four: the greatest that is good
    Byte(u64),
    Short(u64),
    Long(u64),
    // one in LIMIT_LENGTH bytes: the same, beside the one that means never set
    Limit(u64),
    // of how many bytes
    Text(usize),
    Time,
}

const LIMIT_LENGTH: usize = 4;

const CODE_LENGTH: usize = 4;

impl Item {
    fn length(self) -> usize
        ensures { result ≡ item_length_of (item_of self) }
    {
        match self {
            Item::Byte(_) => 1,
            Item::Short(_) => 2,
            Item::Long(_) => 4,
            Item::Limit(_) => LIMIT_LENGTH,
            Item::Text(size) => size,
            Item::Time => TIME_LENGTH,
        }
    }

    // Whether its bytes are good.
    fn is_good(self, s: &[u8]) -> bool
        requires { length s.now ≡ item_length_of (item_of self) }
        ensures { result ≡ good_item_of (item_of self) s.now }
    {
        match self {
            Item::Byte(greatest) => text::little(s, 0, 1) <= greatest,
            Item::Short(greatest) => text::little(s, 0, 2) <= greatest,
            Item::Long(greatest) => text::little(s, 0, 4) <= greatest,
            Item::Limit(greatest) => good_limit(text::little(s, 0, LIMIT_LENGTH), greatest),
            Item::Text(_) => text::is_text(s),
            Item::Time => is_time(s),
        }
    }
}

// Whether a limit is good: a number up to the greatest, or never set.
fn good_limit(n: u64, greatest: u64) -> bool
    ensures { result ≡ leb n greatest || eqb n never_set }
{
    n <= greatest || n == NEVER_SET
}

// The kinds of record that a call takes.
#[derive(Clone, Copy)]
enum RecordKind {
    Settings,
    Tightening,
    Scanned,
    Alarm,
}

impl RecordKind {
    fn number(self) -> u64
        ensures { result ≡ number_of self }
    {
        match self {
            RecordKind::Settings => SETTINGS_RECORD_KIND,
            RecordKind::Tightening => TIGHTENING_RECORD_KIND,
            RecordKind::Scanned => SCANNED_RECORD_KIND,
            RecordKind::Alarm => ALARM_RECORD_KIND,
        }
    }

    // How long the payload is.
    fn size(self) -> usize
        ensures { result ≡ payload_length (items_of self) }
    {
        match self {
            RecordKind::Settings => SETTINGS_LENGTH,
            RecordKind::Tightening => TIGHTENING_LENGTH,
            RecordKind::Scanned => IDENTIFIER_LENGTH,
            RecordKind::Alarm => ALARM_LENGTH,
        }
    }

    fn items(self) -> &'static [Item]
        ensures { map item_of result.now ≡ items_of self }
    {
        match self {
            RecordKind::Settings => &[
                Item::Short(9_999), // cell
                Item::Byte(99), // channel
                Item::Byte(1), // granted
                Item::Text(IDENTIFIER_LENGTH), // name
                Item::Long(NUMBER_GREATEST), // last tightening number
            ],
            RecordKind::Tightening => &[
                Item::Text(IDENTIFIER_LENGTH), // identifier
                Item::Byte(99), // job
                Item::Short(999), // parameter set
                Item::Short(9_999), // batch size
                Item::Short(9_999), // batch counter
                Item::Byte(1), // tightening status
                Item::Byte(2), // torque status
                Item::Byte(2), // angle status
                Item::Limit(999_999), // torque: minimum
                Item::Limit(999_999), // torque: maximum
                Item::Limit(999_999), // torque: target
                Item::Long(999_999), // the torque
                Item::Limit(99_999), // angle: minimum
                Item::Limit(99_999), // angle: maximum
                Item::Limit(99_999), // angle: target
                Item::Long(99_999), // the angle
                Item::Time, // time
                Item::Time, // parameter set change time
                Item::Byte(2), // batch status
            ],
            RecordKind::Scanned => &[
                Item::Text(IDENTIFIER_LENGTH), // identifier scanned
            ],
            RecordKind::Alarm => &[
                Item::Text(CODE_LENGTH), // error code
                Item::Byte(1), // controller ready
                Item::Byte(1), // tool ready
                Item::Time, // time of the alarm
            ],
        }
    }
}

// Whether every item of a payload is good.
#[tactic(auto, using(std::proofs::lemmas::Grind::common_steps, crate::proofs::Parts::parts_behind))]
fn good_items(items: &[Item], s: &[u8]) -> bool
    requires { length s.now ≡ payload_length (map item_of items.now) }
    ensures { result ≡ good_parts (map item_of items.now) (parts (map item_of items.now) s.now) }
{
    let mut left = s;
    for item in items {
        let (own, behind) = left.split_at(item.length());
        if !item.is_good(own) {
            return false;
        }
        left = behind;
    }
    true
}

// ---- records

// Whether a slice is one record of that kind, and nothing more.
fn is_record(slice: &[u8], record_kind: RecordKind) -> bool
    ensures { result ≡ is_record_of (number_of record_kind) slice.now }
{
    slice.len() >= RECORD_HEAD
        && RECORD_HEAD as u64 + text::little(slice, 0, 2) == slice.len() as u64
        && text::little(slice, 2, 2) == record_kind.number()
}

// Whether it is a good one.
#[tactic(auto, unfolding(model::specs::Records::good_record, model::specs::Records::good_payload))]
fn good_record(slice: &[u8], record_kind: RecordKind) -> bool
    ensures good { result ≡ good_record_of (number_of record_kind) (items_of record_kind) slice.now }
    ensures whole { IsTrue result → length (payload_of slice.now) ≡ payload_length (items_of record_kind) }
{
    if !is_record(slice, record_kind) {
        return false;
    }
    let bytes = payload(slice);
    bytes.len() == record_kind.size() && good_items(record_kind.items(), bytes)
}

// The payload of a record, as part of the caller's bytes.
pub fn payload(slice: &[u8]) -> &[u8]
    ensures { result.now ≡ drop record_head slice.now }
{
    text::rest(slice, RECORD_HEAD)
}

// Whether a slice is a good settings record.
#[tactic(auto, unfolding(model::specs::Records::read_settings))]
pub fn is_settings(slice: &[u8]) -> bool
    ensures read { settings_in result slice.now ≡ read_settings slice.now }
    ensures whole { IsTrue result → length (payload_of slice.now) ≡ settings_length }
{
    good_record(slice, RecordKind::Settings)
}

// The records that the call for tool records takes.
#[derive(Clone, Copy, PartialEq, Eq)]
pub enum ToolRecord {
    Tightening,
    Scanned,
    Alarm,
}

// Which of them a slice is, if it is a good one.
#[tactic(auto, unfolding(model::specs::Records::read_tool))]
pub fn tool_record_kind(slice: &[u8]) -> Option<ToolRecord>
    ensures read { tool_in result slice.now ≡ read_tool slice.now }
    ensures whole { IfSome result (λ tool. length (payload_of slice.now) ≡ size_of tool) }
{
    if good_record(slice, RecordKind::Tightening) {
        return Some(ToolRecord::Tightening);
    }
    if good_record(slice, RecordKind::Scanned) {
        return Some(ToolRecord::Scanned);
    }
    if good_record(slice, RecordKind::Alarm) {
        return Some(ToolRecord::Alarm);
    }
    None
}

// ---- which identifier is meant: the tool's own, or the one in force where that is all spaces; one of the two, as it stands
pub fn meant<'a>(own: &'a [u8], in_force: &'a [u8]) -> &'a [u8]
    ensures { result.now ≡ identifier_of own.now in_force.now }
{
    if text::is_spaces(own) { in_force } else { own }
}
