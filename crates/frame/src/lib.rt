// Frames: the header of a received one is read, and those that we send are written where they go.
#![tactic(auto)]

ghost use Rattle.std.specs.Prelude.{◌≡◌, true, ◌||◌, ◌++◌, ◌+◌, ◌≤◌, ◌<◌, length, take, drop, replicate};
ghost use Rattle.model.specs.Limits.{header_length, identifier_length};
ghost use Rattle.model.specs.Bytes.{space, digit_0, is_digit, is_space, all, digits, spaces};
ghost use Rattle.model.specs.Runs.{is_flag as is_flag_byte, revision_of, is_message as is_message_run};
ghost use Rattle.model.specs.Records.{record_head, payload_length, settings_of, settings_length, scanned_items};
ghost use Rattle.model.specs.Records.{limit_of, tightening_items, tightening_length, result_items, alarm_items, alarm_length};
ghost use Rattle.model.specs.Layouts.{limit_characters, controller_rows, identifier_rows, layout_0065, torque_rows, angle_rows, time_rows};
ghost use Rattle.model.specs.Layouts.{result_rows, alarm_rows};
ghost use Rattle.model.specs.Kinds.{kind_at, copy_most, reply_most};
ghost use Rattle.model.specs.Named.{place_of};
ghost use Rattle.model.specs.Events.{result_as};
ghost use Rattle.model.specs.Frames.{frame_0002, frame_0004, frame_0005, frame_0065, event_frame, frame_record, close_record};
ghost use Rattle.text.specs.Put.{Written, WrittenUpTo};
ghost use Rattle.frame.specs.Header.{header_of, RunReads};
ghost use Rattle.frame.specs.Places.{event_in};
ghost use Rattle.frame.specs.Layout.{
  payloads,
  held,
  set_values,
  told_values,
  DataPut,
  numbered,
  FieldsPut,
  Room,
  Tellable,
  FixedPut,
  unreported_rows,
  RoomFrom,
  results,
  later,
  program_rows,
  added,
  kept_first,
  kept_last,
};
ghost use Rattle.frame.specs.Output.{
  ResultWhole,
  Layable,
  Headable,
  Sendable,
  heading_bytes,
  notice_byte_12,
  frame_length,
  heading_of,
  frame_of,
  Recordable,
  RecordMade,
  length_0002,
  length_0004,
  length_0005,
  record_length,
  Writable,
  Lent,
  WrittenAgain,
  Repeatable,
};
ghost use Rattle.frame.specs.declared.Content.TheVariants.{Notice};

// ---- headers: length and message number in so many digits each, the revision in so many, byte 12, and spaces

const NUMBER_DIGITS: usize = 4;

const REVISION_DIGITS: usize = 3;

const HEADER_LENGTH: usize = 20;

// Where number, revision and byte 12 stand, from 0.
const NUMBER_AT: usize = NUMBER_DIGITS;

const REVISION_AT: usize = NUMBER_AT + NUMBER_DIGITS;

const FLAG_AT: usize = REVISION_AT + REVISION_DIGITS;

use model::{IDENTIFIER_LENGTH, Kind};

// ---- the header of a received run

// A message has no more bytes.
const MESSAGE_LONGEST: usize = 9999;

// What the header of a message says.
#[derive(Clone, Copy)]
pub struct Header {
    pub size: usize,
    pub mid: u64,
    pub revision: u64,
    pub no_acknowledge: bool,
}

// Whether byte 12 is one that a header may have.
fn is_flag(b: u8) -> bool
    ensures { result ≡ is_flag_byte b }
{
    matches!(b, b'0' | b'1' | b' ')
}

// Whether bytes 9 to 11 are digits or spaces.
fn is_revision(s: &[u8]) -> bool
    ensures { result ≡ (all is_digit s.now || all is_space s.now) }
{
    text::is_digits(s) || text::is_spaces(s)
}

// The revision that they give: 1 where they give none, or 0.
fn revision(s: &[u8]) -> u64
    requires s_len_bound { length s.now ≤ 19 }
    requires s_value { (all is_digit s.now || all is_space s.now) ≡ true }
    ensures { result ≡ revision_of s.now }
{
    if text::is_spaces(s) {
        1
    } else {
        text::decimal(s).max(1)
    }
}

// Whether a run of count bytes, whose first are these, is a message.
fn is_message(run: &[u8], count: usize) -> bool
    ensures { result ≡ is_message_run (record { kept = run.now; count = «count» }) }
{
    run.len() >= HEADER_LENGTH
        && count <= MESSAGE_LONGEST
        && text::is_digits(&run[..NUMBER_AT])
        && text::decimal(&run[..NUMBER_AT]) == count as u64
        && text::is_digits(&run[NUMBER_AT..REVISION_AT])
        && is_revision(&run[REVISION_AT..FLAG_AT])
        && is_flag(run[FLAG_AT])
}

// The header of a run of count bytes, whose first are these, if it is a message.
#[tactic(auto, unfolding(crate::specs::Header::header_of, model::specs::Runs::read_run))]
fn header_in(run: &[u8], count: usize) -> Option<Header>
    ensures { result ≡ header_of run.now «count» }
{
    if !is_message(run, count) {
        return None;
    }
    Some(Header {
        size: count,
        mid: text::decimal(&run[NUMBER_AT..REVISION_AT]),
        revision: revision(&run[REVISION_AT..FLAG_AT]),
        no_acknowledge: run[FLAG_AT] == b'1',
    })
}

// The data field: what stands behind the header, as part of the caller's bytes.
pub fn data_field(run: &[u8]) -> &[u8]
    ensures { result.now ≡ drop header_length run.now }
{
    text::rest(run, HEADER_LENGTH)
}

// A run that was read: its header, if it is a message, and its data field.
#[derive(Drop)]
pub struct RunRead<'a> {
    pub header: Option<Header>,
    pub field: &'a [u8],
}

// Reads a run of count bytes, whose first are these.
pub fn read_header<'a>(run: &'a [u8], count: usize) -> RunRead<'a>
    ensures { RunReads run.now «count» result.header result.field.now }
{
    RunRead {
        header: header_in(run, count),
        field: data_field(run),
    }
}

// ---- what frames say

// How a session is subscribed to a kind of notice, as far as a copy shows it.
#[derive(Clone, Copy, PartialEq, Eq)]
pub struct Asked {
    pub kind: Kind,
    pub revision: u64,
    pub no_acknowledge: bool,
}

// What a frame says.
#[derive(Clone, Copy)]
pub enum Content {
    // 0002
    Started,
    // 0004: the message that is answered, and the error
    Refused { mid: u64, error: u64 },
    // 0005: the message that is answered
    Accepted { mid: u64 },
    // 0065: the number of the tightening, which is what is told
    Kept { number: u64 },
    // a notice, as it was subscribed to
    Notice(Asked),
}

// ---- fields, each behind its number

const FIELD_DIGITS: usize = 2;

// The unit of the torques.
const NEWTON_METRES: u64 = 1;

// A number in so many digits.
fn put_number(out: &mut [u8], at: usize, field: u64, width: usize, n: u64) -> usize
    requires { at + (2 + width) ≤ length out.old }
    ensures { Written out.old at (2 + width) (numbered field (digits width n)) result out.new }
{
    let at = text::put_digits(out, at, FIELD_DIGITS, field);
    text::put_digits(out, at, width, n)
}

// A text as it stands.
fn put_text(out: &mut [u8], at: usize, field: u64, s: &[u8]) -> usize
    requires { at + (2 + length s.now) ≤ length out.old }
    ensures { Written out.old at (2 + length s.now) (numbered field s.now) result out.new }
{
    let at = text::put_digits(out, at, FIELD_DIGITS, field);
    text::copy_few(s, out, at)
}

// One byte, so many times: spaces for a text that is not there, zeros for what the tool does not report, a number or a text.
fn put_filled(out: &mut [u8], at: usize, field: u64, width: usize, b: u8) -> usize
    requires { at + (2 + width) ≤ length out.old }
    ensures { Written out.old at (2 + width) (numbered field (replicate width b)) result out.new }
{
    let at = text::put_digits(out, at, FIELD_DIGITS, field);
    text::fill(out, at, width, b)
}

// A limit in so many characters: its digits, or spaces where it was never set, for which the tool's record has a number.
fn put_limit(out: &mut [u8], at: usize, field: u64, width: usize, n: u64) -> usize
    requires { at + (2 + width) ≤ length out.old }
    ensures { Written out.old at (2 + width) (numbered field (limit_characters width (limit_of n))) result
        out.new }
{
    if n == model::NEVER_SET {
        return put_filled(out, at, field, width, b' ');
    }
    put_number(out, at, field, width, n)
}

// What the tool does not report: so many fields of one width, the first of which has that number.
fn put_unreported(out: &mut [u8], mut at: usize, field: u64, count: u64, width: usize) -> usize
    requires { RoomFrom field (unreported_rows count width) at (length out.old) }
    ensures { FixedPut field (unreported_rows count width) out.old at result out.new }
{
    for i in 0..count {
        at = put_filled(out, at, field + i, width, b'0');
    }
    at
}

// ---- the data of each frame, field by field: of each number its digits, and in how many bytes it stands where

// 0002, and the first fields of 0061: cell, channel, name.
fn put_controller(out: &mut [u8], at: usize, settings: &[u8]) -> usize
    requires { (length settings.now ≡ settings_length) × Room controller_rows at (length out.old) }
    ensures { FieldsPut (set_values settings.now) 1 controller_rows out.old at result
        out.new }
{
    let at = put_number(out, at, 1, 4, text::little(settings, 0, 2));
    let at = put_number(out, at, 2, 2, text::little(settings, 2, 1));
    put_text(out, at, 3, &settings[4..29])
}

// 0004: the message that is answered, and the error.
fn put_refused(out: &mut [u8], at: usize, mid: u64, error: u64) -> usize
    requires { at + 6 ≤ length out.old }
    ensures { Written out.old at 6 (digits 4 mid ++ digits 2 error) result out.new }
{
    let at = text::put_digits(out, at, NUMBER_DIGITS, mid);
    text::put_digits(out, at, 2, error)
}

// 0052 from revision 2 on: the identifier, and three parts more.
fn put_parts(out: &mut [u8], at: usize, told: &[u8]) -> usize
    requires { (length told.now ≡ identifier_length) × Room identifier_rows at (length out.old) }
    ensures { FieldsPut (told_values scanned_items told.now) 1 identifier_rows out.old at result
        out.new }
{
    let at = put_text(out, at, 1, &told[0..IDENTIFIER_LENGTH]);
    let at = put_filled(out, at, 2, IDENTIFIER_LENGTH, b' ');
    let at = put_filled(out, at, 3, IDENTIFIER_LENGTH, b' ');
    put_filled(out, at, 4, IDENTIFIER_LENGTH, b' ')
}

// Of 0061, a part of a tightening: identifier, job, parameter set. The job's digits are not as many in each revision.
fn put_program<const JOB_DIGITS: usize>(out: &mut [u8], at: usize, told: &[u8]) -> usize
    requires { (tightening_length ≤ length told.now) × Room (program_rows JOB_DIGITS) at (length out.old) }
    ensures { FieldsPut (told_values tightening_items told.now) 4 (program_rows JOB_DIGITS) out.old at result
        out.new }
{
    let at = put_text(out, at, 4, &told[0..IDENTIFIER_LENGTH]);
    let at = put_number(out, at, 5, JOB_DIGITS, text::little(told, 25, 1));
    put_number(out, at, 6, 3, text::little(told, 26, 2))
}

// Other parts, of which the first field has the number FIRST: batch size, batch counter.
fn put_batch<const FIRST: u64>(out: &mut [u8], at: usize, told: &[u8]) -> usize
    requires { (FIRST < 99) × Tellable (results 7 2) told.now at (length out.old) }
    ensures { FieldsPut (told_values tightening_items told.now) FIRST (results 7 2) out.old at result
        out.new }
{
    let at = put_number(out, at, FIRST, 4, text::little(told, 28, 2));
    put_number(out, at, FIRST + 1, 4, text::little(told, 30, 2))
}

// Statuses: tightening, torque, angle.
fn put_statuses<const FIRST: u64>(out: &mut [u8], at: usize, told: &[u8]) -> usize
    requires { (FIRST < 98) × Tellable (results 9 3) told.now at (length out.old) }
    ensures { FieldsPut (told_values tightening_items told.now) FIRST (results 9 3) out.old at result
        out.new }
{
    let at = put_number(out, at, FIRST, 1, text::little(told, 32, 1));
    let at = put_number(out, at, FIRST + 1, 1, text::little(told, 33, 1));
    put_number(out, at, FIRST + 2, 1, text::little(told, 34, 1))
}

// Torques: minimum, maximum, target, the torque.
fn put_torques<const FIRST: u64>(out: &mut [u8], at: usize, told: &[u8]) -> usize
    requires { (FIRST < 97) × Tellable torque_rows told.now at (length out.old) }
    ensures { FieldsPut (told_values tightening_items told.now) FIRST torque_rows out.old at result
        out.new }
{
    let at = put_limit(out, at, FIRST, 6, text::little(told, 35, 4));
    let at = put_limit(out, at, FIRST + 1, 6, text::little(told, 39, 4));
    let at = put_limit(out, at, FIRST + 2, 6, text::little(told, 43, 4));
    put_number(out, at, FIRST + 3, 6, text::little(told, 47, 4))
}

// Angles: minimum, maximum, target, the angle (no twin of the torques: the rows and the places of the values are others).
fn put_angles<const FIRST: u64>(out: &mut [u8], at: usize, told: &[u8]) -> usize
    requires { (FIRST < 97) × Tellable angle_rows told.now at (length out.old) }
    ensures { FieldsPut (told_values tightening_items told.now) FIRST angle_rows out.old at result
        out.new }
{
    let at = put_limit(out, at, FIRST, 5, text::little(told, 51, 4));
    let at = put_limit(out, at, FIRST + 1, 5, text::little(told, 55, 4));
    let at = put_limit(out, at, FIRST + 2, 5, text::little(told, 59, 4));
    put_number(out, at, FIRST + 3, 5, text::little(told, 63, 4))
}

// Time, time of the last change of the parameter set.
fn put_times<const FIRST: u64>(out: &mut [u8], at: usize, told: &[u8]) -> usize
    requires { (FIRST < 99) × Tellable time_rows told.now at (length out.old) }
    ensures { FieldsPut (told_values tightening_items told.now) FIRST time_rows out.old at result
        out.new }
{
    let at = put_text(out, at, FIRST, &told[67..86]);
    put_text(out, at, FIRST + 1, &told[86..105])
}

// The last fields in revision 1: batch status, tightening number.
fn put_end(out: &mut [u8], at: usize, told: &[u8]) -> usize
    requires { (length told.now ≡ payload_length result_items) × Room (results 22 2) at (length out.old) }
    ensures { FieldsPut (told_values result_items told.now) 22 (results 22 2) out.old at result
        out.new }
{
    let at = put_number(out, at, 22, 1, text::little(told, 105, 1));
    put_number(out, at, 23, 10, text::little(told, 106, 4))
}

// 0061 in revision 1: the controller's fields, and a result's behind them.
fn put_result(out: &mut [u8], at: usize, settings: &[u8], told: &[u8]) -> usize
    requires { ResultWhole settings.now told.now × Room result_rows at (length out.old) }
    ensures { FieldsPut (held result_items (payloads settings.now told.now)) 1 result_rows
        out.old at result out.new }
{
    let at = put_controller(out, at, settings);
    let at = put_program::<2>(out, at, told);
    let at = put_batch::<7>(out, at, told);
    let at = put_statuses::<9>(out, at, told);
    let at = put_torques::<12>(out, at, told);
    let at = put_angles::<16>(out, at, told);
    let at = put_times::<20>(out, at, told);
    put_end(out, at, told)
}

// 0061 from revision 2 on: strategy and its options, which are not reported.
fn put_strategy(out: &mut [u8], at: usize) -> usize
    requires { Room (later 7 2) at (length out.old) }
    ensures { FixedPut 7 (later 7 2) out.old at result out.new }
{
    let at = put_unreported(out, at, 7, 1, 2);
    put_unreported(out, at, 8, 1, 5)
}

// Statuses: tightening, batch, torque, angle; five that are not reported, and the error status.
fn put_later_statuses(out: &mut [u8], at: usize, told: &[u8]) -> usize
    requires { Tellable (later 11 10) told.now at (length out.old) }
    ensures { FieldsPut (told_values tightening_items told.now) 11 (later 11 10) out.old at result
        out.new }
{
    let at = put_number(out, at, 11, 1, text::little(told, 32, 1));
    let at = put_number(out, at, 12, 1, text::little(told, 105, 1));
    let at = put_number(out, at, 13, 1, text::little(told, 33, 1));
    let at = put_number(out, at, 14, 1, text::little(told, 34, 1));
    let at = put_unreported(out, at, 15, 5, 1);
    put_unreported(out, at, 20, 1, 10)
}

// What the tool does not watch: rundown angle, current, selftap, prevail torque.
fn put_unmonitored(out: &mut [u8], at: usize) -> usize
    requires { Room (later 29 12) at (length out.old) }
    ensures { FixedPut 29 (later 29 12) out.old at result out.new }
{
    let at = put_unreported(out, at, 29, 3, 5);
    let at = put_unreported(out, at, 32, 3, 3);
    put_unreported(out, at, 35, 6, 6)
}

// Tightening number; job sequence number, sync number, the tool's serial number.
fn put_numbers(out: &mut [u8], at: usize, told: &[u8]) -> usize
    requires { (length told.now ≡ payload_length result_items) × Room (later 41 4) at (length out.old) }
    ensures { FieldsPut (told_values result_items told.now) 41 (later 41 4) out.old at result
        out.new }
{
    let at = put_number(out, at, 41, 10, text::little(told, 106, 4));
    let at = put_unreported(out, at, 42, 2, 5);
    put_unreported(out, at, 44, 1, 14)
}

// 0061 in revision 2: the controller's fields, and a result's behind them.
fn put_later(out: &mut [u8], at: usize, settings: &[u8], told: &[u8]) -> usize
    requires { ResultWhole settings.now told.now × Room (later 1 46) at (length out.old) }
    ensures { FieldsPut (held result_items (payloads settings.now told.now)) 1 (later 1 46)
        out.old at result out.new }
{
    let at = put_controller(out, at, settings);
    let at = put_program::<4>(out, at, told);
    let at = put_strategy(out, at);
    let at = put_batch::<9>(out, at, told);
    let at = put_later_statuses(out, at, told);
    let at = put_torques::<21>(out, at, told);
    let at = put_angles::<25>(out, at, told);
    let at = put_unmonitored(out, at);
    let at = put_numbers(out, at, told);
    put_times::<45>(out, at, told)
}

// What revision 3 adds: the parameter set's name, the unit of the torques, the result type.
fn put_unit(out: &mut [u8], at: usize) -> usize
    requires { Room (later 47 3) at (length out.old) }
    ensures { FixedPut 47 (later 47 3) out.old at result out.new }
{
    let at = put_unreported(out, at, 47, 1, IDENTIFIER_LENGTH);
    let at = put_number(out, at, 48, 1, NEWTON_METRES);
    put_unreported(out, at, 49, 1, 2)
}

// What a revision from 2 on has behind the fields of revision 2: from 4 on the identifier's parts 2 to 4, from 5 on the customer's error
// code, from 6 on the value of the prevail torque's compensation and the second error status.
fn put_added(out: &mut [u8], at: usize, revision: u64) -> usize
    requires { Room (added revision) at (length out.old) }
    ensures { FixedPut 47 (added revision) out.old at result out.new }
{
    if revision < 3 {
        return at;
    }
    let at = put_unit(out, at);
    if revision < 4 {
        return at;
    }
    let at = put_unreported(out, at, 50, 3, IDENTIFIER_LENGTH);
    if revision < 5 {
        return at;
    }
    let at = put_unreported(out, at, 53, 1, 4);
    if revision < 6 {
        return at;
    }
    let at = put_unreported(out, at, 54, 1, 6);
    put_unreported(out, at, 55, 1, 10)
}

// Of 0065: number, identifier, parameter set, batch counter.
fn put_kept_batch(out: &mut [u8], at: usize, number: u64, told: &[u8]) -> usize
    requires { Tellable (kept_first number) told.now at (length out.old) }
    ensures { FieldsPut (told_values tightening_items told.now) 1 (kept_first number) out.old at result
        out.new }
{
    let at = put_number(out, at, 1, model::NUMBER_DIGITS, number);
    let at = put_text(out, at, 2, &told[0..IDENTIFIER_LENGTH]);
    let at = put_number(out, at, 3, 3, text::little(told, 26, 2));
    put_number(out, at, 4, 4, text::little(told, 30, 2))
}

// Torque, angle, time, batch status.
fn put_kept_end(out: &mut [u8], at: usize, told: &[u8]) -> usize
    requires { Tellable kept_last told.now at (length out.old) }
    ensures { FieldsPut (told_values tightening_items told.now) 8 kept_last out.old at result out.new }
{
    let at = put_number(out, at, 8, 6, text::little(told, 47, 4));
    let at = put_number(out, at, 9, 5, text::little(told, 63, 4));
    let at = put_text(out, at, 10, &told[67..86]);
    put_number(out, at, 11, 1, text::little(told, 105, 1))
}

// 0065.
fn put_kept(out: &mut [u8], at: usize, number: u64, told: &[u8]) -> usize
    requires { Tellable (layout_0065 number).rows told.now at (length out.old) }
    ensures { FieldsPut (told_values tightening_items told.now) 1 (layout_0065 number).rows out.old at result
        out.new }
{
    let at = put_kept_batch(out, at, number, told);
    let at = put_statuses::<5>(out, at, told);
    put_kept_end(out, at, told)
}

// 0071: error code, controller ready, tool ready, time.
fn put_alarm(out: &mut [u8], at: usize, told: &[u8]) -> usize
    requires { (length told.now ≡ alarm_length) × Room alarm_rows at (length out.old) }
    ensures { FieldsPut (told_values alarm_items told.now) 1 alarm_rows out.old at result out.new }
{
    let at = put_text(out, at, 1, &told[0..4]);
    let at = put_number(out, at, 2, 1, text::little(told, 4, 1));
    let at = put_number(out, at, 3, 1, text::little(told, 5, 1));
    put_text(out, at, 4, &told[6..25])
}

// A notice, as it was subscribed to. In revision 1 of 0052 the identifier stands alone, with no number before it.
fn put_notice(out: &mut [u8], at: usize, asked: Asked, settings: &[u8], told: &[u8]) -> usize
    requires { Layable (Notice asked) (payloads settings.now told.now) at (length out.old) }
    ensures { DataPut (Notice asked) (payloads settings.now told.now) out.old at result
        out.new }
{
    match asked.kind {
        Kind::Identifiers if asked.revision < 2 => text::copy(told, out, at),
        Kind::Identifiers => put_parts(out, at, told),
        Kind::Tightenings if asked.revision < 2 => put_result(out, at, settings, told),
        Kind::Tightenings => {
            let at = put_later(out, at, settings, told);
            put_added(out, at, asked.revision)
        }
        Kind::Alarms => put_alarm(out, at, told),
    }
}

// Any frame. The settings and what is told are two parameters: with a struct of both a notice takes 15 instructions more.
#[tactic(auto, unfolding(crate::specs::Layout::data_in, model::specs::Layouts::data_from, model::specs::Layouts::characters))]
fn put_data(out: &mut [u8], at: usize, content: Content, settings: &[u8], told: &[u8]) -> usize
    requires { Layable content (payloads settings.now told.now) at (length out.old) }
    ensures { DataPut content (payloads settings.now told.now) out.old at result out.new }
{
    match content {
        Content::Started => put_controller(out, at, settings),
        Content::Refused { mid, error } => put_refused(out, at, mid, error),
        Content::Accepted { mid } => text::put_digits(out, at, NUMBER_DIGITS, mid),
        Content::Kept { number } => put_kept(out, at, number, told),
        Content::Notice(asked) => put_notice(out, at, asked, settings, told),
    }
}

// ---- the header of a frame

// What it says.
#[derive(Clone, Copy)]
pub struct Heading {
    pub size: usize,
    pub mid: u64,
    pub revision: u64,
    pub byte_12: u8,
}

fn put_heading(out: &mut [u8], at: usize, h: Heading) -> usize
    requires { at + header_length ≤ length out.old }
    ensures { Written out.old at header_length (heading_bytes h) result out.new }
{
    let at = text::put_digits(out, at, NUMBER_DIGITS, h.size as u64);
    let at = text::put_digits(out, at, NUMBER_DIGITS, h.mid);
    let at = text::put_digits(out, at, REVISION_DIGITS, h.revision);
    let at = text::fill(out, at, 1, h.byte_12);
    text::fill(out, at, 8, b' ')
}

// Of a reply: revision 1, and byte 12 a space.
fn reply_heading(size: usize, mid: u64) -> Heading
    ensures { result ≡ record { size = size; mid = mid; revision = 1; byte_12 = space } }
{
    Heading {
        size,
        mid,
        revision: 1,
        byte_12: b' ',
    }
}

// The message number of a notice.
fn notice_mid(kind: Kind) -> u64
    ensures { result ≡ (kind_at (place_of kind)).notice }
{
    match kind {
        Kind::Identifiers => 52,
        Kind::Tightenings => 61,
        Kind::Alarms => 71,
    }
}

// Byte 12 of a notice.
fn byte_12(no_acknowledge: bool) -> u8
    ensures { result ≡ notice_byte_12 no_acknowledge }
{
    if no_acknowledge { b'1' } else { b'0' }
}

// Of a notice: as it was subscribed to.
fn notice_heading(size: usize, asked: Asked) -> Heading
    ensures { result ≡ record {
      size = size;
      mid = (kind_at (place_of asked.kind)).notice;
      revision = asked.revision;
      byte_12 = notice_byte_12 asked.no_acknowledge;
    } }
{
    Heading {
        size,
        mid: notice_mid(asked.kind),
        revision: asked.revision,
        byte_12: byte_12(asked.no_acknowledge),
    }
}

// The header of a frame of so many bytes. The number and the length of a reply stand in an arm for each, so that the compiler knows their
// digits: with one call behind the match a reply takes 50 instructions more.
fn put_header(out: &mut [u8], at: usize, content: Content, size: usize) -> usize
    requires { Headable content size at (length out.old) }
    ensures { Written out.old at header_length (heading_bytes (heading_of content)) result out.new }
{
    match content {
        Content::Started => put_heading(out, at, reply_heading(57, 2)),
        Content::Refused { .. } => put_heading(out, at, reply_heading(26, 4)),
        Content::Accepted { .. } => put_heading(out, at, reply_heading(24, 5)),
        Content::Kept { .. } => put_heading(out, at, reply_heading(118, 65)),
        Content::Notice(asked) => put_heading(out, at, notice_heading(size, asked)),
    }
}

// ---- output records

// Where a record goes: to which session, and from which place of the output on.
#[derive(Clone, Copy)]
pub struct To {
    pub session: u64,
    pub at: usize,
}

// The kinds of the records to session 0: the session's number is added (so they are numbers, and no enum).
const FRAME_RECORD_KIND: u64 = 256;

const CLOSE_RECORD_KIND: u64 = 512;

// Where the kind stands, behind the length.
const RECORD_KIND_AT: usize = 2;

// Where the data of a frame begins, behind the header.
const DATA_AT: usize = model::RECORD_HEAD + HEADER_LENGTH;

// Makes an output record of the payload that stands behind the place of its head, up to `end`.
fn put_record(out: &mut [u8], to: To, record_kind: u64, end: usize) -> usize
    requires { Recordable out.old to record_kind end }
    ensures { RecordMade out.old to record_kind end result out.new }
{
    let size = end - (to.at + model::RECORD_HEAD);
    let at = text::put_little(out, to.at, 2, size as u64);
    text::put_little(out, at, 2, record_kind + to.session);
    end
}

// The order to close the session: a record with nothing in it.
pub fn put_close(out: &mut [u8], to: To) -> usize
    requires { Writable out.old to record_head }
    ensures { Written out.old to.at record_head (close_record to.session) result out.new }
{
    put_record(out, to, CLOSE_RECORD_KIND, to.at + model::RECORD_HEAD)
}

// Any frame, with its NUL. Where the data ends tells the header how long the frame is. The header's place is reckoned then, so that it does
// not stand on the stack while the fields are written.
fn put_frame(out: &mut [u8], to: To, content: Content, settings: &[u8], told: &[u8]) -> usize
    requires { Sendable out.old to content (payloads settings.now told.now) }
    ensures { Written out.old to.at (record_length (frame_length content))
        (frame_record to.session (frame_of content (payloads settings.now told.now))) result
        out.new }
{
    let nul = put_data(out, to.at + DATA_AT, content, settings, told);
    let end = text::fill(out, nul, 1, 0);
    let at = to.at + model::RECORD_HEAD;
    put_header(out, at, content, nul - at);
    put_record(out, to, FRAME_RECORD_KIND, end)
}

// ---- replies

// 0002: the session is started. The settings are a settings record's payload.
pub fn put_0002(out: &mut [u8], to: To, settings: &[u8]) -> usize
    requires { Writable out.old to (record_length length_0002) × (length settings.now ≡ settings_length) }
    ensures { Written out.old to.at (record_length length_0002)
        (frame_record to.session (frame_0002 (settings_of settings.now))) result out.new }
{
    put_frame(out, to, Content::Started, settings, &[])
}

// 0004: message mid has an error.
pub fn put_0004(out: &mut [u8], to: To, mid: u64, error: u64) -> usize
    requires { Writable out.old to (record_length length_0004) }
    ensures { Written out.old to.at (record_length length_0004)
        (frame_record to.session (frame_0004 mid error)) result out.new }
{
    put_frame(out, to, Content::Refused { mid, error }, &[], &[])
}

// 0005: message mid is accepted.
pub fn put_0005(out: &mut [u8], to: To, mid: u64) -> usize
    requires { Writable out.old to (record_length length_0005) }
    ensures { Written out.old to.at (record_length length_0005)
        (frame_record to.session (frame_0005 mid)) result out.new }
{
    put_frame(out, to, Content::Accepted { mid }, &[], &[])
}

// 0065: a tightening that is kept, by its number. What is told is its payload.
pub fn put_0065(out: &mut [u8], to: To, number: u64, told: &[u8]) -> usize
    requires { Writable out.old to reply_most × (length told.now ≡ tightening_length) }
    ensures { WrittenUpTo out.old to.at reply_most
        (frame_record to.session (frame_0065 (result_as number told.now))) result out.new }
{
    put_frame(out, to, Content::Kept { number }, &[], told)
}

// 9999: the header as it came.
pub fn put_9999(out: &mut [u8], to: To, run: &[u8]) -> usize
    requires { Writable out.old to (record_length header_length) × (header_length ≤ length run.now) }
    ensures { Written out.old to.at (record_length header_length)
        (frame_record to.session (take header_length run.now)) result out.new }
{
    let at = text::copy(&run[..HEADER_LENGTH], out, to.at + model::RECORD_HEAD);
    let end = text::fill(out, at, 1, 0);
    put_record(out, to, FRAME_RECORD_KIND, end)
}

// ---- copies of notices

// A copy of the notice in a place, to a session that subscribed so.
pub fn put_copy(out: &mut [u8], to: To, asked: Asked, settings: &[u8], place: &[u8]) -> usize
    requires { Lent out.old to asked settings.now place.now }
    ensures { WrittenUpTo out.old to.at (copy_most (kind_at (place_of asked.kind))) (frame_record to.session
        (event_frame (settings_of settings.now) asked.revision asked.no_acknowledge
        (event_in (place_of asked.kind) place.now))) result out.new }
{
    put_frame(out, to, Content::Notice(asked), settings, place)
}

// The record of a frame that stands from `from` up to the place, whichever session it went to: once more, to this one.
pub fn put_again(out: &mut [u8], to: To, from: usize) -> usize
    requires { Repeatable out.old to from }
    ensures { WrittenAgain out.old to from result out.new }
{
    let end = text::repeat(out, from, to.at);
    let at = to.at + RECORD_KIND_AT;
    text::put_little(out, at, 2, FRAME_RECORD_KIND + to.session);
    end
}
