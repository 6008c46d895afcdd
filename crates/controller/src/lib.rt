// The calls of the product.
#![tactic(auto)]

ghost use Rattle.std.specs.Prelude.{◌≡◌, [], drop};
ghost use Rattle.model.specs.Records.{identifier_in, tightening_of, tightening};
ghost use Rattle.model.specs.Events.{tightened};
ghost use Rattle.model.specs.Sharing.{reported};
ghost use Rattle.model.specs.Calls.{start as start_call, open_session, hang_up_session, bytes as bytes_call, one_tick, tool};
ghost use Rattle.frame.specs.Places.{result_of};
ghost use Rattle.table.specs.Table.{decode};
ghost use Rattle.refusal.specs.Numbers.{number_of};
ghost use Rattle.controller.specs.Contract.{Outcome};
ghost use Rattle.controller.specs.Tool.{Keeping, Reporting, Reports};

use frame::To;
use model::{IDENTIFIER_LENGTH, Kind, NUMBER_LENGTH, RESULT_LENGTH, TIGHTENING_LENGTH};
use record::ToolRecord;
use refusal::Refusal;
use table::Told;

// 01, "What the product holds": what each call answers.
#[derive(Clone, Copy)]
pub struct Answer {
    pub number: u64,
    pub consumed: u64,
    pub written: u64,
    pub taken: u64,
}

// A call that is done: each count that is not 0 is put in.
const DONE: Answer = Answer {
    number: 0,
    consumed: 0,
    written: 0,
    taken: 0,
};

// One that is refused: nothing is done.
fn refused(why: Refusal) -> Answer
    ensures { result ≡ record { number = number_of why; consumed = 0; written = 0; taken = 0 } }
{
    Answer {
        number: why.number(),
        ..DONE
    }
}

pub fn start(table: &mut [u8], settings: &[u8]) -> Answer
    ensures { Outcome (start_call settings.now) table.old [] result table.new [] }
{
    if let Err(why) = refusal::start(table, settings) {
        return refused(why);
    }
    table::start(table, record::payload(settings));
    DONE
}

pub fn open(table: &mut [u8], output: &mut [u8], session: u64) -> Answer
    ensures { Outcome (open_session session) table.old output.old result table.new
        output.new }
{
    if let Err(why) = refusal::open(table, output.len(), session) {
        return refused(why);
    }
    table::open(table, session);
    DONE
}

pub fn hang_up(table: &mut [u8], output: &mut [u8], session: u64) -> Answer
    ensures { Outcome (hang_up_session session) table.old output.old result table.new
        output.new }
{
    if let Err(why) = refusal::hang_up(table, output.len(), session) {
        return refused(why);
    }
    table::hang_up(table, session);
    DONE
}

pub fn tick(table: &mut [u8], output: &mut [u8]) -> Answer
    ensures { Outcome one_tick table.old output.old result table.new output.new }
{
    if let Err(why) = refusal::tick(table, output.len()) {
        return refused(why);
    }
    let at = table::tick(table, output, 0);
    Answer {
        written: at as u64,
        ..DONE
    }
}

// ---- received bytes

// They are refused where a hang-up would be.
pub fn bytes(table: &mut [u8], output: &mut [u8], session: u64, slice: &[u8]) -> Answer
    ensures { Outcome (bytes_call session slice.now) table.old output.old result table.new
        output.new }
{
    if let Err(why) = refusal::hang_up(table, output.len(), session) {
        return refused(why);
    }
    let end = run::ends_at(slice);
    let at = table::receive(table, output, To { session, at: 0 }, slice, end);
    Answer {
        consumed: run::consumed(slice, end) as u64,
        written: at as u64,
        ..DONE
    }
}

// What a call left of the bytes that it was given, for the next call.
pub fn rest(bytes: &[u8], answer: Answer) -> &[u8]
    ensures { result.now ≡ drop answer.consumed bytes.now }
{
    text::rest(bytes, answer.consumed as usize)
}

// ---- a tool record

// A tightening as it is kept: the tool record's payload with the identifier that is meant now, and its number, the next one.
fn put_result(table: &[u8], payload: &[u8], place: &mut [u8; RESULT_LENGTH])
    requires { Keeping table.now payload.now }
    ensures { tightened (result_of place.new) ≡ reported (decode table.now).shared
        (tightening (identifier_in payload.now) (tightening_of payload.now)) }
{
    let identifier = record::meant(&payload[..IDENTIFIER_LENGTH], table::in_force(table));
    place[..IDENTIFIER_LENGTH].copy_from_slice(identifier);
    place[IDENTIFIER_LENGTH..TIGHTENING_LENGTH].copy_from_slice(&payload[IDENTIFIER_LENGTH..]);
    let number = table::last(table) + 1;
    text::put_little(place, TIGHTENING_LENGTH, NUMBER_LENGTH, number);
}

// The event of a tool record.
fn report(table: &mut [u8], output: &mut [u8], slice: &[u8], tool_record: ToolRecord) -> Told
    requires { Reporting tool_record table.old output.old slice.now }
    ensures { Reports slice.now table.old output.old result.at result.taken table.new
        output.new }
{
    let payload = record::payload(slice);
    match tool_record {
        ToolRecord::Tightening => {
            let mut place = [0; RESULT_LENGTH];
            put_result(table, payload, &mut place);
            table::happens(table, output, 0, Kind::Tightenings, &place)
        }
        ToolRecord::Scanned => table::happens(table, output, 0, Kind::Identifiers, payload),
        ToolRecord::Alarm => table::happens(table, output, 0, Kind::Alarms, payload),
    }
}

pub fn tool_record(table: &mut [u8], output: &mut [u8], slice: &[u8]) -> Answer
    ensures { Outcome (tool slice.now) table.old output.old result table.new
        output.new }
{
    let found = record::tool_record_kind(slice);
    match refusal::tool_record(table, output.len(), found) {
        Err(why) => refused(why),
        Ok(tool_record) => {
            let told = report(table, output, slice, tool_record);
            Answer {
                written: told.at as u64,
                taken: told.taken,
                ..DONE
            }
        }
    }
}
