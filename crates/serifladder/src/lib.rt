// The calls, for a host in C. A slice passes as a pointer and a length.
#![tactic(auto)]

ghost use Rattle.std.specs.Prelude.{[], ◌≤◌, length};
ghost use Rattle.model.specs.Limits.{answer_least};
ghost use Rattle.model.specs.Calls.{
  start as start_call,
  open_session,
  hang_up_session,
  bytes as bytes_call,
  one_tick,
  tool,
  Call,
};
ghost use Rattle.serifladder.specs.Export.{AnswerWritten, Does, Exported};

use controller::Answer;
use model::ANSWER_LEAST;

// What C is told where the answer is too short for the four numbers: nothing is done.
const ANSWER_TOO_SHORT: u64 = 10;

// The four numbers, 8 bytes each, and the first of them.
fn give(answer: &mut [u8], x: Answer) -> u64
    requires { answer_least ≤ length answer.old }
    ensures { AnswerWritten x answer.old result answer.new }
{
    let mut at = 0;
    for n in [x.number, x.consumed, x.written, x.taken] {
        at = text::put_little(answer, at, 8, n);
    }
    x.number
}

// Makes a call, with the table and the output that C lends, and tells C its answer; where that is too short the call is not made.
fn answered<F: FnOnce(&mut [u8], &mut [u8]) -> Answer>(
    table: &mut [u8],
    output: &mut [u8],
    answer: &mut [u8],
    call: F,
) -> u64
    requires { F.IsAlwaysCallable call }
    ensures { (c : Call) → Does F.FnOnce call c table.old output.old
        → Exported c table.old output.old answer.old result table.new output.new answer.new }
{
    if answer.len() < ANSWER_LEAST {
        return ANSWER_TOO_SHORT;
    }
    let x = call(table, output);
    give(answer, x)
}

#[unsafe(no_mangle)]
pub extern "C" fn serifladder_start(table: &mut [u8], settings: &[u8], answer: &mut [u8]) -> u64
    ensures { Exported (start_call settings.now) table.old [] answer.old result table.new []
        answer.new }
{
    // A start is lent no output.
    answered(table, &mut [], answer, |table, _| {
        controller::start(table, settings)
    })
}

#[unsafe(no_mangle)]
pub extern "C" fn serifladder_open(
    table: &mut [u8],
    output: &mut [u8],
    session: u64,
    answer: &mut [u8],
) -> u64
    ensures { Exported (open_session session) table.old output.old answer.old result table.new
        output.new answer.new }
{
    answered(table, output, answer, |table, output| {
        controller::open(table, output, session)
    })
}

#[unsafe(no_mangle)]
pub extern "C" fn serifladder_hang_up(
    table: &mut [u8],
    output: &mut [u8],
    session: u64,
    answer: &mut [u8],
) -> u64
    ensures { Exported (hang_up_session session) table.old output.old answer.old result
        table.new output.new answer.new }
{
    answered(table, output, answer, |table, output| {
        controller::hang_up(table, output, session)
    })
}

#[unsafe(no_mangle)]
pub extern "C" fn serifladder_bytes(
    table: &mut [u8],
    output: &mut [u8],
    session: u64,
    bytes: &[u8],
    answer: &mut [u8],
) -> u64
    ensures { Exported (bytes_call session bytes.now) table.old output.old answer.old result
        table.new output.new answer.new }
{
    answered(table, output, answer, |table, output| {
        controller::bytes(table, output, session, bytes)
    })
}

#[unsafe(no_mangle)]
pub extern "C" fn serifladder_tick(table: &mut [u8], output: &mut [u8], answer: &mut [u8]) -> u64
    ensures { Exported one_tick table.old output.old answer.old result table.new
        output.new answer.new }
{
    answered(table, output, answer, controller::tick)
}

#[unsafe(no_mangle)]
pub extern "C" fn serifladder_record(
    table: &mut [u8],
    output: &mut [u8],
    slice: &[u8],
    answer: &mut [u8],
) -> u64
    ensures { Exported (tool slice.now) table.old output.old answer.old result
        table.new output.new answer.new }
{
    answered(table, output, answer, |table, output| {
        controller::tool_record(table, output, slice)
    })
}
