// The library for C, under the names of include/serifladder.h: each call is the one of the crate serifladder. A slice passes as a pointer
// and a length.
#![tactic(auto)]

ghost use Rattle.std.specs.Prelude.{[]};
ghost use Rattle.model.specs.Calls.{
  start as start_call,
  open_session,
  hang_up_session,
  bytes as bytes_call,
  one_tick,
  tool,
};
ghost use Rattle.serifladder.specs.Export.{Exported};

#[unsafe(no_mangle)]
pub extern "C" fn serifladder_start(table: &mut [u8], settings: &[u8], answer: &mut [u8]) -> u64
    ensures { Exported (start_call settings.now) table.old [] answer.old result table.new []
        answer.new }
{
    serifladder::serifladder_start(table, settings, answer)
}

#[unsafe(no_mangle)]
pub extern "C" fn serifladder_open(
    table: &mut [u8],
    output: &mut [u8],
    session: u64,
    answer: &mut [u8],
) -> u64
    ensures { Exported (open_session session) table.old output.old answer.old result table.new
        output.new answer.new }
{
    serifladder::serifladder_open(table, output, session, answer)
}

#[unsafe(no_mangle)]
pub extern "C" fn serifladder_hang_up(
    table: &mut [u8],
    output: &mut [u8],
    session: u64,
    answer: &mut [u8],
) -> u64
    ensures { Exported (hang_up_session session) table.old output.old answer.old result
        table.new output.new answer.new }
{
    serifladder::serifladder_hang_up(table, output, session, answer)
}

#[unsafe(no_mangle)]
pub extern "C" fn serifladder_bytes(
    table: &mut [u8],
    output: &mut [u8],
    session: u64,
    bytes: &[u8],
    answer: &mut [u8],
) -> u64
    ensures { Exported (bytes_call session bytes.now) table.old output.old answer.old result
        table.new output.new answer.new }
{
    serifladder::serifladder_bytes(table, output, session, bytes, answer)
}

#[unsafe(no_mangle)]
pub extern "C" fn serifladder_tick(table: &mut [u8], output: &mut [u8], answer: &mut [u8]) -> u64
    ensures { Exported one_tick table.old output.old answer.old result table.new
        output.new answer.new }
{
    serifladder::serifladder_tick(table, output, answer)
}

#[unsafe(no_mangle)]
pub extern "C" fn serifladder_record(
    table: &mut [u8],
    output: &mut [u8],
    slice: &[u8],
    answer: &mut [u8],
) -> u64
    ensures { Exported (tool slice.now) table.old output.old answer.old result
        table.new output.new answer.new }
{
    serifladder::serifladder_record(table, output, slice, answer)
}
