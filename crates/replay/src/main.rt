// The test program: house records on standard input, a line for each output record and each refusal on standard output.
#![tactic(auto)]

ghost use Rattle.std.specs.Prelude.{◌≡◌, false, cond, eqb, [], ◌∷◌, ◌++◌, suc, ◌+◌, ◌-◌, ◌≤◌, ◌<◌, length, drop, MatchOption};
ghost use Rattle.model.specs.Limits.{output_least};
ghost use Rattle.model.specs.Bytes.{space, digits};
ghost use Rattle.model.specs.Records.{record_head};
ghost use Rattle.model.specs.Program.{shown as shown_bytes, bytes_record_kind, is_of, call_of, printed};
ghost use Rattle.model.specs.Program.{fed, given as given_state, all_given};
ghost use Rattle.controller.specs.Contract.{Outcome};
ghost use Rattle.replay.specs.Lines.{line_in, lines_in, text_of};
ghost use Rattle.replay.specs.States.{room_made, Behind, ProgramFollows, Filled, OneTurn, Ran};
ghost use Rattle.replay.specs.Whole.{Announces, whole_size, Parted, too_long, records, waits};

use controller::Answer;
use model::{OUTPUT_LEAST, RECORD_HEAD, SETTINGS_RECORD_KIND, TABLE_LEAST};
use std::io::{Read, Stdin, Stdout};
use std::marker::Model;

const PAYLOAD_LONGEST: u64 = 8192;

// How many bytes of the input, and of the lines, wait at most.
const BUFFER: usize = 65536;

// The kinds of record, by the numbers that the input has, that stand for the calls of a session, of session 0 and of the last one; and the
// kind of a tick.
const SESSION_GREATEST: u64 = 15;

const OPEN_RECORD_KIND: u64 = 16;

const OPEN_LAST: u64 = OPEN_RECORD_KIND + SESSION_GREATEST;

const HANG_UP_RECORD_KIND: u64 = 32;

const HANG_UP_LAST: u64 = HANG_UP_RECORD_KIND + SESSION_GREATEST;

const BYTES_RECORD_KIND: u64 = 48;

const BYTES_LAST: u64 = BYTES_RECORD_KIND + SESSION_GREATEST;

const TICK_RECORD_KIND: u64 = 64;

// ---- records, in the input and in the output

// How long a payload the header announces that bytes begin with: none if that is cut.
fn announced(bytes: &[u8]) -> Option<u64>
    ensures { MatchOption result (length bytes.now < record_head) (Announces bytes.now) }
{
    (bytes.len() >= RECORD_HEAD).then(|| text::little(bytes, 0, 2))
}

// The record that bytes begin with, and what stands behind it: none if there is no whole one, or one that is too long.
#[tactic(auto, using(crate::proofs::Sizes::size_cut, crate::proofs::Sizes::size_too_long))]
fn whole(bytes: &[u8]) -> Option<(&[u8], &[u8])>
    ensures { MatchOption result (whole_size bytes.now ≡ 0) (λ r. Parted bytes.now r.0.now r.1.now) }
{
    let payload = announced(bytes)?;
    if payload > PAYLOAD_LONGEST {
        return None;
    }
    bytes.split_at_checked(RECORD_HEAD + payload as usize)
}

// Whether an input begins with a record that ends the run.
#[tactic(auto, using(crate::proofs::Sizes::is_long, crate::proofs::Sizes::is_short))]
fn is_too_long(input: &[u8]) -> bool
    ensures { result ≡ too_long input.now }
{
    announced(input).is_some_and(|payload| payload > PAYLOAD_LONGEST)
}

// ---- what it prints

fn shown_byte(b: u8) -> u8
    ensures { result ≡ cond (eqb b space) 0x5F b }
{
    if b == b' ' { b'_' } else { b }
}

// A frame's bytes, spaces as `_`.
#[tactic(auto, using(crate::proofs::Printed::shown_next, crate::proofs::Printed::shown_all))]
fn shown(frame: &[u8], out: &mut [u8])
    requires { length out.old ≡ length frame.now }
    ensures { out.new ≡ shown_bytes frame.now }
{
    for (i, &b) in frame.iter().enumerate() {
        out[i] = shown_byte(b);
    }
}

// Bytes that wait, in fixed memory (std's buffered readers and writers take theirs from the heap).
#[derive(Drop)]
struct Waiting<S> {
    stream: S,
    bytes: [u8; BUFFER],
    size: usize,
}

impl<S> Model for Waiting<S> {
    ghost use Rattle.std.specs.Prelude.{List, ℕ, take, ◌≤◌};
    ghost use Rattle.replay.specs.declared.TheConstants.{BUFFER};

    ghost Value = { List ℕ };

    ghost view = { λ w. take w.size w.bytes };

    ghost invariant = { λ w. w.size ≤ BUFFER };
}

impl<S> Waiting<S> {
    fn new(stream: S) -> Self
        ensures { result ≡ [] }
    {
        Waiting {
            stream,
            bytes: [0; BUFFER],
            size: 0,
        }
    }
}

// What was read, until it is served.
type Input = Waiting<Stdin>;

impl Input {
    fn waiting(&self) -> &[u8]
        ensures { result.now ≡ self.now }
    {
        &self.bytes[..self.size]
    }

    // Reads once, behind what waits; whether anything came: nothing does at the end, and where a read fails.
    fn fill(&mut self) -> bool
        ensures { Filled self.old self.new result }
    {
        let got = self.stream.read(&mut self.bytes[self.size..]).unwrap_or(0);
        self.size += got;
        got > 0
    }

    // The last `left` bytes wait on, at the front: those before them were served.
    fn keep(&mut self, left: usize)
        requires { left ≤ length self.old }
        ensures { self.new ≡ drop (length self.old - left) self.old }
    {
        self.bytes.copy_within(self.size - left..self.size, 0);
        self.size = left;
    }
}

// The lines, until they are written out.
type Lines = Waiting<Stdout>;

impl Lines {
    #[tactic(auto, using(crate::proofs::Lists::put_behind))]
    fn put(&mut self, bytes: &[u8])
        requires { length self.old + length bytes.now ≤ BUFFER }
        ensures { self.new ≡ self.old ++ bytes.now }
    {
        self.size = text::copy(bytes, &mut self.bytes, self.size);
    }

    // A number of one digit.
    #[tactic(auto, using(crate::proofs::Lists::put_behind))]
    fn put_digit(&mut self, n: u64)
        requires { length self.old + 1 ≤ BUFFER }
        ensures { self.new ≡ self.old ++ digits 1 n }
    {
        self.size = text::put_digits(&mut self.bytes, self.size, 1, n);
    }

    // A frame's bytes, spaces as `_`.
    #[tactic(auto, using(crate::proofs::Printed::shown_behind))]
    fn put_shown(&mut self, frame: &[u8])
        requires { length self.old + length frame.now ≤ BUFFER }
        ensures { self.new ≡ self.old ++ shown_bytes frame.now }
    {
        let end = self.size + frame.len();
        shown(frame, &mut self.bytes[self.size..end]);
        self.size = end;
    }

    // The line of an output record: a frame has a payload, the order to close has none.
    #[tactic(auto, using(crate::proofs::Printed::close_line, crate::proofs::Printed::frame_line))]
    fn line(&mut self, slice: &[u8])
        requires { (record_head ≤ length slice.now) × (length self.old + length slice.now ≤ BUFFER) }
        ensures { self.new ≡ self.old ++ line_in slice.now ++ 0x0A ∷ [] }
    {
        self.put_digit(text::little(slice, 2, 1));
        match slice[RECORD_HEAD..].split_last() {
            None => self.put(b" C\n"),
            Some((_, frame)) => {
                self.put(b" S ");
                self.put_shown(frame);
                self.put(b"\n");
            }
        }
    }

    // The lines of the records in an output.
    fn show(&mut self, output: &[u8])
        requires { length self.old + length output.now ≤ BUFFER }
        ensures { self.new ≡ self.old ++ printed (lines_in output.now) }
    {
        let mut left = output;
        while let Some((slice, rest)) = whole(left) {
            self.line(slice);
            left = rest;
        }
    }

    // What a call's answer and its output have it print.
    #[tactic(auto, using(crate::proofs::Printed::done_text, crate::proofs::Printed::refused_text))]
    fn tell(&mut self, answer: Answer, output: &[u8; OUTPUT_LEAST])
        requires { (answer.written ≤ output_least) × (length self.old + output_least ≤ BUFFER) }
        ensures { self.new ≡ self.old ++ text_of answer output.now }
    {
        if answer.number == 0 {
            self.show(&output[..answer.written as usize]);
        } else {
            self.put(b"R ");
            self.put_digit(answer.number);
            self.put(b"\n");
        }
    }

    // Writes out the lines that wait. Lines that could not be written are lost, and the run goes on.
    fn flush(&mut self)
        ensures { self.new ≡ [] }
    {
        let _ = self.stream.write_all(&self.bytes[..self.size]);
        self.size = 0;
    }

    // Room for the lines of one more call: those that wait are written out where there is none.
    fn room(&mut self)
        ensures { self.new ≡ room_made BUFFER self.old }
    {
        if BUFFER - self.size < OUTPUT_LEAST {
            self.flush();
        }
    }

    // The lines of a call, behind those that wait.
    #[tactic(auto, using(crate::proofs::Follows::made_room, crate::proofs::Follows::behind_put))]
    fn print(&mut self, answer: Answer, output: &[u8; OUTPUT_LEAST])
        requires { answer.written ≤ output_least }
        ensures { Behind BUFFER self.old (text_of answer output.now) self.new }
    {
        self.room();
        self.tell(answer, output);
    }
}

// ---- what it does

// The table, the output of a call, and the lines that wait.
#[derive(Drop)]
struct Program {
    table: [u8; TABLE_LEAST],
    output: [u8; OUTPUT_LEAST],
    lines: Lines,
}

impl Program {
    // Received bytes: one call at least, and with what is left of them again until nothing is, or a call is refused.
    fn feed(&mut self, session: u64, bytes: &[u8])
        ensures { ProgramFollows (λ x. fed (suc (length bytes.now)) x session bytes.now) self.old
            self.new }
    {
        let mut left = bytes;
        loop {
            let answer = controller::bytes(&mut self.table, &mut self.output, session, left);
            self.lines.print(answer, &self.output);
            left = controller::rest(left, answer);
            if answer.number != 0 || left.is_empty() {
                return;
            }
        }
    }

    // The call that a record of any other kind stands for.
    fn call(&mut self, record_kind: u64, slice: &[u8]) -> Answer
        requires { is_of bytes_record_kind record_kind ≡ false }
        ensures outcome { Outcome (call_of record_kind slice.now) self.old.table self.old.output
            result self.new.table self.new.output }
        ensures lines { self.new.lines ≡ self.old.lines }
    {
        match record_kind {
            SETTINGS_RECORD_KIND => controller::start(&mut self.table, slice),
            OPEN_RECORD_KIND..=OPEN_LAST => {
                controller::open(
                    &mut self.table,
                    &mut self.output,
                    record_kind - OPEN_RECORD_KIND,
                )
            }
            HANG_UP_RECORD_KIND..=HANG_UP_LAST => {
                controller::hang_up(
                    &mut self.table,
                    &mut self.output,
                    record_kind - HANG_UP_RECORD_KIND,
                )
            }
            TICK_RECORD_KIND => controller::tick(&mut self.table, &mut self.output),
            _ => controller::tool_record(&mut self.table, &mut self.output, slice),
        }
    }

    // One record, as a slice.
    fn given(&mut self, slice: &[u8])
        requires { record_head ≤ length slice.now }
        ensures { ProgramFollows (λ x. given_state x slice.now) self.old self.new }
    {
        let record_kind = text::little(slice, 2, 2);
        match record_kind {
            BYTES_RECORD_KIND..=BYTES_LAST => {
                self.feed(record_kind - BYTES_RECORD_KIND, &slice[RECORD_HEAD..]);
            }
            _ => {
                let answer = self.call(record_kind, slice);
                self.lines.print(answer, &self.output);
            }
        }
    }

    // Serves the whole records that an input begins with; what waits behind them.
    fn serve<'a>(&mut self, input: &'a [u8]) -> &'a [u8]
        ensures follows { ProgramFollows (λ x. all_given x (records input.now)) self.old self.new }
        ensures left { result.now ≡ waits input.now }
    {
        let mut left = input;
        while let Some((slice, rest)) = whole(left) {
            self.given(slice);
            left = rest;
        }
        left
    }

    // Reads once, behind the bytes that wait in the input, serves that, and writes out the lines; whether the run goes on.
    fn turn(&mut self, input: &mut Input) -> bool
        requires cut { whole_size input.old ≡ 0 }
        requires no_lines { self.old.lines ≡ [] }
        ensures turned { OneTurn self.old.table input.old self.new.table input.new result }
        ensures no_lines { self.new.lines ≡ [] }
    {
        if !input.fill() {
            return false;
        }
        let left = self.serve(input.waiting()).len();
        input.keep(left);
        self.lines.flush();
        !is_too_long(input.waiting())
    }

    // A proved loop has to end, and nothing says that an input does: this one ends after more turns than any run has.
    fn run(&mut self, stdin: Stdin)
        requires { self.old.lines ≡ [] }
        ensures { Ran self.old.table self.new.table }
    {
        let mut input = Input::new(stdin);
        for _ in 0..u64::MAX {
            if !self.turn(&mut input) {
                break;
            }
        }
    }
}

fn main(rt: HostRuntime) {
    let mut program = Program {
        table: [0; TABLE_LEAST],
        output: [0; OUTPUT_LEAST],
        lines: Lines::new(rt.stdout()),
    };
    program.run(rt.stdin());
}
