// Reads 20-byte records of side data from standard input until it ends, and writes a line for each:
// the bits that it costs, or why it is refused. The lines of the records read are proved to be those
// of docs/RULES.md, by what a read gave (`answered`); that they are read and written is tested. What was read
// before input ends or fails is answered. Where the program stands between two reads is in io_turns.
//
// The inner functions take a program that is ready for a piece more (`Ready` of io_turns): a frame's number that leaves
// room for those of one more piece, less than a record held, a read left to make. So `main` begins, and so each turn is
// proved to leave it where it goes on. That a read stays within its piece is a promise of io_streams.
#![tactic(auto)]

ghost use Rattle.std.specs.Prelude.{◌≡◌, ◌+◌, ◌*◌, ◌/◌, ◌≤◌, ◌<◌, length, take};
ghost use Rattle.io_streams.specs.Reads.{Within};
ghost use Rattle.io_turns.specs.Stands.{Settles};
ghost use Rattle.prog_bits.specs.Output.{lines_text, AnswersPiece, AnswersRest, AnswersRead, Turns};

use io_rest::keep_rest;
use io_streams::{Read, read_after, write};
use io_turns::{Ready, Standing};
use text_answers::put_line;
use text_put::Text;

// A piece of input has 800 records, whose lines fit a piece of output whatever they say.
type Input = [u8; 16000];

type Output = Text<65536>;

// Ready for a piece more: less than a record is held, and there are numbers for the records of a piece.
type RecordReady = Ready<20, 0x7FFF_FFFF_FFFF_FFFF>;

// The lines of the whole records of some bytes, from a frame's number on. No line is longer than 81 bytes.
fn put_lines(frame: u64, bytes: &[u8], out: &mut Output)
    requires room { 81 * (length bytes.now / 20) ≤ 65536 }
    requires numbers { frame + length bytes.now / 20 < 18446744073709551616 }
    ensures { out.new ≡ lines_text frame bytes.now (length bytes.now / 20) }
{
    out.clear();
    let (records, _) = bytes.as_chunks::<20>();
    for (k, record) in records.iter().enumerate() {
        put_line(frame + k as u64, record, out);
    }
}

// Input has ended, or failed: what is held is a record cut short.
#[tactic(auto, using(crate::proofs::Answering::last_line))]
fn rest_answered(input: &Input, ready: RecordReady, output: &mut Output) -> Standing
    ensures { AnswersRest ready.standing (take ready.standing.held input.now) output.new result }
{
    let standing = ready.standing;
    output.clear();
    if standing.held > 0 {
        put_line(standing.number, &input[..standing.held], output);
    }
    Standing {
        held: 0,
        goes_on: false,
        ..standing
    }
}

// Answers the whole records of the first `read` bytes, and keeps what is left of them. The count `read` stays a clause,
// and input and output stand apart, as in io_transfer.
#[tactic(auto, using(crate::proofs::LinesPut::piece_lines))]
fn records_answered(
    input: &mut Input,
    ready: RecordReady,
    read: usize,
    output: &mut Output,
) -> Standing
    requires { read ≤ 16000 }
    ensures { AnswersPiece ready.standing read input.old input.new output.new result }
{
    let standing = ready.standing;
    let records = read / 20;
    put_lines(standing.number, &input[..read], output);
    let held = keep_rest(input, 20, read);
    Standing {
        number: standing.number + records as u64,
        held,
        goes_on: true,
        ..standing
    }
}

// What comes of a read, by what it gave.
fn answered(got: Read, input: &mut Input, ready: RecordReady, output: &mut Output) -> Standing
    requires { Within ready.standing.held (length input.old) got }
    ensures { AnswersRead got ready.standing input.old input.new output.new result }
{
    match got {
        Read::Bytes(count) => {
            records_answered(input, ready, ready.standing.held + count, output)
        }
        Read::End | Read::Failed => rest_answered(input, ready, output),
    }
}

// Writes the lines, and answers where the program stands then: it goes on only where there is more to read, and the
// lines could be written.
fn written(rt: &HostRuntime, standing: Standing, output: &Output) -> Standing
    ensures { Settles standing result }
{
    let is_written = write(rt, output.as_bytes());
    Standing {
        goes_on: standing.goes_on && is_written,
        ..standing
    }
}

// One read, what comes of it, and where the program stands once that is written.
fn turn(rt: &HostRuntime, input: &mut Input, ready: RecordReady, output: &mut Output) -> Standing
    ensures { Turns ready.standing result }
{
    let got = read_after(rt, input, ready.standing.held);
    let stands = answered(got, input, ready, output);
    written(rt, stands, output).after_read(rt)
}

fn main(rt: HostRuntime) {
    let mut input = [0; 16000];
    let mut output = Text::new();
    let mut standing = Standing::begun();
    // until the input ends: no place is counted
    while standing.goes_on {
        standing = turn(&rt, &mut input, Ready { standing }, &mut output);
    }
}
