// One record of a list of calls with the answers that they must have: the call is made and all that it answers
// and leaves is compared. A call goes to the functions that the library exports; the index rule, which it does
// not export, to the two that have it.
#![tactic(auto)]

ghost use Rattle.std.specs.Prelude.{◌≤◌};
ghost use Rattle.replay_record.specs.declared.TheConstants.{MOST_ORDERS, MOST_INDICES, MOST_LINES};

use answer_call::{Answer, accepted};
use index_choice::index_of;
use index_coefficients::coefficient_of;
use replay_list::{Replay, float_of};
use std::io::Read;
use tns::{tns_cost, tns_decode, tns_decode_restart, tns_decode_save, tns_encode};

// What a record has room for.
const MOST_ORDERS: usize = 3;

const MOST_INDICES: usize = 17;

const MOST_LINES: usize = 401;

// The calls. Their numbers in a record are those of `try_from`.
#[derive(Clone, Copy, Debug, PartialEq, Eq)]
enum Kind {
    Index,
    Cost,
    Decode,
    Encode,
    Save,
    Restart,
}

// A record has a call that does not exist, more of something than there is room for, or an index call's lines
// other than one.
#[derive(Clone, Copy, Debug, PartialEq, Eq)]
struct OutOfRange;

impl TryFrom<u8> for Kind {
    type Error = OutOfRange;

    fn try_from(number: u8) -> Result<Kind, OutOfRange> {
        match number {
            0 => Ok(Kind::Index),
            1 => Ok(Kind::Cost),
            2 => Ok(Kind::Decode),
            3 => Ok(Kind::Encode),
            4 => Ok(Kind::Save),
            5 => Ok(Kind::Restart),
            _ => Err(OutOfRange),
        }
    }
}

// A head: the call, its numbers, and how many orders, indices and lines it has.
#[derive(Clone, Copy)]
struct Call {
    kind: Kind,
    duration: u8,
    bandwidth: u8,
    choice: u8,
    filters: u8,
    orders: usize,
    indices: usize,
    lines: usize,
    ghost few_orders: { orders ≤ MOST_ORDERS },
    ghost few_indices: { indices ≤ MOST_INDICES },
    ghost few_lines: { lines ≤ MOST_LINES },
}

impl Call {
    fn new(head: [u8; 7], lines: usize) -> Result<Call, OutOfRange> {
        let [kind, duration, bandwidth, choice, filters, orders, indices] = head;
        let kind = Kind::try_from(kind)?;
        if kind == Kind::Index && lines != 1 {
            return Err(OutOfRange);
        }
        let orders = usize::from(orders);
        let indices = usize::from(indices);
        if orders > MOST_ORDERS || indices > MOST_INDICES || lines > MOST_LINES {
            return Err(OutOfRange);
        }
        Ok(Call {
            kind,
            duration,
            bandwidth,
            choice,
            filters,
            orders,
            indices,
            lines,
        })
    }
}

fn compare_answer<P: Print, L: Read>(replay: &mut Replay<P, L>, found: Answer) {
    replay.compare_all(&[found.refusal, found.place, found.found, found.bits]);
}

// An index record: its one line becomes its coefficient, and its index stands as the answer's bits.
fn replay_index<P: Print, L: Read>(replay: &mut Replay<P, L>, lines: &mut [f32]) {
    for line in lines.iter_mut() {
        let index = index_of(*line);
        compare_answer(replay, accepted(u16::from(index)));
        *line = coefficient_of(index);
    }
}

// A cost or decode record: its call is made with the record's orders and indices.
fn replay_side<P: Print, L: Read, F: FnOnce(&[u8], &[u8]) -> Answer>(
    replay: &mut Replay<P, L>,
    call: &Call,
    make: F,
)
    requires { F.IsAlwaysCallable make }
{
    let orders: [u8; MOST_ORDERS] = replay.bytes();
    let indices: [u8; MOST_INDICES] = replay.bytes();
    let answer = make(&orders[..call.orders], &indices[..call.indices]);
    compare_answer(replay, answer);
}

// An encode record. What the call may write to holds patterns, which a refusal must leave.
fn replay_encode<P: Print, L: Read>(replay: &mut Replay<P, L>, call: &Call, lines: &mut [f32]) {
    let bits = replay.two_words();
    let lent = float_of(0xa5a5_a5a5);
    let mut side = [0xa5u8; 20];
    let mut coefficients = [lent; 16];
    let mut gains = [lent; 4];
    let mut on = [0xa5u8; 2];
    let answer = tns_encode(
        call.duration,
        call.bandwidth,
        bits,
        call.choice != 0,
        lines,
        &mut side,
        &mut coefficients,
        &mut gains,
        &mut on,
    );
    compare_answer(replay, answer);
    replay.compare_all(&side);
    replay.compare_all(&coefficients);
    // gain and damping of the first filter, then of the second
    replay.compare_all(&gains);
    // a byte for each filter: whether it is on
    replay.compare_all(&on);
}

// A save or restart record from its orders on: its call is made with them, the indices, the output, the line and the
// states. Its spectrum stays as it is.
fn replay_line<P: Print, L: Read, F>(
    replay: &mut Replay<P, L>,
    call: &Call,
    make: F,
) -> Result<(), OutOfRange>
where
    F: FnOnce(&[u8], &[u8], &mut [f32], usize, &mut [f32; 8]) -> Answer,
    requires { F.IsAlwaysCallable make }
{
    let orders: [u8; MOST_ORDERS] = replay.bytes();
    let indices: [u8; MOST_INDICES] = replay.bytes();
    let n = replay.two_words() as usize;
    let m = replay.given() as usize;
    if m > MOST_LINES {
        return Err(OutOfRange);
    }
    let mut room = [0.0f32; MOST_LINES];
    let output = &mut room[..m];
    replay.read_lines(output);
    let mut states: [f32; 8] = replay.lines();
    let answer = make(
        &orders[..call.orders],
        &indices[..call.indices],
        output,
        n,
        &mut states,
    );
    compare_answer(replay, answer);
    replay.compare_all(&states);
    replay.compare_all(output);
    Ok(())
}

// Makes the call of a record, and compares all that it answers and leaves.
fn replay_call<P: Print, L: Read>(
    replay: &mut Replay<P, L>,
    head: [u8; 7],
) -> Result<(), OutOfRange> {
    let lines = replay.given() as usize;
    let call = Call::new(head, lines)?;
    let Call {
        duration,
        bandwidth,
        choice,
        filters,
        ..
    } = call;
    let mut room = [0.0f32; MOST_LINES];
    let lines = &mut room[..call.lines];
    replay.read_lines(lines);
    // each call has arguments of its own, so they are told apart here, before the closures
    match call.kind {
        Kind::Index => replay_index(replay, lines),
        Kind::Cost => replay_side(replay, &call, |orders, indices| {
            tns_cost(choice, filters, orders, indices)
        }),
        Kind::Decode => replay_side(replay, &call, |orders, indices| {
            tns_decode(duration, bandwidth, filters, orders, indices, lines)
        }),
        Kind::Encode => replay_encode(replay, &call, lines),
        Kind::Save => {
            return replay_line(replay, &call, |orders, indices, output, n, states| {
                tns_decode_save(
                    duration, bandwidth, filters, orders, indices, lines, output, n, states,
                )
            });
        }
        Kind::Restart => {
            return replay_line(replay, &call, |orders, indices, output, n, states| {
                tns_decode_restart(
                    duration, bandwidth, filters, orders, indices, lines, output, n, states,
                )
            });
        }
    }
    replay.compare_all(lines);
    Ok(())
}

// A record: its call is made, and all that it answers and leaves is compared. Answers whether it differs. One that
// is out of range does.
pub fn record(rt: &impl Print, list: &mut impl Read, head: [u8; 7]) -> bool {
    let mut replay = Replay {
        rt,
        list,
        differs: false,
    };
    if replay_call(&mut replay, head).is_err() {
        let _ = print!(rt; "a call or a count beyond its range");
        return true;
    }
    replay.differs
}
