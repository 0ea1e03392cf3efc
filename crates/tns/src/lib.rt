// The functions that C and Rust call, which the crate `tns_c` exports. Each takes any numbers and lists and
// is its inner door: the answer's numbers are those of the door's definition, as `answer_call` and
// `answer_block` give them.
#![tactic(auto)]

mod blocks;
mod rescue;

ghost use Rattle.std.specs.Prelude.{◌≡◌, ◌≤◌, length};
ghost use Rattle.check_verdicts.specs.Verdicts.{no_bits, its_bits};
ghost use Rattle.cost_call.specs.Cost.{cost_of};
ghost use Rattle.cost_parts.specs.Parts.{parts_of, TellsParts};
ghost use Rattle.check_line.specs.LineChecks.{line_call_checks};
ghost use Rattle.call_decode.specs.Decoder.{decode_checks, spectrum_decoded};
ghost use Rattle.side_split.specs.SplitRun.{states_before, lines_from};
ghost use Rattle.call_restart.specs.Restart.{lent_at_line};
ghost use Rattle.row_durations.specs.Durations.{duration_of};
ghost use Rattle.row_bands.specs.Bands.{row_of};
ghost use Rattle.call_encode.specs.Encoder.{encode_verdict, gains_found};
ghost use Rattle.answer_call.specs.Answers.{answer_for};
ghost use Rattle.tns.specs.Encoding.{lent, TnsEncodes};
ghost use Rattle.tns.specs.AtLine.{TnsSaves, TnsRestarts};

use answer_call::{Answer, accepted, refused, told_at_line, told_cost};
pub use blocks::{tns_block_read, tns_block_write};
use call_decode::decode;
use call_encode::encode;
use call_restart::{restart, save};
use cost_call::cost;
use cost_parts::cost_2048ths;
pub use rescue::tns_block_rescue;
use shape_gain::{gain_numbers, on_numbers};
use side_data::{bytes_of, coefficients_of};

// Decodes a spectrum in place, as `call_decode::decode`. A refused call leaves every line as it was.
#[tactic(auto, using(answer_call::proofs::Small::decode_place))]
pub fn tns_decode(
    duration: u8,
    bandwidth: u8,
    filters: u8,
    orders: &[u8],
    indices: &[u8],
    lines: &mut [f32],
) -> Answer
    ensures answer { result ≡ answer_for no_bits (decode_checks duration bandwidth filters orders.now indices.now (length lines.old)) }
    ensures lines { lines.new ≡ spectrum_decoded duration bandwidth filters orders.now indices.now lines.old }
{
    let answer = decode(duration, bandwidth, filters, orders, indices, lines);
    match answer {
        Ok(()) => accepted(0),
        Err(why) => refused(why),
    }
}

// Decodes a spectrum into an output of the same length, as `call_restart::save`, and writes the eight
// states as they are before line n. A refused call writes neither.
#[tactic(auto, using(answer_call::proofs::Small::line_place))]
pub fn tns_decode_save(
    duration: u8,
    bandwidth: u8,
    filters: u8,
    orders: &[u8],
    indices: &[u8],
    spectrum: &[f32],
    output: &mut [f32],
    n: usize,
    states: &mut [f32; 8],
) -> Answer
    ensures { TnsSaves (line_call_checks duration bandwidth filters orders.now indices.now (length spectrum.now) n (length output.old)) (spectrum_decoded duration bandwidth filters orders.now indices.now spectrum.now) (states_before n (row_of (duration_of duration) bandwidth) filters orders.now indices.now spectrum.now) (lent_at_line output.old states.old) (lent_at_line output.new states.new) result }
{
    let answer = save(
        duration, bandwidth, filters, orders, indices, spectrum, output, n, states,
    );
    told_at_line(answer)
}

// Writes the output of a spectrum from line n on, as `call_restart::restart`, going on from any eight
// states. Nothing is written below n, and nothing by a refused call.
#[tactic(auto, using(answer_call::proofs::Small::line_place))]
pub fn tns_decode_restart(
    duration: u8,
    bandwidth: u8,
    filters: u8,
    orders: &[u8],
    indices: &[u8],
    spectrum: &[f32],
    output: &mut [f32],
    n: usize,
    states: &[f32; 8],
) -> Answer
    ensures { TnsRestarts (line_call_checks duration bandwidth filters orders.now indices.now (length spectrum.now) n (length output.old)) n (lines_from n (row_of (duration_of duration) bandwidth) filters orders.now indices.now states.now spectrum.now) output.old output.new result }
{
    let answer = restart(
        duration, bandwidth, filters, orders, indices, spectrum, output, n, states,
    );
    told_at_line(answer)
}

// Encodes a spectrum in place, as `call_encode::encode`. An accepted call writes its side data as the
// 20 bytes of the bits program, its coefficients, gain and damping of the first filter and then of the
// second, and for each filter 1 if it is on, else 0. A refused one leaves all five lists as they were.
// `flag` is the near-Nyquist flag.
#[tactic(auto, using(answer_call::proofs::Small::encode_place))]
pub fn tns_encode(
    duration: u8,
    bandwidth: u8,
    bits: u64,
    flag: bool,
    lines: &mut [f32],
    side: &mut [u8; 20],
    coefficients: &mut [f32; 16],
    gains: &mut [f32; 4],
    on: &mut [u8; 2],
) -> Answer
    ensures { TnsEncodes (encode_verdict duration bandwidth bits flag lines.old) (gains_found duration bandwidth bits flag lines.old) (row_of (duration_of duration) bandwidth) (lent lines.old side.old coefficients.old gains.old on.old) (lent lines.new side.new coefficients.new gains.new on.new) result }
{
    let encoded = encode(duration, bandwidth, bits, flag, lines);
    let answer = encoded.answer;
    match answer {
        Err(why) => refused(why),
        Ok(n) => {
            let s = encoded.side;
            *side = bytes_of(s);
            *coefficients = coefficients_of(s);
            let g = encoded.gains;
            *gains = gain_numbers(g);
            *on = on_numbers(g);
            accepted(n)
        }
    }
}

// The cost of a frame's side data in bits, as `cost_call::cost`.
#[tactic(auto, using(answer_call::proofs::Small::cost_place))]
pub fn tns_cost(weighting: u8, filters: u8, orders: &[u8], indices: &[u8]) -> Answer
    ensures answer { result ≡ answer_for its_bits (cost_of weighting filters orders.now indices.now) }
    ensures few { result.bits ≤ 168 }
{
    let answer = cost(weighting, filters, orders, indices);
    match answer {
        Ok(bits) => accepted(bits),
        Err(why) => refused(why),
    }
}

// The same cost, as `cost_parts::cost_2048ths`: the bits, and beside them what each filter costs in 2048ths
// of a bit, before it is rounded. A refused call leaves both numbers as they were.
#[tactic(auto, using(answer_call::proofs::Small::cost_place))]
pub fn tns_cost_2048ths(
    weighting: u8,
    filters: u8,
    orders: &[u8],
    indices: &[u8],
    parts: &mut [u32; 2],
) -> Answer
    ensures answer { result ≡ answer_for its_bits (cost_of weighting filters orders.now indices.now) }
    ensures few { result.bits ≤ 168 }
    ensures parts { TellsParts filters (cost_of weighting filters orders.now indices.now) (parts_of weighting filters orders.now indices.now) parts.old parts.new }
{
    let answer = cost_2048ths(weighting, filters, orders, indices, parts);
    told_cost(answer)
}
