// The functions that C and Rust link, by the names of include/tns.h: each hands its arguments on to the function
// of the same name of the crate `tns` and states its clauses again. A slice passes as its pointer and length,
// and an answer by value.
#![tactic(auto)]

ghost use Rattle.std.specs.Prelude.{◌≡◌, ◌≤◌, length, take};
ghost use Rattle.check_verdicts.specs.Verdicts.{no_bits, its_bits};
ghost use Rattle.cost_call.specs.Cost.{cost_of};
ghost use Rattle.cost_parts.specs.Parts.{parts_of, TellsParts};
ghost use Rattle.check_line.specs.LineChecks.{line_call_checks};
ghost use Rattle.call_decode.specs.Decoder.{decode_checks, spectrum_decoded};
ghost use Rattle.side_split.specs.SplitRun.{states_before, lines_from};
ghost use Rattle.call_restart.specs.Restart.{lent_at_line};
ghost use Rattle.row_durations.specs.Durations.{duration_of};
ghost use Rattle.row_bands.specs.Bands.{row_of};
ghost use Rattle.call_encode.specs.Encoder.{encode_verdict, gains_found};
ghost use Rattle.answer_call.specs.Answers.{answer_for};
ghost use Rattle.tns.specs.Encoding.{lent, TnsEncodes};
ghost use Rattle.tns.specs.AtLine.{TnsSaves, TnsRestarts};
ghost use Rattle.block_parts.specs.Parts.{count_of, count_in};
ghost use Rattle.block_check.specs.Blocks.{read_verdict, write_verdict};
ghost use Rattle.tns.specs.Blocks.{TnsBlock};
ghost use Rattle.tns.specs.Rescue.{TnsRescues};

use answer_block::{BlockTold, RescueTold};
use answer_call::Answer;

// Decodes a spectrum in place, as `call_decode::decode`. A refused call leaves every line as it was.
#[unsafe(no_mangle)]
pub extern "C" fn tns_decode(
    duration: u8,
    bandwidth: u8,
    filters: u8,
    orders: &[u8],
    indices: &[u8],
    lines: &mut [f32],
) -> Answer
    ensures answer { result ≡ answer_for no_bits (decode_checks duration bandwidth filters orders.now indices.now (length lines.old)) }
    ensures lines { lines.new ≡ spectrum_decoded duration bandwidth filters orders.now indices.now lines.old }
{
    tns::tns_decode(duration, bandwidth, filters, orders, indices, lines)
}

// Decodes a spectrum into an output of the same length, as `call_restart::save`, and writes the eight
// states as they are before line n. A refused call writes neither.
#[unsafe(no_mangle)]
pub extern "C" fn tns_decode_save(
    duration: u8,
    bandwidth: u8,
    filters: u8,
    orders: &[u8],
    indices: &[u8],
    spectrum: &[f32],
    output: &mut [f32],
    n: usize,
    states: &mut [f32; 8],
) -> Answer
    ensures { TnsSaves (line_call_checks duration bandwidth filters orders.now indices.now (length spectrum.now) n (length output.old)) (spectrum_decoded duration bandwidth filters orders.now indices.now spectrum.now) (states_before n (row_of (duration_of duration) bandwidth) filters orders.now indices.now spectrum.now) (lent_at_line output.old states.old) (lent_at_line output.new states.new) result }
{
    tns::tns_decode_save(
        duration, bandwidth, filters, orders, indices, spectrum, output, n, states,
    )
}

// Writes the output of a spectrum from line n on, as `call_restart::restart`, going on from any eight
// states. Nothing is written below n, and nothing by a refused call.
#[unsafe(no_mangle)]
pub extern "C" fn tns_decode_restart(
    duration: u8,
    bandwidth: u8,
    filters: u8,
    orders: &[u8],
    indices: &[u8],
    spectrum: &[f32],
    output: &mut [f32],
    n: usize,
    states: &[f32; 8],
) -> Answer
    ensures { TnsRestarts (line_call_checks duration bandwidth filters orders.now indices.now (length spectrum.now) n (length output.old)) n (lines_from n (row_of (duration_of duration) bandwidth) filters orders.now indices.now states.now spectrum.now) output.old output.new result }
{
    tns::tns_decode_restart(
        duration, bandwidth, filters, orders, indices, spectrum, output, n, states,
    )
}

// Encodes a spectrum in place, as `call_encode::encode`. An accepted call writes its side data as the
// 20 bytes of the bits program, its coefficients, gain and damping of the first filter and then of the
// second, and for each filter 1 if it is on, else 0. A refused one leaves all five lists as they were.
// `flag` is the near-Nyquist flag.
#[unsafe(no_mangle)]
pub extern "C" fn tns_encode(
    duration: u8,
    bandwidth: u8,
    bits: u64,
    flag: bool,
    lines: &mut [f32],
    side: &mut [u8; 20],
    coefficients: &mut [f32; 16],
    gains: &mut [f32; 4],
    on: &mut [u8; 2],
) -> Answer
    ensures { TnsEncodes (encode_verdict duration bandwidth bits flag lines.old) (gains_found duration bandwidth bits flag lines.old) (row_of (duration_of duration) bandwidth) (lent lines.old side.old coefficients.old gains.old on.old) (lent lines.new side.new coefficients.new gains.new on.new) result }
{
    tns::tns_encode(
        duration,
        bandwidth,
        bits,
        flag,
        lines,
        side,
        coefficients,
        gains,
        on,
    )
}

// The cost of a frame's side data in bits, as `cost_call::cost`.
#[unsafe(no_mangle)]
pub extern "C" fn tns_cost(weighting: u8, filters: u8, orders: &[u8], indices: &[u8]) -> Answer
    ensures answer { result ≡ answer_for its_bits (cost_of weighting filters orders.now indices.now) }
    ensures few { result.bits ≤ 168 }
{
    tns::tns_cost(weighting, filters, orders, indices)
}

// The same cost, as `cost_parts::cost_2048ths`: the bits, and beside them what each filter costs in 2048ths
// of a bit, before it is rounded. A refused call leaves both numbers as they were.
#[unsafe(no_mangle)]
pub extern "C" fn tns_cost_2048ths(
    weighting: u8,
    filters: u8,
    orders: &[u8],
    indices: &[u8],
    parts: &mut [u32; 2],
) -> Answer
    ensures answer { result ≡ answer_for its_bits (cost_of weighting filters orders.now indices.now) }
    ensures few { result.bits ≤ 168 }
    ensures parts { TellsParts filters (cost_of weighting filters orders.now indices.now) (parts_of weighting filters orders.now indices.now) parts.old parts.new }
{
    tns::tns_cost_2048ths(weighting, filters, orders, indices, parts)
}

// Writes up to twenty records as block `number`, as `block_write::write_block`. A refused call writes
// nothing.
#[unsafe(no_mangle)]
pub extern "C" fn tns_block_write(number: u64, records: &[u8], block: &mut [u8; 512]) -> BlockTold
    ensures { TnsBlock (write_verdict number records.now) count_in block.old block.new result }
{
    tns::tns_block_write(number, records, block)
}

// Checks block `number` and writes its records, as `block_read::read_block`. A refused call writes
// nothing.
#[unsafe(no_mangle)]
pub extern "C" fn tns_block_read(number: u64, block: &[u8], records: &mut [u8; 480]) -> BlockTold
    ensures { TnsBlock (read_verdict number block.now) count_of records.old records.new result }
{
    tns::tns_block_read(number, block, records)
}

// Rescues a block as the one of this number, as `block_rescue::rescue_block`. A refused call writes
// nothing.
#[unsafe(no_mangle)]
pub extern "C" fn tns_block_rescue(number: u64, bytes: &[u8], block: &mut [u8; 512]) -> RescueTold
    ensures { TnsRescues number (take 512 bytes.now) block.old block.new result }
{
    tns::tns_block_rescue(number, bytes, block)
}
