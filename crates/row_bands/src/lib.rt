// The band rows: where the lines of each filter lie, for each duration and bandwidth. This layer knows no
// float arithmetic and refuses nothing.
#![tactic(auto)]

ghost use Rattle.std.specs.Prelude.{◌≡◌, [], get_or};
ghost use Rattle.row_bands.specs.Bands.{bands_of, row_of, last_stop};

use row_durations::{Duration, SevenPointFiveMs, TenMs};

// A band: its lines are those from start to stop, stop not included. Two cuts make three subbands.
#[derive(Clone, Copy, Debug, Default, PartialEq, Eq)]
pub struct Band {
    pub start: usize,
    pub first_cut: usize,
    pub second_cut: usize,
    pub stop: usize,
}

// The bands of the two filters. Where a band starts and stops at 0, there is no band. It is no Option: `row_of`
// here and `asked_band` of call_band promise a band at 0 to 0 there (`row_of`, `no_band` of specs/Bands).
#[derive(Clone, Copy, Debug, PartialEq, Eq)]
pub struct Row {
    pub first: Band,
    pub second: Band,
}

// Start, cuts and stop of the first band and of the second, a row for each bandwidth.
const TEN_MS_ROWS: [[usize; 8]; 5] = [
    [TenMs::FIRST_LINE, 34, 57, 80, 0, 0, 0, 0],
    [TenMs::FIRST_LINE, 61, 110, 160, 0, 0, 0, 0],
    [TenMs::FIRST_LINE, 88, 164, 240, 0, 0, 0, 0],
    [TenMs::FIRST_LINE, 61, 110, 160, 160, 213, 266, 320],
    [TenMs::FIRST_LINE, 74, 137, 200, 200, 266, 333, 400],
];

const SEVEN_POINT_FIVE_MS_ROWS: [[usize; 8]; 5] = [
    [SevenPointFiveMs::FIRST_LINE, 26, 43, 60, 0, 0, 0, 0],
    [SevenPointFiveMs::FIRST_LINE, 46, 83, 120, 0, 0, 0, 0],
    [SevenPointFiveMs::FIRST_LINE, 66, 123, 180, 0, 0, 0, 0],
    [
        SevenPointFiveMs::FIRST_LINE,
        46,
        82,
        120,
        120,
        159,
        200,
        240,
    ],
    [
        SevenPointFiveMs::FIRST_LINE,
        56,
        103,
        150,
        150,
        200,
        250,
        300,
    ],
];

fn bands_of(row: [usize; 8]) -> Row
    ensures { result ≡ bands_of row }
{
    let first = Band {
        start: row[0],
        first_cut: row[1],
        second_cut: row[2],
        stop: row[3],
    };
    let second = Band {
        start: row[4],
        first_cut: row[5],
        second_cut: row[6],
        stop: row[7],
    };
    Row { first, second }
}

// The row of a table, and none past its last. Each bandwidth is a literal in its arm, so that the
// compiler keeps the table as a constant and does not write it out at each call.
fn row_in(table: [[usize; 8]; 5], bandwidth: u8) -> Row
    ensures { result ≡ bands_of (get_or table bandwidth []) }
{
    match bandwidth {
        0 => bands_of(table[0]),
        1 => bands_of(table[1]),
        2 => bands_of(table[2]),
        3 => bands_of(table[3]),
        4 => bands_of(table[4]),
        _ => bands_of([0; 8]),
    }
}

// The bands of a duration and a bandwidth from 0 to 4, and none at any other.
pub fn row_of(duration: Duration, bandwidth: u8) -> Row
    ensures { result ≡ row_of duration bandwidth }
{
    match duration {
        Duration::Ten => row_in(TEN_MS_ROWS, bandwidth),
        Duration::SevenPointFive => row_in(SEVEN_POINT_FIVE_MS_ROWS, bandwidth),
    }
}

// Where the last band of a row ends.
pub fn last_stop(row: Row) -> usize
    ensures { result ≡ last_stop row }
{
    row.first.stop.max(row.second.stop)
}
