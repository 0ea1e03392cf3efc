// The frequencies of T, `temporal_noise_shaping_tables.rs`, as the arithmetic coder takes them: how often an
// order or an index is expected, and the frequencies before it, added up. Every lookup takes any numbers
// and answers 0 outside its table.
#![tactic(auto)]

ghost use Rattle.std.specs.Prelude.{◌≡◌};
ghost use Rattle.cost_tables.specs.Tables.{cell, of_order};
ghost use Rattle.cost_frequencies.specs.Frequencies.{order_freq, order_cumfreq, coef_freq, coef_cumfreq};

use cost_tables::{cell, of_order};

const AC_TNS_ORDER_FREQ: [[u16; 8]; 2] = [
    [3, 9, 23, 54, 111, 190, 268, 366],
    [14, 42, 100, 157, 181, 178, 167, 185],
];

const AC_TNS_ORDER_CUMFREQ: [[u16; 8]; 2] = [
    [0, 3, 12, 35, 89, 200, 390, 658],
    [0, 14, 56, 156, 313, 494, 672, 839],
];

const AC_TNS_COEF_FREQ: [[u16; 17]; 8] = [
    [
        1, 5, 15, 31, 54, 86, 97, 120, 159, 152, 111, 104, 59, 22, 6, 1, 1,
    ],
    [
        1, 1, 1, 1, 13, 43, 94, 139, 173, 160, 154, 131, 78, 27, 6, 1, 1,
    ],
    [
        1, 1, 1, 1, 9, 43, 106, 199, 217, 210, 141, 74, 17, 1, 1, 1, 1,
    ],
    [1, 1, 1, 1, 2, 11, 49, 204, 285, 297, 120, 39, 9, 1, 1, 1, 1],
    [1, 1, 1, 1, 1, 7, 42, 241, 341, 314, 58, 9, 3, 1, 1, 1, 1],
    [1, 1, 1, 1, 1, 1, 13, 205, 366, 377, 47, 5, 1, 1, 1, 1, 1],
    [1, 1, 1, 1, 1, 1, 13, 281, 330, 371, 17, 1, 1, 1, 1, 1, 1],
    [1, 1, 1, 1, 1, 1, 5, 297, 1, 682, 26, 2, 1, 1, 1, 1, 1],
];

const AC_TNS_COEF_CUMFREQ: [[u16; 17]; 8] = [
    [
        0, 1, 6, 21, 52, 106, 192, 289, 409, 568, 720, 831, 935, 994, 1016, 1022, 1023,
    ],
    [
        0, 1, 2, 3, 4, 17, 60, 154, 293, 466, 626, 780, 911, 989, 1016, 1022, 1023,
    ],
    [
        0, 1, 2, 3, 4, 13, 56, 162, 361, 578, 788, 929, 1003, 1020, 1021, 1022, 1023,
    ],
    [
        0, 1, 2, 3, 4, 6, 17, 66, 270, 555, 852, 972, 1011, 1020, 1021, 1022, 1023,
    ],
    [
        0, 1, 2, 3, 4, 5, 12, 54, 295, 636, 950, 1008, 1017, 1020, 1021, 1022, 1023,
    ],
    [
        0, 1, 2, 3, 4, 5, 6, 19, 224, 590, 967, 1014, 1019, 1020, 1021, 1022, 1023,
    ],
    [
        0, 1, 2, 3, 4, 5, 6, 19, 300, 630, 1001, 1018, 1019, 1020, 1021, 1022, 1023,
    ],
    [
        0, 1, 2, 3, 4, 5, 6, 11, 308, 309, 991, 1017, 1019, 1020, 1021, 1022, 1023,
    ],
];

// Each function is one look, by `of_order` or `cell`, at a table of its own, and states which.

// How often an order is expected, in 1024ths.
pub fn order_freq(weighting: u8, order: u8) -> u16
    ensures { result ≡ of_order order_freq weighting order }
{
    of_order(&AC_TNS_ORDER_FREQ, weighting, order)
}

// The frequencies of the orders before it, added up.
pub fn order_cumfreq(weighting: u8, order: u8) -> u16
    ensures { result ≡ of_order order_cumfreq weighting order }
{
    of_order(&AC_TNS_ORDER_CUMFREQ, weighting, order)
}

// How often an index is expected at a place, in 1024ths.
pub fn coef_freq(place: u8, index: u8) -> u16
    ensures { result ≡ cell coef_freq place index }
{
    cell(&AC_TNS_COEF_FREQ, place as usize, index as usize)
}

// The frequencies of the indices before it, added up.
pub fn coef_cumfreq(place: u8, index: u8) -> u16
    ensures { result ≡ cell coef_cumfreq place index }
{
    cell(&AC_TNS_COEF_CUMFREQ, place as usize, index as usize)
}
