// The two frame durations. Each keeps its own numbers as associated constants of its type: its first line,
// its longest spectrum and its weighting limit.
#![tactic(auto)]

ghost use Rattle.std.specs.Prelude.{◌≡◌};
ghost use Rattle.row_durations.specs.Durations.{duration_of, weighting_of, numbers_of};

// Constants of a type for each duration are the form that the project's rules ask for (docs/DECISIONS.md, "Language
// forms"). No trait: nothing takes a duration as a type, since each call learns it from a number.
#[derive(Clone, Copy)]
pub struct TenMs;

impl TenMs {
    // The first line that a filter may change.
    pub const FIRST_LINE: usize = 12;

    // The longest spectrum.
    pub const LONGEST: usize = 400;

    // From this number of bits on, reflection coefficients are not weighted.
    pub const WEIGHTING_LIMIT: u64 = 480;
}

#[derive(Clone, Copy)]
pub struct SevenPointFiveMs;

impl SevenPointFiveMs {
    // The first line that a filter may change.
    pub const FIRST_LINE: usize = 9;

    // The longest spectrum.
    pub const LONGEST: usize = 300;

    // From this number of bits on, reflection coefficients are not weighted.
    pub const WEIGHTING_LIMIT: u64 = 360;
}

#[derive(Clone, Copy, Debug, PartialEq, Eq)]
pub enum Duration {
    Ten,
    SevenPointFive,
}

// The duration of a code: 0 is 10 ms, and any other 7.5 ms. `check_frame` refuses codes over 1. It is no `From`,
// since such a code has no duration, and no `TryFrom`, since it does not fail.
pub fn duration_of(code: u8) -> Duration
    ensures { result ≡ duration_of code }
{
    if code == 0 {
        Duration::Ten
    } else {
        Duration::SevenPointFive
    }
}

// The longest spectrum of a duration. Like the limit below, it reads the constant of its own name off each type.
pub fn longest(duration: Duration) -> usize
    ensures { result ≡ (numbers_of duration).longest }
{
    match duration {
        Duration::Ten => TenMs::LONGEST,
        Duration::SevenPointFive => SevenPointFiveMs::LONGEST,
    }
}

fn weighting_limit(duration: Duration) -> u64
    ensures { result ≡ (numbers_of duration).weighting_limit }
{
    match duration {
        Duration::Ten => TenMs::WEIGHTING_LIMIT,
        Duration::SevenPointFive => SevenPointFiveMs::WEIGHTING_LIMIT,
    }
}

// The weighting of a frame of so many bits: E's `lpc_weighting`.
#[tactic(auto, unfolding(crate::specs::Durations::weighting_of))]
pub fn lpc_weighting(duration: Duration, nbits: u64) -> u8
    ensures { result ≡ weighting_of (numbers_of duration) nbits }
{
    u8::from(nbits < weighting_limit(duration))
}
