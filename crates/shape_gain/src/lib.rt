// Gain, damping and the on/off answer of a filter, from lag 0 and the error that the recursion leaves, and
// those of a frame's two filters as numbers. E's float operations in E's order; a zero error is not divided by.
#![tactic(auto)]

ghost use Rattle.std.specs.Prelude.{◌≡◌};
ghost use Rattle.shape_gain.specs.Gain.{gain_of, is_on, damping_of, gain_record};
ghost use Rattle.shape_gain.specs.Gains.{absent_gain, gain_numbers, on_numbers};

// The record of a filter.
#[derive(Clone, Copy, Debug, PartialEq)]
pub struct FilterGain {
    pub gain: f32,
    pub damping: f32,
    pub on: bool,
}

// The records of a frame's two filters. Where the row has no second band, the second is that of
// `absent_gain`.
#[derive(Clone, Copy, Debug, PartialEq)]
pub struct Gains {
    pub first: FilterGain,
    pub second: FilterGain,
}

// The prediction gain. A zero error is not divided by.
#[tactic(auto, unfolding(crate::specs::Gain::gain_of))]
fn gain_of(r0: f32, error: f32) -> f32
    ensures { result ≡ gain_of r0 error }
{
    if error == 0.0 { r0 } else { r0 / error }
}

#[tactic(auto, unfolding(crate::specs::Gain::is_on))]
fn is_on(gain: f32, flag: bool) -> bool
    ensures { result ≡ is_on gain flag }
{
    gain > 1.5 && !flag
}

// The weighting is a number, here and above, as the side data, the 20 bytes and C have it: what is promised is promised of
// any, and only 1 weights.
#[tactic(auto, unfolding(crate::specs::Gain::damping_of))]
fn damping_of(gain: f32, on: bool, weighting: u8) -> f32
    ensures { result ≡ damping_of gain on weighting }
{
    if on && weighting == 1 && gain < 2.0 {
        1.0 - (1.0 - 0.85) * (2.0 - gain) / 0.5
    } else {
        1.0
    }
}

// The record of a filter with the near-Nyquist flag, whose lag 0 is `r0` and whose recursion leaves the error `error`.
#[tactic(auto, unfolding(crate::specs::Gain::gain_record))]
pub fn gain_record(r0: f32, error: f32, flag: bool, weighting: u8) -> FilterGain
    ensures { result ≡ gain_record r0 error flag weighting }
{
    let gain = gain_of(r0, error);
    let on = is_on(gain, flag);
    let damping = damping_of(gain, on, weighting);
    FilterGain { gain, damping, on }
}

// The record of a filter whose band the row does not have.
pub fn absent_gain() -> FilterGain
    ensures { result ≡ absent_gain }
{
    FilterGain {
        gain: 0.0,
        damping: 1.0,
        on: false,
    }
}

// Gain and damping of the first filter, then of the second.
pub fn gain_numbers(gains: Gains) -> [f32; 4]
    ensures { result ≡ gain_numbers gains }
{
    [
        gains.first.gain,
        gains.first.damping,
        gains.second.gain,
        gains.second.damping,
    ]
}

// Of each filter 1 if it is on, else 0.
pub fn on_numbers(gains: Gains) -> [u8; 2]
    ensures { result ≡ on_numbers gains }
{
    [u8::from(gains.first.on), u8::from(gains.second.on)]
}
