ghost use Rattle.std.specs.Prelude.{◌≤◌};

pub mod plan;

// A gap of 6 subframes in each period, or none where the period is 0: the numbers of a set-up and of its definition, which an Option would only translate there and back.
#[derive(Clone, Copy)]
pub struct Pattern {
    period: u8,
    // of the gap's first subframe
    offset: u8,
    ghost within: { offset ≤ period },
}
