// The gaps of a pattern.
ghost use Rattle.std.specs.Prelude.{◌≡◌};
ghost use Rattle.below.specs.Pattern.{pattern_covers, pattern_parts, pattern_set_up};

use crate::pattern::Pattern;
use ports::gap_plan::GapPlan;
use terms::answer::Refusal;

// The subframes of a gap.
const GAP: u128 = 6;

impl Pattern {
    // The pattern of a period, which is 40 or 80, or 0 where there are no gaps.
    pub fn new(period: u8, offset: u8) -> Result<Pattern, Refusal>
        ensures { pattern_parts result ≡ pattern_set_up period offset }
    {
        match (period, offset) {
            (0, 0) | (40, 0..40) | (80, 0..80) => Ok(Pattern { period, offset }),
            _ => Err(Refusal::GapPattern),
        }
    }
}

impl GapPlan for Pattern {
    ghost covered = { pattern_covers };

    fn covers(&self, subframe: u64) -> bool {
        let period = u128::from(self.period);
        let offset = u128::from(self.offset);
        period != 0 && (u128::from(subframe) + period - offset) % period < GAP
    }
}
