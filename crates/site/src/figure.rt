// The figure of a tally: sendings for each hundred packets.
ghost use Rattle.std.specs.Prelude.{◌≡◌, ◌*◌, ◌^◌, ◌≤◌, MatchResult};
ghost use Rattle.terms.specs.declared.answer.Refusal.{Refusal};
ghost use Rattle.site.specs.Figures.{IsFigure, FiguresPinned, figure_of, counts_hold, cabin_answer};

use terms::answer::Refusal;
use terms::tally::Tally;

// The largest count of a tally that a site takes: 2^40.
const LARGEST_COUNT: u64 = 1 << 40;

// The packets and the sendings of one cabin, or of a whole site. No state::Tally, whose counts have no bound.
#[derive(Clone, Copy)]
pub(crate) struct Counts {
    pub(crate) packets: u64,
    pub(crate) sendings: u64,
    ghost few: { sendings ≤ 400 * 2 ^ 40 },
}

impl Counts {
    // Those of a tally, which are small enough.
    pub(crate) fn of(tally: &Tally) -> Counts
        requires { tally.now.sendings ≤ 2 ^ 40 }
        ensures { (result.packets ≡ tally.now.packets) × (result.sendings ≡ tally.now.sendings) }
    {
        Counts {
            packets: tally.packets,
            sendings: tally.sendings,
        }
    }

    // Sendings for each hundred packets, rounded down, or 0 without packets: a figure is a number in every list and report, so it is no Option.
    pub(crate) fn figure(self) -> u64
        ensures value { result ≡ figure_of self.packets self.sendings }
        ensures meaning { IsFigure self.packets self.sendings result }
    {
        (100 * self.sendings).checked_div(self.packets).unwrap_or(0)
    }
}

// Whether both counts of a tally are small enough.
pub(crate) fn counts_hold(tally: &Tally) -> bool
    ensures { result ≡ counts_hold tally.now }
{
    tally.packets <= LARGEST_COUNT && tally.sendings <= LARGEST_COUNT
}

// The figure of one cabin.
pub fn cabin_figure(tally: &Tally) -> Result<u64, Refusal>
    ensures answer { result ≡ cabin_answer tally.now }
    ensures meaning { MatchResult result (λ f. IsFigure tally.now.packets tally.now.sendings f) (λ e. e ≡ Refusal.SiteList) }
{
    if !counts_hold(tally) {
        return Err(Refusal::SiteList);
    }
    Ok(Counts::of(tally).figure())
}

// There is one figure for two counts, and it is the one that is computed.
pub fn figures_stand()
    ensures { FiguresPinned }
{}
