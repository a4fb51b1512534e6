// The tallies of a site, one for each cabin.
ghost use Rattle.std.specs.Prelude.{◌≡◌, true, IfOk, MatchResult};
ghost use Rattle.site.specs.Figures.{IsFigure};
ghost use Rattle.site.specs.Sites.{is_site, site_answer, site_after, total_packets, total_sendings, all_figured, EachItsOwn};

use crate::figure::{Counts, counts_hold};
use terms::answer::Refusal;
use terms::tally::Tally;

// The most cabins of a site.
const MOST_CABINS: usize = 400;

// Whether tallies are those of a site: 1 to 400, with small enough counts.
fn is_site(tallies: &[Tally]) -> bool
    ensures { result ≡ is_site tallies.now }
{
    (1..=MOST_CABINS).contains(&tallies.len()) && tallies.iter().all(counts_hold)
}

// The packets and the sendings of all cabins together.
fn sum_up(tallies: &[Tally]) -> Counts
    requires { is_site tallies.now ≡ true }
    ensures packets { result.packets ≡ total_packets tallies.now }
    ensures sendings { result.sendings ≡ total_sendings tallies.now }
{
    Counts {
        packets: tallies.iter().map(|tally| tally.packets).sum(),
        sendings: tallies.iter().map(|tally| tally.sendings).sum(),
    }
}

// Writes each cabin's own figure into its tally.
fn write_figures(tallies: &mut [Tally])
    requires { is_site tallies.old ≡ true }
    ensures after { tallies.new ≡ all_figured tallies.old }
    ensures own { EachItsOwn tallies.old tallies.new }
{
    for tally in tallies.iter_mut() {
        tally.figure = Counts::of(tally).figure();
    }
}

// Writes each cabin's own figure into its tally, and returns the figure of the sums.
pub fn site_figure(tallies: &mut [Tally]) -> Result<u64, Refusal>
    ensures answer { result ≡ site_answer tallies.old }
    ensures after { tallies.new ≡ site_after tallies.old }
    ensures meaning { IfOk result (λ f. IsFigure (total_packets tallies.old) (total_sendings tallies.old) f) }
    ensures own { MatchResult result (λ _. EachItsOwn tallies.old tallies.new) (λ _. tallies.new ≡ tallies.old) }
{
    if !is_site(tallies) {
        return Err(Refusal::SiteList);
    }
    let site = sum_up(tallies);
    write_figures(tallies);
    Ok(site.figure())
}
