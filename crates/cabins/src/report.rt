// The whole report.
ghost use Rattle.std.specs.Prelude.{◌≡◌, ◌++◌, IfOk, OnOk};
ghost use Rattle.frames.specs.Lines.{lines_of};
ghost use Rattle.cabins.specs.Reports.{cabin_lines, site_report, report_of};

use crate::line::name_of;
use crate::list::{find_unreadable, read_tallies};
use crate::text::{CabinText, RefusalLine, SiteLine, UnreadableLine, append};
use frames::lines::Lines;
use site::tallies::site_figure;
use std::alloc::{AllocError, Global};
use terms::tally::Tally;

// Appends a line for each cabin, with its name from the list.
fn cabins_onto(out: &mut Vec<u8>, input: &[u8], tallies: &[Tally]) -> Result<(), AllocError>
    ensures { OnOk result (out.new.items ≡ out.old.items ++ cabin_lines (lines_of input.now) tallies.now) }
{
    for (line, tally) in Lines::new(input).zip(tallies) {
        out.extend_from_slice(name_of(line))?;
        append(out, &CabinText(*tally))?;
    }
    Ok(())
}

// Appends the report of a site with these tallies, or that they are refused.
fn report_onto(out: &mut Vec<u8>, input: &[u8], tallies: &mut [Tally]) -> Result<(), AllocError>
    ensures { OnOk result (out.new.items ≡ out.old.items ++ site_report (lines_of input.now) tallies.old) }
{
    match site_figure(tallies) {
        Ok(figure) => {
            cabins_onto(out, input, tallies)?;
            append(out, &SiteLine(figure))
        }
        Err(refusal) => append(out, &RefusalLine(refusal)),
    }
}

// The report of a site's list.
pub fn report(heap: Global, input: &[u8]) -> Result<Vec<u8>, AllocError>
    ensures { IfOk result (λ v. v.items ≡ report_of (lines_of input.now)) }
{
    let mut out = Vec::new(heap);
    if let Some(line) = find_unreadable(input) {
        append(&mut out, &UnreadableLine(line))?;
        return Ok(out);
    }
    let mut tallies = read_tallies(heap, input)?;
    report_onto(&mut out, input, &mut tallies)?;
    Ok(out)
}
