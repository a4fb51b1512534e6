// The lines of a site's list, one for each cabin.
ghost use Rattle.std.specs.Prelude.{◌≡◌, IfOk};
ghost use Rattle.frames.specs.Lines.{lines_of};
ghost use Rattle.cabins.specs.Lists.{first_unreadable, tallies_of};

use crate::line::read_tally;
use frames::lines::Lines;
use std::alloc::{AllocError, Global};
use terms::tally::Tally;

// The number, from 1, of the first line that cannot be read, if there is one.
pub fn find_unreadable(input: &[u8]) -> Option<usize>
    ensures { result ≡ first_unreadable 1 (lines_of input.now) }
{
    Lines::new(input)
        .position(|line| read_tally(line).is_none())
        .map(|index| index + 1)
}

// The tallies of the lines that can be read, in their order.
pub fn read_tallies(heap: Global, input: &[u8]) -> Result<Vec<Tally>, AllocError>
    ensures { IfOk result (λ v. v.items ≡ tallies_of (lines_of input.now)) }
{
    Lines::new(input).filter_map(read_tally).collect(heap)
}
