// What a cell tells of itself.
ghost use Rattle.std.specs.Prelude.{◌≡◌};

use crate::cell::Cell;
use terms::state::Tally;

impl Cell {
    // Packets begun and sendings made since set-up.
    pub fn tally(&self) -> Tally
        ensures { result ≡ self.now.state.tally }
    {
        self.state.tally
    }

    // The subframe that comes next.
    pub fn clock(&self) -> u64
        ensures { result ≡ self.now.state.clock }
    {
        self.state.clock
    }
}
