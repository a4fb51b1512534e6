// A source of a kind of its own, and a caller of sources of any kind.
ghost use Rattle.std.specs.Prelude.{◌≡◌, ◌≤◌, true};
ghost use Rattle.trials.specs.Zeros.{zeros_offers};

use ports::source::Source;

// A source of zeros for every size from 1 up to a bound. Use leaves it as it is.
#[derive(Clone, Copy)]
pub struct Zeros {
    pub most: u8,
}

impl Source for Zeros {
    ghost offers = { λ z. zeros_offers z.most };

    ghost used = { λ z size. z };

    fn waits(&self, size: usize) -> bool {
        (1..=usize::from(self.most)).contains(&size)
    }

    fn fill(&mut self, stretch: &mut [u8]) -> bool {
        let waits = self.waits(stretch.len());
        if waits {
            stretch.fill(0);
        }
        waits
    }
}

// Whatever kind a source is, a packet that waits has at most 645 bytes.
pub fn asks(source: &dyn Source, size: usize) -> bool
    ensures { result ≡ true → size ≤ 645 }
{
    source.waits(size)
}
