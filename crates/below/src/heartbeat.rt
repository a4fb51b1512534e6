// A heartbeat: a source that never runs out.
ghost use Rattle.std.specs.Prelude.{◌≡◌};
ghost use Rattle.below.specs.Heartbeat.{unit_waiting, heartbeat_offers, heartbeat_used};

use crate::stretch::lay;
use ports::source::Source;
use terms::instruction::LONGEST_PACKET;

// A source that offers its unit number, highest byte first, with zeros after it, for every size from 4 up to 645. Use leaves it as it is.
#[derive(Clone, Copy)]
pub struct Heartbeat {
    unit: u32,
}

impl Heartbeat {
    // The heartbeat of a unit.
    pub fn new(unit: u32) -> Heartbeat
        ensures { result.unit ≡ unit }
    {
        Heartbeat { unit }
    }

    // The unit's number, highest byte first, if it waits for a size.
    fn waiting_for(&self, size: usize) -> Option<[u8; 4]>
        ensures { result ≡ unit_waiting self.now.unit size }
    {
        let number = self.unit.to_be_bytes();
        (number.len() <= size && size <= LONGEST_PACKET).then_some(number)
    }
}

impl Source for Heartbeat {
    ghost offers = { heartbeat_offers };

    ghost used = { heartbeat_used };

    fn waits(&self, size: usize) -> bool {
        self.waiting_for(size).is_some()
    }

    fn fill(&mut self, stretch: &mut [u8]) -> bool {
        let Some(number) = self.waiting_for(stretch.len()) else {
            return false;
        };
        lay(stretch, &number);
        true
    }
}
