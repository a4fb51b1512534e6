// A mailbox: a radio that keeps only the latest instruction.
ghost use Rattle.std.specs.Prelude.{◌≡◌, ◌^◌, None};
ghost use Rattle.terms.specs.Sendings.{told_of};
ghost use Rattle.below.specs.Mailbox.{mailbox_radioed};

mod kept;

use crate::mailbox::kept::Kept;
use ports::radio::Radio;
use terms::instruction::Instruction;

// How many instructions a mailbox takes in all.
const CAPACITY: u64 = 1 << 48;

#[derive(Drop)]
pub struct Mailbox {
    // how many instructions were taken
    count: u64,
    // the latest of them
    latest: Option<Kept>,
}

impl Mailbox {
    // A mailbox that has taken nothing.
    pub fn new() -> Mailbox
        ensures { mailbox_radioed result ≡ record { count = 0; latest = None; capacity = 2 ^ 48 } }
    {
        Mailbox {
            count: 0,
            latest: None,
        }
    }

    // The latest instruction, if one was taken.
    pub fn latest(&self) -> Option<Instruction<'_>>
        ensures { told_of result ≡ (mailbox_radioed self.now).latest }
    {
        self.latest.as_ref().map(Kept::instruction)
    }
}

impl Radio for Mailbox {
    ghost radioed = { mailbox_radioed };

    ghost lender = { λ _. 0 };

    fn ready(&self) -> bool {
        self.count < CAPACITY
    }

    fn take(&mut self, instruction: Instruction<'_>) -> bool {
        if !self.ready() {
            return false;
        }
        let Some(kept) = Kept::of(instruction) else {
            return false;
        };
        self.count += 1;
        self.latest = Some(kept);
        true
    }
}
