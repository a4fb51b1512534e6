ghost use Rattle.std.specs.Prelude.{◌≡◌, ℕ, false};
ghost use Rattle.terms.specs.Sendings.{sending_of};
ghost use Rattle.ports.specs.Radio.{Radioed, has_room, accepts, after_take};

use terms::instruction::Instruction;

// What sends a packet on the air.
pub trait Radio {
    // the instructions taken, the latest of them, and how many can be taken in all
    ghost radioed: { Self → Radioed };

    // the ghost name of the bytes that the radio lies over, or 0 where it has its own: it never changes (a name is a number, and no Option, in the prover)
    ghost lender: { Self → ℕ };

    // Whether one more instruction can be taken.
    fn ready(&self) -> bool
        ensures { result ≡ has_room (radioed self.now) };

    // Takes an instruction, or refuses it and stays as it is.
    fn take(&mut self, instruction: Instruction<'_>) -> bool
        ensures answer { result ≡ accepts (radioed self.old) (sending_of instruction.entry) }
        ensures after { radioed self.new ≡ after_take (radioed self.old) (sending_of instruction.entry) }
        ensures refused { result ≡ false → self.new ≡ self.old }
        ensures lender { lender self.new ≡ lender self.old };
}
