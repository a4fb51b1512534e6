ghost use Rattle.std.specs.Prelude.{◌≡◌, true};
ghost use Rattle.ports.specs.Radio.{has_room};

use ports::radio::Radio;

// A radio that can take one more instruction. In clauses `.exit.0.now` is the radio that was lent, at the return.
#[derive(Drop)]
pub(crate) struct Roomy<'a, R: Radio> {
    pub(crate) radio: &'a mut R,
    ghost room: { has_room (R.radioed radio.now) ≡ true },
}
