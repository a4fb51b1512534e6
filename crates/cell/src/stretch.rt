ghost use Rattle.std.specs.Prelude.{◌<◌};

// A stretch of packet memory: one for each of eight processes, and one for the Msg3 buffer.
#[derive(Clone, Copy)]
pub(crate) struct Stretch {
    pub(crate) number: u8,
    ghost one_of_nine: { number < 9 },
}
