ghost use Rattle.std.specs.Prelude.{◌<◌, ◌^◌};

use terms::setup::Setup;

// A TTI of a cell: its subframe, and the HARQ process that the subframe belongs to.
#[derive(Clone, Copy)]
pub(crate) struct Tti {
    pub(crate) setup: Setup,
    // the subframe
    pub(crate) clock: u64,
    // the subframe lies in a measurement gap
    pub(crate) gap: bool,
    // the number of the process
    pub(crate) process: u8,
    ghost below_end: { clock < 2 ^ 48 },
    ghost one_of_eight: { process < 8 },
}
