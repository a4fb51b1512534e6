ghost use Rattle.std.specs.Prelude.{◌<◌};

mod requests;

use terms::process::Process;
use terms::setup::Setup;

// A HARQ process (TS 36.321, 5.4.2.2): what its cell was set up with, and its variables. CURRENT_TX_NB has room for one more.
#[derive(Clone, Copy)]
pub(crate) struct HarqProcess {
    pub(crate) setup: Setup,
    pub(crate) process: Process,
    ghost countable: { process.current_tx_nb < 255 },
}
