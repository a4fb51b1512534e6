ghost use Rattle.std.specs.Prelude.{◌≡◌, true};
ghost use Rattle.std.proofs.Props.{props};
ghost use Rattle.rules.specs.Setup.{set_up_holds};
ghost use Rattle.rules.specs.Invariant.{Sound};

mod calls;
mod figures;
mod questions;

use terms::setup::Setup;
use terms::state::State;

// One serving cell: what it was set up with, what it keeps, and what always holds of these.
#[derive(Drop)]
pub struct Cell {
    setup: Setup,
    state: State,
    ghost accepted: { set_up_holds setup ≡ true },
    ghost sound: { Sound setup state } by { Prim.hlevel props },
}
