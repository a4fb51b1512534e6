// What a cell is set up with.
ghost use Rattle.std.specs.Prelude.{◌≡◌};
ghost use Rattle.std.specs.Option.{ok_or};
ghost use Rattle.terms.specs.declared.answer.Refusal.{Refusal};
ghost use Rattle.terms.specs.Numbers.{cell_kind_of};

use crate::answer::Refusal;

#[derive(Clone, Copy, PartialEq, Eq, Debug)]
pub enum CellKind {
    // synchronous, a process for each of eight subframes
    Plain,
    // synchronous, with TTI bundles of four subframes
    Bundled,
    // asynchronous: each grant names its process
    Asynchronous,
}

// The kind of a number, if there is one.
impl TryFrom<u8> for CellKind {
    type Error = Refusal;

    ghost try_from_gives = { λ number kind. kind ≡ ok_or (cell_kind_of number) Refusal.CellKind };

    fn try_from(number: u8) -> Result<CellKind, Refusal> {
        match number {
            0 => Ok(CellKind::Plain),
            1 => Ok(CellKind::Bundled),
            2 => Ok(CellKind::Asynchronous),
            _ => Err(Refusal::CellKind),
        }
    }
}

#[derive(Clone, Copy)]
pub struct Setup {
    pub kind: CellKind,
    // maxHARQ-Tx
    pub max_harq_tx: u8,
    // maxHARQ-Msg3Tx
    pub max_harq_msg3_tx: u8,
    // semiPersistSchedIntervalUL in subframes; 0 where there are no configured grants: the number that set-up takes and the rules compare with 10, which an Option would only translate there and back
    pub interval: u16,
    // the first subframe
    pub start: u64,
}
