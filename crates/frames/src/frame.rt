// What a line of a trace says.
ghost use Rattle.std.specs.Prelude.{◌≡◌, ◌<◌, ◌⊎◌, MatchResult};
ghost use Rattle.terms.specs.declared.answer.Refusal.{Refusal};
ghost use Rattle.frames.specs.Codes.{code_number};

use terms::answer::Refusal;
use terms::grant::Grant;
use terms::process::Feedback;

// What a cell and its gap pattern are to be set up with. Any value can stand in any field, so the kind is a number and no CellKind: a line is a frame whatever it asks for.
#[derive(Clone, Copy)]
pub struct SetupFrame {
    pub kind: u8,
    pub max_harq_tx: u8,
    pub max_harq_msg3_tx: u8,
    pub interval: u16,
    pub start: u64,
    // of the measurement gaps
    pub period: u8,
    pub offset: u8,
}

// The code that a frame begins with.
#[derive(Clone, Copy, PartialEq, Eq, Debug)]
pub enum Code {
    Setup = 1,
    Subframe = 2,
    Deposit = 3,
    Withdrawal = 4,
    Packet = 5,
}

impl From<Code> for u8 {
    ghost from_gives = { λ code number. number ≡ code_number code };

    fn from(code: Code) -> u8 {
        code as u8
    }
}

// The code of a number from 1 to 5.
impl TryFrom<u8> for Code {
    type Error = Refusal;

    ghost try_from_gives = { λ number code. MatchResult code (λ c. number ≡ code_number c) (λ e. ((number ≡ 0) ⊎ (5 < number)) × (e ≡ Refusal.NotFrame)) };

    fn try_from(number: u8) -> Result<Code, Refusal> {
        match number {
            1 => Ok(Code::Setup),
            2 => Ok(Code::Subframe),
            3 => Ok(Code::Deposit),
            4 => Ok(Code::Withdrawal),
            5 => Ok(Code::Packet),
            _ => Err(Refusal::NotFrame),
        }
    }
}

// A deposit and a packet keep their digits as a part of the line.
#[derive(Clone, Copy)]
pub enum Frame<'a> {
    Setup(SetupFrame),
    Subframe {
        answer: Option<Feedback>,
        grant: Option<Grant>,
    },
    Deposit(&'a [u8]),
    Withdrawal,
    Packet(&'a [u8]),
}
