// The text of an answer.
ghost use Rattle.std.specs.Prelude.{◌≡◌, ◌<◌, ◌++◌, OnOk};
ghost use Rattle.terms.specs.Sendings.{sending_of, told_of};
ghost use Rattle.slot.specs.Slots.{up_to_packet};
ghost use Rattle.trace.specs.Texts.{reply_bytes, line_text, slot_text, reply_text, refusal_text, setup_text, answer_text};

use crate::session::{Accepted, Answer};
use frames::frame::Code;
use hexadecimal::encode_onto;
use slot::heading_of;
use std::alloc::AllocError;
use terms::answer::{Outcome, Refusal, Reply};
use terms::instruction::Instruction;

// What the line of a refusal begins with.
const REFUSED: u8 = 255;

// Appends a line of bytes.
fn line_onto(out: &mut Vec<u8>, bytes: &[u8]) -> Result<(), AllocError>
    ensures { OnOk result (out.new.items ≡ out.old.items ++ line_text bytes.now) }
{
    encode_onto(out, bytes)?;
    out.push(b'\n')?;
    Ok(())
}

// The line of a reply; no From, since neither an array nor a Reply is a type of this crate.
fn bytes_of_reply(reply: Reply) -> [u8; 5]
    ensures { result ≡ reply_bytes reply }
{
    [
        Code::Subframe.into(),
        reply.outcome.into(),
        reply.process,
        reply.version.0,
        u8::from(reply.given_up),
    ]
}

// Appends the slot of an instruction, without the zeros beyond the packet.
fn slot_onto(out: &mut Vec<u8>, instruction: Instruction<'_>) -> Result<(), AllocError>
    ensures text { OnOk result (out.new.items ≡ out.old.items ++ slot_text (sending_of instruction.entry)) }
    ensures slot { OnOk result (out.new.items ≡ out.old.items ++ line_text (up_to_packet (sending_of instruction.entry))) }
{
    encode_onto(out, &heading_of(instruction))?;
    line_onto(out, instruction.packet)?;
    Ok(())
}

// Appends a reply and, after a sending, the slot of the latest instruction.
fn reply_onto(
    out: &mut Vec<u8>,
    reply: Reply,
    latest: Option<Instruction<'_>>,
) -> Result<(), AllocError>
    ensures { OnOk result (out.new.items ≡ out.old.items ++ reply_text reply (told_of latest.entry)) }
{
    line_onto(out, &bytes_of_reply(reply))?;
    if let (Outcome::Sent, Some(instruction)) = (reply.outcome, latest) {
        slot_onto(out, instruction)?;
    }
    Ok(())
}

// Appends a refusal.
pub(crate) fn refusal_onto(out: &mut Vec<u8>, refusal: Refusal) -> Result<(), AllocError>
    ensures { OnOk result (out.new.items ≡ out.old.items ++ refusal_text refusal) }
{
    line_onto(out, &[REFUSED, refusal.into()])
}

// Appends that a set-up was accepted.
pub(crate) fn setup_onto(out: &mut Vec<u8>) -> Result<(), AllocError>
    ensures { OnOk result (out.new.items ≡ out.old.items ++ setup_text) }
{
    line_onto(out, &[Code::Setup.into()])
}

// Appends an answer; the latest instruction of the radio goes with a sending.
pub(crate) fn answer_onto(
    out: &mut Vec<u8>,
    answer: Answer,
    latest: Option<Instruction<'_>>,
) -> Result<(), AllocError>
    ensures { OnOk result (out.new.items ≡ out.old.items ++ answer_text answer (told_of latest.entry)) }
{
    match answer {
        Ok(Accepted::Replied(reply)) => reply_onto(out, reply, latest),
        Ok(Accepted::Deposited) => line_onto(out, &[Code::Deposit.into()]),
        Ok(Accepted::Withdrawn) => line_onto(out, &[Code::Withdrawal.into()]),
        Ok(Accepted::Packet) => line_onto(out, &[Code::Packet.into()]),
        Err(refusal) => refusal_onto(out, refusal),
    }
}
