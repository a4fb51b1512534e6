// Writing the line of a frame. The bytes are those that read.rt tells.
ghost use Rattle.std.specs.Prelude.{◌≡◌, [], take, IfOk, Some, Ok, OnErr};
ghost use Rattle.frames.specs.Frames.{plain, reads};
ghost use Rattle.frames.specs.Trips.{SetupFits, GrantFits, FrameFits, NoLineFits};
ghost use Rattle.frames.specs.Written.{spelled, setup_bytes, answer_byte, subframe_bytes, is_packet, line_of, written, after_writing};

use crate::frame::{Code, Frame, SetupFrame};
use hexadecimal::{byte_len, encode_into, is_whole};
use terms::answer::Refusal;
use terms::grant::Grant;
use terms::instruction::is_packet_size;
use terms::process::Feedback;

// Writes bytes in hexadecimal, and then digits, to the front of a stretch. A stretch that is short stays as it was.
fn spell(stretch: &mut [u8], bytes: &[u8], digits: &[u8]) -> Result<usize, Refusal>
    ensures value { result ≡ written stretch.old (Ok (spelled bytes.now digits.now)) }
    ensures after { stretch.new ≡ after_writing stretch.old (Ok (spelled bytes.now digits.now)) }
{
    let room = stretch
        .len()
        .checked_sub(digits.len())
        .ok_or(Refusal::NotFrame)?;
    let end = encode_into(&mut stretch[..room], bytes).ok_or(Refusal::NotFrame)?;
    stretch[end..end + digits.len()].copy_from_slice(digits);
    Ok(end + digits.len())
}

// The bytes of a set-up; no From, since `<[u8; 16]>::from(setup)` would say less than this name.
fn setup_bytes(setup: SetupFrame) -> [u8; 16]
    ensures value { result ≡ setup_bytes setup }
    ensures fits { SetupFits setup }
{
    let [i0, i1] = setup.interval.to_be_bytes();
    let [s0, s1, s2, s3, s4, s5, s6, s7] = setup.start.to_be_bytes();
    [
        u8::from(Code::Setup),
        setup.kind,
        setup.max_harq_tx,
        setup.max_harq_msg3_tx,
        i0,
        i1,
        s0,
        s1,
        s2,
        s3,
        s4,
        s5,
        s6,
        s7,
        setup.period,
        setup.offset,
    ]
}

// The answer byte; no From, since neither an Option nor a u8 is a type of this crate.
fn answer_byte(answer: Option<Feedback>) -> u8
    ensures { result ≡ answer_byte answer }
{
    match answer {
        None => 0,
        Some(Feedback::Ack) => 1,
        Some(Feedback::Nack) => 2,
    }
}

// The bytes of a subframe with a grant; no From, since two values make them.
fn granted_bytes(answer: Option<Feedback>, grant: Grant) -> [u8; 12]
    ensures value { result ≡ subframe_bytes answer (Some grant) }
    ensures fits { GrantFits grant }
{
    let [r0, r1] = grant.resource.to_be_bytes();
    let [s0, s1] = grant.size.to_be_bytes();
    [
        u8::from(Code::Subframe),
        answer_byte(answer),
        grant.kind,
        grant.ndi,
        grant.mcs,
        grant.version,
        grant.process,
        grant.repetitions,
        r0,
        r1,
        s0,
        s1,
    ]
}

// Whether digits are those of a packet.
fn is_packet(digits: &[u8]) -> bool
    ensures { result ≡ is_packet digits.now }
{
    is_whole(digits) && is_packet_size(byte_len(digits))
}

// Writes the line of a frame, if it has one and there is room for it.
fn put(stretch: &mut [u8], frame: Frame<'_>) -> Result<usize, Refusal>
    ensures value { result ≡ written stretch.old (line_of (plain frame.entry)) }
    ensures after { stretch.new ≡ after_writing stretch.old (line_of (plain frame.entry)) }
    ensures fits { FrameFits (plain frame.entry) }
{
    match frame {
        Frame::Setup(setup) => spell(stretch, &setup_bytes(setup), &[]),
        Frame::Subframe {
            answer,
            grant: None,
        } => spell(
            stretch,
            &[u8::from(Code::Subframe), answer_byte(answer)],
            &[],
        ),
        Frame::Subframe {
            answer,
            grant: Some(grant),
        } => spell(stretch, &granted_bytes(answer, grant), &[]),
        Frame::Deposit(digits) if is_whole(digits) => spell(
            stretch,
            &[u8::from(Code::Deposit)],
            digits,
        ),
        Frame::Withdrawal => spell(stretch, &[u8::from(Code::Withdrawal)], &[]),
        Frame::Packet(digits) if is_packet(digits) => spell(
            stretch,
            &[u8::from(Code::Packet)],
            digits,
        ),
        Frame::Deposit(_) | Frame::Packet(_) => Err(Refusal::NotFrame),
    }
}

// Writes the line of a frame, without a line end, to the front of a stretch, and returns its length: what then stands there reads as that frame.
// It refuses a frame that no line reads as, and a line that is longer than the stretch; then the stretch stays as it was.
pub fn write(stretch: &mut [u8], frame: Frame<'_>) -> Result<usize, Refusal>
    ensures value { result ≡ written stretch.old (line_of (plain frame.entry)) }
    ensures after { stretch.new ≡ after_writing stretch.old (line_of (plain frame.entry)) }
    ensures back { IfOk result (λ n. reads (take n stretch.new) ≡ Ok (plain frame.entry)) }
    ensures refuses { OnErr result (NoLineFits stretch.old (plain frame.entry)) }
{
    put(stretch, frame)
}
