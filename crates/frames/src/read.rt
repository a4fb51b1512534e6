// Reading the frame of a line. The first byte is the code; numbers of more bytes have the highest first.
//   01 set-up: kind, maxHARQ-Tx, maxHARQ-Msg3Tx, interval (2 bytes), start (8), gap period, gap offset
//   02 subframe: the answer (0 none, 1 ACK, 2 NACK), then nothing or a grant: kind, NDI, MCS, version, process,
//      repetitions, resource (2), size (2)
//   03 deposit: the bytes of a packet
//   04 withdrawal
//   05 packet: its 1 to 645 bytes
ghost use Rattle.std.specs.Prelude.{◌≡◌, ◌≤◌, length, drop, IfOk, Ok, slice_index};
ghost use Rattle.hexadecimal.specs.Hex.{decoded};
ghost use Rattle.frames.specs.Written.{line_of};
ghost use Rattle.frames.specs.Codes.{framed_as};
ghost use Rattle.frames.specs.Frames.{plain, plainly, reads, exactly, setup_in, grant_in, answer_of, granted_in, subframe_frame};

use crate::frame::{Code, Frame, SetupFrame};
use hexadecimal::{Decoded, byte_len, get_byte, is_whole};
use terms::answer::Refusal;
use terms::grant::Grant;
use terms::instruction::is_packet_size;
use terms::process::Feedback;

// The bytes of a line that has N of them.
fn bytes_of<const N: usize>(line: &[u8]) -> Result<[u8; N], Refusal>
    ensures { result ≡ exactly N (decoded line.now) }
{
    if byte_len(line) != N {
        return Err(Refusal::NotFrame);
    }
    let mut bytes = [0; N];
    // by place: what is written through a zip of iter_mut is not known afterwards
    for (k, byte) in Decoded::new(line).enumerate() {
        bytes[k] = byte;
    }
    Ok(bytes)
}

// The fields of a set-up.
fn setup(line: &[u8]) -> Result<SetupFrame, Refusal>
    ensures { result ≡ setup_in (decoded line.now) }
{
    let [
        _,
        kind,
        max_harq_tx,
        max_harq_msg3_tx,
        i0,
        i1,
        s0,
        s1,
        s2,
        s3,
        s4,
        s5,
        s6,
        s7,
        period,
        offset,
    ] = bytes_of::<16>(line)?;
    Ok(SetupFrame {
        kind,
        max_harq_tx,
        max_harq_msg3_tx,
        interval: u16::from_be_bytes([i0, i1]),
        start: u64::from_be_bytes([s0, s1, s2, s3, s4, s5, s6, s7]),
        period,
        offset,
    })
}

// The fields of a subframe's grant.
fn grant(line: &[u8]) -> Result<Grant, Refusal>
    ensures { result ≡ grant_in (decoded line.now) }
{
    let [
        _,
        _,
        kind,
        ndi,
        mcs,
        version,
        process,
        repetitions,
        r0,
        r1,
        s0,
        s1,
    ] = bytes_of::<12>(line)?;
    Ok(Grant {
        kind,
        ndi,
        mcs,
        version,
        process,
        repetitions,
        resource: u16::from_be_bytes([r0, r1]),
        size: u16::from_be_bytes([s0, s1]),
    })
}

// The answer of an answer byte; no TryFrom, since neither an Option nor a u8 is a type of this crate.
fn answer(code: u8) -> Result<Option<Feedback>, Refusal>
    ensures { result ≡ answer_of code }
{
    match code {
        0 => Ok(None),
        1 => Ok(Some(Feedback::Ack)),
        2 => Ok(Some(Feedback::Nack)),
        _ => Err(Refusal::NotFrame),
    }
}

// The grant of a subframe, if it has one.
fn granted(line: &[u8]) -> Result<Option<Grant>, Refusal>
    ensures { result ≡ granted_in (decoded line.now) }
{
    if byte_len(line) == 2 {
        return Ok(None);
    }
    Ok(Some(grant(line)?))
}

// The frame of a line of code 02.
fn subframe<'a>(line: &[u8]) -> Result<Frame<'a>, Refusal>
    ensures { plainly result ≡ subframe_frame (answer_of (slice_index (decoded line.now) 1)) (granted_in (decoded line.now)) }
{
    let code = get_byte(line, 1).ok_or(Refusal::NotFrame)?;
    Ok(Frame::Subframe {
        answer: answer(code)?,
        grant: granted(line)?,
    })
}

// The frame of a line with this code.
fn framed<'a>(code: Code, line: &'a [u8]) -> Result<Frame<'a>, Refusal>
    requires { 2 ≤ length line.now }
    ensures { plainly result ≡ framed_as code (decoded line.now) (drop 2 line.now) }
{
    let size = byte_len(line);
    let digits = &line[2..];
    match code {
        Code::Setup => Ok(Frame::Setup(setup(line)?)),
        Code::Subframe => subframe(line),
        Code::Deposit => Ok(Frame::Deposit(digits)),
        Code::Withdrawal if size == 1 => Ok(Frame::Withdrawal),
        Code::Packet if is_packet_size(size - 1) => Ok(Frame::Packet(digits)),
        Code::Withdrawal | Code::Packet => Err(Refusal::NotFrame),
    }
}

// The frame of a line, by its code.
fn frame_of<'a>(line: &'a [u8]) -> Result<Frame<'a>, Refusal>
    ensures { plainly result ≡ reads line.now }
{
    if !is_whole(line) {
        return Err(Refusal::NotHexadecimal);
    }
    let code = get_byte(line, 0).ok_or(Refusal::NotHexadecimal)?;
    framed(Code::try_from(code)?, line)
}

// The frame of a line: the one that is written as this line. A line that is empty, odd or not all digits is refused first, whatever its code.
pub fn read<'a>(line: &'a [u8]) -> Result<Frame<'a>, Refusal>
    ensures value { plainly result ≡ reads line.now }
    ensures line { IfOk result (λ f. line_of (plain f) ≡ Ok line.now) }
{
    frame_of(line)
}
