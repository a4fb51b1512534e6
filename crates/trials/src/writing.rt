// Frames, and the lines that they are written as. Refusals are compared by their numbers, which callers are promised.
use frames::frame::{Frame, SetupFrame};
use frames::write::write;
use std::process::Abort;
use terms::grant::Grant;
use terms::process::Feedback;

const SETUP: SetupFrame = SetupFrame {
    kind: 1,
    max_harq_tx: 2,
    max_harq_msg3_tx: 3,
    interval: 0x0405,
    start: 0x0607_0809_0a0b_0c0d,
    period: 14,
    offset: 15,
};

// A set-up with the largest number in each field.
const LARGEST: SetupFrame = SetupFrame {
    kind: 255,
    max_harq_tx: 255,
    max_harq_msg3_tx: 255,
    interval: 0xffff,
    start: 0xffff_ffff_ffff_ffff,
    period: 255,
    offset: 255,
};

const GRANT: Grant = Grant {
    kind: 3,
    ndi: 4,
    mcs: 5,
    version: 6,
    process: 7,
    repetitions: 8,
    resource: 0x090a,
    size: 0x0b0c,
};

// A frame is written as a text, and what stands behind it stays. A stretch that is shorter by one is refused, and stays.
fn writes(rt: &impl Abort, frame: Frame<'_>, text: &'static str) {
    let line = text.as_bytes();
    assert!(rt; 1 <= line.len() && line.len() < 40);
    let mut stretch = [b'x'; 40];
    assert_eq!(rt; write(&mut stretch, frame), Ok(line.len()), "{}", text);
    assert!(rt;
        &stretch[..line.len()] == line && &stretch[line.len()..] == &[b'x'; 40][line.len()..],
        "{}",
        text
    );
    let mut short = [b'x'; 40];
    let refused = write(&mut short[..line.len() - 1], frame).map_err(u8::from);
    assert_eq!(rt; refused, Err(17), "{}", text);
    assert!(rt; short == [b'x'; 40], "{}", text);
}

// A frame that no line reads as is refused, and the stretch stays.
fn refuses(rt: &impl Abort, frame: Frame<'_>, name: &'static str) {
    let mut stretch = [b'x'; 1300];
    assert_eq!(rt;
        write(&mut stretch, frame).map_err(u8::from),
        Err(17),
        "{}",
        name
    );
    assert!(rt; stretch == [b'x'; 1300], "{}", name);
}

fn subframe(answer: Option<Feedback>, grant: Option<Grant>) -> Frame<'static> {
    Frame::Subframe { answer, grant }
}

#[test]
fn written(rt: HostRuntime) {
    writes(&rt, Frame::Setup(SETUP), "010102030405060708090a0b0c0d0e0f");
    writes(
        &rt,
        Frame::Setup(LARGEST),
        "01ffffffffffffffffffffffffffffff",
    );
    writes(&rt, subframe(None, None), "0200");
    writes(&rt, subframe(Some(Feedback::Ack), None), "0201");
    writes(&rt, subframe(Some(Feedback::Nack), None), "0202");
    writes(&rt, subframe(None, Some(GRANT)), "0200030405060708090a0b0c");
    writes(
        &rt,
        subframe(Some(Feedback::Nack), Some(GRANT)),
        "0202030405060708090a0b0c",
    );
    writes(&rt, Frame::Deposit(b""), "03");
    writes(&rt, Frame::Deposit(b"c3d4"), "03c3d4");
    writes(&rt, Frame::Withdrawal, "04");
    writes(&rt, Frame::Packet(b"a1"), "05a1");
}

#[test]
fn refused(rt: HostRuntime) {
    refuses(&rt, Frame::Deposit(b"c3d"), "a deposit of three digits");
    refuses(&rt, Frame::Deposit(b"C3"), "a deposit in capitals");
    refuses(&rt, Frame::Packet(b""), "an empty packet");
    refuses(&rt, Frame::Packet(b"a1b"), "a packet of three digits");
    refuses(&rt, Frame::Packet(b"g0"), "a packet with another letter");
    refuses(&rt, Frame::Packet(&[b'0'; 1292]), "a packet of 646 bytes");
}

// The largest packet goes into 1,292 characters.
#[test]
fn largest_packet_line(rt: HostRuntime) {
    let packet = Frame::Packet(&[b'0'; 1290]);
    let mut short = [b'x'; 1291];
    assert_eq!(rt; write(&mut short, packet).map_err(u8::from), Err(17));
    assert!(rt; short == [b'x'; 1291]);
    let mut stretch = [b'x'; 1292];
    assert_eq!(rt; write(&mut stretch, packet), Ok(1292));
    assert!(rt; stretch[0] == b'0' && stretch[1] == b'5' && stretch[1291] == b'0');
}

// A deposit may be larger.
#[test]
fn large_deposit_line(rt: HostRuntime) {
    let mut stretch = [b'x'; 1295];
    assert_eq!(rt;
        write(&mut stretch, Frame::Deposit(&[b'1'; 1292])),
        Ok(1294)
    );
    assert!(rt; stretch[1] == b'3' && stretch[1293] == b'1' && stretch[1294] == b'x');
}
