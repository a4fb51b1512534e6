// Tapes: what stands in the bytes, and a cell over a tape.
ghost use Rattle.std.specs.Prelude.{◌≡◌, if◌then◌else◌};
ghost use Rattle.terms.specs.Sendings.{sending_of};
ghost use Rattle.ports.specs.Radio.{accepts, after_take};
ghost use Rattle.below.specs.Tape.{bytes_radioed};

use crate::calls::GRANT;
use below::book::Book;
use below::pattern::Pattern;
use below::tape::Tape;
use cell::cell::Cell;
use ports::radio::Radio;
use std::test::Fail;
use terms::answer::Outcome;
use terms::instruction::Instruction;
use terms::version::RedundancyVersion;

// Two slots and a bit.
const LENGTH: usize = 1327;

// What stands in the bytes before.
const OLD: u8 = 0xee;

fn instruction(subframe: u64, packet: &[u8]) -> Instruction<'_> {
    Instruction {
        subframe,
        process: 3,
        version: RedundancyVersion(2),
        mcs: 28,
        resource: 0x1234,
        packet,
    }
}

// A stretch of the bytes from one place to another, and the byte that fills it.
#[derive(Clone, Copy)]
struct Filled {
    from: usize,
    to: usize,
    byte: u8,
}

// What stands behind the headings after two takes: a packet of two bytes and one of 645.
const FILLED: [Filled; 5] = [
    Filled {
        from: 16,
        to: 18,
        byte: 0xa1,
    },
    Filled {
        from: 18,
        to: 661,
        byte: 0,
    },
    Filled {
        from: 661,
        to: 668,
        byte: 0,
    },
    Filled {
        from: 677,
        to: 1322,
        byte: 0xb2,
    },
    Filled {
        from: 1322,
        to: 1327,
        byte: OLD,
    },
];

fn is_filled(bytes: &[u8], filled: Filled) -> bool {
    bytes
        .get(filled.from..filled.to)
        .is_some_and(|part| part.iter().all(|byte| *byte == filled.byte))
}

#[test]
fn two_slots_and_a_bit(rt: HostRuntime) -> Result<(), Fail> {
    let mut bytes = [OLD; LENGTH];
    let mut tape = Tape::new(&mut bytes);
    assert!(rt; tape.ready() && tape.count() == 0 && tape.instruction(0).is_none());
    assert!(rt; !tape.take(instruction(1, &[])) && !tape.take(instruction(1, &[7; 646])));
    assert!(rt; tape.count() == 0);
    assert!(rt; tape.take(instruction(0x0102_0304_0506_0708, &[0xa1; 2])));
    assert!(rt; tape.count() == 1 && tape.ready() && tape.instruction(1).is_none());
    assert!(rt; tape.take(instruction(9, &[0xb2; 645])));
    assert!(rt; tape.count() == 2 && !tape.ready());
    assert!(rt; !tape.take(instruction(10, &[0xc3])) && tape.count() == 2);
    let first = Instruction {
        subframe: 0x0102_0304_0506_0708,
        process: 3,
        version: RedundancyVersion(2),
        mcs: 28,
        resource: 0x1234,
        packet: &[0xa1; 2],
    };
    assert_eq!(rt; tape.instruction(0), Some(first));
    assert!(rt; tape.instruction(2).is_none());
    assert!(rt; bytes[0..16] == [1, 2, 3, 4, 5, 6, 7, 8, 3, 2, 28, 0, 0x12, 0x34, 0, 2]);
    assert!(rt; bytes[668..677] == [9, 3, 2, 28, 0, 0x12, 0x34, 2, 0x85]);
    for filled in FILLED {
        assert!(rt; is_filled(&bytes, filled));
    }
    Ok(())
}

// One byte short of a slot makes a tape that is full; a slot takes one instruction.
#[test]
fn one_slot(rt: HostRuntime) {
    let mut bytes = [OLD; 660];
    let mut tape = Tape::new(&mut bytes);
    assert!(rt; !tape.ready() && !tape.take(instruction(1, &[7])));
    assert!(rt; bytes == [OLD; 660] && !hand_to_tape(&mut bytes, instruction(1, &[7])));
    let mut slot = [OLD; 661];
    assert!(rt; hand_to_tape(&mut slot, instruction(1, &[7])) && slot[16] == 7 && slot[660] == 0);
}

// Hands an instruction to any radio.
fn hand<R: Radio>(radio: &mut R, instruction: Instruction<'_>) -> bool
    ensures answer { result ≡ accepts (R.radioed radio.old) (sending_of instruction.entry) }
    ensures after { R.radioed radio.new ≡ after_take (R.radioed radio.old) (sending_of instruction.entry) }
    ensures lender { R.lender radio.new ≡ R.lender radio.old }
{
    radio.take(instruction)
}

// Hands an instruction to a tape over some bytes, through code that knows no tape. The bytes then mean what a radio means that took it.
fn hand_to_tape(bytes: &mut [u8], instruction: Instruction<'_>) -> bool
    ensures { bytes_radioed bytes.new (if result then 1 else 0) ≡ after_take (bytes_radioed bytes.old 0) (sending_of instruction.entry) }
{
    let mut tape = Tape::new(bytes);
    hand(&mut tape, instruction)
}

#[test]
fn cell_over_tape(rt: HostRuntime) -> Result<(), Fail> {
    let mut cell = Cell::set_up(0, 3, 3, 0, 0)?;
    let gaps = Pattern::new(0, 0)?;
    let mut book = Book::new(&[0, 2, 0xa1, 0xb2]);
    let mut memory = [0; 5805];
    let mut bytes = [OLD; 662];
    let mut tape = Tape::new(&mut bytes);
    let reply = cell.subframe(&mut memory, &mut tape, &mut book, &gaps, None, Some(GRANT))?;
    assert!(rt; reply.outcome == Outcome::Sent);
    assert!(rt;
        bytes[0..19]
            == [
                0, 0, 0, 0, 0, 0, 0, 0, 0, 0, 5, 0, 0, 7, 0, 2, 0xa1, 0xb2, 0,
            ]
    );
    assert!(rt; bytes[660] == 0 && bytes[661] == OLD);
    Ok(())
}
