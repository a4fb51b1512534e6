// The book of a trace: a record of each packet line, in their order.
ghost use Rattle.std.specs.Prelude.{◌≡◌, ◌++◌, IfOk, OnOk};
ghost use Rattle.hexadecimal.specs.Hex.{decoded};
ghost use Rattle.frames.specs.Books.{record_in, record_of, book_of};
ghost use Rattle.frames.specs.Frames.{two_bytes};

use crate::frame::Frame;
use crate::lines::Lines;
use crate::read::read;
use hexadecimal::{byte_len, decode_onto};
use std::alloc::{AllocError, Global};

// A number in two bytes, the highest first. Slots state a length by the same expression, which is too short to share.
fn two_bytes(number: usize) -> [u8; 2]
    ensures { result ≡ two_bytes number }
{
    ((number % 0x1_0000) as u16).to_be_bytes()
}

// Appends the record of the packet of these digits.
fn packet_onto(book: &mut Vec<u8>, digits: &[u8]) -> Result<(), AllocError>
    ensures { OnOk result (book.new.items ≡ book.old.items ++ record_in (decoded digits.now)) }
{
    book.extend_from_slice(&two_bytes(byte_len(digits)))?;
    decode_onto(book, digits)
}

// Appends what a line adds to a book: the record of a packet line, and nothing for any other.
fn line_onto(book: &mut Vec<u8>, line: &[u8]) -> Result<(), AllocError>
    ensures { OnOk result (book.new.items ≡ book.old.items ++ record_of line.now) }
{
    if let Ok(Frame::Packet(digits)) = read(line) {
        packet_onto(book, digits)?;
    }
    Ok(())
}

// The book of the packet lines of a text.
pub fn book(heap: Global, input: &[u8]) -> Result<Vec<u8>, AllocError>
    ensures { IfOk result (λ v. v.items ≡ book_of input.now) }
{
    let mut records = Vec::new(heap);
    for line in Lines::new(input) {
        line_onto(&mut records, line)?;
    }
    Ok(records)
}
