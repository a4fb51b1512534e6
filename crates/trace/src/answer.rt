// The answer to a trace.
ghost use Rattle.std.specs.Prelude.{◌≡◌, take, IfOk};
ghost use Rattle.trace.specs.Answers.{answers};

use crate::session::Trace;
use frames::book::book;
use frames::lines::Lines;
use std::alloc::{AllocError, Global};

// How many bytes of a trace are read.
pub const LONGEST_TRACE: usize = 65536;

// The text of the answers to the first 65,536 bytes of a trace, line by line.
pub fn answer(heap: Global, input: &[u8]) -> Result<Vec<u8>, AllocError>
    ensures { IfOk result (λ v. v.items ≡ answers (take 65536 input.now)) }
{
    answer_all(heap, &input[0..input.len().min(LONGEST_TRACE)])
}

// The text of the answers to a whole text.
fn answer_all(heap: Global, input: &[u8]) -> Result<Vec<u8>, AllocError>
    ensures { IfOk result (λ v. v.items ≡ answers input.now) }
{
    let book = book(heap, input)?;
    let mut trace = Trace {
        records: book.as_slice(),
        session: None,
    };
    let mut out = Vec::new(heap);
    for line in Lines::new(input) {
        trace.answer_line(heap, line, &mut out)?;
    }
    Ok(out)
}
