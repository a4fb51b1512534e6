// A book of packets.
ghost use Rattle.std.specs.Prelude.{◌≡◌};
ghost use Rattle.below.specs.Book.{left, slice_bytes, first_record, waiting_for, book_offers, book_used, LiesIn};

use crate::stretch::lay;
use ports::source::Source;
use terms::instruction::{LONGEST_PACKET, is_packet_size};

// A source over records, each a length of two bytes, the higher first, and that many bytes: 1 to 645.
// The first record waits for every size from its length up to 645, with zeros after it.
// A wrong length or a cut record ends the book.
#[derive(Clone, Copy)]
pub struct Book<'a> {
    // the records that are not used yet
    rest: &'a [u8],
}

// The bytes of the record that stands first, if a whole one does.
fn first(bytes: &[u8]) -> Option<&[u8]>
    ensures { slice_bytes result ≡ first_record bytes.now }
{
    let (length, rest) = bytes.split_first_chunk::<2>()?;
    let packet = rest.get(..usize::from(u16::from_be_bytes(*length)))?;
    is_packet_size(packet.len()).then_some(packet)
}

impl<'a> Book<'a> {
    // A book of which nothing is used.
    pub fn new(records: &'a [u8]) -> Book<'a>
        ensures { left result ≡ records.now }
    {
        Book { rest: records }
    }

    // The bytes of the first record, if they wait for a size. They end in what is left.
    fn waiting_for(&self, size: usize) -> Option<&'a [u8]>
        ensures bytes { slice_bytes result ≡ waiting_for (first_record (left self.now)) size }
        ensures place { LiesIn self.now (slice_bytes result) }
    {
        let packet = first(self.rest)?;
        (packet.len() <= size && size <= LONGEST_PACKET).then_some(packet)
    }
}

impl Source for Book<'_> {
    ghost offers = { book_offers };

    ghost used = { book_used };

    fn waits(&self, size: usize) -> bool {
        self.waiting_for(size).is_some()
    }

    fn fill(&mut self, stretch: &mut [u8]) -> bool {
        let Some(packet) = self.waiting_for(stretch.len()) else {
            return false;
        };
        lay(stretch, packet);
        self.rest = &self.rest[2 + packet.len()..];
        true
    }
}
