// The lines of a text. A line ends at a line feed, and at nothing else.
ghost use Rattle.std.specs.Prelude.{◌≡◌, ◌<◌, length};
ghost use Rattle.std.specs.Iterator.{item_count};
ghost use Rattle.frames.specs.Lines.{part_before, part_after, LinesMakeTheText};
ghost use Rattle.frames.specs.Walks.{lines_left, GivesLine};

// What stands before the first separator of a text, and after it. A text without one stands before it as a whole.
pub fn cut_at<'a>(text: &'a [u8], separator: u8) -> (&'a [u8], &'a [u8])
    ensures before { result.0.now ≡ part_before separator text.now }
    ensures after { result.1.now ≡ part_after separator text.now }
    ensures shorter { 0 < length text.now → length result.1.now < length text.now }
{
    match text.iter().position(|c| *c == separator) {
        Some(end) => (&text[..end], &text[end + 1..]),
        None => (text, &[]),
    }
}

// A walk over the lines of a text.
#[derive(Clone, Copy)]
pub struct Lines<'a> {
    // what is still to come
    pub rest: &'a [u8],
}

impl<'a> Lines<'a> {
    // All lines of a text.
    pub fn new(text: &'a [u8]) -> Lines<'a>
        ensures { result.rest.now ≡ text.now }
    {
        Lines { rest: text }
    }
}

impl<'a> Iterator for Lines<'a> {
    type Item = &'a [u8];

    ghost next_gives = { GivesLine };

    ghost remaining = { item_count lines_left };

    // The next line, if there is one.
    fn next(&mut self) -> Option<&'a [u8]> {
        if self.rest.is_empty() {
            return None;
        }
        let (line, rest) = cut_at(self.rest, b'\n');
        self.rest = rest;
        Some(line)
    }
}

// The lines of a text, each with its line feed, make up the text.
pub fn lines_stand()
    ensures { LinesMakeTheText }
{}
