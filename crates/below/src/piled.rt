// A pile: two sources that are one.
ghost use Rattle.std.specs.Prelude.{◌≡◌};
ghost use Rattle.below.specs.Piled.{pile_offers, pile_used};

use ports::source::Source;

// A source over two: it offers what the first does, and where the first has none, what the second does. Only the one that fills is used.
#[derive(Drop)]
pub struct Piled<First, Second> {
    first: First,
    second: Second,
}

impl<First, Second> Piled<First, Second> {
    // The second source under the first.
    pub fn new(first: First, second: Second) -> Piled<First, Second>
        ensures { result ≡ record { first = first; second = second } }
    {
        Piled { first, second }
    }

    // The source that is asked first.
    pub fn first(&self) -> &First
        ensures { result.now ≡ self.now.first }
    {
        &self.first
    }

    // The source that is asked where the first has none.
    pub fn second(&self) -> &Second
        ensures { result.now ≡ self.now.second }
    {
        &self.second
    }
}

impl<First: Source, Second: Source> Source for Piled<First, Second> {
    ghost offers = { pile_offers First.Source.offers Second.Source.offers };

    ghost used = { pile_used First.Source.offers First.Source.used Second.Source.used };

    fn waits(&self, size: usize) -> bool {
        self.first.waits(size) || self.second.waits(size)
    }

    fn fill(&mut self, stretch: &mut [u8]) -> bool {
        self.first.fill(stretch) || self.second.fill(stretch)
    }
}
