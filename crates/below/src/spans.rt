// A span list: a gap plan of any gaps.
ghost use Rattle.std.specs.Prelude.{◌≡◌, true, false};
ghost use Rattle.below.specs.Spans.{span_covers, spans_cover, CoveredBySome, CoveredByNone};

use ports::gap_plan::GapPlan;

// The subframes from one up to before another; none where the second is not the larger.
#[derive(Clone, Copy)]
pub struct Span {
    pub from: u64,
    pub to: u64,
}

impl Span {
    // Whether a subframe lies in the span.
    pub fn covers(&self, subframe: u64) -> bool
        ensures { result ≡ span_covers self.now subframe }
    {
        self.from <= subframe && subframe < self.to
    }
}

// The gaps of a list of spans, in any order: they may touch, overlap or be empty.
#[derive(Clone, Copy)]
pub struct Spans<'a> {
    spans: &'a [Span],
}

impl<'a> Spans<'a> {
    // The gaps of these spans.
    pub fn new(spans: &'a [Span]) -> Spans<'a>
        ensures { result.spans.now ≡ spans.now }
    {
        Spans { spans }
    }
}

impl GapPlan for Spans<'_> {
    ghost covered = { λ s. spans_cover s.spans.now };

    fn covers(&self, subframe: u64) -> bool
        ensures computed { result ≡ spans_cover self.now.spans.now subframe }
        ensures some { result ≡ true → CoveredBySome self.now.spans.now subframe }
        ensures none { result ≡ false → CoveredByNone self.now.spans.now subframe }
        ensures every { CoveredBySome self.now.spans.now subframe → result ≡ true }
    {
        self.spans.iter().any(|span| span.covers(subframe))
    }
}
