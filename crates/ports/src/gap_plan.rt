ghost use Rattle.std.specs.Prelude.{◌≡◌, ℕ, Bool};

// The measurement gaps: a set of subframes.
pub trait GapPlan {
    // whether a subframe lies in a gap
    ghost covered: { Self → ℕ → Bool };

    fn covers(&self, subframe: u64) -> bool
        ensures { result ≡ covered self.now subframe };
}
