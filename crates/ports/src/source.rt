ghost use Rattle.std.specs.Prelude.{◌≡◌, ℕ, List, length, is_some, Some, Option};
ghost use Rattle.std.specs.Option.{unwrap_or};
ghost use Rattle.ports.specs.Source.{FitsSize, source_after};

// Where the packets of new transmissions come from.
pub trait Source {
    // for each size the packet that waits, or none
    ghost offers: { Self → ℕ → Option (List ℕ) };

    // the source once the packet of a size was used
    ghost used: { Self → ℕ → Self };

    // Whether a packet waits for a size. One that does has that size, and the size is 1 to 645.
    fn waits(&self, size: usize) -> bool
        ensures answer { result ≡ is_some (offers self.now size) }
        ensures sizes { FitsSize size (offers self.now size) };

    // Writes the packet of the stretch's size into it, or says no and alters nothing.
    fn fill(&mut self, stretch: &mut [u8]) -> bool
        ensures sizes { FitsSize (length stretch.old) (offers self.old (length stretch.old)) }
        ensures answer { result ≡ is_some (offers self.old (length stretch.old)) }
        ensures bytes { stretch.new ≡ unwrap_or (offers self.old (length stretch.old)) stretch.old }
        ensures after { self.new ≡ source_after offers used self.old (Some (length stretch.old)) };
}
