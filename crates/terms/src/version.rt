// The two numbers of the redundancy version sequence 0, 2, 3, 1: a place in it, and what stands there. One-field structs and no enums: a grant brings every number, and the project asks for this form.
ghost use Rattle.std.specs.Prelude.{◌≡◌};
ghost use Rattle.terms.specs.Versions.{version_at, index_of, next_index};

// CURRENT_IRV: a place in the sequence. A value above 3 counts as the last place.
#[derive(Clone, Copy, PartialEq, Eq, Debug)]
pub struct Irv(pub u8);

// A redundancy version. A value above 3 counts as 1.
#[derive(Clone, Copy, PartialEq, Eq, Debug)]
pub struct RedundancyVersion(pub u8);

// The version at a place.
impl From<Irv> for RedundancyVersion {
    ghost from_gives = { λ index version. version ≡ version_at index };

    fn from(index: Irv) -> RedundancyVersion {
        match index.0 {
            0 => RedundancyVersion(0),
            1 => RedundancyVersion(2),
            2 => RedundancyVersion(3),
            _ => RedundancyVersion(1),
        }
    }
}

// The place of a version.
impl From<RedundancyVersion> for Irv {
    ghost from_gives = { λ version index. index ≡ index_of version };

    fn from(version: RedundancyVersion) -> Irv {
        match version.0 {
            0 => Irv(0),
            2 => Irv(1),
            3 => Irv(2),
            _ => Irv(3),
        }
    }
}

impl Irv {
    // The next place; after the last comes the first.
    pub fn next(self) -> Irv
        ensures { result ≡ next_index self }
    {
        Irv((self.0 % 4 + 1) % 4)
    }
}
