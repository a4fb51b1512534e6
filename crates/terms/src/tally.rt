// The tally of a cabin, as the site call takes it. The counts stand beside the figure and in no state::Tally, since callers write the fields: one in the other would ask them for more.
#[derive(Clone, Copy, PartialEq, Eq, Debug)]
pub struct Tally {
    // packets begun
    pub packets: u64,
    // sendings made
    pub sendings: u64,
    // sendings for each hundred packets: the site call writes it
    pub figure: u64,
}
