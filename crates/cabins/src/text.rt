// The text of a report, piece by piece.
ghost use Rattle.std.specs.Prelude.{◌≡◌, ◌++◌, Some, IfSome, OnOk};
ghost use Rattle.terms.specs.Numbers.{refusal_number};
ghost use Rattle.cabins.specs.Texts.{per_packet, cabin_text, site_line, unreadable_line, refusal_line};

use std::alloc::AllocError;
use std::fmt;
use terms::answer::Refusal;
use terms::tally::Tally;

// A figure as sendings for one packet, with two decimals.
#[derive(Clone, Copy)]
struct PerPacket(u64);

impl fmt::Display for PerPacket {
    ghost output = { λ p. Some (per_packet p.0) };

    fn fmt<W: fmt::Write>(&self, f: &mut fmt::Formatter<W>) -> fmt::Result {
        let whole = self.0 / 100;
        let hundredths = self.0 % 100;
        write!(f, "{whole}.{hundredths:02} sendings per packet")
    }
}

// What is told of a tally after the cabin's name.
#[derive(Clone, Copy)]
pub(crate) struct CabinText(pub(crate) Tally);

impl fmt::Display for CabinText {
    ghost output = { λ c. Some (cabin_text c.0) };

    fn fmt<W: fmt::Write>(&self, f: &mut fmt::Formatter<W>) -> fmt::Result {
        let packets = self.0.packets;
        let sendings = self.0.sendings;
        let figure = PerPacket(self.0.figure);
        writeln!(f, ": packets {packets}, sendings {sendings}, {figure}")
    }
}

// The line of the whole site, with its figure.
#[derive(Clone, Copy)]
pub(crate) struct SiteLine(pub(crate) u64);

impl fmt::Display for SiteLine {
    ghost output = { λ s. Some (site_line s.0) };

    fn fmt<W: fmt::Write>(&self, f: &mut fmt::Formatter<W>) -> fmt::Result {
        let figure = PerPacket(self.0);
        writeln!(f, "whole site: {figure}")
    }
}

// That a line cannot be read, with its number.
#[derive(Clone, Copy)]
pub(crate) struct UnreadableLine(pub(crate) usize);

impl fmt::Display for UnreadableLine {
    ghost output = { λ u. Some (unreadable_line u.0) };

    fn fmt<W: fmt::Write>(&self, f: &mut fmt::Formatter<W>) -> fmt::Result {
        let line = self.0;
        writeln!(
            f,
            "line {line} cannot be read: it should be a name, packets and sendings"
        )
    }
}

// That a list is refused.
#[derive(Clone, Copy)]
pub(crate) struct RefusalLine(pub(crate) Refusal);

impl fmt::Display for RefusalLine {
    ghost output = { λ r. Some (refusal_line (refusal_number r.0)) };

    fn fmt<W: fmt::Write>(&self, f: &mut fmt::Formatter<W>) -> fmt::Result {
        let refusal = self.0;
        writeln!(
            f,
            "{refusal}: a site has 1 to 400 cabins, and no count above 1099511627776"
        )
    }
}

// Appends the text of a value.
pub(crate) fn append<T: fmt::Display>(out: &mut Vec<u8>, value: &T) -> Result<(), AllocError>
    ensures { OnOk result (IfSome (T.output value.now) (λ text. out.new.items ≡ out.old.items ++ text)) }
{
    let text = value.to_string(*out.allocator())?;
    out.extend_from_slice(text.as_bytes())
}
