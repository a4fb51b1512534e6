// A line of a site's list: a cabin's name, its packets and its sendings, with a space between.
ghost use Rattle.std.specs.Prelude.{◌≡◌};
ghost use Rattle.cabins.specs.Entries.{word_of, number_of, tally_of, EntriesReadBack};

use frames::lines::cut_at;
use terms::tally::Tally;

// The number that a word of decimal digits writes; the largest there is where it would be larger. By its digits: parse takes a sign, and refuses what is too large.
fn read_number(word: &[u8]) -> Option<u64>
    ensures { result ≡ number_of word.now }
{
    if word.is_empty() {
        return None;
    }
    let mut number: u64 = 0;
    for digit in word {
        if !digit.is_ascii_digit() {
            return None;
        }
        number = number
            .saturating_mul(10)
            .saturating_add(u64::from(*digit - b'0'));
    }
    Some(number)
}

// The name that a line begins with.
pub(crate) fn name_of(line: &[u8]) -> &[u8]
    ensures { result.now ≡ word_of line.now }
{
    cut_at(line, b' ').0
}

// The tally of a line, if the line can be read.
pub fn read_tally(line: &[u8]) -> Option<Tally>
    ensures { result ≡ tally_of line.now }
{
    let (name, counts) = cut_at(line, b' ');
    if name.is_empty() {
        return None;
    }
    let (packets, sendings) = cut_at(counts, b' ');
    Some(Tally {
        packets: read_number(packets)?,
        sendings: read_number(sendings)?,
        figure: 0,
    })
}

// A line that is written of a name and two counts is read as these.
pub fn entries_stand()
    ensures { EntriesReadBack }
{}
