// Lower-case hexadecimal text and the bytes that it stands for. A digit is read by hand, since the library's reading takes capitals too.
#![tactic(auto)]

ghost use Rattle.std.specs.Prelude.{◌≡◌, ◌+◌, ◌*◌, ◌/◌, ◌<◌, ◌++◌, length, OnOk, nat_le, slice_get, slice_index};
ghost use Rattle.std.specs.Iterator.{YieldsFirst, item_count};
ghost use Rattle.hexadecimal.specs.Hex.{is_digit, digit_of, letter_of, digits_of, all_digits, whole, decoded, encoded, Partly, laid_length, laid, EncodedDecodes, DecodedEncodes, EncodedWhole, DecodedBytes};

use std::alloc::AllocError;

// Whether a character is a lower-case hexadecimal digit.
fn is_digit(character: u8) -> bool
    ensures { result ≡ is_digit character }
{
    matches!(character, b'0'..=b'9' | b'a'..=b'f')
}

// The value of a digit, and 0 for any other character: a text stands for bytes whatever its characters are, and an Option would be undone at each use.
fn digit(character: u8) -> u8
    ensures value { result ≡ digit_of character }
    ensures bound { result < 16 }
{
    match character {
        b'0'..=b'9' => character - b'0',
        b'a'..=b'f' => character - b'a' + 10,
        _ => 0,
    }
}

// The digit of a value below 16; by hand, since the library writes digits to a text that grows, and these go into a given stretch too.
fn letter(value: u8) -> u8
    requires { value < 16 }
    ensures { result ≡ letter_of value }
{
    if value < 10 {
        value + b'0'
    } else {
        value - 10 + b'a'
    }
}

// The byte of two digits.
fn byte_of(high: u8, low: u8) -> u8
    ensures { result ≡ digit_of high * 16 + digit_of low }
{
    digit(high) * 16 + digit(low)
}

// The two digits of a byte.
fn digits_of(byte: u8) -> [u8; 2]
    ensures { result ≡ digits_of byte }
{
    [letter(byte / 16), letter(byte % 16)]
}

fn all_digits(text: &[u8]) -> bool
    ensures { result ≡ all_digits text.now }
{
    text.iter().all(|character| is_digit(*character))
}

// Whether a text is whole bytes in lower-case hexadecimal.
pub fn is_whole(text: &[u8]) -> bool
    ensures { result ≡ whole text.now }
{
    text.len() % 2 == 0 && all_digits(text)
}

// How many bytes a text stands for.
pub fn byte_len(text: &[u8]) -> usize
    ensures value { result ≡ length (decoded text.now) }
    ensures half { result ≡ length text.now / 2 }
{
    text.len() / 2
}

// The byte at a place of a text, if there is one.
pub fn get_byte(text: &[u8], k: usize) -> Option<u8>
    ensures { result ≡ slice_get (decoded text.now) k }
{
    if k < byte_len(text) {
        Some(byte_of(text[2 * k], text[2 * k + 1]))
    } else {
        None
    }
}

// The byte at a place of a text, and 0 past the end. It stands beside get_byte since its promise is public.
pub fn byte_at(text: &[u8], k: usize) -> u8
    ensures { result ≡ slice_index (decoded text.now) k }
{
    get_byte(text, k).unwrap_or(0)
}

// A walk over the bytes of a text.
#[derive(Clone, Copy)]
pub struct Decoded<'a> {
    // the digits that are still to come
    pub text: &'a [u8],
}

impl<'a> Decoded<'a> {
    // All bytes of a text.
    pub fn new(text: &'a [u8]) -> Decoded<'a>
        ensures { result.text.now ≡ text.now }
    {
        Decoded { text }
    }
}

impl<'a> Iterator for Decoded<'a> {
    type Item = u8;

    ghost next_gives = { YieldsFirst (λ s. decoded s.text.now) };

    ghost remaining = { item_count (λ s. decoded s.text.now) };

    // The next byte, if there is one.
    fn next(&mut self) -> Option<u8> {
        let ([high, low], rest) = self.text.split_first_chunk::<2>()?;
        self.text = rest;
        Some(byte_of(*high, *low))
    }
}

// Appends the bytes of a text to a vector. Where memory runs out, a first part of them was appended.
pub fn decode_onto(v: &mut Vec<u8>, text: &[u8]) -> Result<(), AllocError>
    ensures all { OnOk result (v.new.items ≡ v.old.items ++ decoded text.now) }
    ensures part { Partly v.old.items (decoded text.now) v.new.items }
{
    for byte in Decoded::new(text) {
        v.push(byte)?;
    }
    Ok(())
}

// Appends bytes in hexadecimal to a vector. Where memory runs out, a first part of the text was appended.
pub fn encode_onto(v: &mut Vec<u8>, bytes: &[u8]) -> Result<(), AllocError>
    ensures all { OnOk result (v.new.items ≡ v.old.items ++ encoded bytes.now) }
    ensures part { Partly v.old.items (encoded bytes.now) v.new.items }
{
    for byte in bytes {
        v.extend_from_slice(&digits_of(*byte))?;
    }
    Ok(())
}

// Whether a stretch has room for the digits of some bytes.
fn has_room(stretch: &[u8], bytes: &[u8]) -> bool
    ensures { result ≡ nat_le (2 * length bytes.now) (length stretch.now) }
{
    bytes.len() <= stretch.len() / 2
}

// Writes bytes in hexadecimal to the front of a stretch, and returns the length of the text. A stretch that is short stays as it was.
pub fn encode_into(stretch: &mut [u8], bytes: &[u8]) -> Option<usize>
    ensures value { result ≡ laid_length stretch.old (encoded bytes.now) }
    ensures after { stretch.new ≡ laid stretch.old (encoded bytes.now) }
{
    if !has_room(stretch, bytes) {
        return None;
    }
    // by place: what is written through chunks_exact_mut is not known afterwards
    for (k, byte) in bytes.iter().enumerate() {
        stretch[2 * k..2 * k + 2].copy_from_slice(&digits_of(*byte));
    }
    Some(2 * bytes.len())
}

// Bytes in hexadecimal and hexadecimal text stand for each other.
pub fn coding_stands()
    ensures decodes { EncodedDecodes }
    ensures encodes { DecodedEncodes }
    ensures whole { EncodedWhole }
    ensures bytes { DecodedBytes }
{}
