// The forms of fields and of their parts. Each value has one form.
ghost use Rattle.std.specs.Prelude.{◌≡◌, ◌≢◌, ◌%◌, ◌<◌, ℕ, List, length, map, IfOk, OnOk, IfSome, IfNone};
ghost use Rattle.std.specs.List.{flat_map};
ghost use Rattle.std.specs.Char.{digit_char};
ghost use Rattle.answers.specs.Forms.{IsNoOctetsText, IsNoSamplesText, octet_text, octets_text, sample_octets, sample_of};

use arrayvec::{ArrayVec, CapacityError};
use replies::is_law;
use std::str::{FromStr, from_utf8};

// What is written in a form is read as a value of the type.
pub trait Form: Sized {
    fn read(text: &[u8]) -> Option<Self>;
}

impl Form for u8 {
    fn read(text: &[u8]) -> Option<u8> {
        number_in(text)
    }
}

impl Form for u16 {
    fn read(text: &[u8]) -> Option<u16> {
        number_in(text)
    }
}

impl Form for u32 {
    fn read(text: &[u8]) -> Option<u32> {
        number_in(text)
    }
}

// As many as a line can have. A call with lists is not inlined, so that the stack holds the lists of one call alone.
pub type Octets = ArrayVec<u8, 65536>;

pub type Samples = ArrayVec<i16, 32768>;

// What is written in a form of any length, for which there may be no room. It is put into the list in place of what was there, whole where
// that is answered.
pub trait Listed {
    // How it is written
    ghost text_of: { Self → List ℕ };

    fn read(text: &[u8], list: &mut Self) -> Result<Option<()>, CapacityError>
        ensures { IfOk result (λ read. IfSome read (λ _. text.now ≡ text_of list.new)) };
}

// Decimal digits with no zero before them
fn number_in<T: FromStr + Drop>(text: &[u8]) -> Option<T>
where
    T::Err: Drop,
{
    match text {
        [b'0'] | [b'1'..=b'9', ..] => from_utf8(text).ok()?.parse().ok(),
        _ => None,
    }
}

impl Form for bool {
    fn read(text: &[u8]) -> Option<bool> {
        match text {
            b"0" => Some(false),
            b"1" => Some(true),
            _ => None,
        }
    }
}

// 0 or 1
#[derive(Clone, Copy)]
pub struct Law(pub u8);

impl Form for Law {
    fn read(text: &[u8]) -> Option<Law> {
        let law = u8::read(text)?;
        is_law(law).then_some(Law(law))
    }
}

// A place in a text: sixteen hexadecimal digits
#[derive(Clone, Copy)]
pub struct Place(pub u64);

impl Form for Place {
    fn read(text: &[u8]) -> Option<Place> {
        if text.len() != 16 {
            return None;
        }
        let mut place = 0;
        for letter in text {
            place = place << 4 | u64::from(digit_of(*letter)?);
        }
        Some(Place(place))
    }
}

// Two hexadecimal digits for each octet, or - for none
impl Listed for Octets {
    ghost text_of = { λ octets. octets_text octets.items };

    fn read(text: &[u8], list: &mut Octets) -> Result<Option<()>, CapacityError>
        ensures list { IfOk result (λ read. IfSome read (λ _. text.now ≡ octets_text list.new.items)) }
        ensures none { IfOk result (λ read. IfNone read (IsNoOctetsText text.now)) }
    {
        list.clear();
        if matches!(text, b"-") {
            return Ok(Some(()));
        }
        let (pairs, rest) = text.as_chunks();
        if pairs.is_empty() || !rest.is_empty() {
            return Ok(None);
        }
        if list.capacity() < pairs.len() {
            return Err(CapacityError::new(()));
        }
        for pair in pairs {
            match octet_of(*pair) {
                Some(octet) => list.push(octet),
                None => return Ok(None),
            }
        }
        Ok(Some(()))
    }
}

// Two octets for each sample, the more significant one first
impl Listed for Samples {
    ghost text_of = { λ samples. octets_text (flat_map sample_octets samples.items) };

    fn read(text: &[u8], list: &mut Samples) -> Result<Option<()>, CapacityError>
        ensures list { IfOk result (λ read. IfSome read (λ _. text.now ≡ octets_text (flat_map sample_octets list.new.items))) }
        ensures none { IfOk result (λ read. IfNone read (IsNoSamplesText text.now)) }
    {
        let mut octets = Octets::new();
        match Listed::read(text, &mut octets)? {
            Some(()) => samples_in(&octets, list),
            None => Ok(None),
        }
    }
}

fn samples_in(octets: &[u8], list: &mut Samples) -> Result<Option<()>, CapacityError>
    ensures samples { IfOk result (λ read. IfSome read (λ _. octets.now ≡ flat_map sample_octets list.new.items)) }
    ensures none { IfOk result (λ read. IfNone read (length octets.now % 2 ≡ 1)) }
{
    let (pairs, rest) = octets.as_chunks();
    if !rest.is_empty() {
        return Ok(None);
    }
    samples_of(pairs, list)?;
    Ok(Some(()))
}

fn samples_of(pairs: &[[u8; 2]], list: &mut Samples) -> Result<(), CapacityError>
    ensures { OnOk result (list.new.items ≡ map sample_of pairs.now) }
{
    list.clear();
    if list.capacity() < pairs.len() {
        return Err(CapacityError::new(()));
    }
    for pair in pairs {
        list.push(i16::from_be_bytes(*pair));
    }
    Ok(())
}

fn octet_of(pair: [u8; 2]) -> Option<u8>
    ensures octet { IfSome result (λ octet. pair ≡ octet_text octet) }
    ensures none { IfNone result ((octet : ℕ) → octet < 256 → pair ≢ octet_text octet) }
{
    let [high, low] = pair;
    Some(16 * digit_of(high)? + digit_of(low)?)
}

// In lower case alone: char::to_digit reads capitals too
fn digit_of(letter: u8) -> Option<u8>
    ensures range { IfSome result (λ d. d < 16) }
    ensures digit { IfSome result (λ d. letter ≡ digit_char d) }
    ensures none { IfNone result ((d : ℕ) → d < 16 → letter ≢ digit_char d) }
{
    match letter {
        b'0'..=b'9' => Some(letter - b'0'),
        b'a'..=b'f' => Some(letter - b'a' + 10),
        _ => None,
    }
}

#[cfg(test)]
mod tests {
    use super::*;
    use std::test::Fail;

    // docs/ANSWERS.md: two digits for each octet, four for each sample, in two's complement, and - where there are none
    #[test]
    fn lists_are_read(rt: HostRuntime) -> Result<(), Fail> {
        let mut octets = Octets::new();
        Octets::read(b"00ff", &mut octets)?.ok_or("octets")?;
        assert_eq!(rt; octets.as_slice(), [0, 255].as_slice());
        Octets::read(b"-", &mut octets)?.ok_or("none")?;
        assert!(rt; octets.is_empty());
        let mut samples = Samples::new();
        Samples::read(b"fff01fff", &mut samples)?.ok_or("samples")?;
        assert_eq!(rt; samples.as_slice(), [-16, 8191].as_slice());
        assert!(rt; Samples::read(b"0f", &mut samples)?.is_none());
        Ok(())
    }
}
