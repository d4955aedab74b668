// The fields of a line, one space apart: keys with a value, and decimal numbers that have no needless zero.
ghost use Rattle.std.specs.Prelude.{◌≡◌, ℕ, List, IfSome};
ghost use Rattle.trace.specs.Numeral.{Says, Counted, signed_numeral};

use std::num::TryFromIntError;
use std::str;

// What is left of a line, none after its last field. No `Split` of a text: that would test the whole line for being text, where
// only numbers need it.
#[derive(Clone, Copy)]
pub struct Fields<'a>(Option<&'a [u8]>);

impl<'a> Fields<'a> {
    pub(crate) fn new(line: &'a [u8]) -> Fields<'a> {
        Fields(Some(line))
    }

    // The next field. No Iterator, whose laws no reader here needs.
    pub(crate) fn next(&mut self) -> Option<&'a [u8]> {
        let rest = self.0?;
        match rest.iter().position(|b| *b == b' ') {
            Some(end) => {
                self.0 = Some(&rest[end + 1..]);
                Some(&rest[..end])
            }
            None => {
                self.0 = None;
                Some(rest)
            }
        }
    }
}

// The number that digits say; none where there is a needless zero, or no digit.
#[tactic(auto, using(crate::proofs::Numerals::parsed))]
fn value_of(digits: &[u8]) -> Option<u64>
    ensures { Says digits.now result }
{
    let needless = digits.len() > 1 && digits.starts_with(b"0");
    if needless || !digits.iter().all(u8::is_ascii_digit) {
        return None;
    }
    str::from_utf8(digits).ok()?.parse().ok()
}

// The number that digits say, where its type has it.
pub fn number<T: TryFrom<u64, Error = TryFromIntError>>(digits: &[u8]) -> Option<T>
    ensures { Counted T.try_from_gives digits.now result }
{
    T::try_from(value_of(digits)?).ok()
}

// The number that digits say, below zero after a minus. There is no -0.
#[tactic(auto, using(crate::proofs::Numerals::signed_plain))]
pub fn signed(digits: &[u8]) -> Option<i64>
    ensures { IfSome result (λ z. z ≡ signed_numeral digits.now) }
{
    let Some(digits) = digits.strip_prefix(b"-") else {
        return number(digits);
    };
    match value_of(digits)? {
        0 => None,
        n => 0i64.checked_sub_unsigned(n),
    }
}

// What stands after a key, which has to be next.
pub fn text_at<'a>(fields: &mut Fields<'a>, key: &[u8]) -> Option<&'a [u8]> {
    fields.next()?.strip_prefix(key)
}

// The number after a key, which has to be next.
pub fn number_at<T: TryFrom<u64, Error = TryFromIntError>>(
    fields: &mut Fields<'_>,
    key: &[u8],
) -> Option<T>
    ensures { (digits : List ℕ) × Counted T.try_from_gives digits result }
{
    number(text_at(fields, key)?)
}
