//! Parses decimal numbers within bounds. Leading zeros are allowed; a plus sign is not.

ghost use Rattle.std.specs.Prelude.{◌≡◌, ◌≤◌, ◌<◌, ◌-◌, ◌^◌, min, true, IfSome, pos, neg_ℤ};
ghost use Rattle.std.specs.List.{list_all};
ghost use Rattle.std.specs.Char.{is_ascii_digit};
ghost use Rattle.std.specs.Str.Parse.{digits_value};
ghost use Rattle.acta_words.specs.Numerals.{is_numeral, read_natural, read_integer};

fn are_digits(word: &[u8]) -> bool
    ensures { result ≡ list_all is_ascii_digit word.now }
{
    word.iter().all(|byte| byte.is_ascii_digit())
}

fn is_numeral(word: &[u8]) -> bool
    ensures { result ≡ is_numeral word.now }
{
    !word.is_empty() && are_digits(word)
}

// The value of the digits, or `u64::MAX` if it is greater.
fn magnitude(digits: &[u8]) -> u64
    requires { list_all is_ascii_digit digits.now ≡ true }
    ensures { result ≡ min (digits_value 10 digits.now) (2 ^ 64 - 1) }
{
    let mut value = 0u64;
    for byte in digits {
        let digit = u64::from(byte.saturating_sub(b'0'));
        value = value.saturating_mul(10).saturating_add(digit);
    }
    value
}

// Parses a number from 0 to `most`.
fn natural(word: &[u8], most: u64) -> Option<u64>
    requires { most < 2 ^ 64 - 1 }
    ensures same { result ≡ read_natural most word.now }
    ensures bound { IfSome result (λ n. n ≤ most) }
{
    if !is_numeral(word) {
        return None;
    }
    let value = magnitude(word);
    if value <= most { Some(value) } else { None }
}

// Minus the value, which may be 2^63.
fn below_zero(value: u64) -> i64
    requires { value ≤ 2 ^ 63 }
    ensures { result ≡ neg_ℤ (pos value) }
{
    if value == 0 {
        return 0;
    }
    -((value - 1) as i64) - 1
}

// Parses a number from -bound to bound - 1, with an optional minus.
fn integer(word: &[u8], bound: u64) -> Option<i64>
    requires some { 0 < bound }
    requires fits { bound ≤ 2 ^ 63 }
    ensures { result ≡ read_integer bound word.now }
{
    if !word.is_empty() && word[0] == b'-' {
        return Some(below_zero(natural(&word[1..], bound)?));
    }
    Some(natural(word, bound - 1)? as i64)
}

/// Parses an unsigned 16-bit number.
pub fn read_u16(word: &[u8]) -> Option<u16>
    ensures { result ≡ read_natural 0xffff word.now }
{
    Some(natural(word, 0xffff)? as u16)
}

/// Parses an unsigned 32-bit number.
pub fn read_u32(word: &[u8]) -> Option<u32>
    ensures { result ≡ read_natural 0xffff_ffff word.now }
{
    Some(natural(word, 0xffff_ffff)? as u32)
}

/// Parses a signed 32-bit number, with an optional minus.
pub fn read_i32(word: &[u8]) -> Option<i32>
    ensures { result ≡ read_integer 0x8000_0000 word.now }
{
    Some(integer(word, 0x8000_0000)? as i32)
}

/// Parses a signed 64-bit number, with an optional minus.
pub fn read_i64(word: &[u8]) -> Option<i64>
    ensures { result ≡ read_integer 0x8000_0000_0000_0000 word.now }
{
    integer(word, 0x8000_0000_0000_0000)
}
