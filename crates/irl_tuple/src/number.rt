ghost use Rattle.std.specs.Prelude.{◌≡◌, ◌≤◌, Some, None, if◌then◌else◌};
ghost use Rattle.std.specs.Char.{digit_value};
ghost use Rattle.irl_tuple.specs.Tuples.{is_digit_of, number_of, key_of, value_of};

/// The value of a digit, if it is one of this radix; a letter is one only in lower case.
fn digit(byte: u8, radix: u32) -> Option<u32>
    requires low { 2 ≤ radix }
    requires high { radix ≤ 36 }
    ensures { result ≡ (if is_digit_of radix byte then Some (digit_value byte) else None) }
{
    if byte.is_ascii_uppercase() {
        None
    } else {
        char::from(byte).to_digit(radix)
    }
}

/// The number that digits of this radix write, the highest first, if they are digits and it fits.
fn number(digits: &[u8], radix: u32) -> Option<u64>
    requires low { 2 ≤ radix }
    requires high { radix ≤ 36 }
    ensures { result ≡ number_of radix digits.now }
{
    let mut number = 0u64;
    for byte in digits {
        let digit = digit(*byte, radix)?;
        let shifted = number.checked_mul(u64::from(radix))?;
        number = shifted.checked_add(u64::from(digit))?;
    }
    Some(number)
}

/// The key that 1 to 16 lower-case hexadecimal digits write.
pub fn read_key(digits: &[u8]) -> Option<u64>
    ensures { result ≡ key_of digits.now }
{
    if digits.is_empty() || digits.len() > 16 {
        return None;
    }
    number(digits, 16)
}

/// The value that decimal digits write without a leading zero.
pub fn read_value(digits: &[u8]) -> Option<u64>
    ensures { result ≡ value_of digits.now }
{
    if digits != b"0".as_slice() && (digits.is_empty() || digits[0] == b'0') {
        return None;
    }
    number(digits, 10)
}
