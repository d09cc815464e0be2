//! Numbers, as their digits write them.
ghost use Rattle.std.specs.Prelude.{◌≡◌, ◌≤◌, ◌^◌, ◌&&◌, nat_lt, None, Some, if◌then◌else◌};
ghost use Rattle.std.specs.Char.{is_digit};
ghost use Rattle.std.specs.List.{list_all};
ghost use Rattle.std.specs.Str.Parse.{digits_value};

/// The number that the digits write, if all are digits of the radix and it fits. There may be any number of
/// leading zeros.
pub(crate) fn number_of(digits: &[char], radix: u32) -> Option<u32>
    requires low { 2 ≤ radix }
    requires high { radix ≤ 36 }
    ensures { result ≡ (if list_all (λ c.
        is_digit c radix) digits.now && nat_lt (digits_value radix digits.now) (2 ^ 32) then Some
        (digits_value radix digits.now) else None) }
{
    let mut number = 0u32;
    for digit in digits {
        let digit = digit.to_digit(radix)?;
        number = number.checked_mul(radix)?.checked_add(digit)?;
    }
    Some(number)
}
