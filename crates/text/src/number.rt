// The numbers that a field holds: four hexadecimal digits, or a decimal.
ghost use Rattle.std.specs.Prelude.{◌≡◌, ◌≤◌, IfSome};
ghost use Rattle.text.specs.Number.{hex_digit, decimal_digit, hex_of, zero_led, decimal_of};

// A decimal digit.
#[tactic(auto, using(crate::proofs::Choices::choices), unfolding(crate::specs::Number::decimal_digit))]
fn decimal_digit(b: u8) -> Option<u8>
    ensures { (result ≡ decimal_digit b) × IfSome result (λ d. d ≤ 9) }
{
    match b {
        b'0'..=b'9' => Some(b - b'0'),
        _ => None,
    }
}

// A hexadecimal digit, capitals.
#[tactic(auto, using(crate::proofs::Choices::choices), unfolding(crate::specs::Number::hex_digit, crate::specs::Number::decimal_digit))]
fn hex_digit(b: u8) -> Option<u8>
    ensures { (result ≡ hex_digit b) × IfSome result (λ d. d ≤ 15) }
{
    match b {
        b'A'..=b'F' => Some(b - b'A' + 10),
        _ => decimal_digit(b),
    }
}

// Four hexadecimal digits.
#[tactic(auto, using(crate::proofs::Choices::choices), unfolding(crate::specs::Number::hex_of))]
pub fn read_hex(field: &[u8]) -> Option<u16>
    ensures { result ≡ hex_of field.now }
{
    let [a, b, c, d] = field else {
        return None;
    };
    let high = hex_digit(*a)? * 16 + hex_digit(*b)?;
    let low = hex_digit(*c)? * 16 + hex_digit(*d)?;
    Some(u16::from_be_bytes([high, low]))
}

// A zero that leads other digits.
#[tactic(auto, using(crate::proofs::Choices::choices), unfolding(crate::specs::Number::zero_led))]
fn is_zero_led(field: &[u8]) -> bool
    ensures { result ≡ zero_led field.now }
{
    matches!(field, [b'0', _, ..])
}

// A decimal: at least one digit, no leading zero, and no twentieth digit.
#[tactic(auto, using(crate::proofs::Choices::choices, crate::proofs::NumberLaws::decimal_steps), unfolding(crate::specs::Number::decimal_of))]
pub fn read_decimal(field: &[u8]) -> Option<u64>
    ensures { result ≡ decimal_of field.now }
{
    if field.is_empty() || is_zero_led(field) {
        return None;
    }
    let mut n: u64 = 0;
    for b in field {
        let d = decimal_digit(*b)?;
        if n >= 1_000_000_000_000_000_000 {
            return None;
        }
        n = n * 10 + u64::from(d);
    }
    Some(n)
}
