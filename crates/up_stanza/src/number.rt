//! Decimal numbers.
ghost use Rattle.std.specs.Prelude.{◌≡◌, ◌≤◌, IfSome};
ghost use Rattle.std.specs.List.{list_all};
ghost use Rattle.up_stanza.specs.Numbers.{is_digit, are_digits, decimal_of, number_in};

#[tactic(auto, unfolding(crate::specs::Numbers::is_digit))]
fn is_digit(byte: u8) -> bool
    ensures { result ≡ is_digit byte }
{
    matches!(byte, b'0'..=b'9')
}

fn are_all_digits(bytes: &[u8]) -> bool
    ensures { result ≡ list_all is_digit bytes.now }
{
    bytes.iter().all(|byte| is_digit(*byte))
}

pub(crate) fn are_digits(text: &str) -> bool
    ensures { result ≡ are_digits text.now }
{
    !text.is_empty() && are_all_digits(text.as_bytes())
}

// `None` if the number doesn't fit in 64 bits.
fn value_of(text: &str) -> Option<u64>
    ensures { result ≡ decimal_of text.now }
{
    if !are_digits(text) {
        return None;
    }
    match text.parse::<u64>() {
        Ok(number) => Some(number),
        Err(_) => None,
    }
}

/// The decimal number that a text spells, or `None` if it isn't one from `low` to `high`.
#[tactic(auto, unfolding(crate::specs::Numbers::number_in))]
pub fn number_in(low: u64, high: u64, text: &str) -> Option<u64>
    ensures value { result ≡ number_in low high text.now }
    ensures range { IfSome result (λ number. (low ≤ number) × (number ≤ high)) }
{
    match value_of(text) {
        Some(number) => {
            if low <= number && number <= high {
                Some(number)
            } else {
                None
            }
        }
        None => None,
    }
}
