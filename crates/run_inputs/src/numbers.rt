//! Numbers in the options of a program.

ghost use Rattle.std.specs.Prelude.{◌≡◌};
ghost use Rattle.run_inputs.specs.Numbers as numbers;

/// The most events of a run.
pub const MOST_EVENTS: u64 = 1_000_000_000;

/// The number that 1 to 10 decimal digits give, if it is from 1 to `most`.
pub fn number(digits: &str, most: u64) -> Option<u64>
    ensures number { result ≡ numbers.number digits.now most }
{
    if digits.len() > 10 || !are_digits(digits.as_bytes()) {
        return None;
    }
    match digits.parse::<u64>() {
        Ok(value) => {
            if value >= 1 && value <= most {
                Some(value)
            } else {
                None
            }
        }
        Err(_) => None,
    }
}

// Whether all bytes are decimal digits.
fn are_digits(bytes: &[u8]) -> bool
    ensures digits { result ≡ numbers.are_digits bytes.now }
{
    bytes.iter().all(|b| b.is_ascii_digit())
}
