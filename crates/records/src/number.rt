// Decimal numbers in a field.
ghost use Rattle.std.specs.Prelude.{◌≡◌, ◌≤◌, Decides};
ghost use Rattle.records.specs.Numbers.{AllDigits, IsNumber, value};

/// Whether every byte is a digit.
fn all_digits(bytes: &[u8]) -> bool
    ensures { Decides result (AllDigits bytes.now) }
{
    bytes.iter().all(|b| b.is_ascii_digit())
}

/// Whether the bytes are a decimal number: 1 to 5 digits, no leading zero unless it is 0.
pub(crate) fn is_number(bytes: &[u8]) -> bool
    ensures { Decides result (IsNumber bytes.now) }
{
    if bytes.is_empty() || bytes.len() > 5 {
        return false;
    }
    (bytes[0] != b'0' || bytes.len() == 1) && all_digits(bytes)
}

/// What a decimal number says.
// A loop over the bytes: `parse` takes a text, and would leave two errors to handle that cannot be.
pub(crate) fn value_of(bytes: &[u8]) -> u32
    requires { IsNumber bytes.now }
    ensures { result ≡ value bytes.now }
{
    let mut total: u32 = 0;
    for b in bytes {
        total = total * 10 + (*b - b'0') as u32;
    }
    total
}

/// Whether the bytes are a decimal number that is at most `limit`.
pub(crate) fn is_number_to(bytes: &[u8], limit: u32) -> bool
    ensures { Decides result (IsNumber bytes.now × (value bytes.now ≤ limit)) }
{
    is_number(bytes) && value_of(bytes) <= limit
}
