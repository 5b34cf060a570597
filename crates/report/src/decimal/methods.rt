// Digits made from a number, and lent as bytes for a field of a row.
ghost use Rattle.std.specs.Prelude.{◌≡◌, decimal};
ghost use Rattle.report.specs.Numbers.{shown};

use crate::decimal::Digits;
use itoa::write_digits;

impl From<usize> for Digits {
    ghost from_gives = { λ n d. shown d ≡ decimal n };

    /// The digits of `n`, with no zero in front but that of 0 itself.
    fn from(n: usize) -> Digits {
        let mut bytes = [b'0'; 20];
        let start = write_digits(n as u64, &mut bytes, 20);
        Digits { bytes, start }
    }
}

impl Digits {
    /// The digits as bytes, first digit first.
    pub fn as_bytes(&self) -> &[u8]
        ensures value { result.now ≡ shown self.now }
    {
        &self.bytes[self.start..]
    }
}
