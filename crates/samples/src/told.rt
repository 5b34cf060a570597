// The answer of a call as one number, as the trials and benchmarks print it.
ghost use Rattle.std.specs.Prelude.{Some, decimal};
ghost use Rattle.samples.specs.Told.{told};

use std::fmt;
use text::cause::Layer;

/// What a call answered: a number, or a refusal, which goes by its own.
#[derive(Clone, Copy)]
pub struct Told(pub Result<usize, Layer>);

impl fmt::Display for Told {
    ghost output = { λ t. Some (decimal (told t.0)) };

    fn fmt<W: fmt::Write>(&self, f: &mut fmt::Formatter<W>) -> fmt::Result {
        let number = match self.0 {
            Ok(n) => n,
            Err(e) => usize::from(e.number()),
        };
        write!(f, "{number}")
    }
}
