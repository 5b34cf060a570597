// A fault: a refusal with the text and the line that it is of.
ghost use Rattle.std.specs.Prelude.{◌≡◌};
ghost use Rattle.text.specs.Causes.{number_of};

use crate::cause::Layer;
use crate::refusal::Source;

/// A refused line: its text, its line from 1 (0 where the whole text is refused), its refusal number, its place from 0 in that text, and its
/// layer with the cause.
#[derive(Clone, Copy, Debug, PartialEq, Eq)]
pub struct Fault {
    pub source: Source,
    pub line: u32,
    // A fault holds its number, so that who prints it needs no table; `new` makes it the cause's.
    pub number: u8,
    pub place: usize,
    pub layer: Layer,
}

impl Fault {
    /// A fault of a cause; its number is the cause's.
    pub fn new(source: Source, line: u32, place: usize, layer: Layer) -> Self
        ensures { result ≡ record { source = source; line = line; number = number_of layer; place = place; layer = layer } }
    {
        Fault {
            source,
            line,
            number: layer.number(),
            place,
            layer,
        }
    }
}
