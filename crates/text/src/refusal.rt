// A refusal of a line, with its place, and the two texts that a line may stand in.
use crate::cause::Layer;

/// The text that a line stands in.
#[derive(Clone, Copy, Debug, PartialEq, Eq)]
pub enum Source {
    Log,
    Sheet,
}

/// Why a line is refused, and at which place of its text.
#[derive(Clone, Copy, Debug, PartialEq, Eq)]
pub struct Refusal {
    pub layer: Layer,
    pub place: usize,
}
