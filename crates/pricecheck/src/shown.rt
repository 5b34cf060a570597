// What stands on the lines that the program writes.
use price::stock::Shortage;
use queue::Entry;
use std::fmt;
use text::cause::Layer;

// Beside `samples::told`, which tells what calls on a book answer: here pairs are shown as well.
/// A number, a refusal, which is written as its number, or two numbers.
#[derive(Clone, Copy)]
pub enum Shown {
    Number(u32),
    Refusal(Layer),
    Pair(u64, u64),
}

impl fmt::Display for Shown {
    fn fmt<W: fmt::Write>(&self, f: &mut fmt::Formatter<W>) -> fmt::Result {
        match self {
            Shown::Number(n) => write!(f, "{n}"),
            Shown::Refusal(layer) => write!(f, "{}", layer.number()),
            Shown::Pair(a, b) => write!(f, "({a}, {b})"),
        }
    }
}

impl From<u32> for Shown {
    fn from(n: u32) -> Shown {
        Shown::Number(n)
    }
}

impl From<bool> for Shown {
    fn from(holds: bool) -> Shown {
        Shown::Number(u32::from(holds))
    }
}

impl From<Result<u32, Layer>> for Shown {
    fn from(answer: Result<u32, Layer>) -> Shown {
        match answer {
            Ok(n) => Shown::Number(n),
            Err(layer) => Shown::Refusal(layer),
        }
    }
}

/// 0 for a grant.
impl From<Result<(), Layer>> for Shown {
    fn from(answer: Result<(), Layer>) -> Shown {
        answer.map(|()| 0).into()
    }
}

impl From<Shortage> for Shown {
    fn from(cost: Shortage) -> Shown {
        Shown::Pair(u64::from(cost.missing), u64::from(cost.names))
    }
}

// Two, and not one for any cost: which number of a cost is shown is written out. Zeros stand in the output that is compared.
/// The cost and the node, or zeros where none came.
impl From<Option<Entry<u32>>> for Shown {
    fn from(came: Option<Entry<u32>>) -> Shown {
        came.map_or(Shown::Pair(0, 0), |e| {
            Shown::Pair(u64::from(e.cost), e.node as u64)
        })
    }
}

/// What is missing and the node, or zeros where none came.
impl From<Option<Entry<Shortage>>> for Shown {
    fn from(came: Option<Entry<Shortage>>) -> Shown {
        came.map_or(Shown::Pair(0, 0), |e| {
            Shown::Pair(u64::from(e.cost.missing), e.node as u64)
        })
    }
}

impl From<(bool, bool)> for Shown {
    fn from(both: (bool, bool)) -> Shown {
        Shown::Pair(u64::from(both.0), u64::from(both.1))
    }
}
