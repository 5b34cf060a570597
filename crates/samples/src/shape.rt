// The shapes of full books, by their words: which names, nodes and equations are asked for.
ghost use Rattle.std.specs.Prelude.{◌≡◌, ◌≢◌, ◌-◌, ◌/◌, ◌<◌, MatchResult};
ghost use Rattle.book.specs.Entering.{asked};
ghost use Rattle.samples.specs.declared.shape.Shape.{Shape};
ghost use Rattle.samples.specs.Shapes.{word, nth_name, in_towers, in_chain, in_tree, node_asked, pair_asked, pair_of};

use book::id::{NodeId, Parts, Symbol};
use std::str::FromStr;

/// How the nodes of a full book stand over each other, and which are equated.
#[derive(Clone, Copy, Debug, PartialEq, Eq)]
pub enum Shape {
    /// Names alone, each equated to the first.
    Apart,
    /// Two towers of one name that collapse when their feet are equated.
    Towers,
    /// Names alone, each equated to the one before, from the last on.
    Falling,
    /// Each name over the node before, and no equations.
    Chain,
    /// Half of the nodes names alone, each other one over the next two that nothing stands over yet, and no equations.
    Tree,
}

/// A word that names no shape.
#[derive(Clone, Copy, Debug, PartialEq, Eq)]
pub struct UnknownShape;

// By `FromStr`, as a program's arguments are read, and no `Word`: nothing writes a shape's word.
impl FromStr for Shape {
    type Err = UnknownShape;

    ghost from_str_gives = { λ text r. MatchResult r (λ shape. text ≡ word shape) (λ e. (shape : Shape) → text ≢ word shape) };

    fn from_str(text: &str) -> Result<Shape, UnknownShape> {
        match text {
            "apart" => Ok(Shape::Apart),
            "towers" => Ok(Shape::Towers),
            "falling" => Ok(Shape::Falling),
            "chain" => Ok(Shape::Chain),
            "tree" => Ok(Shape::Tree),
            _ => Err(UnknownShape),
        }
    }
}

/// The i-th name: n and three letters.
pub(crate) fn spelling(i: usize) -> [u8; 4]
    ensures { result ≡ nth_name i }
{
    [
        b'n',
        b'a' + (i / 676 % 26) as u8,
        b'a' + (i / 26 % 26) as u8,
        b'a' + (i % 26) as u8,
    ]
}

// How many rows there are is passed beside the shape: a shape is a word of a command, and two of the five ask for the number.
impl Shape {
    /// What the i-th entering asks for.
    pub(crate) fn node(self, rows: usize, i: usize) -> (Symbol, Parts)
        requires { i < rows }
        ensures { asked result.0.0 result.1 ≡ node_asked self rows i }
    {
        match self {
            Shape::Apart | Shape::Falling => (Symbol(i), Parts::Zero),
            Shape::Towers => tower(i),
            Shape::Chain => chain(i),
            Shape::Tree => tree(rows, i),
        }
    }

    /// Which nodes the i-th equating asks for, if the shape has equations.
    pub(crate) fn pair(self, rows: usize, i: usize) -> Option<(NodeId, NodeId)>
        ensures { pair_of result ≡ pair_asked self rows i }
    {
        match self {
            Shape::Apart | Shape::Towers => Some((NodeId(0), NodeId(i))),
            Shape::Falling => {
                let last = rows.saturating_sub(1).saturating_sub(i);
                Some((NodeId(last.saturating_sub(1)), NodeId(last)))
            }
            Shape::Chain | Shape::Tree => None,
        }
    }
}

/// Two towers of one name, each node over the last but one.
fn tower(i: usize) -> (Symbol, Parts)
    ensures { asked result.0.0 result.1 ≡ in_towers i }
{
    if i < 2 {
        (Symbol(i), Parts::Zero)
    } else {
        (Symbol(0), Parts::One(NodeId(i - 2)))
    }
}

/// A name over the node before.
fn chain(i: usize) -> (Symbol, Parts)
    ensures { asked result.0.0 result.1 ≡ in_chain i }
{
    if i > 0 {
        (Symbol(i), Parts::One(NodeId(i - 1)))
    } else {
        (Symbol(i), Parts::Zero)
    }
}

/// Names alone at first, and then each over the next two nodes that nothing stands over yet.
fn tree(rows: usize, i: usize) -> (Symbol, Parts)
    requires { i < rows }
    ensures { asked result.0.0 result.1 ≡ in_tree (rows - rows / 2) i }
{
    let leaves = rows - rows / 2;
    if i < leaves {
        (Symbol(i), Parts::Zero)
    } else {
        let left = 2 * (i - leaves);
        (Symbol(i), Parts::Two(NodeId(left), NodeId(left + 1)))
    }
}
