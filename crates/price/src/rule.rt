// The price rule: what a shop says is cheap, and the laws that it keeps.
ghost use Rattle.std.specs.Prelude.{◌≡◌, ℕ, Bool};
ghost use Rattle.price.specs.Laws.{Order, Growth, Weight, Fitting};

/// The greatest number in a cost of the rules supplied here.
pub const STOP: u32 = u32::MAX;

/// A rule with a kind of cost of its own. Its meaning is fixed by what the rule holds now; a question alters nothing.
pub trait PriceRule: Sized {
    type Cost: Copy + Drop;

    // What the rule's costs are.
    ghost fits: { Self.Cost → Type 0 };

    // Whether the first cost is below the second.
    ghost below: { Self.Cost → Self.Cost → Bool };

    // The cost of a symbol alone, over one part's cost, over two parts' costs.
    ghost alone: { Self → ℕ → Self.Cost };

    ghost one: { Self → ℕ → Self.Cost → Self.Cost };

    ghost two: { Self → ℕ → Self.Cost → Self.Cost → Self.Cost };

    /// The cost of a symbol alone.
    fn cost_alone(&self, symbol: u32) -> Self::Cost
        ensures { result ≡ alone self.now symbol };

    /// The cost of a symbol over one part of the given cost.
    fn cost_one(&self, symbol: u32, part: Self::Cost) -> Self::Cost
        ensures { result ≡ one self.now symbol part };

    /// The cost of a symbol over two parts of the given costs.
    fn cost_two(&self, symbol: u32, left: Self::Cost, right: Self::Cost) -> Self::Cost
        ensures { result ≡ two self.now symbol left right };

    // Each rule says it, though it is `<` in the three supplied here: a rule may order its costs otherwise.
    /// Whether the first cost is below the second.
    fn is_below(&self, a: Self::Cost, b: Self::Cost) -> bool
        ensures { result ≡ below a b };

    // The laws, which each rule proves for itself: a default here would have to hold of every rule.
    ghost fitting: { Fitting fits alone one two };

    ghost order: { Order below };

    ghost growth: { Growth fits below one two };

    ghost weight: { Weight fits below one two };
}
