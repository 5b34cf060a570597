// The rule *steps*: how many symbols stand above one another, not counting the lowest.
ghost use Rattle.std.specs.Prelude.{◌+◌, ◌≤◌, max, nat_lt};
ghost use Rattle.price.specs.Stops.{stop, stopped};
ghost use Rattle.std.proofs.Common.{rules};

use crate::rule::PriceRule;

/// 0 for a symbol alone, else 1 more than the dearest part, at most STOP.
#[derive(Clone, Copy)]
pub struct Steps;

impl PriceRule for Steps {
    type Cost = u32;

    ghost fits = { λ a. a ≤ stop };

    ghost below = { λ a b. nat_lt a b };

    ghost alone = { λ _ _. 0 };

    ghost one = { λ _ _ a. stopped (a + 1) };

    ghost two = { λ _ _ a b. stopped (max a b + 1) };

    ghost fitting = { Prim.search rules };

    ghost order = { Prim.search rules };

    ghost growth = { Prim.search rules };

    ghost weight = { Prim.search rules };

    fn cost_alone(&self, symbol: u32) -> u32 {
        0
    }

    fn cost_one(&self, symbol: u32, part: u32) -> u32 {
        part.saturating_add(1)
    }

    fn cost_two(&self, symbol: u32, left: u32, right: u32) -> u32 {
        left.max(right).saturating_add(1)
    }

    fn is_below(&self, a: u32, b: u32) -> bool {
        a < b
    }
}
