// The laws of price rules, brought to builds: the function stands for a theorem, which is its contract.
ghost use Rattle.std.specs.Prelude.{ℕ};
ghost use Rattle.theory.specs.Names.{Name};
ghost use Rattle.price.specs.Rules.{rule_of, Costed};

use crate::rule::PriceRule;

/// Whatever numbers the names have: under a price rule every build's cost is one of the rule's costs, and the order by cost keeps the laws on builds.
pub fn laws_hold<R: PriceRule>(rule: &R)
    ensures { (number : Name → ℕ) → Costed R.fits (rule_of R.below R.alone R.one R.two rule.now number) }
{}
