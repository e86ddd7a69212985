// Counts of the five rules' uses in code: their sum, and the counts of two together. The definitions are in the crate `calculus`.
#![tactic(auto)]

ghost use Rattle.std.specs.Prelude.{◌≡◌, ◌+◌, ◌≤◌};
ghost use Rattle.calculus.specs.Uses.{◌⊕◌, steps};

use calculus::Uses;

// The steps that the counts are.
pub fn sum(uses: Uses) -> usize
    requires { steps uses ≤ 1000000 }
    ensures { result ≡ steps uses }
{
    uses.leaf + uses.stem + uses.drop + uses.spread + uses.triage
}

// The counts of both, rule by rule. A function, not an `impl Add for Uses`, since neither the trait nor the type is of this crate.
pub fn plus(a: Uses, b: Uses) -> Uses
    requires { steps a + steps b ≤ 1000000 }
    ensures { result ≡ a ⊕ b }
{
    Uses {
        leaf: a.leaf + b.leaf,
        stem: a.stem + b.stem,
        drop: a.drop + b.drop,
        spread: a.spread + b.spread,
        triage: a.triage + b.triage,
    }
}
