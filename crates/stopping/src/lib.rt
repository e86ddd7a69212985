// Where a run stopped as a definition, in specs/, and its theorems, in proofs/: the rule wanted is the next use by the five rules, the thing named is the
// first that it lacked, and one more of it carries the run past that check. The code is in the crates `stages`, `teller` and `stops`; here a kind prints as its
// name.
#![tactic(auto)]

ghost use Rattle.std.specs.Prelude.{Some, codes};
ghost use Rattle.stopping.specs.declared.Kind.TheVariants.{Leaf, Stem, Drop, Spread, Triage};

use std::fmt;
use table::Refusal;

// Which of the five rules.
#[derive(Clone, Copy)]
pub enum Kind {
    Leaf,
    Stem,
    Drop,
    Spread,
    Triage,
}

impl fmt::Display for Kind {
    ghost output = { λ k. Some (elim k [ Leaf ↦ codes "leaf" | Stem ↦ codes "stem" | Drop ↦ codes "drop" | Spread ↦ codes "spread" | Triage ↦ codes "triage" ]) };

    fn fmt<W: fmt::Write>(&self, f: &mut fmt::Formatter<W>) -> fmt::Result {
        match self {
            Kind::Leaf => write!(f, "leaf"),
            Kind::Stem => write!(f, "stem"),
            Kind::Drop => write!(f, "drop"),
            Kind::Spread => write!(f, "spread"),
            Kind::Triage => write!(f, "triage"),
        }
    }
}

// What `stopped` answers: for a stop while applying Run's refusal, the argument's place from 1, the steps of the whole run and the rule wanted; for every
// other outcome Run's number alone.
#[derive(Clone, Copy)]
pub enum Stopped {
    Applying {
        refusal: Refusal,
        place: usize,
        steps: usize,
        rule: Kind,
    },
    Refused(Refusal),
    Completed,
}
