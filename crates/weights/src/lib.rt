// Weights as trees ([9]) as definitions, in specs/, and their theorems, in proofs/. The digits of a weight are read in the crate `weight_digits`; the
// operations that only read are in `weighing`, those that make nodes in `weight_nodes`.
#![tactic(auto)]

ghost use Rattle.weights.specs.Claims.{Decimal};

// The nine decimal digits of a weight, lowest first.
#[derive(Clone, Copy)]
pub struct Digits {
    pub digits: [usize; 9],
    pub ghost decimal: { Decimal digits },
}
