// The size of a rule's tree, counted in one pass over its bytes; specs/ says what a term counts. Assumes nothing.
// The bytes 0 to 3 begin a leaf, an application, an abstraction and a variable: document 01 and the definition `bytes` give these numbers.
#![tactic(auto)]

ghost use Rattle.std.specs.Prelude.{◌≡◌, ℕ, ◌-◌, ◌<◌, ◌≤◌, length, get_or, drop};
ghost use Rattle.calculus.specs.Bytes.{parse, rule};
ghost use Rattle.rule_size.specs.Weight.{leaf_weight, measured, size_of};

// What reading a term gives: the place after it, 0 where no term is, and what it counts towards the size of the tree. Two numbers come back in
// registers; an `Option` of them takes more than twice the stack for each level of a rule, and 1.3 to 1.4 times the time.
#[derive(Clone, Copy)]
struct Measured {
    next: usize,
    weight: usize,
}

// What a leaf counts under `depth` abstractions: each makes it five. Under many of them the library's `pow` takes longer.
fn leaf_weight(depth: usize) -> usize
    requires { depth ≤ 16 }
    ensures { result ≡ leaf_weight depth }
{
    let mut u = 1;
    for _ in 0..depth {
        u *= 5;
    }
    u
}

// No term.
fn nothing() -> Measured
    ensures { result ≡ record { next = 0; weight = 0 } }
{
    Measured { next: 0, weight: 0 }
}

// The leaf or the variable that starts at `at` under `depth` abstractions.
fn measure_atom(bytes: &[u8], at: usize, depth: usize) -> Measured
    requires { (at < length bytes.now) × (depth ≤ 16) × (get_or bytes.now at 0 ≡ 1 → ⊥) × (get_or bytes.now at 0 ≡ 2 → ⊥) }
    ensures { (n : ℕ) → length bytes.now - at ≤ n → result ≡ measured at depth (parse n depth (drop at bytes.now)) }
{
    let b = bytes[at];
    if b == 0 {
        return Measured {
            next: at + 1,
            weight: leaf_weight(depth),
        };
    }
    if b == 3 {
        if 1 < bytes.len() - at {
            let i = bytes[at + 1] as usize;
            if i < depth {
                return Measured {
                    next: at + 2,
                    weight: leaf_weight(depth) + 2 * leaf_weight(depth - 1 - i),
                };
            }
        }
    }
    nothing()
}

// The term that starts at `at` under `depth` abstractions. Its size is counted in the same pass; under 16 abstractions no count wraps.
fn measure(bytes: &[u8], at: usize, depth: usize) -> Measured
    requires { (length bytes.now ≤ 4096) × (depth ≤ 16) }
    ensures { (n : ℕ) → length bytes.now - at ≤ n → result ≡ measured at depth (parse n depth (drop at bytes.now)) }
{
    if bytes.len() <= at {
        return nothing();
    }
    let b = bytes[at];
    if b == 1 {
        let f = measure(bytes, at + 1, depth);
        let mid = f.next;
        if mid == 0 {
            return nothing();
        }
        let a = measure(bytes, mid, depth);
        if a.next == 0 {
            return nothing();
        }
        return Measured {
            next: a.next,
            weight: f.weight + a.weight,
        };
    }
    if b == 2 {
        if 16 <= depth {
            return nothing();
        }
        let t = measure(bytes, at + 1, depth + 1);
        if t.next == 0 {
            return nothing();
        }
        return Measured {
            next: t.next,
            weight: t.weight - 2 * leaf_weight(depth),
        };
    }
    measure_atom(bytes, at, depth)
}

// How many nodes the tree of the rule has; none where the bytes are no rule. Nothing is made, and no more is done than to read the bytes once.
pub fn rule_size(bytes: &[u8]) -> Option<usize>
    ensures { result ≡ size_of (rule bytes.now) }
{
    let n = bytes.len();
    if 4096 < n || n == 0 {
        return None;
    }
    if bytes[0] != 2 {
        return None;
    }
    let t = measure(bytes, 0, 0);
    if t.next == n {
        return Some(t.weight);
    }
    None
}
