// Postfix symbols measured: how many bytes their term has, how many of them are abstractions, and how deep these nest. What the symbols mean is in the
// crate `grammar`; specs/ says what the functions ask and give in its terms. Assumes nothing.
#![tactic(auto)]

ghost use Rattle.std.specs.Prelude.{◌≡◌, ℕ, ◌≤◌, List, ◌++◌, length, take};
ghost use Rattle.grammar.specs.Expression.{Expression};
ghost use Rattle.grammar.specs.Postfix.{postfix, lead, total, abstractions};
ghost use Rattle.symbols.specs.Code.{NestsAsks, Nests};

use grammar::{ABSTRACTION, AND, APPLICATION, IMPLIES, LEAF, NOT, OR};

// How many bytes the term of symbols has, and how many of the symbols are abstractions.
#[derive(Clone, Copy)]
pub struct Sizes {
    pub bytes: usize,
    pub abstractions: usize,
}

// Where the symbols of a term begin, and how many abstractions nest in it.
#[derive(Clone, Copy)]
pub struct Nested {
    pub from: usize,
    pub depth: usize,
}

// How many bytes a symbol puts before its operands.
fn lead_size(s: u16) -> usize
    ensures { (result ≡ length (lead s)) × (result ≤ 44) }
{
    match s {
        AND | OR => 23,
        IMPLIES => 13,
        NOT => 44,
        APPLICATION | ABSTRACTION | LEAF => 1,
        _ => 2,
    }
}

// Measures the first `n` symbols.
pub fn measure(post: &[u16], n: usize) -> Sizes
    requires { (n ≤ length post.now) × (n ≤ 16384) }
    ensures { (result.bytes ≡ total (take n post.now)) × (result.abstractions ≡ abstractions (take n post.now)) }
{
    let mut bytes = 0;
    let mut count = 0;
    for &s in &post[..n] {
        bytes += lead_size(s);
        if s == ABSTRACTION {
            count += 1;
        }
    }
    Sizes {
        bytes,
        abstractions: count,
    }
}

// How many abstractions nest in the term whose symbols end at `p`.
pub fn nesting(post: &[u16], p: usize) -> Nested
    requires { NestsAsks post.now p }
    ensures { (e : Expression) (xs : List ℕ) → take p post.now ≡ xs ++ postfix e → Nests e xs result.from result.depth }
{
    match post[p - 1] {
        APPLICATION | AND | OR | IMPLIES => {
            let a = nesting(post, p - 1);
            let f = nesting(post, a.from);
            Nested {
                from: f.from,
                depth: a.depth.max(f.depth),
            }
        }
        ABSTRACTION => {
            let b = nesting(post, p - 1);
            Nested {
                from: b.from,
                depth: b.depth + 1,
            }
        }
        NOT => nesting(post, p - 1),
        _ => Nested {
            from: p - 1,
            depth: 0,
        },
    }
}
