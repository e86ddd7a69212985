// What stands between two operands of an expression, and the operators that it completes: words to postfix symbols. The grammar and its reader are in
// the crate `grammar`; specs/ says what the functions ask and give in its terms. Assumes nothing.
#![tactic(auto)]

ghost use Rattle.std.specs.Prelude.{List, ◌++◌, ℕ, ◌+◌, ◌≤◌, length, replicate};
ghost use Rattle.std.proofs.Math.Option.{Option};
ghost use Rattle.grammar.specs.Expression.{Expression};
ghost use Rattle.grammar.specs.Reader.{Unclosed};
ghost use Rattle.table.specs.Wrote.{Wrote};
ghost use Rattle.operators.specs.Code.{JointAt, Bangs, Begun, AfterAsks, Afters};

use grammar::{AMPERSAND, AND, APPLICATION, ARROW, BANG, BAR, CLOSING, IMPLIES, NOT, OR, STOP};

// What stands after an application.
#[derive(Clone, Copy)]
pub enum Joint {
    Operand,
    End,
    And,
    Or,
    Arrow,
}

// The place of an operand and of its symbols, and how many operators wait for it.
#[derive(Clone, Copy)]
pub struct Waiting {
    pub at: usize,
    pub end: usize,
    pub implies: usize,
    pub ors: usize,
    pub ands: usize,
    pub nots: usize,
    pub apps: usize,
}

// What is next after an operand: another one, or the end of the expression and of its symbols.
#[derive(Clone, Copy)]
pub enum Step {
    More(Waiting),
    Done(usize),
}

// So many symbols from `w` on; the place after them.
pub fn put(post: &mut [u16], w: usize, count: usize, symbol: u16) -> usize
    requires { w + count ≤ length post.old }
    ensures { Wrote post.old w (replicate count symbol) result post.new }
{
    post[w..w + count].fill(symbol);
    w + count
}

// The symbols of the operators that are complete: so many not, and, or.
fn close(post: &mut [u16], from: usize, nots: usize, ands: usize, ors: usize) -> usize
    requires { from + nots + ands + ors ≤ length post.old }
    ensures { Wrote post.old from (replicate nots NOT ++ (replicate ands AND ++ replicate ors OR)) result post.new }
{
    let a = put(post, from, nots, NOT);
    let b = put(post, a, ands, AND);
    put(post, b, ors, OR)
}

// What stands after an application, or none where no expression goes on with it.
#[tactic(auto, using(crate::proofs::Joints::joints))]
fn joint_at(words: &[u64], at: usize) -> Option<Joint>
    requires { at ≤ length words.now }
    ensures { JointAt words.now at result }
{
    if words.len() <= at {
        return Some(Joint::End);
    }
    match words[at] {
        CLOSING => Some(Joint::End),
        AMPERSAND => Some(Joint::And),
        BAR => Some(Joint::Or),
        ARROW => Some(Joint::Arrow),
        STOP | BANG => None,
        _ => Some(Joint::Operand),
    }
}

// How many ! stand from a place on.
fn bangs(words: &[u64], from: usize) -> usize
    requires { from ≤ length words.now }
    ensures { Bangs words.now from result }
{
    words[from..].iter().take_while(|&&t| t == BANG).count()
}

// The operand that comes after the ! from `at` on, with no application before it.
pub fn begin(
    words: &[u64],
    at: usize,
    end: usize,
    implies: usize,
    ors: usize,
    ands: usize,
) -> Waiting
    requires { at ≤ length words.now }
    ensures { Begun words.now at end implies ors ands result }
{
    let nots = bangs(words, at);
    Waiting {
        at: at + nots,
        end,
        implies,
        ors,
        ands,
        nots,
        apps: 0,
    }
}

// After an operand whose symbols end at `from`: the operators that are complete are written.
pub fn after(
    words: &[u64],
    at: usize,
    post: &mut [u16],
    from: usize,
    waiting: Waiting,
) -> Option<Step>
    requires { AfterAsks words.now at post.old from waiting }
    ensures { (d : ℕ) (Γ : List ℕ) (p : Unclosed) (f : Option Expression) (a : Expression) (xs : List ℕ)
        → Afters d Γ p f a xs words.now at post.old from waiting result post.new }
{
    let applied = put(post, from, waiting.apps, APPLICATION);
    Some(match joint_at(words, at)? {
        Joint::Operand => Step::More(Waiting {
            at,
            end: applied,
            apps: 1,
            ..waiting
        }),
        Joint::And => {
            let e = close(post, applied, waiting.nots, waiting.ands, 0);
            Step::More(begin(words, at + 1, e, waiting.implies, waiting.ors, 1))
        }
        Joint::Or => {
            let e = close(post, applied, waiting.nots, waiting.ands, waiting.ors);
            Step::More(begin(words, at + 1, e, waiting.implies, 1, 0))
        }
        Joint::Arrow => {
            let e = close(post, applied, waiting.nots, waiting.ands, waiting.ors);
            Step::More(begin(words, at + 1, e, waiting.implies + 1, 0, 0))
        }
        Joint::End => {
            let e = close(post, applied, waiting.nots, waiting.ands, waiting.ors);
            Step::Done(put(post, e, waiting.implies, IMPLIES))
        }
    })
}
