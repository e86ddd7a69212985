// A term's bytes to the words of its translation: bracket abstraction on runs of words; specs/ says what the words mean. Assumes nothing.
//
// A term without abstraction is a run of words in the lent stack: n leaves and variables take 2n − 1 words, and an application's word says how
// long its function part is, so that nothing is scanned twice. An abstraction is written further up in the stack, where the whole run has room
// a second time, and copied back over its body.
// The bytes 0 to 3 begin a leaf, an application, an abstraction and a variable: document 01 and the definition `bytes` give these numbers, and the
// definition `words` gives those of the words.
#![tactic(auto)]

ghost use Rattle.std.specs.Prelude.{◌+◌, ◌≤◌, length};
ghost use Rattle.calculus.specs.Term.{Term};
ghost use Rattle.calculus.specs.Bytes.{bytes};
ghost use Rattle.calculus.specs.Abstraction.{Combination, bracket};
ghost use Rattle.bracket.specs.Words.{words, Holds, Written, BracketAt, BuildAt, Builds};

// Writes the words from `q` on; the place after them.
fn put(stack: &mut [u32], q: usize, xs: &[u32]) -> usize
    requires { q + length xs.now ≤ length stack.old }
    ensures { Written stack.old q xs.now result stack.new }
{
    let e = q + xs.len();
    stack[q..e].copy_from_slice(xs);
    e
}

// Writes from `q` on the bracket abstraction of the term whose words start at `p` and end before `q`; the place after it. From Δ it is KΔ, from
// the variable abstracted I, from another Ky, from uv Δ(Δv')u'. No shortcut is taken.
fn bracket_at(stack: &mut [u32], p: usize, q: usize) -> usize
    requires { BracketAt stack.old p q }
    ensures { (c : Combination) → Holds stack.old p (words c) → p + length (words c) ≤ q
        → Written stack.old q (words (bracket c)) result stack.new }
{
    let x = stack[p];
    if x == 0 {
        return put(stack, q, &[6, 2, 0, 0, 0]);
    }
    if x == 1 {
        return put(stack, q, &[10, 2, 0, 2, 0, 0, 2, 0, 0]);
    }
    if x % 2 == 1 {
        return put(stack, q, &[6, 2, 0, 0, x - 2]);
    }
    let v = p + 1 + (x / 2) as usize;
    let e = bracket_at(stack, v, q + 5);
    put(stack, q, &[(2 * (e - q - 1)) as u32, 2, 0, 2, 0]);
    bracket_at(stack, p + 1, e)
}

// What building a term's words gives: the places after its bytes and after its words.
#[derive(Clone, Copy)]
pub struct Built {
    pub next: usize,
    pub end: usize,
}

// Writes to the stack from `w` on the words of the translation of the term that starts at `at`. The words from `q` on take each abstraction
// until it is copied over its body.
pub fn build(rule: &[u8], at: usize, stack: &mut [u32], w: usize, q: usize) -> Built
    requires { BuildAt rule.now at stack.old w q }
    ensures { (t : Term) → Holds rule.now at (bytes t)
        → Builds at w t result.next result.end stack.old stack.new }
{
    match rule[at] {
        0 => {
            stack[w] = 0;
            Built {
                next: at + 1,
                end: w + 1,
            }
        }
        1 => {
            let f = build(rule, at + 1, stack, w + 1, q);
            stack[w] = (2 * (f.end - w - 1)) as u32;
            build(rule, f.next, stack, f.end, q)
        }
        2 => {
            let body = build(rule, at + 1, stack, w, q);
            let e = bracket_at(stack, w, q);
            stack.copy_within(q..e, w);
            Built {
                next: body.next,
                end: w + (e - q),
            }
        }
        _ => {
            stack[w] = 2 * u32::from(rule[at + 1]) + 1;
            Built {
                next: at + 2,
                end: w + 1,
            }
        }
    }
}
