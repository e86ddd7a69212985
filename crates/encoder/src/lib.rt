// The bytes of the term of postfix symbols, written from their end. What the symbols mean is in the crate `grammar`; specs/ says what the functions ask
// and give in its terms. Assumes nothing.
#![tactic(auto)]

ghost use Rattle.std.specs.Prelude.{◌≡◌, ℕ, ◌≤◌, ◌<◌, List, length};
ghost use Rattle.grammar.specs.Expression.{Expression};
ghost use Rattle.grammar.specs.Postfix.{postfix, lead};
ghost use Rattle.encoder.specs.Code.{Laid, EncodeAsks, EncodeAt, EncodeGives};

use grammar::{ABSTRACTION, AND, APPLICATION, IMPLIES, NOT, OR, VARIABLE};

// Where the symbols and the bytes of a written term begin.
#[derive(Clone, Copy)]
pub struct Begins {
    pub from: usize,
    pub at: usize,
}

// Copies bytes to the place that ends at `o`; where they begin.
fn put_before(out: &mut [u8], o: usize, bytes: &[u8]) -> usize
    requires { (length bytes.now ≤ o) × (o ≤ length out.old) }
    ensures { Laid out.old o bytes.now result out.new }
{
    let from = o - bytes.len();
    out[from..o].copy_from_slice(bytes);
    from
}

// The bytes that a symbol which is no variable puts before its operands: of an operator those of applying its tree.
fn fixed_lead(s: u16) -> &'static [u8]
    requires { s < 7 }
    ensures { result.now ≡ lead s }
{
    match s {
        APPLICATION => b"\x01",
        AND =>
            b"\x01\x01\x01\x00\x01\x00\x01\x01\x00\x00\x01\x01\x00\x00\x01\x01\x00\x01\x00\x00\x01\x00\x00",
        OR =>
            b"\x01\x01\x01\x01\x00\x01\x00\x01\x01\x00\x00\x01\x00\x00\x01\x01\x00\x01\x00\x00\x01\x00\x00",
        IMPLIES => b"\x01\x01\x01\x00\x01\x00\x01\x01\x00\x00\x01\x00\x00",
        ABSTRACTION => b"\x02",
        NOT =>
            b"\x01\x01\x01\x00\x01\x00\x01\x01\x00\x00\x01\x00\x00\x01\x01\x00\x01\x00\x01\x01\x00\x00\x01\x01\x00\x00\x01\x01\x00\x01\x00\x00\x01\x00\x00\x01\x01\x00\x01\x00\x00\x01\x00\x00",
        _ => b"\x00",
    }
}

// Writes the bytes that a symbol puts before its operands, up to `o`; where they begin.
fn put_lead(out: &mut [u8], o: usize, s: u16) -> usize
    requires { (length (lead s) ≤ o) × (o ≤ length out.old) × (s < 263) }
    ensures { Laid out.old o (lead s) result out.new }
{
    if s < VARIABLE {
        put_before(out, o, fixed_lead(s))
    } else {
        put_before(out, o, &[3, (s - VARIABLE) as u8])
    }
}

// Writes the bytes, up to `o`, of the term whose symbols end at `p`.
pub fn encode(post: &[u16], p: usize, out: &mut [u8], o: usize) -> Begins
    requires { EncodeAsks post.now p out.old o }
    ensures { (e : Expression) (xs : List ℕ) → EncodeAt e xs post.now p out.old o
        → EncodeGives e xs out.old o result.from result.at out.new }
{
    let s = post[p - 1];
    match s {
        APPLICATION | AND | OR | IMPLIES => {
            let a = encode(post, p - 1, out, o);
            let f = encode(post, a.from, out, a.at);
            let at = put_lead(out, f.at, s);
            Begins { from: f.from, at }
        }
        ABSTRACTION | NOT => {
            let b = encode(post, p - 1, out, o);
            let at = put_lead(out, b.at, s);
            Begins { from: b.from, at }
        }
        _ => {
            let at = put_lead(out, o, s);
            Begins { from: p - 1, at }
        }
    }
}
