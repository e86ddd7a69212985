// Loads in code: what is drawn from a seed, the digit that is taken for it, the load written to out, and the numbers of the answer. The definitions and
// their theorems are in the crate `loads`. Assumes nothing.
#![tactic(auto)]

ghost use Rattle.std.specs.Prelude.{◌≡◌, true, [], ◌++◌, ◌+◌, ◌≤◌, ◌<◌, length, drop};
ghost use Rattle.std.proofs.Math.Option.{some};
ghost use Rattle.table.specs.Outcome.{whole_out};
ghost use Rattle.loads.specs.Loads.{next_state, can_end, allowed, pick, digits_from, first_drawing, generate, generated_numbers};

use table::Refusal;

// How many digits a load has at most.
const MOST_DIGITS: usize = 4095;

// The state after a draw, which is kept to 32 bits.
fn next_state(state: u32) -> u32
    ensures { result ≡ next_state state }
{
    state.wrapping_mul(1664525).wrapping_add(1013904223)
}

// The branches of the digit that is taken for what is drawn, where `wanted` trees are wanted and `left` digits come after it. A digit with b branches leaves
// wanted - 1 + b trees: at least one, where digits are left, and at most one for each of them. So the digits allowed follow one another.
fn branches(draw: usize, wanted: usize, left: usize) -> usize
    requires { can_end (left + 1) (some wanted) ≡ true }
    ensures { (48 + result ≡ pick (allowed left (some wanted)) draw) × (result ≤ 2) }
{
    if left == 0 {
        return 0;
    }
    let fewest = usize::from(wanted == 1);
    let most = (left - (wanted - 1)).min(2);
    fewest + draw % (most - fewest + 1)
}

// Writes a load over the whole of a slice.
fn write_load(seed: u32, load: &mut [u8])
    requires { (1 ≤ length load.old) × (length load.old < 4294967296) }
    ensures { load.new ≡ digits_from (length load.old) (first_drawing seed) }
{
    let mut state = seed;
    let mut wanted = 1;
    let mut left = load.len();
    for digit in load {
        left -= 1;
        state = next_state(state);
        let b = branches((state / 65536) as usize, wanted, left);
        *digit = b'0' + b as u8;
        wanted = wanted - 1 + b;
    }
}

// Writes the load of a seed: none for n outside 1 to 4,095, whatever out is; then 10.
pub fn generate(seed: u32, n: usize, out: &mut [u8]) -> Result<usize, Refusal>
    ensures { whole_out result [] [] out.new ≡ generate seed n out.old }
{
    if n == 0 || MOST_DIGITS < n {
        return Ok(0);
    }
    if out.len() < n {
        return Err(Refusal::Out);
    }
    write_load(seed, &mut out[..n]);
    Ok(n)
}

// The numbers of the answer: the refusal or 0, and how many digits were written. No `From`, since neither type is of this crate;
// and no function shared with `encoded` of `answers`, since each states a definition of its own.
pub fn numbers(answer: Result<usize, Refusal>) -> [usize; 2]
    ensures { result ≡ generated_numbers answer }
{
    match answer {
        Ok(digits) => [0, digits],
        Err(refusal) => [refusals::number(refusal), 0],
    }
}
