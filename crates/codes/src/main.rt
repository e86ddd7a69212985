// The program: the values of all trees of at most ten nodes, made from the trees' texts digit by digit and printed in ascending order, one a line. It
// does not read the constant of the crate `code_values`, which the merge gate holds against what it prints. Assumes what the kit assumes of printing.
#![tactic(auto)]

ghost use Rattle.std.specs.Prelude.{◌≤◌, length};
ghost use Rattle.table.specs.Wrote.{Wrote};
ghost use Rattle.short_codes.specs.Values.{values_from, values_to};
ghost use Rattle.codes.specs.Code.{RoomFor};

use std::io;

// Puts into out, from place `at` on, the values of the texts that have n digits more and use up `wanted` trees, after a beginning of the value `value`; the
// place after them. An array and a place in it: no heap is used.
fn put_values(n: usize, wanted: usize, value: usize, out: &mut [u32], at: usize) -> usize
    requires { RoomFor n wanted value out.old at }
    ensures { Wrote out.old at (values_from n wanted value) result out.new }
{
    if n == 0 {
        if wanted == 0 {
            out[at] = value as u32;
            return at + 1;
        }
        return at;
    }
    if wanted == 0 {
        return at;
    }
    let after_leaf = put_values(n - 1, wanted - 1, value * 3, out, at);
    let after_stem = put_values(n - 1, wanted, value * 3 + 1, out, after_leaf);
    put_values(n - 1, wanted + 1, value * 3 + 2, out, after_stem)
}

// Puts the values of all trees of at most `most` nodes into out; how many there are.
fn put_trees(most: usize, out: &mut [u32]) -> usize
    requires { (length (values_to most) ≤ length out.old) × (most ≤ 10) }
    ensures { Wrote out.old 0 (values_to most) result out.new }
{
    let mut at = 0;
    for n in 0..most {
        at = put_values(n + 1, 1, 0, out, at);
    }
    at
}

// Prints the values, one a line.
fn main(rt: HostRuntime) -> io::Result<()> {
    let mut values = [0u32; 1374];
    let many = put_trees(10, &mut values);
    for value in &values[..many] {
        println!(rt; "{value}")?;
    }
    Ok(())
}
