// The stages of Run on a packet that passed the checks: Translate, Read of each argument, Apply in order, Write. Each stage is a function that ends
// in the next one, as in the definition (the crate `running`); where its inner operation refuses, what was made since Run's entry is cleared
// (the crate `endings`). What is answered tells also where applying stopped.
// The table is sound throughout and keeps its index, so each stage is the inner operation, and no node is checked again. specs/ and the crates
// `endings` and `index` say what the stages ask.
#![tactic(auto)]

ghost use Rattle.std.specs.Prelude.{◌≡◌, List, ℕ, ◌+◌, ◌*◌, ◌≤◌, ◌<◌, length, None};
ghost use Rattle.calculus.specs.Uses.{no_uses};
ghost use Rattle.table.specs.Outcome.{whole_out};
ghost use Rattle.packet.specs.Code.{Stand, values_at, packet_at};
ghost use Rattle.running.specs.Run.{stopped, reads_by};
ghost use Rattle.running.specs.Tell.{at_place, tell_at, told, tell_applies, tell_stages};
ghost use Rattle.endings.specs.Ready.{Ready};
ghost use Rattle.index.specs.Index as indexing;
ghost use Rattle.stages.specs.Asked.{NodesIn, Passed};

use applying::Stopped;
use calculus::Uses;
use packet::{Form, Part};
use running::{Ran, Stop, Told};
use table::Refusal;

// Run's answer where it did not stop while applying.
fn tell(ran: Result<Ran, Refusal>) -> Told
    ensures { result ≡ record { ran = ran; stop = None } }
{
    Told {
        ran: ran,
        stop: None,
    }
}

// The application to the argument at a place stopped, after so many steps for the arguments before: what was made since Run's entry is cleared.
fn stop_applying(
    table: &mut [u32],
    used: usize,
    stack: &mut [u32],
    end: Stopped,
    place: usize,
    before: usize,
) -> Told
    requires { (used * 2 ≤ length table.old) × (before ≤ 1000000) × (end.steps ≤ 1000000) }
    ensures { (o : List ℕ) → whole_out result table.new stack.new o
        ≡ tell_at (at_place place (before + end.steps) end.rule) (stopped end.refusal table.old used stack.old o) }
{
    Told {
        ran: endings::stop(table, used, stack, end.refusal),
        stop: Some(Stop {
            place: place,
            steps: before + end.steps,
            rule: end.rule,
        }),
    }
}

// Applies the rule's node to the argument nodes in order, under one step limit.
fn apply_all(
    table: &mut [u32],
    used: usize,
    stack: &mut [u32],
    out: &mut [u8],
    rule: usize,
    nodes: &[usize],
    limit: usize,
    index: &mut [u16],
    slots: usize,
) -> Told
    requires { Ready table.old used stack.old out.old × (rule < used) × (limit ≤ 1000000) × NodesIn used nodes.now (length nodes.now)
        × indexing.Ready table.old used slots index.old }
    ensures { whole_out result table.new stack.new out.new
        ≡ tell_applies 1 nodes.now limit table.old used stack.old out.old rule no_uses }
{
    let mut node = rule;
    let mut in_use = used;
    // No uses, written out: the crate of the type has definitions alone.
    let mut uses = Uses {
        leaf: 0,
        stem: 0,
        drop: 0,
        spread: 0,
        triage: 0,
    };
    for (done, &argument) in nodes.iter().enumerate() {
        let before = counts::sum(uses);
        let left = limit - before;
        let applied = match machine::apply_nodes(
            table, in_use, stack, node, argument, left, index, slots,
        ) {
            Ok(applied) => applied,
            Err(end) => return stop_applying(table, in_use, stack, end, done + 1, before),
        };
        node = applied.node;
        in_use = applied.used;
        uses = counts::plus(uses, applied.uses);
    }
    tell(endings::write_outcome(table, in_use, stack, out, node, uses))
}

// Reads each argument's text in order, from a position of the packet on.
fn read_all(
    table: &mut [u32],
    used: usize,
    stack: &mut [u32],
    out: &mut [u8],
    packet: &[u8],
    from: usize,
    form: Form,
    rule: usize,
    index: &mut [u16],
    slots: usize,
) -> Told
    requires { Ready table.old used stack.old out.old × (rule < used) × (form.limit ≤ 1000000) × (form.arguments ≤ 8) × Stand packet.now from form.arguments
        × indexing.Ready table.old used slots index.old }
    ensures { whole_out result table.new stack.new out.new
        ≡ reads_by told (values_at packet.now from form.arguments) table.old used stack.old out.old
        (λ ns w u s. tell_applies 1 ns form.limit w u s out.old rule no_uses) }
{
    let count = form.arguments;
    let mut nodes = [0usize; 8];
    let mut at = from;
    let mut in_use = used;
    for kept in 0..count {
        let Part { start, end } = packet::part_at(packet, at);
        let made = match reader::read_text(
            table,
            in_use,
            stack,
            &packet[start..end],
            index,
            slots,
        ) {
            Ok(made) => made,
            Err(e) => return tell(endings::stop(table, in_use, stack, e)),
        };
        nodes[kept] = made.node;
        at = end;
        in_use = made.used;
    }
    apply_all(
        table,
        in_use,
        stack,
        out,
        rule,
        &nodes[..count],
        form.limit,
        index,
        slots,
    )
}

// The stages of Run on a packet of this form that passed the checks. A label is passed over: they are those of the packet without it.
pub fn run_stages(
    table: &mut [u32],
    stack: &mut [u32],
    out: &mut [u8],
    packet: &[u8],
    form: Form,
    index: &mut [u16],
    slots: usize,
) -> Told
    requires { Passed table.old stack.old out.old packet.now form.arguments form.limit × indexing.Ready table.old 0 slots index.old }
    ensures { whole_out result table.new stack.new out.new
        ≡ tell_stages table.old stack.old out.old
        (packet_at packet.now form.arguments form.limit None) }
{
    let Part { start, end } = packet::part_at(packet, 0);
    match term::translate_rule(table, 0, stack, &packet[start..end], index, slots) {
        Ok(made) => read_all(
            table, made.used, stack, out, packet, end, form, made.node, index, slots,
        ),
        Err(e) => tell(endings::stop(table, 0, stack, e)),
    }
}
