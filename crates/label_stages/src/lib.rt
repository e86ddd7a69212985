// The stages of `label_packet` on a packet that passed the checks: Translate, Read of the label, Label, Write. Each stage is a function that ends in the
// next one, as in the definition (the crate `labelling`), on a table that is sound throughout and keeps its index. specs/ and the crates `endings` and
// `index` say what the stages ask.
#![tactic(auto)]

ghost use Rattle.std.specs.Prelude.{◌≡◌, ◌≤◌, ◌<◌, length};
ghost use Rattle.table.specs.Outcome.{whole_out};
ghost use Rattle.index.specs.Index as indexing;
ghost use Rattle.packet.specs.Code.{end_at, value_at};
ghost use Rattle.endings.specs.Ready.{Ready};
ghost use Rattle.labelling.specs.LabelPacket.{labels, reads_label, labelling_stages};
ghost use Rattle.label_stages.specs.Asked.{Passed};

use calculus::Uses;
use packet::Part;
use running::Ran;
use table::Refusal;

// Labels the rule's node with the label's, and writes the labelled tree.
fn write_labelled(
    table: &mut [u32],
    used: usize,
    stack: &mut [u32],
    out: &mut [u8],
    rule: usize,
    label: usize,
    index: &mut [u16],
    slots: usize,
) -> Result<Ran, Refusal>
    requires { Ready table.old used stack.old out.old × (rule < used) × (label < used) × indexing.Ready table.old used slots index.old }
    ensures { whole_out result table.new stack.new out.new
        ≡ labels table.old used stack.old out.old rule label }
{
    // No uses, written out: the crate of the type has definitions alone.
    let uses = Uses {
        leaf: 0,
        stem: 0,
        drop: 0,
        spread: 0,
        triage: 0,
    };
    match label::label_rule(table, used, rule, label, index, slots) {
        Ok(made) => endings::write_outcome(table, made.used, stack, out, made.node, uses),
        Err(e) => endings::stop(table, used, stack, e),
    }
}

// Reads the label's text, the value of the field at a position of the packet.
fn read_label(
    table: &mut [u32],
    used: usize,
    stack: &mut [u32],
    out: &mut [u8],
    packet: &[u8],
    at: usize,
    rule: usize,
    index: &mut [u16],
    slots: usize,
) -> Result<Ran, Refusal>
    requires { Ready table.old used stack.old out.old × (rule < used) × (end_at packet.now at ≤ length packet.now) × indexing.Ready table.old used slots index.old }
    ensures { whole_out result table.new stack.new out.new
        ≡ reads_label table.old used stack.old out.old rule (value_at packet.now at) }
{
    let Part { start, end } = packet::part_at(packet, at);
    match reader::read_text(table, used, stack, &packet[start..end], index, slots) {
        Ok(made) => write_labelled(table, made.used, stack, out, rule, made.node, index, slots),
        Err(refusal) => endings::stop(table, used, stack, refusal),
    }
}

// The stages on a packet that passed the checks and whose label's field stands at a position.
pub fn label_stages(
    table: &mut [u32],
    stack: &mut [u32],
    out: &mut [u8],
    packet: &[u8],
    at: usize,
    index: &mut [u16],
    slots: usize,
) -> Result<Ran, Refusal>
    requires { Passed table.old stack.old out.old packet.now at × indexing.Ready table.old 0 slots index.old }
    ensures { whole_out result table.new stack.new out.new
        ≡ labelling_stages table.old stack.old out.old (value_at packet.now 0) (value_at packet.now at) }
{
    let Part { start, end } = packet::part_at(packet, 0);
    match term::translate_rule(table, 0, stack, &packet[start..end], index, slots) {
        Ok(made) => read_label(
            table, made.used, stack, out, packet, at, made.node, index, slots,
        ),
        Err(e) => endings::stop(table, 0, stack, e),
    }
}
