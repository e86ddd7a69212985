// The labelled rule of a packet, as text: the checks 1, 6, 5 and 4, and then the stages (the crate `label_stages`). The definition and its theorems are in
// the crate `labelling`.
//
// The stages share one index of the table's nodes, which is empty at first, as the table is. It is in five sizes, so that a table pays for an index about as
// long as it needs. Each size is a call of its own, so that a short table does not touch the room of a long index.
#![tactic(auto)]

ghost use Rattle.std.specs.Prelude.{◌≡◌};
ghost use Rattle.table.specs.Outcome.{whole_out};
ghost use Rattle.packet.specs.Code.{value_at};
ghost use Rattle.labelling.specs.LabelPacket.{labelling_stages, label_packet};
ghost use Rattle.label_stages.specs.Asked.{Passed};
ghost use Rattle.index.specs.Index.{Serves};

use running::Ran;
use table::Refusal;

// The stages on a packet that passed the checks and whose label's field stands at a position, with an index of N entries
// that serves the table.
#[inline(never)]
fn label_in<const N: usize>(
    table: &mut [u32],
    stack: &mut [u32],
    out: &mut [u8],
    packet: &[u8],
    at: usize,
) -> Result<Ran, Refusal>
    requires { Serves N table.old × Passed table.old stack.old out.old packet.now at }
    ensures { whole_out result table.new stack.new out.new
        ≡ labelling_stages table.old stack.old out.old (value_at packet.now 0) (value_at packet.now at) }
{
    let mut index = [0u16; N];
    label_stages::label_stages(table, stack, out, packet, at, &mut index, N / 3 * 2)
}

// The same, with an index for the table's length.
fn label_checked(
    table: &mut [u32],
    stack: &mut [u32],
    out: &mut [u8],
    packet: &[u8],
    at: usize,
) -> Result<Ran, Refusal>
    requires { Passed table.old stack.old out.old packet.now at }
    ensures { whole_out result table.new stack.new out.new
        ≡ labelling_stages table.old stack.old out.old (value_at packet.now 0) (value_at packet.now at) }
{
    match table.len() {
        0..=128 => label_in::<192>(table, stack, out, packet, at),
        ..=512 => label_in::<768>(table, stack, out, packet, at),
        ..=2048 => label_in::<3072>(table, stack, out, packet, at),
        ..=16384 => label_in::<24576>(table, stack, out, packet, at),
        _ => label_in::<196608>(table, stack, out, packet, at),
    }
}

// Writes the labelled rule of a packet, with the table taken as empty; arguments are passed over.
pub fn label_packet(
    table: &mut [u32],
    stack: &mut [u32],
    out: &mut [u8],
    packet: &[u8],
) -> Result<Ran, Refusal>
    ensures { whole_out result table.new stack.new out.new
        ≡ label_packet table.old stack.old out.old packet.now }
{
    if !packet_checks::lengths_fit(table, stack, out) {
        return Err(Refusal::Limits);
    }
    let form = packet::read_packet(packet).ok_or(Refusal::Packet)?;
    let size = form.label_size.ok_or(Refusal::Packet)?;
    packet_checks::check_parts(packet, form)?;
    label_checked(table, stack, out, packet, packet.len() - size)
}
