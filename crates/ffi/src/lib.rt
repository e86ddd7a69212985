// The operations for C and Rust, each under a plain name and on plain numbers and slices; include/lazvorn.h declares them. A slice is two C
// arguments, a pointer and a length. An answer is an array that the caller lends: five numbers, refusal, node, used, steps and digits; of Apply and Run
// these and the uses of leaf, stem, drop, spread and triage; or what the operation says. The crates `answers`, `counted`, `stops`,
// `generator`, `weight_numbers` and `refusals` make its numbers. The definitions are in specs/.
#![tactic(auto)]

ghost use Rattle.std.specs.Prelude.{◌≡◌, []};
ghost use Rattle.table.specs.Refusal.{made_numbers, given_numbers};
ghost use Rattle.table.specs.Outcome.{whole, whole_out, answered};
ghost use Rattle.table.specs.Same as comparing;
ghost use Rattle.ternary.specs.Read as reading;
ghost use Rattle.ternary.specs.Write as writing;
ghost use Rattle.translation.specs.Translate as translating;
ghost use Rattle.applying.specs.Apply as applying;
ghost use Rattle.labelled.specs.Label as labelling;
ghost use Rattle.labelling.specs.LabelPacket.{label_packet};
ghost use Rattle.labelled.specs.Unlabel as unlabelling;
ghost use Rattle.running.specs.Run as running;
ghost use Rattle.stopping.specs.Stopped as stopping;
ghost use Rattle.grammar.specs.Outcome as grammar;
ghost use Rattle.loads.specs.Loads as loads;
ghost use Rattle.short_codes.specs.ShortCodes as coding;
ghost use Rattle.weights.specs.Weights as weighing;
ghost use Rattle.week.specs.Weeks.{window_at, next_window};
ghost use Rattle.week.specs.Lent.{lent};
ghost use Rattle.ffi.specs.Boundary.{numbered, counted};

// Reads a text into the table.
#[unsafe(no_mangle)]
pub extern "C" fn lazvorn_read(
    table: &mut [u32],
    used: usize,
    stack: &mut [u32],
    text: &[u8],
    answer: &mut [usize; 5],
)
    ensures { whole answer.new table.new stack.new
        ≡ numbered (made_numbers used) (reading.read table.old used stack.old text.now) }
{
    let made = read::read(table, used, stack, text);
    *answer = answers::made(used, made);
}

// Writes a node's tree as text.
#[unsafe(no_mangle)]
pub extern "C" fn lazvorn_write(
    table: &[u32],
    used: usize,
    stack: &mut [u32],
    node: usize,
    out: &mut [u8],
    answer: &mut [usize; 5],
)
    ensures { whole_out answer.new table.now stack.new out.new
        ≡ numbered (writing.written_numbers used) (writing.write table.now used stack.old node out.old) }
{
    let wrote = writer::write(table, used, stack, node, out);
    *answer = answers::written(used, wrote);
}

// Translates a rule into the table.
#[unsafe(no_mangle)]
pub extern "C" fn lazvorn_translate(
    table: &mut [u32],
    used: usize,
    stack: &mut [u32],
    bytes: &[u8],
    answer: &mut [usize; 5],
)
    ensures { whole answer.new table.new stack.new
        ≡ numbered (made_numbers used) (translating.translate table.old used stack.old bytes.now) }
{
    let translated = translate::translate(table, used, stack, bytes);
    *answer = answers::made(used, translated);
}

// Applies one node to another in at most `limit` steps. The answer is ten numbers.
#[unsafe(no_mangle)]
pub extern "C" fn lazvorn_apply(
    table: &mut [u32],
    used: usize,
    stack: &mut [u32],
    function: usize,
    argument: usize,
    limit: usize,
    answer: &mut [usize; 10],
)
    ensures { whole answer.new table.new stack.new
        ≡ counted (applying.applied_numbers used) applying.applied_uses (applying.apply table.old used stack.old function argument limit) }
{
    let outcome = apply::apply(table, used, stack, function, argument, limit);
    *answer = counted::applied(used, outcome);
}

// Labels the rule at one node with the tree of another.
#[unsafe(no_mangle)]
pub extern "C" fn lazvorn_label(
    table: &mut [u32],
    used: usize,
    rule: usize,
    label: usize,
    answer: &mut [usize; 5],
)
    ensures { whole answer.new table.new []
        ≡ numbered (made_numbers used) (labelling.label table.old used rule label) }
{
    let labelled = label_node::label(table, used, rule, label);
    *answer = answers::made(used, labelled);
}

// Runs a packet with the table taken as empty. The answer is ten numbers.
#[unsafe(no_mangle)]
pub extern "C" fn lazvorn_run(
    table: &mut [u32],
    stack: &mut [u32],
    out: &mut [u8],
    packet: &[u8],
    answer: &mut [usize; 10],
)
    ensures { whole_out answer.new table.new stack.new out.new
        ≡ counted running.ran_numbers running.ran_uses (running.run table.old stack.old out.old packet.now) }
{
    let result = run::run(table, stack, out, packet);
    *answer = counted::ran(result);
}

// Runs a packet with the table taken as empty, and gives where applying stopped. The answer is four numbers: refusal, the argument's place, the steps of the
// whole run, and the rule wanted, from 1 for leaf to 5 for triage; for every outcome that is no stop while applying the last three are 0.
#[unsafe(no_mangle)]
pub extern "C" fn lazvorn_stopped(
    table: &mut [u32],
    stack: &mut [u32],
    out: &mut [u8],
    packet: &[u8],
    answer: &mut [usize; 4],
)
    ensures { whole_out answer.new table.new stack.new out.new
        ≡ answered stopping.stopped_numbers (stopping.stopped table.old stack.old out.old packet.now) }
{
    let result = stops::stopped(table, stack, out, packet);
    *answer = stops::numbers(result);
}

// Writes the labelled rule of a packet, with the table taken as empty. The answer is five numbers; node and steps are 0.
#[unsafe(no_mangle)]
pub extern "C" fn lazvorn_label_packet(
    table: &mut [u32],
    stack: &mut [u32],
    out: &mut [u8],
    packet: &[u8],
    answer: &mut [usize; 5],
)
    ensures { whole_out answer.new table.new stack.new out.new
        ≡ numbered running.ran_numbers (label_packet table.old stack.old out.old packet.now) }
{
    let result = labeller::label_packet(table, stack, out, packet);
    *answer = answers::labelled(result);
}

// Reads a rule text and writes the bytes of its term. The answer is two numbers: refusal, and bytes written.
#[unsafe(no_mangle)]
pub extern "C" fn lazvorn_rule_text(text: &[u8], out: &mut [u8], answer: &mut [usize; 2])
    ensures { whole_out answer.new [] [] out.new
        ≡ answered grammar.encoded_numbers (grammar.rule_text text.now out.old) }
{
    let read = rule_reader::rule_text(text, out);
    *answer = answers::encoded(read);
}

// Writes the load of a seed, so many digits of ternary text. The answer is two numbers: refusal, and digits written.
#[unsafe(no_mangle)]
pub extern "C" fn lazvorn_generate(
    seed: u32,
    digits: usize,
    out: &mut [u8],
    answer: &mut [usize; 2],
)
    ensures { whole_out answer.new [] [] out.new
        ≡ answered loads.generated_numbers (loads.generate seed digits out.old) }
{
    let written = generator::generate(seed, digits, out);
    *answer = generator::numbers(written);
}

// Gives the nodes of rule and label out of the labelled tree of a node; the table is only read. The answer is six numbers: refusal, the rule's node,
// used, 0, 0, and the label's node.
#[unsafe(no_mangle)]
pub extern "C" fn lazvorn_unlabel(table: &[u32], used: usize, node: usize, answer: &mut [usize; 6])
    ensures { answer.new ≡ unlabelling.unlabelled_numbers used (unlabelling.unlabel table.now used node) }
{
    let parts = unlabel::unlabel(table, used, node);
    *answer = answers::unlabelled(used, parts);
}

// Tells whether the nodes a and b have the same tree; the table is only read. The answer is two numbers: refusal, and 1 if the trees are equal.
#[unsafe(no_mangle)]
pub extern "C" fn lazvorn_same(
    table: &[u32],
    used: usize,
    a: usize,
    b: usize,
    answer: &mut [usize; 2],
)
    ensures { answer.new ≡ comparing.same_numbers (comparing.same table.now used a b) }
{
    let compared = same::same(table, used, a, b);
    *answer = answers::compared(compared);
}

// Gives the packet of the window that holds a minute of a day of a week; the week is only read. The answer is three numbers: refusal, 1 if there is such a
// window, and the packet's number.
#[unsafe(no_mangle)]
pub extern "C" fn lazvorn_window(week: &[u32], day: usize, minute: usize, answer: &mut [usize; 3])
    ensures { answer.new ≡ given_numbers (lent window_at week.now day minute) }
{
    let packet = week_numbers::window_at(week, day, minute);
    *answer = refusals::given(packet);
}

// Gives the minutes until the next window of a week begins; the week is only read. The answer is three numbers: refusal, 1 if the week has a window, and the
// minutes.
#[unsafe(no_mangle)]
pub extern "C" fn lazvorn_next_window(
    week: &[u32],
    day: usize,
    minute: usize,
    answer: &mut [usize; 3],
)
    ensures { answer.new ≡ given_numbers (lent next_window week.now day minute) }
{
    let minutes = week_numbers::next_window(week, day, minute);
    *answer = refusals::given(minutes);
}

// Gives the code of a node's tree; the table is only read. The answer is three numbers: refusal, 1 if the tree has a code, and the code.
#[unsafe(no_mangle)]
pub extern "C" fn lazvorn_code(table: &[u32], used: usize, node: usize, answer: &mut [usize; 3])
    ensures { answer.new ≡ given_numbers (coding.code table.now used node) }
{
    let code = node_code::code(table, used, node);
    *answer = refusals::given(code);
}

// Writes the text of a code to out. The answer is three numbers: refusal, 1 if there is such a code, and the digits written.
#[unsafe(no_mangle)]
pub extern "C" fn lazvorn_code_text(code: usize, out: &mut [u8], answer: &mut [usize; 3])
    ensures { whole_out answer.new [] [] out.new ≡ answered given_numbers (coding.code_text code out.old) }
{
    let digits = code_text::code_text(code, out);
    *answer = refusals::given(digits);
}

// Makes the weight of a number of grams. The answer is five numbers; steps and digits are 0.
#[unsafe(no_mangle)]
pub extern "C" fn lazvorn_weight(
    table: &mut [u32],
    used: usize,
    grams: usize,
    answer: &mut [usize; 5],
)
    ensures { whole answer.new table.new []
        ≡ numbered (made_numbers used) (weighing.weight table.old used grams) }
{
    let weight = weight_nodes::weight(table, used, grams);
    *answer = answers::made(used, weight);
}

// Makes the sum of the weights at the nodes a and b. The answer is five numbers; steps and digits are 0.
#[unsafe(no_mangle)]
pub extern "C" fn lazvorn_add_weights(
    table: &mut [u32],
    used: usize,
    a: usize,
    b: usize,
    answer: &mut [usize; 5],
)
    ensures { whole answer.new table.new []
        ≡ numbered (made_numbers used) (weighing.add_weights table.old used a b) }
{
    let sum = weight_nodes::add_weights(table, used, a, b);
    *answer = answers::made(used, sum);
}

// Gives the grams of the weight at a node; the table is only read. The answer is two numbers: refusal, and grams.
#[unsafe(no_mangle)]
pub extern "C" fn lazvorn_grams(table: &[u32], used: usize, node: usize, answer: &mut [usize; 2])
    ensures { answer.new ≡ weighing.weighed_numbers (weighing.grams table.now used node) }
{
    let grams = weighing::grams(table, used, node);
    *answer = weight_numbers::weighed(grams);
}

// Tells what the weight at node a is beside that at node b; the table is only read. The answer is two numbers: refusal, and 0 for less, 1 for equal, 2 for
// greater.
#[unsafe(no_mangle)]
pub extern "C" fn lazvorn_compare_weights(
    table: &[u32],
    used: usize,
    a: usize,
    b: usize,
    answer: &mut [usize; 2],
)
    ensures { answer.new ≡ weighing.ordered_numbers (weighing.compare_weights table.now used a b) }
{
    let order = weighing::compare_weights(table, used, a, b);
    *answer = weight_numbers::ordered(order);
}
