// The frames of an application in a lent stack's words, and what an application's state becomes when a frame is written or taken. The definitions
// are in the crate `applying`; specs/ says what the code's own values mean in their terms.
#![tactic(auto)]

ghost use Rattle.std.specs.Prelude.{◌≡◌, List, ℕ, ◌+◌, ◌*◌, ◌≤◌, ◌<◌, length};
ghost use Rattle.table.specs.Outcome.{frames};
ghost use Rattle.applying.specs.Machine.{resume, hold};
ghost use Rattle.applying.specs.States.{FrameIn};
ghost use Rattle.frames.specs.Code.{frame_at, pushed, frames_of, uses_of, state_of, turn_of, machine_of, more_of};

use applying::Frame;
use calculus::Uses;

// A state of an application: the node applied and its argument, how many frames are held, and the uses so far. The nodes and the frames
// themselves lie in the lent words. Where the application is done, `function` is the outcome's node.
#[derive(Clone, Copy)]
pub struct Machine {
    pub used: usize,
    pub function: usize,
    pub argument: usize,
    pub held: usize,
    // the uses of each rule, in fields of their own, so that a loop over uses keeps them where they are
    pub leaf: usize,
    pub stem: usize,
    pub drop: usize,
    pub spread: usize,
    pub triage: usize,
}

impl Machine {
    // A state with these uses.
    pub fn new(used: usize, function: usize, argument: usize, held: usize, uses: Uses) -> Machine
        ensures { result ≡ machine_of used function argument held uses }
    {
        let Uses {
            leaf,
            stem,
            drop,
            spread,
            triage,
        } = uses;
        Machine {
            used,
            function,
            argument,
            held,
            leaf,
            stem,
            drop,
            spread,
            triage,
        }
    }

    // The uses so far.
    pub fn uses(self) -> Uses
        ensures { result ≡ uses_of self }
    {
        let Machine {
            leaf,
            stem,
            drop,
            spread,
            triage,
            ..
        } = self;
        Uses {
            leaf,
            stem,
            drop,
            spread,
            triage,
        }
    }
}

// What a use led to: a further application, the outcome, or a stop for want of a node or a frame.
#[derive(Clone, Copy)]
pub enum End {
    More,
    Done,
    Nodes,
    Frames,
}

// The state lies beside the end, not in it, so that a loop over uses keeps it in registers.
#[derive(Clone, Copy)]
pub struct Turned {
    pub state: Machine,
    pub end: End,
}

// Writes frame `at`: three words a frame, of which a frame that names one node needs two. The tag is a number, since it is a word of the lent stack.
#[tactic(auto, unfolding(crate::specs::Code::pushed))]
fn push(stack: &mut [u32], at: usize, frame: Frame)
    requires { (at * 3 + 2 < length stack.old) × FrameIn 4294967296 frame }
    ensures { stack.new ≡ pushed stack.old at frame }
{
    match frame {
        Frame::SpreadFirst(p, n) => {
            stack[at * 3] = 0;
            stack[at * 3 + 1] = p as u32;
            stack[at * 3 + 2] = n as u32;
        }
        Frame::SpreadSecond(v) => {
            stack[at * 3] = 1;
            stack[at * 3 + 1] = v as u32;
        }
        Frame::TriageFirst(q) => {
            stack[at * 3] = 2;
            stack[at * 3 + 1] = q as u32;
        }
    }
}

// Reads frame `at`.
#[tactic(auto, unfolding(crate::specs::Code::frame_at, crate::specs::Code::frame_of))]
fn top(stack: &[u32], at: usize) -> Frame
    requires { at * 3 + 2 < length stack.now }
    ensures { result ≡ frame_at stack.now at }
{
    let a = nodes::word(stack, at * 3 + 1);
    match nodes::word(stack, at * 3) {
        0 => Frame::SpreadFirst(a, nodes::word(stack, at * 3 + 2)),
        1 => Frame::SpreadSecond(a),
        _ => Frame::TriageFirst(a),
    }
}

// A further application: `function` to `argument`.
fn more(used: usize, function: usize, argument: usize, held: usize, uses: Uses) -> Turned
    ensures { result ≡ more_of used function argument held uses }
{
    Turned {
        state: Machine::new(used, function, argument, held, uses),
        end: End::More,
    }
}

// The last application gave node v: what the last frame held takes it on.
#[tactic(auto, using(crate::proofs::Held::none_left, crate::proofs::Held::spread_left, crate::proofs::Held::second_left, crate::proofs::Held::triage_left))]
pub fn resume(stack: &mut [u32], used: usize, held: usize, uses: Uses, v: usize) -> Turned
    requires { (held * 3 ≤ length stack.old) × (v < 4294967296) }
    ensures { (w : List ℕ) → turn_of result w stack.new ≡ resume (record { words = w; used = used }) (frames_of stack.old held) uses v }
{
    if held == 0 {
        return Turned {
            state: Machine::new(used, v, v, 0, uses),
            end: End::Done,
        };
    }
    let at = held - 1;
    match top(stack, at) {
        Frame::SpreadFirst(p, n) => {
            push(stack, at, Frame::SpreadSecond(v));
            more(used, p, n, held, uses)
        }
        Frame::SpreadSecond(u) => more(used, u, v, at, uses),
        Frame::TriageFirst(q) => more(used, v, q, at, uses),
    }
}

// Node f is applied to node n, and the frame is held meanwhile, if one is free. The uses are those with this one.
#[tactic(auto, using(crate::proofs::Held::hold_full, crate::proofs::Held::hold_free))]
pub fn hold(
    stack: &mut [u32],
    state: Machine,
    uses: Uses,
    frame: Frame,
    f: usize,
    n: usize,
) -> Turned
    requires { (state.held * 3 ≤ length stack.old) × FrameIn 4294967296 frame }
    ensures { (w : List ℕ) → turn_of result w stack.new ≡ hold (frames stack.old) (state_of state w stack.old) uses frame f n }
{
    if stack.len() / 3 <= state.held {
        return Turned {
            state,
            end: End::Frames,
        };
    }
    push(stack, state.held, frame);
    more(state.used, f, n, state.held + 1, uses)
}
