// Instructions as words of a code.
ghost use Rattle.std.specs.Prelude.{◌≡◌, ◌+◌, ◌*◌, ◌^◌, ◌<◌, ◌≤◌, length};
ghost use Rattle.language.specs.Words.{encoded};
ghost use Rattle.flat.specs.declared.instr.Instr.TheVariants.{Push as PushInstr, Set as SetInstr, Combine as CombineInstr};
ghost use Rattle.translator.specs.Writing.{put_at, operand, source_operand, control_operand};

use flat::instr::{Binary, Control, Instr, Source, Unary};

// The words of an instruction that pushes.
fn encode_push(source: Source) -> (i32, i32)
    requires { source_operand source < 2 ^ 31 }
    ensures { result ≡ encoded (PushInstr source) }
{
    match source {
        Source::Lit(v) => (1, v),
        Source::Cell(n) => (2, n as i32),
        Source::In(n) => (3, n as i32),
        Source::Out(n) => (4, n as i32),
        Source::Yes => (5, 0),
        Source::No => (6, 0),
        Source::Late(n) => (24, n as i32),
        Source::Active(p) => (25, p as i32),
        Source::Stopped(p) => (26, p as i32),
        Source::Failed(p) => (27, p as i32),
    }
}

// The words of an operation on two values.
fn encode_combine(operation: Binary) -> (i32, i32)
    ensures { result ≡ encoded (CombineInstr operation) }
{
    match operation {
        Binary::Add => (7, 0),
        Binary::Sub => (8, 0),
        Binary::Mul => (9, 0),
        Binary::Div => (10, 0),
        Binary::Less => (11, 0),
        Binary::Same => (12, 0),
    }
}

// The words of an instruction that changes a process row.
fn encode_set(control: Control) -> (i32, i32)
    requires { control_operand control < 2 ^ 31 }
    ensures { result ≡ encoded (SetInstr control) }
{
    match control {
        Control::State(s) => (19, s as i32),
        Control::Start(p) => (20, p as i32),
        Control::Stop(p) => (21, p as i32),
        Control::Fail => (22, 0),
        Control::Reset => (23, 0),
    }
}

// The words of an instruction: its number and its operand.
// A function and no From: an operand below 2^31 is asked, here and in those two above that have operands.
fn encode(instr: Instr) -> (i32, i32)
    requires { operand instr < 2 ^ 31 }
    ensures { result ≡ encoded instr }
{
    match instr {
        Instr::End => (0, 0),
        Instr::Push(source) => encode_push(source),
        Instr::Combine(operation) => encode_combine(operation),
        Instr::Convert(Unary::Not) => (13, 0),
        Instr::Convert(Unary::Test) => (14, 0),
        Instr::Jump(t) => (15, t as i32),
        Instr::Unless(t) => (16, t as i32),
        Instr::Keep(n) => (17, n as i32),
        Instr::Drive(n) => (18, n as i32),
        Instr::Set(control) => encode_set(control),
    }
}

// Puts an instruction at a place, and answers the next one.
// Code and place stay two arguments, and that a code has at most 8,192 words a clause of each function that puts: a struct that bounds them was tried, and
// each function then owes that it keeps their number, which a slice keeps by itself.
pub(crate) fn put(code: &mut [i32], p: usize, instr: Instr) -> usize
    requires room { 2 * (p + 1) ≤ length code.old }
    requires few { operand instr < 2 ^ 31 }
    ensures next { result ≡ p + 1 }
    ensures wrote { code.new ≡ put_at p instr code.old }
{
    let (number, operand) = encode(instr);
    code[2 * p] = number;
    code[2 * p + 1] = operand;
    p + 1
}
