// One instruction of the flat machine.
ghost use Rattle.std.specs.Prelude.{◌≡◌, ◌<◌, ◌≤◌, [], length, replicate};
ghost use Rattle.bodies.specs.Machine.{push as pushed, value as given, converted, combined, controlled, step as stepped, passive};
ghost use Rattle.bodies.specs.Memory.{meaning, outcome, restored, for_stack, InRange, SourceInRange, ControlInRange};

use crate::running::{Running, Turn};
use board::Board;
use flat::instr::{Binary, Control, Instr, Source, Unary};
use kinds::{Kind, NoQuotient, truth_value};
use refusals::Fault;

// The most values on the stack.
const MAX_DEPTH: usize = 16;

// The state of a process that was stopped.
const STOPPED: u8 = 255;

// The state of a process that failed.
const FAILED: u8 = 254;

// Whether a process in state `s` is stopped or failed.
fn is_passive(s: u8) -> bool
    ensures { result ≡ passive s }
{
    matches!(s, FAILED | STOPPED)
}

// A value by an operation on it.
fn convert<K: Kind>(u: Unary, a: K) -> K
    ensures { result ≡ converted K.ops u a }
{
    match u {
        Unary::Not => truth_value(!a.is_true()),
        Unary::Test => truth_value(a.is_true()),
    }
}

// Two values by an operation on them, the one pushed first in front.
fn combine<K: Kind>(o: Binary, a: K, b: K) -> Result<K, NoQuotient>
    ensures { result ≡ combined K.ops o a b }
{
    match o {
        Binary::Add => Ok(a.add(b)),
        Binary::Sub => Ok(a.sub(b)),
        Binary::Mul => Ok(a.mul(b)),
        Binary::Div => a.div(b),
        Binary::Less => Ok(truth_value(a.less(b))),
        Binary::Same => Ok(truth_value(a.same(b))),
    }
}

// Changes a process row, by an instruction of process `p`.
fn control(board: &mut Board, p: usize, c: Control)
    requires { (p < 32) × (ControlInRange c) }
    ensures { board.new ≡ controlled p c board.old }
{
    match c {
        Control::State(s) => board.enter(p, s as u8),
        Control::Start(q) => board.enter(q, 0),
        Control::Stop(q) => board.enter(q, STOPPED),
        Control::Fail => board.enter(p, FAILED),
        Control::Reset => board.rewind(p),
    }
}

impl<'a, K: Kind> Running<'a, K> {
    // A scan as it begins: an empty stack, and no level put.
    pub(crate) fn begin(cells: &'a mut [K], stack: &'a mut [K], board: Board) -> Running<'a, K>
        requires { 16 ≤ length stack.old }
        ensures { meaning K.ops result ≡ record { cells = cells.old; stack = []; board = board; puts = replicate 32 None } }
    {
        Running {
            cells,
            stack,
            depth: 0,
            board,
            puts: [None; 32],
        }
    }

    // Pushes a value where there is room, and goes on.
    fn push(&mut self, v: K) -> Result<Option<usize>, Fault>
        ensures { outcome result (meaning K.ops self.new) ≡ pushed v (meaning K.ops self.old) }
    {
        if self.depth >= MAX_DEPTH {
            return Err(Fault::Stack);
        }
        self.stack[self.depth] = v;
        self.depth += 1;
        Ok(Some(0))
    }

    // Takes the top of the stack, where there is one.
    fn pop(&mut self) -> Result<K, Fault>
        ensures after { restored result (meaning K.ops self.new) ≡ meaning K.ops self.old }
        ensures for_stack { for_stack result }
    {
        if self.depth == 0 {
            return Err(Fault::Stack);
        }
        self.depth -= 1;
        Ok(self.stack[self.depth])
    }

    // The value that an instruction pushes.
    fn value(&self, turn: Turn, s: Source) -> K
        requires { SourceInRange (length self.now.cells.now) s }
        ensures { result ≡ given K.ops turn.entry.seen.now turn.entry.process s self.now.cells.now self.now.board }
    {
        match s {
            Source::Lit(x) => K::read(x),
            Source::Cell(x) => self.cells[x],
            Source::In(x) => K::read(turn.seen[x]),
            Source::Out(x) => K::read(self.board.levels[x]),
            Source::Yes => K::one(),
            Source::No => K::zero(),
            Source::Late(x) => truth_value(self.board.clock(turn.process) as usize > x),
            Source::Active(q) => truth_value(!is_passive(self.board.state(q))),
            Source::Stopped(q) => truth_value(self.board.state(q) == STOPPED),
            Source::Failed(q) => truth_value(self.board.state(q) == FAILED),
        }
    }

    // Runs instruction `i`, which is `instr`: past how many instructions the body goes on, or that it is over.
    pub(crate) fn step(
        &mut self,
        turn: Turn,
        i: usize,
        instr: Instr,
    ) -> Result<Option<usize>, Fault>
        requires { InRange (length self.old.cells.now) i instr }
        ensures { outcome result (meaning K.ops self.new) ≡ stepped K.ops turn.entry.seen.now turn.entry.process i instr (meaning K.ops self.old) }
    {
        match instr {
            Instr::End => Ok(None),
            Instr::Push(s) => {
                let v = self.value(turn, s);
                self.push(v)
            }
            Instr::Convert(u) => {
                let a = self.pop()?;
                self.push(convert(u, a))
            }
            Instr::Combine(o) => {
                let b = self.pop()?;
                let a = self.pop()?;
                let v = combine(o, a, b).map_err(|_| Fault::Divisor)?;
                self.push(v)
            }
            Instr::Jump(x) => Ok(Some(x - (i + 1))),
            Instr::Unless(x) => {
                let a = self.pop()?;
                let skipped = if a.is_true() { 0 } else { x - (i + 1) };
                Ok(Some(skipped))
            }
            Instr::Keep(x) => {
                let a = self.pop()?;
                self.cells[x] = a;
                Ok(Some(0))
            }
            Instr::Drive(x) => {
                let a = self.pop()?;
                self.puts[x] = Some(a.write());
                Ok(Some(0))
            }
            Instr::Set(c) => {
                control(&mut self.board, turn.process, c);
                Ok(Some(0))
            }
        }
    }
}
