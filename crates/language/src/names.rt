// What the names of a text stand for.
ghost use Rattle.std.specs.Prelude.{◌≡◌};
ghost use Rattle.language.specs.Pushes.{thing_source, target_instr};

use flat::instr::{Instr, Source};

// What a name stands for in an expression: a constant's value, or the number of a cell, an input or an output.
#[derive(Clone, Copy, PartialEq, Eq, Debug)]
pub enum Thing {
    Constant(i32),
    Cell(usize),
    In(usize),
    Out(usize),
}

// What a name stands for where something is put.
#[derive(Clone, Copy, PartialEq, Eq, Debug)]
pub enum Target {
    Cell(usize),
    Out(usize),
}

// What pushes the thing that a name stands for.
impl From<Thing> for Source {
    ghost from_gives = { λ thing source. source ≡ thing_source thing };

    fn from(thing: Thing) -> Source {
        match thing {
            Thing::Constant(v) => Source::Lit(v),
            Thing::Cell(n) => Source::Cell(n),
            Thing::In(n) => Source::In(n),
            Thing::Out(n) => Source::Out(n),
        }
    }
}

// What puts a value into the target that a name stands for.
impl From<Target> for Instr {
    ghost from_gives = { λ target instr. instr ≡ target_instr target };

    fn from(target: Target) -> Instr {
        match target {
            Target::Cell(n) => Instr::Keep(n),
            Target::Out(n) => Instr::Drive(n),
        }
    }
}
