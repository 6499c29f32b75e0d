// Why a call of a run is refused.
#![tactic(auto)]

ghost use Rattle.std.specs.Prelude.{◌≡◌};
ghost use Rattle.refusals.specs.Numbers.{mount_number, start_number, scan_number, refusal_of};

// A process, and its state whose body ran.
#[derive(Clone, Copy, PartialEq, Eq, Debug)]
pub struct Place {
    pub process: usize,
    pub state: u8,
}

// Why a code is not mounted.
#[derive(Clone, Copy, PartialEq, Eq, Debug)]
pub enum MountRefusal {
    NotFlatCode,
}

// Why a run is not started.
#[derive(Clone, Copy, PartialEq, Eq, Debug)]
pub enum StartRefusal {
    OtherKind,
    Short,
}

// Why a scan is refused: another kind of cell, too little memory or too few lines, the host's own fault, or where it was given up.
#[derive(PartialEq, Eq, Debug, Drop)]
pub enum ScanRefusal<F> {
    OtherKind,
    Short,
    Down(F),
    Divisor(Place),
    Stack(Place),
}

// Why a body is given up: a division without quotient, or a stack that held too few values or too many.
#[derive(Clone, Copy, PartialEq, Eq, Debug)]
pub enum Fault {
    Divisor,
    Stack,
}

// Why and where a scan is given up.
#[derive(Clone, Copy, PartialEq, Eq, Debug)]
pub struct GivenUp {
    pub fault: Fault,
    pub place: Place,
}

// The numbers are told by methods and no From: a number is one of the two things that a refusal's line tells.

impl MountRefusal {
    // The number by which the refusal is known.
    pub fn number(self) -> u32
        ensures { result ≡ mount_number self }
    {
        match self {
            MountRefusal::NotFlatCode => 9,
        }
    }
}

impl StartRefusal {
    // The number by which the refusal is known.
    pub fn number(self) -> u32
        ensures { result ≡ start_number self }
    {
        match self {
            StartRefusal::OtherKind => 10,
            StartRefusal::Short => 11,
        }
    }
}

impl<F> ScanRefusal<F> {
    // The number by which the refusal is known.
    pub fn number(&self) -> u32
        ensures { result ≡ scan_number self.now }
    {
        match self {
            ScanRefusal::OtherKind => 10,
            ScanRefusal::Short => 11,
            ScanRefusal::Down(_) => 12,
            ScanRefusal::Divisor(_) => 13,
            ScanRefusal::Stack(_) => 14,
        }
    }
}

// The refusal of a scan that was given up.
impl<F> From<GivenUp> for ScanRefusal<F> {
    ghost from_gives = { λ stop refusal. refusal ≡ refusal_of stop.fault stop.place };

    // The same place, under the fault's name.
    fn from(stop: GivenUp) -> ScanRefusal<F> {
        match stop.fault {
            Fault::Divisor => ScanRefusal::Divisor(stop.place),
            Fault::Stack => ScanRefusal::Stack(stop.place),
        }
    }
}
