// The kinds of cell that a code can name.
ghost use Rattle.std.specs.Prelude.{◌≡◌};
ghost use Rattle.flat.specs.CellKinds.{number_of, Names};

// What a code's cells hold.
#[derive(Clone, Copy, PartialEq, Eq, Debug)]
pub enum CellKind {
    Long,
    Milli,
}

// A word that is the number of no kind.
#[derive(Clone, Copy, PartialEq, Eq, Debug)]
pub struct UnknownKind(pub i32);

// The number of a kind, as the first word of a code has it.
impl From<CellKind> for i32 {
    ghost from_gives = { λ kind word. word ≡ number_of kind };

    fn from(kind: CellKind) -> i32 {
        match kind {
            CellKind::Long => 1,
            CellKind::Milli => 2,
        }
    }
}

// The kind with a number.
impl TryFrom<i32> for CellKind {
    type Error = UnknownKind;

    ghost try_from_gives = { Names };

    fn try_from(word: i32) -> Result<Self, UnknownKind> {
        match word {
            1 => Ok(CellKind::Long),
            2 => Ok(CellKind::Milli),
            _ => Err(UnknownKind(word)),
        }
    }
}
