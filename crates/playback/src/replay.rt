// A stored code and rows of levels, from bytes to the lines that are printed.
ghost use Rattle.std.specs.Prelude.{◌≡◌, true, map, IfOk, IfSome, IsErr, MatchOption, vec_items};
ghost use Rattle.flat.specs.Layout.{Holds};
ghost use Rattle.machine.specs.Scan.{same_word};
ghost use Rattle.playback.specs.Listing.{printed_rows};
ghost use Rattle.playback.specs.Replay.{Answered, Ran, Replayed, unplayed, printed_for};
ghost use Rattle.playback.specs.declared.replay.Unplayed.TheVariants.{NotMounted, NoMemory};

use crate::listing::Player;
use flat::kind::CellKind;
use kinds::Kind;
use kinds::long::Long;
use kinds::milli::Milli;
use lines::RefusalLine;
use lists::{ListError, read_list};
use machine::mounted::{Mounted, mount};
use refusals::MountRefusal;
use rows::read_rows;
use std::alloc::{AllocError, Global};

// The most bytes that an input may have.
pub const LIMIT: usize = 1048576;

// Why nothing is played: the input is no code line with whole rows behind it; or its code is not mounted; or there is no memory.
#[derive(Clone, Copy)]
enum Unplayed {
    Unreadable,
    NotMounted(MountRefusal),
    NoMemory,
}

// A line that is not read.
impl From<ListError> for Unplayed {
    ghost from_gives = { λ e u. u ≡ unplayed e };

    fn from(e: ListError) -> Unplayed {
        match e {
            ListError::NotAList => Unplayed::Unreadable,
            ListError::NoMemory => Unplayed::NoMemory,
        }
    }
}

// A code that is not mounted.
impl From<MountRefusal> for Unplayed {
    ghost from_gives = { λ e u. u ≡ NotMounted e };

    fn from(e: MountRefusal) -> Unplayed {
        Unplayed::NotMounted(e)
    }
}

// No memory.
impl From<AllocError> for Unplayed {
    ghost from_gives = { λ _ u. u ≡ NoMemory };

    fn from(_e: AllocError) -> Unplayed {
        Unplayed::NoMemory
    }
}

// The lines of a run of the mounted code, with a scan for each row.
fn play<K: Kind>(heap: Global, mounted: Mounted, rows: &[Vec<i32>]) -> Result<Vec<u8>, AllocError>
    requires mounted { Holds mounted.code.now mounted.head }
    requires kind { same_word mounted.head.kind K.ops.number ≡ true }
    ensures { IfOk result (λ out. out.items ≡ printed_rows K.ops mounted.entry.code.now (map vec_items rows.now)) }
{
    let player = Player::<K>::begin(heap, mounted)?;
    player.list(heap, rows)
}

// The lines of a run of a code through the rows that the text behind it is, or why it is not played.
fn run(heap: Global, code: &[i32], text: &[u8]) -> Result<Vec<u8>, Unplayed>
    ensures { IfSome (printed_for result) (Ran code.now text.now) }
{
    let mounted = mount(code)?;
    let head = mounted.head();
    let rows = read_rows(heap, text, head.inputs)?;
    match CellKind::try_from(head.kind) {
        Ok(CellKind::Long) => Ok(play::<Long>(heap, mounted, &rows)?),
        Ok(CellKind::Milli) => Ok(play::<Milli>(heap, mounted, &rows)?),
        Err(_) => unreachable(),
    }
}

// What is printed of what was played: its lines, or the line of the refusal.
fn printed(heap: Global, played: Result<Vec<u8>, Unplayed>) -> Result<Vec<u8>, AllocError>
    ensures { MatchOption (printed_for played) (IsErr result) (λ bytes. IfOk result (λ out. out.items ≡ bytes)) }
{
    match played {
        Ok(out) => Ok(out),
        Err(Unplayed::Unreadable) => RefusalLine::UNREADABLE.into_bytes(heap),
        Err(Unplayed::NotMounted(refusal)) => {
            let number = refusal.number();
            RefusalLine { number, at: 0 }.into_bytes(heap)
        }
        Err(Unplayed::NoMemory) => Err(AllocError),
    }
}

// What is printed for a code and the text behind it.
pub fn run_code(heap: Global, code: &[i32], text: &[u8]) -> Result<Vec<u8>, AllocError>
    ensures { IfOk result (λ out. Ran code.now text.now out.items) }
{
    printed(heap, run(heap, code, text))
}

// What is printed for an input within the limit.
fn answer(heap: Global, input: &[u8]) -> Result<Vec<u8>, AllocError>
    ensures { IfOk result (λ out. Answered input.now out.items) }
{
    let mut code = Vec::new(heap);
    match read_list(input, b"code", &mut code) {
        Ok(n) => run_code(heap, &code, &input[n..]),
        Err(e) => printed(heap, Err(Unplayed::from(e))),
    }
}

// What is printed for an input: the lines of the run of a stored code through rows, or the line of a refusal.
pub fn replay(heap: Global, input: &[u8]) -> Result<Vec<u8>, AllocError>
    ensures { IfOk result (λ out. Replayed input.now out.items) }
{
    if input.len() > LIMIT {
        return RefusalLine::UNREADABLE.into_bytes(heap);
    }
    answer(heap, input)
}
