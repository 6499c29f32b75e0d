// A live run, scanned once for each row of levels, and what is printed of it.
ghost use Rattle.std.specs.Prelude.{◌≡◌, true, map, replicate, length, IfOk};
ghost use Rattle.flat.specs.Layout.{Holds};
ghost use Rattle.machine.specs.Calls.{told};
ghost use Rattle.machine.specs.Scan.{same_word};
ghost use Rattle.playback.specs.Listing.{listing, row_pins, row_scan};
ghost use Rattle.playback.specs.Players.{Begun, standing};

use board::Board;
use hosts::tape::{Spent, Tape};
use kinds::Kind;
use lines::{RefusalLine, push_scan_line};
use machine::live::Live;
use machine::mounted::Mounted;
use numerals::push_shown_with_room;
use refusals::ScanRefusal;
use std::alloc::{AllocError, Global};

// So many cells at zero. They are filled up by resize, since vec! clones, and of a kind's clones nothing is known.
fn zeros<K: Kind>(heap: Global, n: usize) -> Result<Vec<K>, AllocError>
    ensures { IfOk result (λ v. v.items ≡ replicate n K.ops.zero) }
{
    let mut cells = Vec::new(heap);
    cells.resize(n, K::zero())?;
    Ok(cells)
}

// A live run with what it is lent: the cells, the working memory and the board.
#[derive(Drop)]
pub(crate) struct Player<'a, K: Kind> {
    pub live: Live<'a>,
    pub cells: Vec<K>,
    pub work: Vec<K>,
    pub board: Board,
}

impl<'a, K: Kind> Player<'a, K> {
    // A run of the mounted code from its beginning, lent just what it needs.
    pub(crate) fn begin(heap: Global, mounted: Mounted<'a>) -> Result<Player<'a, K>, AllocError>
        requires mounted { Holds mounted.code.now mounted.head }
        requires kind { same_word mounted.head.kind K.ops.number ≡ true }
        ensures { IfOk result (Begun K.ops mounted.entry.code.now) }
    {
        let head = mounted.head();
        let mut cells = zeros(heap, head.cells)?;
        let work = zeros(heap, head.cells + 16)?;
        let mut board = Board::new();
        let mut tape = Tape::new(&[], head.inputs);
        let Ok(live) = mounted.start(&mut cells, &mut board, &mut tape) else {
            unreachable()
        };
        Ok(Player {
            live,
            cells,
            work,
            board,
        })
    }

    // Scans once, with just this row at the pins.
    fn scan_row(&mut self, row: &[i32]) -> Result<u32, ScanRefusal<Spent>>
        requires { Holds self.old.live.code.now self.old.live.head }
        ensures result { (record { told = told result; world = standing self.old.live.code.now self.new }) ≡ row_scan K.ops self.old.live.code.now (length self.old.work.items) row.now (standing self.old.live.code.now self.old) }
        ensures code { self.new.live.code.now ≡ self.old.live.code.now }
        ensures head { self.new.live.head ≡ self.old.live.head }
        ensures room { length self.new.work.items ≡ length self.old.work.items }
    {
        let mut tape = Tape::new(row, self.live.head().inputs);
        self.live.scan(&mut self.cells, &mut self.work, &mut self.board, &mut tape)
    }

    // Scans once for each row, or to the first refusal, and gives a line for each scan.
    pub(crate) fn list(mut self, heap: Global, rows: &[Vec<i32>]) -> Result<Vec<u8>, AllocError>
        requires { Holds self.live.code.now self.live.head }
        ensures { IfOk result (λ out. out.items ≡ listing K.ops self.entry.live.code.now (length self.entry.work.items) 1 (map (λ row. row_pins self.entry.live.code.now row.items) rows.now) (standing self.entry.live.code.now self.entry)) }
    {
        let head = self.live.head();
        let mut out = Vec::new(heap);
        for (i, row) in rows.iter().enumerate() {
            let at = i as u64 + 1;
            match self.scan_row(row) {
                Ok(steps) => {
                    push_scan_line(heap, &mut out, &head, at, &self.cells, &self.board, steps)?
                }
                Err(refusal) => {
                    let number = refusal.number();
                    push_shown_with_room(&mut out, RefusalLine { number, at })?;
                    return Ok(out);
                }
            }
        }
        Ok(out)
    }
}
