// A text read onto a sheet.
ghost use Rattle.std.specs.Prelude.{◌≡◌, ◌≤◌, length};
ghost use Rattle.text.specs.Reading.{read_text};
ghost use Rattle.text.specs.Page.{page_of, laid_out, Holds};
ghost use Rattle.text.specs.declared.read.ReadRefusal.TheVariants.{Line};

use crate::filler::Filler;
use crate::reader::{NoForm, Reader, TEXT_MAX};
use crate::row::Row;

// How many rows of the sheet a text takes, and how many lines it has.
#[derive(Clone, Copy, PartialEq, Eq, Debug)]
pub struct Page {
    pub rows: usize,
    pub lines: usize,
}

// Why a text is not read: it has no byte or over 32,768; the first line that is no form; the sheet has too few rows.
#[derive(Clone, Copy, PartialEq, Eq, Debug)]
pub enum ReadRefusal {
    Size,
    Line(usize),
    Short,
}

// A line that is no form is told.
impl From<NoForm> for ReadRefusal {
    ghost from_gives = { λ e r. r ≡ Line e.line };

    fn from(e: NoForm) -> ReadRefusal {
        ReadRefusal::Line(e.line)
    }
}

// Lays a text's items out on the sheet, row by row.
fn lay<'a>(text: &'a [u8], sheet: &mut [Row<'a>]) -> Result<Page, ReadRefusal>
    requires { length text.now ≤ 32768 }
    ensures answer { result ≡ laid_out (read_text text.now) (length sheet.old) }
    ensures holds { Holds (read_text text.now) result sheet.new }
{
    let mut reader = Reader::new(text);
    let mut filler = Filler::new();
    while let Some(item) = reader.next()? {
        filler.put(sheet, item);
    }
    if filler.used > sheet.len() {
        return Err(ReadRefusal::Short);
    }
    Ok(Page {
        rows: filler.used,
        lines: filler.count,
    })
}

// Reads a text onto a sheet: how far the sheet is filled, or why the text is not read.
pub fn read<'a>(text: &'a [u8], sheet: &mut [Row<'a>]) -> Result<Page, ReadRefusal>
    ensures answer { result ≡ page_of text.now (length sheet.old) }
    ensures holds { Holds (read_text text.now) result sheet.new }
{
    if text.is_empty() || text.len() > TEXT_MAX {
        return Err(ReadRefusal::Size);
    }
    lay(text, sheet)
}
