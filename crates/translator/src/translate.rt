// The call that translates a text.
ghost use Rattle.std.specs.Prelude.{◌≡◌, length};
ghost use Rattle.text.specs.Items.{forms_of};
ghost use Rattle.language.specs.Translation.{answer_for, translation};
ghost use Rattle.translator.specs.Outcome.{told, outcome};
ghost use Rattle.language.specs.OnSheet.{lines_of};

use crate::emit::{count_words, write_code};
use crate::sheet::Sheet;
use checks::check::check;
use checks::refusal::Refusal;
use text::items::Items;
use text::read::read;
use text::row::Row;

// Checks the lines on a sheet and writes their code.
fn write_checked(sheet: Sheet, code: &mut [i32]) -> Result<(usize, usize), Refusal>
    ensures { (record { told = told result; code = code.new }) ≡ outcome (answer_for (length code.old) (forms_of sheet.entry.lines) (lines_of sheet.entry.lines)) code.old }
{
    check(sheet.lines)?;
    if code.len() < count_words(sheet) {
        return Err(Refusal::ShortCode);
    }
    Ok(write_code(sheet, code))
}

// Translates a text: the words of its flat code are written in front of the code, and their number and the bound of a scan's steps
// are answered. Any bytes may be given, and any lengths of sheet and code; a refusal keeps the whole code.
pub fn translate<'a>(
    text: &'a [u8],
    sheet: &mut [Row<'a>],
    code: &mut [i32],
) -> Result<(usize, usize), Refusal>
    ensures { (record { told = told result; code = code.new }) ≡ outcome (translation text.now (length sheet.old) (length code.old)) code.old }
{
    let page = read(text, sheet)?;
    let lines = Items {
        rows: sheet,
        first: 0,
        count: page.lines,
    };
    let sheet = Sheet { lines };
    write_checked(sheet, code)
}
