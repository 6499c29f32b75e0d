// What lines must be there.
ghost use Rattle.std.specs.Prelude.{◌≡◌};
ghost use Rattle.language.specs.Basics.{any};
ghost use Rattle.language.specs.Causes.{lacking};
ghost use Rattle.language.specs.Lines.{is};
ghost use Rattle.language.specs.OnSheet.{lines_of};

use language::house::Opener;
use language::line::is_line;
use text::items::Items;

// Whether one of the lines is of a sort.
fn has_line(lines: Items, sort: Opener) -> bool
    ensures { result ≡ any (is sort) (lines_of lines.entry) }
{
    lines.iter().any(|at| is_line(lines.rows, at, sort))
}

// Whether the kind, the tact or a process is missing.
pub fn is_lacking(lines: Items) -> bool
    ensures { result ≡ lacking (lines_of lines.entry) }
{
    !(has_line(lines, Opener::Kind)
        && has_line(lines, Opener::Tact)
        && has_line(lines, Opener::Proc))
}
