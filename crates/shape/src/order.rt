// Whether each line stands where a line of its sort may stand.
ghost use Rattle.std.specs.Prelude.{◌≡◌, []};
ghost use Rattle.text.specs.Items.{forms_of};
ghost use Rattle.language.specs.Causes.{first_unfit};
ghost use Rattle.shape.specs.Places.{misplaced, later};

use crate::item::line_at;
use language::house::Opener;
use text::items::Items;

// Whether a line may not stand behind lines of which `latest` is the last in the order of sorts: kind and tact stand once,
// a state behind a process, a process anywhere behind, all else in the order of sorts.
fn misplaced(latest: Option<Opener>, opener: Opener) -> bool
    ensures { result ≡ misplaced latest opener }
{
    match opener {
        Opener::Kind | Opener::Tact => latest >= Some(opener),
        Opener::Const | Opener::Cell | Opener::In | Opener::Out => latest > Some(opener),
        Opener::Proc => false,
        Opener::State => latest < Some(Opener::Proc),
    }
}

// The last in the order of sorts of some lines and one more.
fn later(latest: Option<Opener>, opener: Opener) -> Option<Opener>
    ensures { result ≡ later latest opener }
{
    latest.max(Some(opener))
}

// The first line, counted from 1, that is no form of the language or is out of its place.
pub fn first_unfit(lines: Items) -> Option<usize>
    ensures { result ≡ first_unfit (forms_of lines.entry) [] }
{
    let mut latest = None;
    for (i, at) in lines.iter().enumerate() {
        match line_at(lines.rows, at) {
            Some(opener) if !misplaced(latest, opener) => latest = later(latest, opener),
            _ => return Some(i + 1),
        }
    }
    None
}
