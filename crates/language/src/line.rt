// The lines on a sheet: of what sort each is.
ghost use Rattle.std.specs.Prelude.{◌≡◌, ◌-◌};
ghost use Rattle.language.specs.Lines.{sort, rank, is};
ghost use Rattle.language.specs.OnSheet.{line_at, third_row, count_at};

use crate::house::Opener;
use crate::view::{count_at, opener_at, third_row};
use text::items::Items;
use text::row::Row;

// The place of a sort in the order of lines.
pub fn rank(opener: Opener) -> u32
    ensures { result ≡ rank opener }
{
    opener as u32 + 1
}

// The sort of the line at a row; one that opens no line counts as a kind.
#[tactic(auto, unfolding(crate::specs::OnSheet::line_at))]
pub fn sort_at(rows: &[Row], at: usize) -> Opener
    ensures { result ≡ sort (line_at rows.now at) }
{
    opener_at(rows, at).unwrap_or(Opener::Kind)
}

// Whether the line at a row is of a sort.
pub fn is_line(rows: &[Row], at: usize, opener: Opener) -> bool
    ensures { result ≡ is opener (line_at rows.now at) }
{
    opener == sort_at(rows, at)
}

// The statements of the state line at a row: its items behind the name.
pub fn body_at<'s, 'a>(rows: &'s [Row<'a>], at: usize) -> Items<'s, 'a>
    ensures rows { result.rows.now ≡ rows.now }
    ensures first { result.first ≡ third_row rows.now at }
    ensures count { result.count ≡ count_at rows.now at - 2 }
{
    Items {
        rows,
        first: third_row(rows, at),
        count: count_at(rows, at).saturating_sub(2),
    }
}
