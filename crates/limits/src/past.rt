// Lines past a limit.
ghost use Rattle.std.specs.Prelude.{◌≡◌, []};
ghost use Rattle.language.specs.Basics.{first_where};
ghost use Rattle.language.specs.Causes.{stateless, past_limit};
ghost use Rattle.language.specs.OnSheet.{line_at, lines_of};
ghost use Rattle.limits.specs.Tallies.{past_with};

use crate::range::past_range;
use crate::tally::Tally;
use language::house::Opener;
use language::line::{is_line, sort_at};
use text::items::Items;
use text::row::Row;

// How many instructions a code can have.
const MOST_INSTRUCTIONS: usize = 4096;

// Whether the line at a row, with lines behind it, is a process without states.
fn is_stateless(rows: &[Row], at: usize, behind: Items) -> bool
    ensures { result ≡ stateless (line_at rows.now at) (lines_of behind.entry) }
{
    is_line(rows, at, Opener::Proc)
        && (behind.count == 0 || !is_line(behind.rows, behind.first, Opener::State))
}

// Whether it passes a limit, by the counts before it and with it.
fn is_past_limit(rows: &[Row], at: usize, behind: Items, before: Tally, with: Tally) -> bool
    ensures { result ≡ past_with before with (line_at rows.now at) (lines_of behind.entry) }
{
    past_range(rows, at)
        || before.is_full(sort_at(rows, at))
        || is_stateless(rows, at, behind)
        || with.instructions > MOST_INSTRUCTIONS
}

// The first line that does.
// By split_first: a limit looks at the lines behind, which a walk does not hand out.
pub fn first_past(lines: Items) -> Option<usize>
    ensures { result ≡ first_where past_limit 1 [] (lines_of lines.entry) }
{
    let mut left = lines;
    let mut tally = Tally::new();
    while let Some((at, behind)) = left.split_first() {
        let with = tally.with_line(lines.rows, at);
        if is_past_limit(lines.rows, at, behind, tally, with) {
            return Some(lines.count - behind.count);
        }
        tally = with;
        left = behind;
    }
    None
}
