// The bodies of processes: how many instructions they take, and putting them.
ghost use Rattle.std.specs.Prelude.{◌≡◌, ◌+◌, ◌*◌, ◌≤◌, length};
ghost use Rattle.language.specs.Lines.{body, processes};
ghost use Rattle.language.specs.OnSheet.{line_at, lines_of};
ghost use Rattle.language.specs.Program.{bound};
ghost use Rattle.language.specs.Resolve.{program};
ghost use Rattle.language.specs.Sizes.{capped, act_size};
ghost use Rattle.translator.specs.Writing.{names_at, states_on, states_size, processes_size, processes_put, StatesEmitted};

use crate::encode::put;
use crate::group::StateLines;
use crate::sheet::Sheet;
use crate::site::Site;
use crate::statement::emit_body;
use flat::instr::Instr;
use language::house::Opener;
use language::line::is_line;
use measure::size::body_size;
use text::row::Row;

// How many instructions the body of the line at a row takes; what is no state has none.
pub(crate) fn line_size(rows: &[Row], at: usize) -> usize
    ensures { result ≡ capped (act_size (body (line_at rows.now at))) }
{
    if is_line(rows, at, Opener::State) {
        body_size(rows, at)
    } else {
        0
    }
}

// How many instructions the bodies of a process take, an end behind each.
// That the sum is small is asked of what is left each time, so it is no type's fact.
pub(crate) fn size_states(sheet: Sheet, states: StateLines) -> usize
    requires small { states_size (states_on sheet states) ≤ 4096 }
    ensures { result ≡ states_size (states_on sheet.entry states) }
{
    let mut size = 0;
    for at in sheet.items(states).iter() {
        size += line_size(sheet.lines.rows, at) + 1;
    }
    size
}

// Puts the bodies of process `own`, an end behind each; answers the place behind them, and the most that run.
fn emit_states(
    sheet: Sheet,
    own: usize,
    states: StateLines,
    code: &mut [i32],
    p: usize,
) -> (usize, usize)
    requires few { own ≤ 32768 }
    requires short { length code.old ≤ 8192 }
    requires room { 2 * (p + states_size (states_on sheet states)) ≤ length code.old }
    ensures { StatesEmitted (names_at sheet.entry) own (states_on sheet.entry states) p code.old code.new result }
{
    let mut next = p;
    let mut most: usize = 0;
    for (here, at) in sheet.items(states).iter().enumerate() {
        let site = Site {
            sheet,
            own,
            states,
            here,
        };
        let (end, m) = emit_body(site, at, code, next);
        next = put(code, end, Instr::End);
        most = most.max(m + 1);
    }
    (next, most)
}

// How many processes lines have, and how many instructions all their bodies take.
pub(crate) fn measure(sheet: Sheet) -> (usize, usize)
    requires small { processes_size (processes (lines_of sheet.lines)) ≤ 4096 }
    ensures count { result.0 ≡ length (processes (lines_of sheet.entry.lines)) }
    ensures within { result.0 ≤ sheet.entry.lines.count }
    ensures size { result.1 ≡ processes_size (processes (lines_of sheet.entry.lines)) }
{
    let mut count = 0;
    let mut size = 0;
    for states in sheet.processes() {
        count += 1;
        size += size_states(sheet, states);
    }
    (count, size)
}

// Puts the bodies of all processes, from place 0 on; answers the sum of the most that run of each.
pub(crate) fn emit_processes(sheet: Sheet, code: &mut [i32]) -> usize
    requires short { length code.old ≤ 8192 }
    requires room { 2 * processes_size (processes (lines_of sheet.lines)) ≤ length code.old }
    ensures bound { result ≡ bound (program (lines_of sheet.entry.lines)) }
    ensures wrote { code.new ≡ processes_put (names_at sheet.entry) 0 0 (processes (lines_of sheet.entry.lines)) code.old }
{
    let mut p = 0;
    let mut total = 0;
    for (own, states) in sheet.processes().enumerate() {
        let (behind, most) = emit_states(sheet, own, states, code, p);
        p = behind;
        total += most;
    }
    total
}
