// The words of a flat code by their places.
ghost use Rattle.std.specs.Prelude.{◌≡◌, ◌+◌, ◌*◌, ◌<◌, ◌≤◌, length};
ghost use Rattle.flat.specs.Words.{number, natural, at, word, body};

// The place of the kind of cell.
pub const KIND: usize = 0;

// The place of the tact.
pub const TACT: usize = 1;

// The place of the number of cells.
pub const CELLS: usize = 2;

// The place of the number of inputs.
pub const INPUTS: usize = 3;

// The place of the number of outputs.
pub const OUTPUTS: usize = 4;

// The place of the number of processes.
pub const PROCESSES: usize = 5;

// The place of the number of instructions.
pub const INSTRUCTIONS: usize = 6;

// The words of the head.
const HEAD_WORDS: usize = 7;

// The words of a process: its number of states, and sixteen entries.
const PROCESS_WORDS: usize = 17;

// The words of an instruction: its number and its operand.
const INSTRUCTION_WORDS: usize = 2;

// The number that a word is, unless it is negative. By a cast: the library's `try_from` parts sign and size, which costs more.
pub(crate) fn number(x: i32) -> Option<usize>
    ensures { result ≡ number x }
{
    if x < 0 { None } else { Some(x as usize) }
}

// A word as a count or a place.
pub fn as_count(x: i32) -> usize
    ensures { result ≡ natural x }
{
    number(x).unwrap_or(0)
}

// The word at a place, and 0 beyond the end.
pub fn word_at(code: &[i32], i: usize) -> i32
    ensures { result ≡ at code.now i }
{
    code.get(i).copied().unwrap_or(0)
}

// The word at a place as a count or a place.
pub fn count_at(code: &[i32], i: usize) -> usize
    ensures { result ≡ word code.now i }
{
    as_count(word_at(code, i))
}

// Where process `q` stands: its number of states, then its entries.
pub fn process_place(q: usize) -> usize
    requires { q ≤ 32 }
    ensures { result ≡ 7 + 17 * q }
{
    HEAD_WORDS + PROCESS_WORDS * q
}

// Where the entry of state `s` of process `q` stands.
pub fn entry_place(q: usize, s: usize) -> usize
    requires { (q < 32) × (s < 256) }
    ensures { result ≡ 8 + 17 * q + s }
{
    process_place(q) + 1 + s
}

// Where instruction `i` stands, behind all processes.
pub fn instruction_place(code: &[i32], i: usize) -> usize
    requires { (word code.now 5 ≤ 32) × (i ≤ 4096) }
    ensures { result ≡ 7 + 17 * word code.now 5 + 2 * i }
{
    process_place(count_at(code, PROCESSES)) + INSTRUCTION_WORDS * i
}

// The words from instruction `i` on.
pub fn instructions_from(code: &[i32], i: usize) -> &[i32]
    requires few { (word code.now 5 ≤ 32) × (i ≤ 4096) }
    requires within { 7 + 17 * word code.now 5 + 2 * i ≤ length code.now }
    ensures { result.now ≡ body code.now i }
{
    &code[instruction_place(code, i)..]
}
