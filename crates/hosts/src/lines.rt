// Lists of lines: a level is read or set where there is a line.
ghost use Rattle.std.specs.Prelude.{◌≡◌, pos, slice_index_or, slice_set};

// The level of line `i`, or 0 beyond the last line.
pub fn level(lines: &[i32], i: usize) -> i32
    ensures { result ≡ slice_index_or lines.now i (pos 0) }
{
    lines.get(i).copied().unwrap_or(0)
}

// Sets the level of line `i`, where there is one. By index: what is written through `get_mut` of a slice is not known afterwards.
pub fn put(lines: &mut [i32], i: usize, v: i32)
    ensures { lines.new ≡ slice_set lines.old i v }
{
    if i < lines.len() {
        lines[i] = v;
    }
}
