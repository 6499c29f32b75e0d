// Process rows.

// A process's state and clock.
// A state stays a byte: the rows are plain numbers that the caller reads, where 255 tells that a process is stopped and 254 that it failed.
#[derive(Clone, Copy, PartialEq, Eq, Debug)]
pub struct Row {
    pub state: u8,
    pub clock: u32,
}
