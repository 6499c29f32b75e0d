// A live run of a code.
ghost use Rattle.std.specs.Prelude.{◌≡◌, ℕ, ◌+◌, ◌≤◌, length};
ghost use Rattle.hosts.specs.Levels.{sensed};
ghost use Rattle.flat.specs.Words.{word};
ghost use Rattle.flat.specs.Layout.{Holds};
ghost use Rattle.machine.specs.Scan.{same_word, too_few, swept_on, ended};
ghost use Rattle.machine.specs.Calls.{told, Scans, Untouched};
ghost use Rattle.bodies.specs.Memory.{Runnable};

use board::Board;
use bodies::advance::advance;
use flat::head::Head;
use hosts::Host;
use hosts::levels::{put_all, sense};
use kinds::Kind;
use refusals::ScanRefusal;

// A run that was started: it holds its code with the code's head, and counts its scans.
// The two stand here as in `Mounted`: a field for both would put one name more into each clause and spare none.
#[derive(Drop)]
pub struct Live<'a> {
    code: &'a [i32],
    head: Head,
    scans: u64,
}

// Whether a code's first word is the number of the kind.
pub(crate) fn is_kind<K: Kind>(word: i32) -> bool
    ensures { result ≡ same_word word K.ops.number }
{
    word == K::code_word()
}

// Whether cells or host lines are too few for a code with this head.
pub(crate) fn is_short<K, H: Host>(head: &Head, cells: &[K], host: &H) -> bool
    ensures { result ≡ too_few head.now (length cells.now) (length (H.means.latch host.now)) (length (H.means.held host.now)) }
{
    cells.len() < head.cells || host.inputs() < head.inputs || host.outputs() < head.outputs
}

impl<'a> Live<'a> {
    // A run of a code with no scan yet.
    pub(crate) fn begin(code: &'a [i32], head: Head) -> Live<'a>
        ensures code { result.code.now ≡ code.now }
        ensures head { result.head ≡ head }
        ensures scans { result.scans ≡ 0 }
    {
        Live {
            code,
            head,
            scans: 0,
        }
    }

    // The head of the run's code.
    pub fn head(&self) -> Head
        ensures { result ≡ self.now.head }
    {
        self.head
    }

    // Ends the run, and tells how many scans it had, up to 2^64 - 1.
    pub fn halt(self) -> u64
        ensures { result ≡ self.entry.scans }
    {
        let Live { scans, .. } = self;
        scans
    }

    // One scan: samples the host, runs each process in order, and puts the outputs; the answer is the steps taken.
    // Cells, working memory, board and host are lent one by one: each is the caller's, who uses it between the calls.
    #[tactic(auto, using(bodies::proofs::Runnables::runnable))]
    pub fn scan<K: Kind, H: Host>(
        &mut self,
        cells: &mut [K],
        work: &mut [K],
        board: &mut Board,
        host: &mut H,
    ) -> Result<u32, ScanRefusal<H::Fault>>
        requires mounted { Holds self.old.code.now self.old.head }
        ensures result { Scans K.ops H.means self.old.code.now (length work.old) (record { cells = cells.entry.now; board = board.old; scans = self.old.scans; host = host.old }) result (record { cells = cells.exit.now; board = board.new; scans = self.new.scans; host = host.new }) }
        ensures untouched { Untouched result host.old host.new }
        ensures code { self.new.code.now ≡ self.old.code.now }
        ensures head { self.new.head ≡ self.old.head }
    {
        if !is_kind::<K>(self.head.kind) {
            return Err(ScanRefusal::OtherKind);
        }
        if work.len() < self.head.cells + 16 || is_short(&self.head, cells, host) {
            return Err(ScanRefusal::Short);
        }
        host.sample().map_err(ScanRefusal::Down)?;
        self.proceed(cells, work, board, host)
    }

    // The scan from the latched levels on.
    fn proceed<K: Kind, H: Host>(
        &mut self,
        cells: &mut [K],
        work: &mut [K],
        board: &mut Board,
        host: &mut H,
    ) -> Result<u32, ScanRefusal<H::Fault>>
        requires code { Runnable self.old.code.now }
        requires cells { word self.old.code.now 2 ≤ length cells.old }
        requires room { word self.old.code.now 2 + 16 ≤ length work.old }
        ensures result { (record { told = told result; world = record { cells = cells.exit.now; board = board.new; scans = self.new.scans; latch = H.means.latch host.new; held = H.means.held host.new } }) ≡ ended self.old.code.now (H.means.latch host.old) (record { cells = cells.entry.now; board = board.old; scans = self.old.scans; latch = H.means.latch host.old; held = H.means.held host.old }) (swept_on K.ops self.old.code.now (H.means.latch host.old) (record { cells = cells.entry.now; board = board.old; scans = self.old.scans; latch = H.means.latch host.old; held = H.means.held host.old })) }
        ensures untouched { (h h₁ : H) → Untouched result h h₁ }
        ensures code { self.new.code.now ≡ self.old.code.now }
        ensures head { self.new.head ≡ self.old.head }
    {
        let seen = sense(host);
        let (steps, puts) = advance(self.code, cells, board, work, &seen)?;
        put_all(host, &puts);
        self.scans = self.scans.saturating_add(1);
        Ok(steps)
    }
}
