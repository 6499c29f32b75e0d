// The law of what a scan keeps and counts.
ghost use Rattle.std.specs.Prelude.{◌≡◌};
ghost use Rattle.machine.specs.Laws.{ScanLaw};

use hosts::Host;
use kinds::Kind;

// States the law for a kind and a host, and returns 0.
pub fn scan_law<K: Kind, H: Host>() -> u8
    ensures law { ScanLaw K.Kind.ops H.Host.means }
    ensures answer { result ≡ 0 }
{
    0
}
