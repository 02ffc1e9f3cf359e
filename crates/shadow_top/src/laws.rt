//! A law of the definitions: an input, and what stood before, determine what is shown.

ghost use Rattle.std.specs.Prelude.{◌≡◌, ℕ};
ghost use Rattle.run_outside.specs.Sink.{Content};
ghost use Rattle.shadow_top.specs.Input.{Input};
ghost use Rattle.shadow_top.specs.Shown.{IsShown};

use pcap_text::one_datagram;
use round_lookahead::one_result;
use run_plan::laws::one_plan;

/// An input has at most one outcome: console, data directory and status.
pub fn one_shown()
    ensures { (i : Input) (old one other : Content) (status another : ℕ) → IsShown i old one status → IsShown i old other another → (one ≡ other) × (status ≡ another) }
{
    one_plan();
    one_datagram();
    one_result();
}
