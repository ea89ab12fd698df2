//! A serving primary: its node's turns.

ghost use Rattle.std.specs.Prelude.{◌≡◌, ◌⊎◌, Some, IfOk, IfErr};
ghost use Rattle.sockets.specs.Serving.{TurnsLeft, completed};
ghost use Rattle.sockets.specs.Primaries.{DoesPrimary};
ghost use Rattle.sockets.specs.Replicas.{failures};
ghost use Rattle.sockets.specs.declared.faults.ServeFault.TheVariants.{Socket};

use crate::faults::ServeFault;
use crate::port::Port;
use crate::primary_node::PrimaryNode;
use crate::turns::take_turn;
use journal::JournalStore;
use shared::{Line, Origin};
use std::sync::Wait;

/// Serves, turn by turn, until the turns are used up; `None` means no limit. Another call continues where
/// this one stopped.
///
/// It also ends if the port has counted as many faults as it can. Fails with `Socket` if a receive
/// failed; it may be called again.
pub fn serve_primary<L: Origin, J: JournalStore, H: Wait + Drop, P: Port, R: Wait>(
    rt: &R,
    line: &Line<L, J, H>,
    node: &mut PrimaryNode<L, P>,
    turns: &mut Option<u64>,
) -> Result<(), ServeFault>
    ensures serves { DoesPrimary L.schema L.workers P.is_honest P.came P.sent P.fault_count node.old node.new
        (failures result) (λ _. completed turns.old turns.new result) }
    ensures turns { TurnsLeft turns.old turns.new }
    ensures ended { IfOk result (λ _. (turns.new ≡ Some 0) ⊎ (P.fault_count node.new.port ≡ u64.MAX)) }
    ensures failed { IfErr result (λ fault. fault ≡ Socket) }
{
    for _ in rt.forever() {
        if node.port().faults() == u64::MAX || !take_turn(turns) {
            return Ok(());
        }
        if let Err(fault) = node.turn(rt, line) {
            return Err(fault);
        }
    }
    unreachable!()
}
