//! What a replica sends to the primary.

ghost use Rattle.std.specs.Prelude.{◌≡◌, ◌<◌};
ghost use Rattle.dispatcher.specs.Protocol.{ask_for, pull_for, want_for};
ghost use Rattle.rows.specs.Limits.{replicas_max, workers_max};

use wire::{Datagram, Out, Packet, To};

/// The Ask of a request, addressed to the primary.
pub fn ask_out(replica: u8, boot: u64, request: u64) -> Out
    requires { replica < replicas_max }
    ensures { result ≡ ask_for replica boot request }
{
    Out {
        to: To::Primary,
        packet: Packet::of(&Datagram::Ask {
            replica,
            boot,
            request,
        }),
    }
}

/// The Want of a worker's frames from a seq on, addressed to the primary.
pub fn want_out(replica: u8, worker: u8, from: u64) -> Out
    requires replica { replica < replicas_max }
    requires worker { worker < workers_max }
    ensures { result ≡ want_for replica worker from }
{
    Out {
        to: To::Primary,
        packet: Packet::of(&Datagram::Want {
            replica,
            worker,
            from,
        }),
    }
}

/// The Pull of the pieces of the image at a base from a number on, addressed to the primary.
pub fn pull_out(replica: u8, base: u64, from: u64) -> Out
    requires { replica < replicas_max }
    ensures { result ≡ pull_for replica base from }
{
    Out {
        to: To::Primary,
        packet: Packet::of(&Datagram::Pull {
            replica,
            base,
            from,
        }),
    }
}
