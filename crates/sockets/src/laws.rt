//! What joins a line and a replica.

ghost use Rattle.sockets.specs.Feeding.{SentKeepsFed};

/// A replica that is fed from a list stays so by whatever a line sent when its seat had seen that
/// list or a beginning of it: by `Line::push` and `Line::on_bytes` (`readable`), and by the law of
/// `shared` that what they send is of the seat's list. It does nothing: its contract is the law.
pub fn what_is_sent_keeps_replicas_fed()
    ensures { SentKeepsFed }
{
    dispatcher::fed_replicas_stay_fed();
    wire::one_spelling();
}
