//! Laws of what is handed out.

ghost use Rattle.shared.specs.Laws.{PushedIsOfList, AnsweredIsOfList, OfListStays};

/// Whatever a primary pushes, and each datagram that it answers, is true of its durable list: a
/// frame of one of the list's streams, a Head that counts the frames at one of its versions and at a
/// base up to that, or a Piece of the tables at a base. It is also true of every longer list. So
/// whatever seats handed out is true of the one list that they hold after they have met. It does
/// nothing: its contract is the law.
pub fn what_is_sent_is_of_the_list()
    ensures pushed { PushedIsOfList }
    ensures answered { AnsweredIsOfList }
    ensures stays { OfListStays }
{}
