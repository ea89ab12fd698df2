//! The name of a history.

use std::marker::Brand;

/// Which history something belongs to. It exists for contracts alone: everything that is generic in
/// one `Naming` belongs to one history. When a program or a test calls a function that is generic
/// in it, that call determines the name (for a history that was opened, its `seen.book`).
pub trait Naming {
    ghost use Rattle.logbook.specs.Pages.{Book};

    ghost book: { Book };
}

impl Naming for Brand {
    ghost book = { record { number = 0; log_name = 0; cells_name = 0 } };
}
