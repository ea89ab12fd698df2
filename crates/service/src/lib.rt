//! HTTP connections of many clients, answered in rounds by one thread, or each by a thread.
//!
//! `Rounds` holds the connections of one thread. A round reads what has come at each of them, has
//! the whole requests answered by a `Settle` of `http_server`, then has these answers settled
//! together, and only then sends them. A `House` is such connections over a listener and the
//! readiness of sockets. Where an answer has to be waited for, a `Door` hands connections to
//! threads through a `Hall`, and each thread serves one after another by its `Visits`, whose
//! `Service` may wait.
//!
//! Promised: if a round does not settle, or is not settled, nothing of it is sent; if it is, all
//! its calls are made before the `settle` that said so. Requests that a page of another place could
//! make in a browser are denied before the service sees them, as are targets that name another
//! host. What is sent on a connection is what `http_server` says of it. Limits end a connection:
//! of the time for a request, without a request, and while nobody reads an answer, and of the bytes
//! that all connections hold. A house counts the time in which it listens. Not promised: that a
//! connection is heard, that an event of the system comes, or anything about a socket or a clock.
//!
//! It knows nothing of a database, and uses `http_server` for connections and `mio` for the
//! readiness of sockets. The definitions to review are `specs/Denials.antt`, `Rounds` and
//! `Waits`.
#![tactic(auto)]

mod admission;
mod arrivals;
mod clearing;
mod clock;
mod denial;
mod door;
mod guest;
mod hall;
mod held;
mod house;
mod limits;
mod listening_time;
mod readiness;
mod refused;
mod round;
mod rounds;
mod socket;
mod standing;
mod visits;

pub use arrivals::{Arrivals, NoArrivals, note_ready};
pub use denial::Denial;
pub use door::Door;
pub use guest::Guest;
pub use hall::Hall;
pub use house::{House, HouseFault};
pub use limits::Limits;
pub use refused::FULL;
pub use round::Unsettled;
pub use rounds::{Counts, Rounds};
pub use socket::Socket;
pub use visits::Visits;
