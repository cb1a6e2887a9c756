//! The control socket of a running program: both of its ends.
//!
//! - `Control` is a Unix socket at a path, where a running program is asked. `caller` gives who asks next, if one is there, and
//!   `remove` takes the socket away.
//! - `Caller` is who asks: `order` is what it says, and `say` answers.
//! - `ask` asks a running program, and prints what it says.
//! - `read_order` reads an order, and `granted` what is said if it is granted.
//!
//! ```text
//! Control::bind -> caller -> order -> say                  (the running program)
//! ask -> a line with the order -> what is said, printed    (who speaks to it)
//! ```
//!
//! An order is a line of at most 16 octets, its line feed included. Which orders there are is up to the program. If one is
//! granted, the first line of what is said is `ok`; what stands after it is printed. Anything else is why it is refused.
//!
//! A socket that a killed program left is taken over: nobody answers there, as the system says by refusing a connection. One that
//! is answered is refused, and so is any other file; both stay as they are.
//!
//! Who may write to the socket may control the program, so it belongs in a directory that others can't write to.
//!
//! # What is proved
//!
//! - An order is the octets before the first line feed, if one is among the first 16 octets of what is said; else there is none.
//! - What is printed is what stands after the line `ok`, and else an order is refused.
//! - No socket is removed but one at which the system refused a connection.
//!
//! # What a body could still get away with
//!
//! No clause says what files and sockets give. Two programs that start at once beside an abandoned socket may both find it so; the
//! later one then has the path.
#![tactic(auto)]

mod asking;
mod control;
mod error;
mod order;

pub use asking::{ask, granted};
pub use control::{Caller, Control};
pub use error::ControlError;
pub use order::{LINE_LIMIT, read_order};
