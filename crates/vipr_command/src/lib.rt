//! The program's commands: what its words ask for, what is done and printed, and the exit status.
//!
//! [`run`] is the whole program but for where its streams come from.
#![tactic(auto)]

mod answer;
mod args;
mod command;
mod ending;
mod fault;
mod folder;
mod host;
mod in_memory;
mod incoming;
mod line;
mod request;
mod show;
mod system;
mod tighten;

pub use answer::{Printed, answer_to};
pub use args::job;
pub use command::run;
pub use fault::CommandFault;
pub use folder::{Folder, NamedText, TwoFiles};
pub use host::Host;
pub use incoming::Incoming;
pub use request::{Job, Task};
pub use system::SystemFiles;
