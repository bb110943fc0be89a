//! The devices of a program: a source of bytes, a sink for bytes, a disk of two parts, and all three at once.
//!
//! A device that fails counts the call, so that whoever sees an `Err` can tell that a device caused
//! it. A device may tell its contents, as `Some` of the bytes, or `None`. Contracts on bytes say
//! something if they are told; safety and causes hold in either case.
//!
//! A disk that tells its clock also tells its *images*: what a crash may leave, at each moment so far. A call of a
//! trait gives its relation (`by_read`, `by_write`, `by_disk`), so code that knows one trait alone can say that it made
//! nothing but such calls, and the laws of `Outside` say what these leave of the other two.
//!
//! `MemoryOutside` is a script, a record of what was shown and a disk in memory; it fails and crashes when it is told
//! to. `QuietOutside` has room for so much and tells no images. `RealOutside` is the process's
//! standard input and output, and two files.
#![tactic(auto)]

mod calls;
mod contents;
mod crash;
mod files;
mod history;
mod memory;
mod quiet;
mod real;
mod traits;
mod writing;

pub use calls::CallKind;
pub use crash::Pick;
pub use memory::MemoryOutside;
pub use quiet::QuietOutside;
pub use real::RealOutside;
pub use traits::{Disk, Failed, Outside, Part, Sink, Source};
pub use writing::{write_all, write_front};
