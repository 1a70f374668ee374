//! The outside of the server: what comes in, what goes out, its files and its clock, in memory and over the system.
#![tactic(auto)]

mod calls;
mod clock;
mod faults;
mod files;
mod folder_files;
mod in_source;
mod link;
mod mem_clock;
mod mem_files;
mod mem_link;
mod mem_sink;
mod mem_source;
mod out_sink;
mod pair;
mod real_clock;
mod sink;
mod source;

pub use calls::Calls;
pub use clock::{Clock, FIRST_MOMENT, LAST_MOMENT};
pub use faults::{Failed, FileFault};
pub use files::{FILE_LIMIT, File, Files};
pub use folder_files::FolderFiles;
pub use in_source::InSource;
pub use link::Link;
pub use mem_clock::MemClock;
pub use mem_files::MemFiles;
pub use mem_link::MemLink;
pub use mem_sink::MemSink;
pub use mem_source::MemSource;
pub use out_sink::OutSink;
pub use pair::Pair;
pub use real_clock::RealClock;
pub use sink::Sink;
pub use source::Source;
