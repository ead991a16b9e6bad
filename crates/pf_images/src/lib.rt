//! Raw PGM images, read and written, and the files and the output outside the program.
#![tactic(auto)]

mod fault;
mod files;
mod header;
mod mem_files;
mod mem_sink;
mod reading;
mod real_files;
mod real_sink;
mod sink;
mod streams;
mod writing;

pub use fault::{ImageFault, PgmKind};
pub use files::{Files, FilesFault};
pub use mem_files::{FileMap, MemFiles};
pub use mem_sink::MemSink;
pub use pf_ints::{Image, ImageSet};
pub use reading::read_pgm;
pub use real_files::RealFiles;
pub use real_sink::RealSink;
pub use sink::Sink;
pub use streams::{read_up_to, write_whole};
pub use writing::write_pgm;
