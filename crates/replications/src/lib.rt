//! Replications: one model under many seeds, and for each what every object did within a window of time.
#![tactic(auto)]

mod batch;
mod gravest;
mod job;
pub mod laws;
mod left;
mod replication;
mod rows;
mod run_rows;
mod seeds;
mod span;
mod study;
mod table;
mod window;
mod windows;
mod words;

pub use replication::replicate_once;
pub use rows::{RunEnd, WINDOW_HEAD, put_end, put_field, put_seed};
pub use run_rows::{Rows, add_all};
pub use seeds::Seeds;
pub use span::Span;
pub use study::Study;
pub use table::write_table;
pub use window::{Columns, Window};
pub use windows::Windows;
pub use words::{Replicate, WindowStart, read_replicate_words};
