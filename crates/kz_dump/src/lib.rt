//! The lines that tell what stands in a tree and a log, and the lines of a tree that is loaded. How a tree and a log agree is told by
//! `verdict`, which this crate hands on.
#![tactic(auto)]

mod lines;
mod load_lines;
mod quoted;
mod verdicts;

pub use kz_spec_machine::{Figures, LoadLine};
pub use kz_verdict::verdict;
pub use lines::{batch_line, log_head, render_line, row_line, tree_head};
pub use load_lines::read_row_line;
pub use verdicts::{check_lines, status_lines};
