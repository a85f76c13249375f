// The sale file: its lines, what they say of a sale, and what is printed of it.
#![tactic(auto)]

mod contents;
mod faults;
mod fields;
mod hexadecimal;
mod line;
mod numbers;
mod reader;
mod report;
mod sale;
mod streams;
mod theorems;

pub use contents::{Gathered, gather};
pub use faults::FileFault;
pub use line::Line;
pub use reader::{MOST_FILE_BYTES, Reader};
pub use report::{Report, SaleError, hold_sale, report_from, report_on};
pub use streams::read_file;
pub use theorems::{accepted_files_keep_limits, format_laws_stand, page_laws_stand};
