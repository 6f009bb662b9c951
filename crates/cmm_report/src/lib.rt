//! The text of a report: the head, the answers of the events, each guest's journal, and the end, written line by
//! line to any sink. It takes no memory.
#![tactic(auto)]

mod law;
mod line;
mod lines;
mod report;
mod texts;

pub use law::{text_determines_journal, text_determines_journals};
pub use line::Line;
pub use report::{Totals, write_end, write_events, write_guest, write_head, write_summary};
pub use texts::is_reply_text;

#[cfg(test)]
mod tests;
