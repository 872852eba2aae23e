// Adding to a page (page.rs, PageWriter): chunks of bytes, stored in whole groups, each with its header last.

#![tactic(auto)]

pub mod answers;
mod checks;
mod commit;
mod group;
mod heading;
mod opening;
mod outcome;
pub mod page_writer;
mod write;
