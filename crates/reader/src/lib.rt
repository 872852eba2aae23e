// The page reader (page.rs, PageReader and read_header): what was written to a page, chunk after chunk. A reader that these calls made
// hands out no byte before the sum of its chunk was checked. One that a caller made up is checked for its ranges, and not for a sum.

#![tactic(auto)]

pub mod answers;
mod checks;
pub mod dehydrated;
pub mod header;
mod moves;
pub mod page_reader;
