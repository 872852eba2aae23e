// What lies on a page: its header, its chunks, and the walk over them (page.rs, headers and ChunkIter); the checks of a page that is asked for.

#![tactic(auto)]

pub mod checks;
pub mod chunk;
pub mod header;
pub mod walk;
