// The page allocator (alloc.rs; docs/RULES.md, Allocator): which pages are used, and which one is looked at next.

#![tactic(auto)]

pub mod allocator;
pub mod answers;
pub mod checks;
mod marks;
pub mod several;
mod state;
mod work;
