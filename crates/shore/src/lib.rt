// Drafts: images that are made word by word in a lent buffer.
#![tactic(auto)]

pub mod calls;
pub mod draft;
pub mod list;
mod write;
