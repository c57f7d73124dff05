// What a console line means, its answer as a value, and the text of an answer.
#![tactic(auto)]

pub mod digits;
pub mod forms;
pub mod reply;
pub mod step;
pub mod words;
