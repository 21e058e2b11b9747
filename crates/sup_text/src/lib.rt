//! What is printed of answers.
#![tactic(auto)]

pub mod answer;
pub mod dot;
pub mod effect;
pub mod letter;
pub mod refusal;
pub mod reply;
pub mod settled;
pub mod spec;

pub use answer::answer_text;
pub use dot::DotText;
pub use effect::IncarnationText;
pub use refusal::refusal_text;
pub use settled::settled_text;
pub use spec::SpecText;
