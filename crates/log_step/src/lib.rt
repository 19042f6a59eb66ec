// What a call on a piece of the log, and the end of the log, find and answer: the type of the first, and what both say (specs/). There is
// no other code.
#![tactic(auto)]

use log_answer::Answered;

// What a call on a piece finds: a line, which is answered, and the place after its LF; or no LF, and how many bytes of the unfinished
// line are kept.
#[derive(Clone, Copy)]
pub enum Step {
    Line { answered: Answered, next: usize },
    Taken { count: usize },
}
