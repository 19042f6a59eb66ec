// What the programs that run vectors share: the frame F(1) of paper 01 and what it holds, a frame whose bytes differ, the calls
// on a whole frame, what a target holds, and a count of cases.
#![tactic(auto)]

pub mod codec;
pub mod frames;
pub mod framing;
pub mod room;
pub mod tally;
pub mod up;
