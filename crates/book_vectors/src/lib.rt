// What the programs that run books share: senders and their frames, the calls on a store, fresh starts, a full book, and the rules of a sound
// one written plainly over its words.
#![tactic(auto)]

pub mod calls;
pub mod full;
pub mod rules;
pub mod sent;
pub mod starts;
