// What the calls answer, as words at the places that include/rillarch.h names: the result is paper 01's number, and a refusal writes
// nothing.
#![tactic(auto)]

ghost use Rattle.std.specs.Prelude.{◌≡◌, ◌+◌, ◌≤◌, length};
ghost use Rattle.wire.specs.Be.{put};
ghost use Rattle.refused.specs.Refusal.{number_in};
ghost use Rattle.answers.specs.Answers.{
  tally_size,
  frame_size,
  tlv_size,
  found_size,
  port_size,
  decision_size,
  tally_words,
  answer_number,
  answer_words,
  message_words,
  frame_number,
  frame_words,
  entry_words,
  read_words,
  tlv_number,
  tlv_words,
  found_words,
  best_words,
  candidate_number,
  candidate_told,
  verdict_number,
  bare_words,
  carrying_words,
  state_words,
  ports_words,
  decided_words,
  decision_number,
  decision_words,
};

use announce::AnnounceMessage;
use bmca::Decision;
use choice::Candidate;
use compare::DatasetOrdering;
use decision::RecommendedState;
use foreign_master::Tallies;
use frame::Message;
use refused::Refusal;
use states::PortAnswer;
use tlv::TlvRead;

// How many words the answers take.

pub const TALLY_WORDS: usize = 3;

pub const FRAME_WORDS: usize = 23;

pub const TLV_WORDS: usize = 5;

pub const FOUND_WORDS: usize = 13;

pub const PORT_WORDS: usize = 22;

pub const DECISION_WORDS: usize = 180;

// Where the ports of a decision begin.
const PORTS_START: usize = 4;

// Zeros for what is not there.

const NO_TLV: [u64; 5] = [0; 5];

const NOT_FOUND: [u64; 13] = [0; 13];

const NO_MESSAGE: [u64; 21] = [0; 21];

// The number of a call that answers no more: 0 where it is done.
pub fn number(told: Result<(), Refusal>) -> u32
    ensures { result ≡ number_in told }
{
    match told {
        Ok(()) => 0,
        Err(e) => e.number() as u32,
    }
}

fn put_tallies(tallies: Tallies, s: &mut [u64])
    requires { tally_size ≤ length s.old }
    ensures { s.new ≡ put s.old 0 (tally_words tallies) }
{
    let values = [tallies.evicted, tallies.aged_out, tallies.consumed];
    lent::put_words(s, 0, &values);
}

// Of a registration or of ageing.
pub fn tell(told: Result<Tallies, Refusal>, s: &mut [u64]) -> u32
    requires { tally_size ≤ length s.old }
    ensures { (result ≡ answer_number told) × (s.new ≡ put s.old 0 (answer_words told)) }
{
    match told {
        Err(e) => e.number() as u32,
        Ok(tallies) => {
            put_tallies(tallies, s);
            0
        }
    }
}

fn put_message(message: Message, s: &mut [u64])
    requires { frame_size ≤ length s.old }
    ensures { s.new ≡ put s.old 0 (message_words message) }
{
    let announce = message.announce;
    announce_words::put_announce(announce, s, 0);
    s[21] = message.tlv_start as u64;
    s[22] = message.tlv_end as u64;
}

// Of a frame.
pub fn tell_frame(told: Result<Message, Refusal>, s: &mut [u64]) -> u32
    requires { frame_size ≤ length s.old }
    ensures { (result ≡ frame_number told) × (s.new ≡ put s.old 0 (frame_words told)) }
{
    match told {
        Err(e) => e.number() as u32,
        Ok(message) => {
            put_message(message, s);
            0
        }
    }
}

fn put_entry(tlv_type: u16, start: usize, len: usize, next: usize, s: &mut [u64])
    requires { tlv_size ≤ length s.old }
    ensures { s.new ≡ put s.old 0 (entry_words tlv_type start len next) }
{
    let values = [1, tlv_type as u64, start as u64, len as u64, next as u64];
    lent::put_words(s, 0, &values);
}

fn put_read(read: TlvRead, s: &mut [u64])
    requires { tlv_size ≤ length s.old }
    ensures { s.new ≡ put s.old 0 (read_words read) }
{
    match read {
        TlvRead::End => lent::put_words(s, 0, &NO_TLV),
        TlvRead::Entry {
            tlv_type,
            start,
            len,
            next,
        } => put_entry(tlv_type, start, len, next.at, s),
    }
}

// Of an entry of a list of TLVs.
pub fn tell_tlv(told: Result<TlvRead, Refusal>, s: &mut [u64]) -> u32
    requires { tlv_size ≤ length s.old }
    ensures { (result ≡ tlv_number told) × (s.new ≡ put s.old 0 (tlv_words told)) }
{
    match told {
        Err(e) => e.number() as u32,
        Ok(read) => {
            put_read(read, s);
            0
        }
    }
}

fn put_found(c: Candidate, s: &mut [u64])
    requires { found_size ≤ length s.old }
    ensures { s.new ≡ put s.old 0 (found_words c) }
{
    s[0] = 1;
    candidate_words::put_candidate(c, s, 1);
}

// Of a choice.
pub fn tell_best(best: Option<Candidate>, s: &mut [u64]) -> u32
    requires { found_size ≤ length s.old }
    ensures { (result ≡ 0) × (s.new ≡ put s.old 0 (best_words best)) }
{
    match best {
        None => {
            lent::put_words(s, 0, &NOT_FOUND);
            0
        }
        Some(c) => {
            put_found(c, s);
            0
        }
    }
}

// Of a candidate at a place.
pub fn tell_candidate(told: Result<Option<Candidate>, Refusal>, s: &mut [u64]) -> u32
    requires { found_size ≤ length s.old }
    ensures { (result ≡ candidate_number told) × (s.new ≡ put s.old 0 (candidate_told told)) }
{
    match told {
        Err(e) => e.number() as u32,
        Ok(best) => tell_best(best, s),
    }
}

// The number of a verdict: its place among the verdicts.
pub fn verdict_number(verdict: DatasetOrdering) -> u64
    ensures { result ≡ verdict_number verdict }
{
    match verdict {
        DatasetOrdering::Better => 0,
        DatasetOrdering::BetterByTopology => 1,
        DatasetOrdering::Error1 => 2,
        DatasetOrdering::Error2 => 3,
        DatasetOrdering::WorseByTopology => 4,
        DatasetOrdering::Worse => 5,
    }
}

// A state that carries no message.
fn put_bare(n: u64, s: &mut [u64], at: usize)
    requires { at + port_size ≤ length s.old }
    ensures { s.new ≡ put s.old at (bare_words n) }
{
    s[at] = n;
    lent::put_words(s, at + 1, &NO_MESSAGE);
}

// A state that carries one.
fn put_carrying(n: u64, m: AnnounceMessage, s: &mut [u64], at: usize)
    requires { at + port_size ≤ length s.old }
    ensures { s.new ≡ put s.old at (carrying_words n m) }
{
    s[at] = n;
    announce_words::put_announce(m, s, at + 1);
}

// A state, by its number and the message that it carries.
pub fn put_state(state: RecommendedState, s: &mut [u64], at: usize)
    requires { at + port_size ≤ length s.old }
    ensures { s.new ≡ put s.old at (state_words state) }
{
    match state {
        RecommendedState::Stay => put_bare(0, s, at),
        RecommendedState::M1(own) => put_bare(1, s, at),
        RecommendedState::M2(own) => put_bare(2, s, at),
        RecommendedState::M3(ebest) => put_carrying(3, ebest, s, at),
        RecommendedState::P1(erbest) => put_carrying(4, erbest, s, at),
        RecommendedState::P2(erbest) => put_carrying(5, erbest, s, at),
        RecommendedState::S1(ebest) => put_carrying(6, ebest, s, at),
    }
}

fn put_ports(answers: [PortAnswer; 8], s: &mut [u64])
    requires { decision_size ≤ length s.old }
    ensures s_after { s.new ≡ put s.old 4 (ports_words answers) }
    ensures answers_len { length answers ≡ 8 }
{
    for i in 0..8 {
        let answer = answers[i];
        put_state(answer.state, s, PORTS_START + i * PORT_WORDS);
    }
}

fn put_decision(d: Decision, s: &mut [u64])
    requires { decision_size ≤ length s.old }
    ensures { s.new ≡ put s.old 0 (decided_words d) }
{
    let tallies = d.tallies;
    let answers = d.answers;
    put_tallies(tallies, s);
    s[3] = d.ports as u64;
    put_ports(answers, s);
}

// Of a decision.
pub fn tell_decision(told: Result<Decision, Refusal>, s: &mut [u64]) -> u32
    requires { decision_size ≤ length s.old }
    ensures { (result ≡ decision_number told) × (s.new ≡ put s.old 0 (decision_words told)) }
{
    match told {
        Err(e) => e.number() as u32,
        Ok(d) => {
            put_decision(d, s);
            0
        }
    }
}
