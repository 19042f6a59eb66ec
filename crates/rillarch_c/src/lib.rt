// The calls of the crate rillarch under their C names, by include/rillarch.h: each calls the function of its name there and says the
// same of it.
#![tactic(auto)]

ghost use Rattle.std.specs.Prelude.{◌≡◌};
ghost use Rattle.wire.specs.Be.{put};
ghost use Rattle.frame.specs.Frame.{read_frame};
ghost use Rattle.tlv.specs.Tlv.{read_at};
ghost use Rattle.book.specs.Layout.{store_words};
ghost use Rattle.book.specs.Rules.{store_refusal};
ghost use Rattle.fresh.specs.Fresh.{site_with};
ghost use Rattle.foreign_master.specs.Calls.{fresh_answer, fresh_exit, register_answer, register_exit, age_answer, age_exit};
ghost use Rattle.candidates.specs.Candidates.{candidate_answer};
ghost use Rattle.bmca.specs.Decide.{decide_answer, decide_exit};
ghost use Rattle.lent.specs.Words.{lent};
ghost use Rattle.answers.specs.Answers.{
  tally_size,
  frame_size,
  tlv_size,
  found_size,
  decision_size,
  decision_number,
  answer_number,
  answer_words,
  frame_number,
  frame_words,
  tlv_number,
  tlv_words,
  candidate_number,
  candidate_told,
  decision_words,
};
ghost use Rattle.rillarch.specs.Calls.{
  is_set,
  quality_of,
  compare_number,
  compare_words,
  choose_number,
  choose_words,
  write_number,
  write_exit,
};

// How many words a store must have.
#[unsafe(no_mangle)]
pub extern "C" fn rillarch_store_words() -> u32
    ensures { result ≡ store_words }
{
    rillarch::rillarch_store_words()
}

// 1 where the store is too short, 16 where its book is unsound, else 0.
#[unsafe(no_mangle)]
pub extern "C" fn rillarch_check(store: &[u64]) -> u32
    ensures { result ≡ store_refusal store.now }
{
    rillarch::rillarch_check(store)
}

// Starts afresh, as foreign_master::fresh_start does; any master is acceptable where `any` is not 0.
#[unsafe(no_mangle)]
pub extern "C" fn rillarch_fresh_start(
    store: &mut [u64],
    own_clock: u64,
    any: u8,
    listed: &[u64],
    intervals: &[u64],
) -> u32
    ensures value { result ≡ fresh_answer store.old (site_with own_clock (is_set any) listed.now) intervals.now }
    ensures store_after { store.new ≡ fresh_exit store.old (site_with own_clock (is_set any) listed.now) intervals.now }
{
    rillarch::rillarch_fresh_start(store, own_clock, any, listed, intervals)
}

// Registers the frame that a port received, as foreign_master::register_announce_message does.
#[unsafe(no_mangle)]
pub extern "C" fn rillarch_register(
    store: &mut [u64],
    port: u16,
    frame: &[u8],
    answer: &mut [u64],
) -> u32
    ensures value { result ≡ lent tally_size answer.old 1 (answer_number (register_answer store.old port frame.now)) }
    ensures store_after { store.new ≡ lent tally_size answer.old store.old (register_exit store.old port frame.now) }
    ensures answer_after { answer.new ≡ lent tally_size answer.old answer.old (put answer.old 0 (answer_words (register_answer store.old port frame.now))) }
{
    rillarch::rillarch_register(store, port, frame, answer)
}

// Makes every message older by a step, as foreign_master::step_age does.
#[unsafe(no_mangle)]
pub extern "C" fn rillarch_age(store: &mut [u64], step: u64, answer: &mut [u64]) -> u32
    ensures value { result ≡ lent tally_size answer.old 1 (answer_number (age_answer store.old step)) }
    ensures store_after { store.new ≡ lent tally_size answer.old store.old (age_exit store.old step) }
    ensures answer_after { answer.new ≡ lent tally_size answer.old answer.old (put answer.old 0 (answer_words (age_answer store.old step))) }
{
    rillarch::rillarch_age(store, step, answer)
}

// Decides for all ports, as bmca::decide does.
#[unsafe(no_mangle)]
pub extern "C" fn rillarch_decide(
    store: &mut [u64],
    priority_1: u8,
    class: u8,
    accuracy: u8,
    variance: u16,
    priority_2: u8,
    listening: u8,
    answer: &mut [u64],
) -> u32
    ensures value { result ≡ lent decision_size answer.old 1 (decision_number (decide_answer store.old priority_1 (quality_of class accuracy variance) priority_2 listening)) }
    ensures store_after { store.new ≡ lent decision_size answer.old store.old (decide_exit store.old) }
    ensures answer_after { answer.new ≡ lent decision_size answer.old answer.old (put answer.old 0 (decision_words (decide_answer store.old priority_1 (quality_of class accuracy variance) priority_2 listening))) }
{
    rillarch::rillarch_decide(
        store, priority_1, class, accuracy, variance, priority_2, listening, answer,
    )
}

// The candidate at a place of the book's candidates, as candidates::candidate has it.
#[unsafe(no_mangle)]
pub extern "C" fn rillarch_candidate(store: &[u64], place: u64, answer: &mut [u64]) -> u32
    ensures value { result ≡ lent found_size answer.old 1 (candidate_number (candidate_answer store.now place)) }
    ensures answer_after { answer.new ≡ lent found_size answer.old answer.old (put answer.old 0 (candidate_told (candidate_answer store.now place))) }
{
    rillarch::rillarch_candidate(store, place, answer)
}

// The verdict on the left of two candidates: 1 where the left, then where the right has too few words, each then 15 where a word does
// not fit its field.
#[unsafe(no_mangle)]
pub extern "C" fn rillarch_compare(left: &[u64], right: &[u64], answer: &mut [u64]) -> u32
    ensures value { result ≡ lent 1 answer.old 1 (compare_number left.now right.now) }
    ensures answer_after { answer.new ≡ lent 1 answer.old answer.old (put answer.old 0 (compare_words left.now right.now)) }
{
    rillarch::rillarch_compare(left, right, answer)
}

// The choice over a list of candidates, as find_best::find_best makes it.
#[unsafe(no_mangle)]
pub extern "C" fn rillarch_choose(candidates: &[u64], answer: &mut [u64]) -> u32
    ensures value { result ≡ lent found_size answer.old 1 (choose_number candidates.now) }
    ensures answer_after { answer.new ≡ lent found_size answer.old answer.old (put answer.old 0 (choose_words candidates.now)) }
{
    rillarch::rillarch_choose(candidates, answer)
}

// Reads a frame, as frame::read_frame does.
#[unsafe(no_mangle)]
pub extern "C" fn rillarch_read_frame(frame: &[u8], answer: &mut [u64]) -> u32
    ensures value { result ≡ lent frame_size answer.old 1 (frame_number (read_frame frame.now)) }
    ensures answer_after { answer.new ≡ lent frame_size answer.old answer.old (put answer.old 0 (frame_words (read_frame frame.now))) }
{
    rillarch::rillarch_read_frame(frame, answer)
}

// Writes an announce with its TLVs, as frame_writer::write_frame does: before that 1 where there are too few words, then 15 where a word does
// not fit its field.
#[unsafe(no_mangle)]
pub extern "C" fn rillarch_write_announce(announce: &[u64], tlvs: &[u8], buffer: &mut [u8]) -> u32
    ensures value { result ≡ write_number announce.now tlvs.now buffer.old }
    ensures buffer_after { buffer.new ≡ write_exit announce.now tlvs.now buffer.old }
{
    rillarch::rillarch_write_announce(announce, tlvs, buffer)
}

// The entry at a place of a list of TLVs, as TlvCursor::next reads it: later ones are not looked at.
#[unsafe(no_mangle)]
pub extern "C" fn rillarch_tlv_entry(tlvs: &[u8], place: u64, answer: &mut [u64]) -> u32
    ensures value { result ≡ lent tlv_size answer.old 1 (tlv_number (read_at tlvs.now place)) }
    ensures answer_after { answer.new ≡ lent tlv_size answer.old answer.old (put answer.old 0 (tlv_words (read_at tlvs.now place))) }
{
    rillarch::rillarch_tlv_entry(tlvs, place, answer)
}
