// One line of the log program: hexadecimal digits in, the line of its answer out. `log_line` asks nothing of what it is lent.
#![tactic(auto)]

ghost use Rattle.std.specs.Prelude.{◌≡◌, ◌≤◌, length};
ghost use Rattle.book.specs.Rules.{store_refusal};
ghost use Rattle.refused.specs.Refusal.{number_in};
ghost use Rattle.log_answer.specs.Answer.{answer_bytes, Known, Answers};
ghost use Rattle.log_asked.specs.Line.{kind_asked, asked_of, asked, line_answered, line_store, line_out, none_answered, none_out};

use log_answer::{ANSWER_BYTES, Answered, SHAPELESS, Setup};
use refused::Refusal;

// A line of bytes whose first is not 0, once there was a good setup line.
fn kind_line(
    store: &mut [u64],
    checked: Result<(), Refusal>,
    setup: Setup,
    kind: u8,
    line: &[u8],
    out: &mut [u8],
) -> Answered
    requires { (answer_bytes ≤ length out.old) × (number_in checked ≡ store_refusal store.old) }
    ensures { Answers (kind_asked kind setup line.now) setup store.old out.old result store.new out.new }
{
    if kind == 1 {
        return log_call::frame_line(store, checked, setup, line, out);
    }
    if kind == 2 {
        return log_call::step_line(store, checked, setup, line, out);
    }
    if kind == 3 {
        return log_decision::decision_line(store, checked, setup, line, out);
    }
    log_answer::told(setup, SHAPELESS, out)
}

// A line of bytes. Before a first good setup line only `00` is answered.
fn answer(
    store: &mut [u64],
    checked: Result<(), Refusal>,
    setup: Setup,
    line: &[u8],
    out: &mut [u8],
) -> Answered
    requires { (answer_bytes ≤ length out.old) × Known (number_in checked) setup store.old }
    ensures { Answers (asked_of setup line.now) setup store.old out.old result store.new out.new }
{
    if line.len() == 0 {
        return log_answer::told(setup, SHAPELESS, out);
    }
    let kind = line[0];
    if kind == 0 {
        return log_setup::start_line(store, setup, line, out);
    }
    if setup.ports == 0 {
        return log_answer::told(setup, SHAPELESS, out);
    }
    kind_line(store, checked, setup, kind, line, out)
}

// A line of digits, with room for its bytes.
fn spelled(
    store: &mut [u64],
    checked: Result<(), Refusal>,
    setup: Setup,
    line: &[u8],
    bytes: &mut [u8],
    out: &mut [u8],
) -> Answered
    requires { (answer_bytes ≤ length out.old) × (length bytes.old ≡ 2048) × Known (number_in checked) setup store.old }
    ensures { Answers (asked setup line.now) setup store.old out.old result store.new out.new }
{
    match hex_line::decode(line, bytes) {
        Some(n) => answer(store, checked, setup, &bytes[..n], out),
        None => log_answer::told(setup, SHAPELESS, out),
    }
}

// Answers one line, over a store whose check has answered; before a first good setup line it is not looked at.
pub fn line_checked(
    store: &mut [u64],
    checked: Result<(), Refusal>,
    setup: Setup,
    line: &[u8],
    out: &mut [u8],
) -> Answered
    requires { Known (number_in checked) setup store.old }
    ensures value { result ≡ line_answered setup line.now store.old out.old }
    ensures store_after { store.new ≡ line_store setup line.now store.old out.old }
    ensures out_after { out.new ≡ line_out setup line.now store.old out.old }
{
    if out.len() < ANSWER_BYTES {
        return Answered { setup, count: 0 };
    }
    let mut bytes: [u8; 2048] = [0; 2048];
    spelled(store, checked, setup, line, &mut bytes, out)
}

// Answers one line, given without its LF: at the start of out stands the line of the answer, with its LF. An out of fewer than 19 bytes
// gets no answer, and nothing changes.
pub fn log_line(store: &mut [u64], setup: Setup, line: &[u8], out: &mut [u8]) -> Answered
    ensures value { result ≡ line_answered setup line.now store.old out.old }
    ensures store_after { store.new ≡ line_store setup line.now store.old out.old }
    ensures out_after { out.new ≡ line_out setup line.now store.old out.old }
{
    let checked = book::check(store);
    line_checked(store, checked, setup, line, out)
}

// Answers a line of more than 4,096 digits, of which nothing needs to be kept, as log_line does.
pub fn too_long(setup: Setup, out: &mut [u8]) -> Answered
    ensures { (result ≡ none_answered setup out.old) × (out.new ≡ none_out out.old) }
{
    if out.len() < ANSWER_BYTES {
        return Answered { setup, count: 0 };
    }
    log_answer::told(setup, SHAPELESS, out)
}
