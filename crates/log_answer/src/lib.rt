// What a line of the log answers: what is set up afterwards, and the text of the answer.
#![tactic(auto)]

ghost use Rattle.std.specs.Prelude.{◌≡◌, [], ◌∷◌, map, ◌≤◌, length, take};
ghost use Rattle.std.proofs.lemmas.List.Edits.{sets};
ghost use Rattle.log_answer.specs.Answer.{answer_bytes, no_setup, state_byte, text_of, states_text};

use announce::ClockQuality;
use states::PortAnswer;

// What the last good setup line says beside the book: how many ports there are, our priorities and our quality. No port: there was none.
#[derive(Clone, Copy)]
pub struct Setup {
    pub ports: u8,
    pub priority_1: u8,
    pub quality: ClockQuality,
    pub priority_2: u8,
}

// What is set up after a line, and how many bytes its answer takes, LF included.
#[derive(Clone, Copy)]
pub struct Answered {
    pub setup: Setup,
    pub count: usize,
}

// The most bytes of an answer: a number, eight states, LF.
pub const ANSWER_BYTES: usize = 19;

// The number of a line that has the wrong shape.
pub const SHAPELESS: u8 = 17;

impl Setup {
    // Before the first good setup line.
    pub fn none() -> Setup
        ensures { result ≡ no_setup }
    {
        let quality = ClockQuality {
            clock_class: 0,
            clock_accuracy: 0,
            offset_scaled_log_variance: 0,
        };
        Setup {
            ports: 0,
            priority_1: 0,
            quality,
            priority_2: 0,
        }
    }
}

// Writes the answer that is a number alone.
fn put_number(out: &mut [u8], n: u8)
    requires { answer_bytes ≤ length out.old }
    ensures { out.new ≡ sets out.old 0 (text_of (n ∷ [])) }
{
    hex_line::put_hex(out, 0, n);
    out[2] = b'\n';
}

// Writes a byte a port and LF, from byte 2 on.
fn put_ports(answers: [PortAnswer; 8], ports: usize, out: &mut [u8])
    requires { (answer_bytes ≤ length out.old) × (ports ≤ 8) }
    ensures { (out.new ≡ sets out.old 2 (states_text (take ports answers))) × (length answers ≡ 8) }
{
    for i in 0..ports {
        let answer = answers[i];
        hex_line::put_hex(out, 2 + i * 2, answer.state.number());
    }
    out[2 + ports * 2] = b'\n';
}

// Writes the answer to a decision: 0, and a byte a port.
pub fn put_states(answers: [PortAnswer; 8], ports: usize, out: &mut [u8])
    requires { (answer_bytes ≤ length out.old) × (ports ≤ 8) }
    ensures { (out.new ≡ sets out.old 0 (text_of (0 ∷ map state_byte (take ports answers)))) × (length answers ≡ 8) }
{
    hex_line::put_hex(out, 0, 0);
    put_ports(answers, ports, out);
}

// The answer that is a number alone, with what is set up.
pub fn told(setup: Setup, n: u8, out: &mut [u8]) -> Answered
    requires { answer_bytes ≤ length out.old }
    ensures { (result.setup ≡ setup) × (result.count ≡ 3) × (out.new ≡ sets out.old 0 (text_of (n ∷ []))) }
{
    put_number(out, n);
    Answered { setup, count: 3 }
}
