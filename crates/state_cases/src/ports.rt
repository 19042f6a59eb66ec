// Cases of the decision for all eight ports.
use crate::decided;
use announce::AnnounceMessage;
use choice::BestAnnounceMessage;
use compare::InternalDefaultDS;
use states::PortAnswer;

pub const CASES: u64 = 28;

// What a port holds, by a letter: E the better grandmaster, as each port received it; e and o one record of it, received by port
// 3, o older, f the next in sequence; G the second; w worse than our own data.
fn held(letter: u8, port: u16) -> BestAnnounceMessage {
    match letter {
        b'E' => decided::received(decided::first(port), 20, port),
        b'e' => decided::received(decided::first(99), 20, 3),
        b'o' => decided::received(decided::first(99), 21, 3),
        b'f' => decided::received(decided::first(100), 20, 3),
        b'G' => decided::received(decided::second(port), 20, port),
        _ => decided::received(decided::worse(port), 20, port),
    }
}

fn message(letter: u8, port: u16) -> AnnounceMessage {
    held(letter, port).message
}

fn offered(letter: u8, port: u16) -> Option<BestAnnounceMessage> {
    if letter == b'.' {
        None
    } else {
        Some(held(letter, port))
    }
}

// A row each: the letters of the ports, the digits of their answers, our class, the byte of those that listen, and the port whose
// message is Ebest, or 0.
const ROWS: [[u8; 19]; 28] = [
    *b"........22222222\xF8\x00\x00",
    *b"........00000000\xF8\xFF\x00",
    *b"........11111111\x06\x00\x00",
    *b"........01111110\x7F\x81\x00",
    *b"........00002222\x80\x0F\x00",
    *b".E.EGw..36353333\xF8\x00\x02",
    *b".E.EGw..06053300\xF8\xFF\x02",
    *b".E.EGw..06353333\xF8\x01\x02",
    *b".E.EGw..36353330\xF8\x80\x02",
    *b".E.EGw..36053303\xF8\x44\x02",
    *b".E.EGw..36353300\xF8\xC0\x02",
    *b".E.EGw..36353333\xF8\x12\x02",
    *b".E.EGw..14144111\x06\x00\x02",
    *b".E.EGw..04044100\x7F\xFF\x02",
    *b".E.EGw..04044101\x01\x45\x02",
    *b".E.EGw..36353333\x00\x00\x02",
    *b"..e..e..33633633\xFF\x00\x06",
    *b"..e..o..33633333\xF8\x00\x03",
    *b"..o..e..33333633\xF8\x00\x06",
    *b"..e..f..33333633\xF8\x00\x06",
    *b"..f..e..33333633\xF8\x00\x06",
    *b"EEEEEEEE65555555\xF8\xFF\x01",
    *b"wwwwwwww22222222\xF8\xFF\x01",
    *b".......E00000006\xF8\x7F\x08",
    *b"E.......60000000\xF8\xFE\x01",
    *b"wwwwGwww33336333\x80\x00\x05",
    *b".......E11111114\x7F\x00\x08",
    *b"G...E...33336333\xF8\x00\x05",
];

// What the ports of a row hold.
fn erbests(row: &[u8; 19]) -> [Option<BestAnnounceMessage>; 8] {
    std::array::from_fn(|i| offered(row[i], i as u16 + 1))
}

fn ebest(row: &[u8; 19]) -> AnnounceMessage {
    let port = row[18];
    if 1 <= port && port <= 8 {
        message(row[port as usize - 1], port as u16)
    } else {
        message(b'E', 0)
    }
}

// Whether an answer is that of a port, with the digit and the letter of the row.
fn is(
    answer: PortAnswer,
    port: u16,
    letter: u8,
    digit: u8,
    own: InternalDefaultDS,
    ebest: AnnounceMessage,
) -> bool {
    answer.port_number == port
        && decided::is(answer.state, digit, own, ebest, message(letter, port))
}

pub fn all(n: u64) -> bool {
    let row = &ROWS[(n % 28) as usize];
    let own = decided::own(row[16]);
    let ebest = ebest(row);
    let answers = states::recommended_states(own, erbests(row), row[17]);
    (0..8).all(|i| is(answers[i], i as u16 + 1, row[i], row[8 + i], own, ebest))
}
