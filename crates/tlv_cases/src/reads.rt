// Whether what stands at a place is as wanted.
use refused::Refusal;
use tlv::{TlvCursor, TlvRead};
use vectors::frames::F;
use vectors::framing;

// What stands at a place, or why it is not read.
pub type Read = Result<TlvRead, Refusal>;

// An entry with this type and this place and length of its value: the place after it is where the value ends.
pub fn is_entry(r: Read, number: u16, at: usize, size: usize) -> bool {
    match r {
        Ok(
            TlvRead::Entry {
                tlv_type,
                start,
                len,
                next,
            },
        ) => {
            let end = at % 65536 + size % 65536;
            tlv_type == number && start == at && len == size && next.at == end
        }
        _ => false,
    }
}

pub fn is_end(r: Read) -> bool {
    matches!(r, Ok(TlvRead::End))
}

pub fn is_refused(r: Read, why: Refusal) -> bool {
    r.err() == Some(why)
}

// What stands at a place of some bytes, whatever follows it.
pub fn single(s: &[u8], at: usize) -> Read {
    TlvCursor { at }.next(s)
}

// Whether both reads at a place of a list are as wanted: by itself, and of the list that is checked first.
pub fn both<F: Fn(Read) -> bool>(s: &[u8], at: usize, wanted: F) -> bool
    requires { F.IsAlwaysCallable wanted }
{
    wanted(single(s, at)) && wanted(tlv_set::list_entry(s, at))
}

// Whether a list is answered so, as a list, and as the TLVs of a frame.
pub fn list_answer(s: &[u8], answer: Result<(), Refusal>) -> bool {
    let mut frame = [0xEEu8; 128];
    let end = 64 + s.len() % 64;
    framing::lay(&mut frame, &F, s);
    tlv::check(s) == answer
        && framing::f_answers(&frame, answer, end)
        && framing::f_answers(framing::first(&frame, end), answer, end)
}
