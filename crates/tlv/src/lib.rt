// Reading TLVs, after common/tlv.rs: a place in a list and what stands there, and the rule of a list for a reader and for a writer.
#![tactic(auto)]

ghost use Rattle.std.specs.Prelude.{◌≡◌, ◌≤◌};
ghost use Rattle.refused.specs.Refusal.{number_in};
ghost use Rattle.tlv.specs.Tlv.{entry_at, read_at, list_check, check_list, whole_entries};

use refused::Refusal;

// A place in a list of TLVs.
#[derive(Clone, Copy)]
pub struct TlvCursor {
    pub at: usize,
}

// What stands at a place: an entry, whose value is the len bytes from start on, with the place after it; or no byte.
#[derive(Clone, Copy)]
pub enum TlvRead {
    Entry {
        tlv_type: u16,
        start: usize,
        len: usize,
        next: TlvCursor,
    },
    End,
}

// How many bytes stand before the value of an entry: its type and its length.
pub const TLV_HEADER_SIZE: usize = 4;

// An entry is read while so many bytes remain; fewer are left over.
const LEAST_LEFT: usize = 5;

// What stands at a place, where fewer than `least` bytes are no entry.
fn entry_at(s: &[u8], at: usize, least: usize) -> Result<TlvRead, Refusal>
    requires { 4 ≤ least }
    ensures { result ≡ entry_at least s.now at }
{
    if s.len() <= at {
        return Ok(TlvRead::End);
    }
    let left = s.len() - at;
    if left < least {
        return Err(Refusal::Short);
    }
    let len = wire::u16_at(s, at + 2) as usize;
    if len % 2 != 0 {
        return Err(Refusal::OddTlv);
    }
    if left < len + TLV_HEADER_SIZE {
        return Err(Refusal::Short);
    }
    let start = at + TLV_HEADER_SIZE;
    Ok(TlvRead::Entry {
        tlv_type: wire::u16_at(s, at),
        start,
        len,
        next: TlvCursor { at: start + len },
    })
}

impl TlvCursor {
    // The start of a list.
    pub fn new() -> TlvCursor
        ensures { result.at ≡ 0 }
    {
        TlvCursor { at: 0 }
    }

    // Reads the entry at this place, and says nothing of later ones.
    pub fn next(self, s: &[u8]) -> Result<TlvRead, Refusal>
        ensures { result ≡ read_at s.now self.at }
    {
        entry_at(s, self.at, LEAST_LEFT)
    }
}

// The rule of a list: its first refusal, if there is one. After each entry the rest of the list is handed on.
fn list_check(s: &[u8], least: usize) -> Result<(), Refusal>
    requires { 4 ≤ least }
    ensures { number_in result ≡ list_check least s.now }
{
    let mut rest = s;
    loop {
        match entry_at(rest, 0, least)? {
            TlvRead::End => return Ok(()),
            TlvRead::Entry { next, .. } => rest = &rest[next.at..],
        }
    }
}

// Whether a reader takes a list: else its first refusal.
pub fn check(s: &[u8]) -> Result<(), Refusal>
    ensures { number_in result ≡ check_list s.now }
{
    list_check(s, LEAST_LEFT)
}

// Whether a writer takes a list: whole even entries, of which any may be empty.
pub fn whole_entries(s: &[u8]) -> bool
    ensures { result ≡ whole_entries s.now }
{
    list_check(s, TLV_HEADER_SIZE).is_ok()
}
