// The view of a list of TLVs, after TlvSet in common/tlv.rs: it keeps the caller's bytes, shows the entry at a place, and hands back bytes.
#![tactic(auto)]

ghost use Rattle.std.specs.Prelude.{◌≡◌, ◌+◌, ◌≤◌, length, take, drop};
ghost use Rattle.tlv.specs.Tlv.{read_at, check_list};
ghost use Rattle.tlv_set.specs.View.{list_read};

use refused::Refusal;
use tlv::{TlvCursor, TlvRead};

// The view: it keeps the caller's bytes, a list that a reader takes.
#[derive(Drop)]
pub struct TlvSet<'a> {
    pub bytes: &'a [u8],
}

impl<'a> TlvSet<'a> {
    pub fn new(bytes: &'a [u8]) -> TlvSet<'a>
        requires { check_list bytes.now ≡ 0 }
        ensures { result.bytes ≡ bytes.entry }
    {
        TlvSet { bytes }
    }

    // The bytes, handed back.
    pub fn bytes(self) -> &'a [u8]
        ensures { result ≡ self.entry.bytes }
    {
        self.bytes
    }

    // The entry at a place.
    pub fn tlv(self, at: TlvCursor) -> Result<TlvRead, Refusal>
        ensures { result ≡ read_at self.entry.bytes.now at.at }
    {
        at.next(self.bytes)
    }

    // An entry's value: a part of the bytes, handed back.
    pub fn value(self, start: usize, len: usize) -> &'a [u8]
        requires { start + len ≤ length self.bytes.now }
        ensures { result.now ≡ take len (drop start self.entry.bytes.now) }
    {
        &self.bytes[start..start + len]
    }
}

// The entry at a place of a list that a reader takes, by the view.
fn view_entry(s: &[u8], at: TlvCursor) -> Result<TlvRead, Refusal>
    requires { check_list s.now ≡ 0 }
    ensures { result ≡ read_at s.now at.at }
{
    TlvSet::new(s).tlv(at)
}

// The entry at a place of a list: the list's own refusal, where it has one, comes first.
pub fn list_entry(s: &[u8], at: usize) -> Result<TlvRead, Refusal>
    ensures { result ≡ list_read s.now at }
{
    tlv::check(s)?;
    view_entry(s, TlvCursor { at })
}
