// Cases of reads at a place, whatever follows it.
use crate::reads;
use crate::reads::Read;
use refused::Refusal;
use tlv::{TlvCursor, TlvRead};

// Three entries, from bytes 0, 4 and 10 on.
const THREE: [u8; 18] = *b"\
    \x00\x08\x00\x00\
    \x00\x08\x00\x02\x01\x02\
    \x40\x00\x00\x04\xAA\xBB\xCC\xDD";

// Whether both reads at a place of these entries find this entry.
fn entry(at: usize, number: u16, start: usize, size: usize) -> bool {
    reads::both(&THREE, at, |r| reads::is_entry(r, number, start, size))
}

fn refused(at: usize, why: Refusal) -> bool {
    reads::both(&THREE, at, |r| reads::is_refused(r, why))
}

fn end(at: usize) -> bool {
    reads::both(&THREE, at, reads::is_end)
}

// Each place in the list, and places past its end.
pub fn place(n: u64) -> bool {
    match n {
        0 => entry(0, 0x0008, 4, 0),
        1 => entry(1, 0x0800, 5, 0),
        2 => entry(2, 0x0000, 6, 8),
        3 => refused(3, Refusal::Short),
        4 => entry(4, 0x0008, 8, 2),
        5 => refused(5, Refusal::OddTlv),
        6 => refused(6, Refusal::Short),
        7 => refused(7, Refusal::Short),
        8 => refused(8, Refusal::Short),
        9 => entry(9, 0x0240, 13, 0),
        10 => entry(10, 0x4000, 14, 4),
        11 => refused(11, Refusal::Short),
        12 => refused(12, Refusal::OddTlv),
        13 => refused(13, Refusal::Short),
        14 => refused(14, Refusal::Short),
        15 => refused(15, Refusal::Short),
        16 => refused(16, Refusal::Short),
        17 => refused(17, Refusal::Short),
        18 => end(18),
        19 => end(19),
        20 => end(22),
        21 => end(65536),
        22 => end(0x1_0000_0000),
        23 => end(usize::MAX - 4),
        24 => end(usize::MAX - 1),
        _ => end(usize::MAX),
    }
}

// An entry, one of odd length, and two bytes; and an entry with two bytes left over.
const ODD: [u8; 14] = *b"\x00\x08\x00\x02\x01\x02\x00\x08\x00\x01\x03\x04\x00\x08";

const LEFT: [u8; 8] = *b"\x00\x08\x00\x02\x01\x02\x00\x08";

// At any place of a damaged list its own refusal comes first; a single read says only what stands there.
fn apart<F: Fn(Read) -> bool>(s: &[u8], at: usize, listed: Refusal, single: F) -> bool
    requires { F.IsAlwaysCallable single }
{
    single(reads::single(s, at)) && reads::is_refused(tlv_set::list_entry(s, at), listed)
}

fn odd<F: Fn(Read) -> bool>(at: usize, single: F) -> bool
    requires { F.IsAlwaysCallable single }
{
    apart(&ODD, at, Refusal::OddTlv, single)
}

fn left<F: Fn(Read) -> bool>(at: usize, single: F) -> bool
    requires { F.IsAlwaysCallable single }
{
    apart(&LEFT, at, Refusal::Short, single)
}

pub fn damaged(n: u64) -> bool {
    match n {
        0 => odd(0, |r| reads::is_entry(r, 8, 4, 2)),
        1 => odd(6, |r| reads::is_refused(r, Refusal::OddTlv)),
        2 => odd(7, |r| reads::is_refused(r, Refusal::OddTlv)),
        3 => odd(9, |r| reads::is_refused(r, Refusal::Short)),
        4 => odd(10, |r| reads::is_refused(r, Refusal::Short)),
        5 => odd(12, |r| reads::is_refused(r, Refusal::Short)),
        6 => odd(13, |r| reads::is_refused(r, Refusal::Short)),
        7 => odd(14, reads::is_end),
        8 => odd(usize::MAX, reads::is_end),
        9 => left(0, |r| reads::is_entry(r, 8, 4, 2)),
        10 => left(6, |r| reads::is_refused(r, Refusal::Short)),
        11 => left(4, |r| reads::is_refused(r, Refusal::Short)),
        12 => left(8, reads::is_end),
        13 => left(usize::MAX, reads::is_end),
        _ => damaged_start(n),
    }
}

// Bytes that no entry begins.
fn damaged_start(n: u64) -> bool {
    match n {
        14 => reads::both(b"", 0, reads::is_end),
        15 => reads::both(b"", 1, reads::is_end),
        16 => apart(b"\x00", 1, Refusal::Short, reads::is_end),
        17 => reads::both(b"", usize::MAX, reads::is_end),
        _ => reads::is_refused(reads::single(b"\x00\x08\x00\x01\x00", 0), Refusal::OddTlv)
            && reads::is_refused(
                tlv_set::list_entry(b"\x00\x08\x00\x01\x00", 7),
                Refusal::OddTlv,
            ),
    }
}

// The place after the entry at a place, where there is one.
fn after(c: TlvCursor) -> Option<usize> {
    match c.next(&THREE) {
        Ok(TlvRead::Entry { next, .. }) => Some(next.at),
        _ => None,
    }
}

// From the start of the list to its end.
pub fn walk(n: u64) -> bool {
    match n {
        0 => after(TlvCursor::new()) == Some(4),
        1 => after(TlvCursor { at: 4 }) == Some(10),
        2 => after(TlvCursor { at: 10 }) == Some(18),
        _ => after(TlvCursor { at: 18 }).is_none(),
    }
}
