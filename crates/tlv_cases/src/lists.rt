// Cases of lists: each is tried as a list, as the TLVs of a frame, as a single read at its start, and as a read of a list that is
// checked first.
use crate::reads;
use refused::Refusal;

// A list that is answered so, whose first entry is of type 8 and has a value of this size.
fn entry(s: &[u8], size: usize, answer: Result<(), Refusal>) -> bool {
    let is_first = |read| reads::is_entry(read, 8, 4, size);
    let checked = tlv_set::list_entry(s, 0);
    let first = match answer {
        Ok(()) => is_first(checked),
        Err(why) => reads::is_refused(checked, why),
    };
    first && is_first(reads::single(s, 0)) && reads::list_answer(s, answer)
}

// A list whose first entry is refused.
fn refused(s: &[u8], why: Refusal) -> bool {
    reads::both(s, 0, |r| reads::is_refused(r, why)) && reads::list_answer(s, Err(why))
}

// No byte.
fn none(s: &[u8]) -> bool {
    reads::both(s, 0, reads::is_end) && reads::list_answer(s, Ok(()))
}

// An entry of any length before 12 bytes, which are two entries; a shorter value leaves a rest that is read on.
const TWELVE: [u8; 16] = *b"\x00\x08\x00\x00\x00\x08\x00\x02\x01\x02\x00\x08\x00\x02\x03\x04";

pub fn entry_length(n: u64) -> bool {
    let mut s = TWELVE;
    wire::put_be(&mut s, 2, 2, n);
    if n % 2 == 1 {
        return refused(&s, Refusal::OddTlv);
    }
    match n {
        0 => entry(&s, 0, Ok(())),
        2 => entry(&s, 2, Err(Refusal::Short)),
        4 => entry(&s, 4, Err(Refusal::Short)),
        6 => entry(&s, 6, Ok(())),
        8 => entry(&s, 8, Err(Refusal::Short)),
        10 => entry(&s, 10, Err(Refusal::Short)),
        12 => entry(&s, 12, Ok(())),
        _ => refused(&s, Refusal::Short),
    }
}

// The same after an entry that is whole.
const AFTER: [u8; 22] = *b"\
    \x00\x08\x00\x02\x01\x02\
    \x00\x08\x00\x00\x00\x08\x00\x02\x01\x02\x00\x08\x00\x02\x03\x04";

pub fn later_length(n: u64) -> bool {
    let mut s = AFTER;
    wire::put_be(&mut s, 8, 2, n);
    if n % 2 == 1 {
        return entry(&s, 2, Err(Refusal::OddTlv));
    }
    match n {
        0 | 6 | 12 => entry(&s, 2, Ok(())),
        _ => entry(&s, 2, Err(Refusal::Short)),
    }
}

pub fn list(n: u64) -> bool {
    match n {
        0 => none(b""),
        1 => refused(b"\x00", Refusal::Short),
        2 => refused(b"\x00\x08", Refusal::Short),
        3 => refused(b"\x00\x08\x00", Refusal::Short),
        4 => refused(b"\x00\x08\x00\x00", Refusal::Short),
        5 => refused(b"\x00\x08\x00\x01", Refusal::Short),
        6 => refused(b"\x00\x08\x00\x02", Refusal::Short),
        7 => refused(b"\x00\x08\xFF\xFF", Refusal::Short),
        8 => entry(b"\x00\x08\x00\x00\x00", 0, Err(Refusal::Short)),
        9 => refused(b"\x00\x08\x00\x01\x00", Refusal::OddTlv),
        10 => refused(b"\x00\x08\x00\x02\x00", Refusal::Short),
        11 => refused(b"\x00\x08\x00\x03\x00", Refusal::OddTlv),
        12 => refused(b"\x00\x08\xFF\xFF\x00", Refusal::OddTlv),
        13 => refused(b"\x00\x08\xFF\xFE\x00", Refusal::Short),
        14 => entry(b"\x00\x08\x00\x02\x01\x02", 2, Ok(())),
        15 => entry(b"\x00\x08\x00\x00\x00\x08\x00\x02\x01\x02", 0, Ok(())),
        16 => refused(b"\x00\x08\x00\x01\x01\x02", Refusal::OddTlv),
        17 => refused(b"\x00\x08\x00\x04\x01\x02", Refusal::Short),
        18 => refused(b"\x00\x08\x00\x05\x01\x02", Refusal::OddTlv),
        _ => list_on(n),
    }
}

fn list_on(n: u64) -> bool {
    match n {
        19 => entry(
            b"\x00\x08\x00\x02\x01\x02\x00\x08\x00\x02\x03\x04",
            2,
            Ok(()),
        ),
        20 => entry(
            b"\x00\x08\x00\x02\x01\x02\x00\x08\x00\x01\x03\x04",
            2,
            Err(Refusal::OddTlv),
        ),
        21 => entry(
            b"\x00\x08\x00\x02\x01\x02\x00\x08\x00\x04\x03\x04",
            2,
            Err(Refusal::Short),
        ),
        22 => entry(
            b"\x00\x08\x00\x02\x01\x02\x00\x08\xFF\xFF\x03\x04",
            2,
            Err(Refusal::OddTlv),
        ),
        23 => entry(
            b"\x00\x08\x00\x02\x01\x02\x00\x08\xFF\xFE\x03\x04",
            2,
            Err(Refusal::Short),
        ),
        24 => entry(b"\x00\x08\x00\x00\x00\x08\x00\x00", 0, Err(Refusal::Short)),
        25 => entry(b"\x00\x08\x00\x00\x00\x08\x00\x01", 0, Err(Refusal::Short)),
        26 => entry(
            b"\x00\x08\x00\x00\x00\x08\x00\x00\x00\x08\x00\x02\x01\x02",
            0,
            Ok(()),
        ),
        27 => refused(b"\x00\x08\x00\x01\x00\x08\x00\x00", Refusal::OddTlv),
        28 => entry(b"\x00\x08\x00\x04\x00\x08\x00\x00", 4, Ok(())),
        29 => entry(b"\x00\x08\x00\x04\x00\x08\x00\x01", 4, Ok(())),
        30 => refused(b"\x00\x08\x00\x06\x00\x08\x00\x00", Refusal::Short),
        _ => list_to_the_end(n),
    }
}

// The first damage is told, and bytes of a value are not looked at.
fn list_to_the_end(n: u64) -> bool {
    match n {
        31 => refused(b"\x00\x08\x00\x01\x01\x02\x00", Refusal::OddTlv),
        32 => refused(b"\x00\x08\x00\x01\x00\x08\x00\x02\x01\x02", Refusal::OddTlv),
        33 => entry(
            b"\x00\x08\x00\x08\x01\x02\x00\x08\x00\x01\x01\x02",
            8,
            Ok(()),
        ),
        34 => entry(
            b"\x00\x08\x00\x04\x01\x02\x00\x08\x00\x01\x01\x02",
            4,
            Err(Refusal::Short),
        ),
        _ => entry(
            b"\x00\x08\x00\x02\x01\x02\x00\x08\x00\x01\x01\x00\x08\xFF\xFE\x01",
            2,
            Err(Refusal::OddTlv),
        ),
    }
}

// Two entries and up to five bytes more, each of one value: up to 4 are left over; of 5 bytes the length is looked at.
fn with_rest(rest: usize, fill: u8, answer: Result<(), Refusal>) -> bool {
    let mut s = [fill; 17];
    wire::put_bytes(
        &mut s,
        0,
        b"\x00\x08\x00\x02\x01\x02\x00\x08\x00\x02\x03\x04",
    );
    entry(&s[..12 + rest % 6], 2, answer)
}

pub fn left_over(n: u64) -> bool {
    let rest = (n % 6) as usize;
    let left = if rest == 0 {
        Ok(())
    } else {
        Err(Refusal::Short)
    };
    let odd = if rest == 5 {
        Err(Refusal::OddTlv)
    } else {
        left
    };
    match n / 6 {
        0 => with_rest(rest, 0x00, left),
        1 => with_rest(rest, 0x01, odd),
        2 => with_rest(rest, 0x02, left),
        3 => with_rest(rest, 0x08, left),
        4 => with_rest(rest, 0xFE, left),
        _ => with_rest(rest, 0xFF, odd),
    }
}

// What a writer takes: whole even entries, of which any may be empty.
pub fn whole(n: u64) -> bool {
    match n {
        0 => tlv::whole_entries(b""),
        1 => tlv::whole_entries(b"\x00\x08\x00\x00"),
        2 => tlv::whole_entries(b"\x00\x08\x00\x02\x01\x02"),
        3 => tlv::whole_entries(b"\x00\x08\x00\x02\x01\x02\x00\x08\x00\x00"),
        4 => tlv::whole_entries(b"\x00\x08\x00\x00\x00\x08\x00\x00"),
        5 => tlv::whole_entries(b"\x00\x08\x00\x00\x00\x08\x00\x02\x01\x02"),
        _ => !takes_damaged(n),
    }
}

// Whether it takes a list that is not made of such entries.
fn takes_damaged(n: u64) -> bool {
    match n {
        6 => tlv::whole_entries(b"\x00"),
        7 => tlv::whole_entries(b"\x00\x08"),
        8 => tlv::whole_entries(b"\x00\x08\x00"),
        9 => tlv::whole_entries(b"\x00\x08\x00\x01"),
        10 => tlv::whole_entries(b"\x00\x08\x00\x02"),
        11 => tlv::whole_entries(b"\x00\x08\x00\x02\x01"),
        12 => tlv::whole_entries(b"\x00\x08\x00\x01\x01"),
        13 => tlv::whole_entries(b"\x00\x08\x00\x01\x01\x02"),
        14 => tlv::whole_entries(b"\x00\x08\x00\x02\x01\x02\x00\x08\x00"),
        _ => tlv::whole_entries(b"\x00\x08\x00\x02\x01\x02\x00\x08\xFF\xFE"),
    }
}
