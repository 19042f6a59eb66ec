// Cases of the longest messages that are written: 65,534 bytes, of which 65,470 are TLVs.
use refused::Refusal;
use vectors::frames::F;
use vectors::{frames, framing, room};

// Whether F(1) with these TLVs is answered so in a room and, where it is taken, gives these bytes, else leaves every byte.
fn gives(tlvs: &[u8], room: usize, answer: Result<(), Refusal>) -> bool {
    let mut target = io::large_buffer();
    let mut want = io::large_buffer();
    room::fill(&mut target);
    framing::lay(&mut want, &F, tlvs);
    want[46] = room::laid(46);
    let end = if answer.is_ok() {
        64 + tlvs.len() % 65536
    } else {
        0
    };
    let got = framing::write(frames::f_message(), tlvs, &mut target, room);
    got == answer && room::holds_over(&target, framing::first(&want, end))
}

// TLVs of a size, of which the first is of this length.
fn sized(size: usize, entry: u64, room: usize, answer: Result<(), Refusal>) -> bool {
    let mut tlvs = io::large_buffer();
    room::fill(&mut tlvs);
    wire::put_be(&mut tlvs, 0, 2, 8);
    wire::put_be(&mut tlvs, 2, 2, entry);
    gives(framing::first(&tlvs, size), room, answer)
}

pub fn written(n: u64) -> bool {
    match n {
        0 => sized(65470, 65466, 65536, Ok(())),
        1 => sized(65470, 65466, 65534, Ok(())),
        2 => sized(65470, 65466, 65533, Err(Refusal::Short)),
        3 => sized(65470, 65466, 0, Err(Refusal::Short)),
        4 => sized(65472, 65468, 65536, Err(Refusal::Unfit)),
        5 => sized(65472, 65468, 0, Err(Refusal::Unfit)),
        6 => sized(65471, 65467, 65536, Err(Refusal::Unfit)),
        7 => sized(65471, 65466, 65536, Err(Refusal::Unfit)),
        8 => sized(65470, 65468, 65536, Err(Refusal::Unfit)),
        9 => sized(65536, 65532, 65536, Err(Refusal::Unfit)),
        10 => sized(65470, 65467, 65533, Err(Refusal::Unfit)),
        _ => sized(65468, 65464, 65532, Ok(())),
    }
}

// TLVs of zeros: empty entries of type 0.
fn zeros(size: usize, room: usize, answer: Result<(), Refusal>) -> bool {
    let tlvs = io::large_buffer();
    gives(framing::first(&tlvs, size), room, answer)
}

pub fn empty(n: u64) -> bool {
    match n {
        0 => zeros(65468, 65536, Ok(())),
        1 => zeros(65472, 65536, Err(Refusal::Unfit)),
        2 => zeros(65470, 65536, Err(Refusal::Unfit)),
        _ => zeros(65468, 65531, Err(Refusal::Short)),
    }
}
