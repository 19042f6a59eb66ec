// Writing TLVs, after TlvSetBuilder and Tlv::serialize in common/tlv.rs: one entry, and a list that grows in the caller's buffer.
#![tactic(auto)]

ghost use Rattle.std.specs.Prelude.{◌≡◌};
ghost use Rattle.refused.specs.Refusal.{number_in};
ghost use Rattle.tlv_builder.specs.Builder.{entry_answer, entry_exit, add_read, add_exit};

use refused::Refusal;
use tlv::TLV_HEADER_SIZE;

// A list that is being built in a buffer: how many of its bytes are used.
#[derive(Clone, Copy)]
pub struct TlvSetBuilder {
    pub used: usize,
}

// The longest value: even, and its length fits the field.
const MAX_VALUE: usize = 65534;

// Writes an entry at the start of a buffer: refused 15 where the value is odd or too long, then 1 where the buffer is short.
// A refusal writes nothing.
pub fn write_entry(buffer: &mut [u8], tlv_type: u16, value: &[u8]) -> Result<(), Refusal>
    ensures { (number_in result ≡ entry_answer buffer.old value.now) × (buffer.new ≡ entry_exit buffer.old tlv_type value.now) }
{
    let n = value.len();
    if n % 2 != 0 || MAX_VALUE < n {
        return Err(Refusal::Unfit);
    }
    if buffer.len() < n + TLV_HEADER_SIZE {
        return Err(Refusal::Short);
    }
    wire::put_be(buffer, 0, 2, tlv_type as u64);
    wire::put_be(buffer, 2, 2, n as u64);
    wire::put_bytes(buffer, TLV_HEADER_SIZE, value);
    Ok(())
}

impl TlvSetBuilder {
    // No entry yet.
    pub fn new() -> TlvSetBuilder
        ensures { result.used ≡ 0 }
    {
        TlvSetBuilder { used: 0 }
    }

    // Writes an entry into the still unused rest of the buffer.
    pub fn add(
        self,
        buffer: &mut [u8],
        tlv_type: u16,
        value: &[u8],
    ) -> Result<TlvSetBuilder, Refusal>
        ensures { (result ≡ add_read buffer.old self.used value.now) × (buffer.new ≡ add_exit buffer.old self.used tlv_type value.now) }
    {
        let used = self.used.min(buffer.len());
        write_entry(&mut buffer[used..], tlv_type, value)?;
        Ok(TlvSetBuilder {
            used: used + (value.len() + TLV_HEADER_SIZE),
        })
    }
}
