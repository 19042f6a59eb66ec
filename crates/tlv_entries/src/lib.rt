// What a list of TLVs holds: a reader and a writer of lists, after common/tlv.rs, take exactly the bytes of entries (specs/). There is no code.
#![tactic(auto)]
