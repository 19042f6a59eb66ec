// Equality of messages is what Rust derives: here it is given the name that the definitions have for it.
#![tactic(auto)]

ghost use Rattle.std.specs.Prelude.{◌≡◌};
ghost use Rattle.same.specs.Same.{header, same_port, same_message};

use announce::AnnounceMessage;
use header::{Header, PortIdentity};

pub fn same_port(here: PortIdentity, there: PortIdentity) -> bool
    ensures { result ≡ same_port here there }
{
    here == there
}

pub fn same_header(a: Header, b: Header) -> bool
    ensures { result ≡ header.same a b }
{
    a == b
}

pub fn same_message(ours: AnnounceMessage, theirs: AnnounceMessage) -> bool
    ensures { result ≡ same_message ours theirs }
{
    ours == theirs
}
