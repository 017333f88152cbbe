// TLVs that fill a message.
ghost use Rattle.std.specs.Prelude.{◌≡◌, drop};
ghost use Rattle.dso.specs.Tlv.{filled};

use crate::reader::Reader;

// Whether TLVs fill a message exactly from a reader's place on.
pub fn tlvs_fill<'a>(mut tlvs: Reader<'a>) -> bool
    ensures { result ≡ filled (drop tlvs.entry.at tlvs.entry.message.now) }
{
    tlvs.all(|tlv| tlv.is_ok())
}
