//! Names of volumes.
ghost use Rattle.std.specs.Prelude.{◌≡◌, ◌↔◌, IsTrue, IsSome, IfSome};
ghost use Rattle.extents.specs.Names.{is_letter, is_name_byte, IsGoodName};

use arrayvec::ArrayVec;

/// The most bytes of a name, in a table of the greatest version.
pub const MOST_NAME_BYTES: usize = 63;

/// The name of a volume: 1 to 63 bytes, the first `a` to `z`, the others `a` to `z`, `0` to `9`, `-` or `_`.
#[derive(Drop)]
pub struct Name {
    /// The bytes of the name.
    pub bytes: ArrayVec<u8, MOST_NAME_BYTES>,
    ghost good: { IsGoodName bytes.items },
}

// Whether a name may begin with this byte.
fn may_begin(byte: u8) -> bool
    ensures { result ≡ is_letter byte }
{
    97 <= byte && byte <= 122
}

// Whether this byte may stand in a name.
fn may_stand(byte: u8) -> bool
    ensures { result ≡ is_name_byte byte }
{
    may_begin(byte) || (48 <= byte && byte <= 57) || byte == 45 || byte == 95
}

// Whether these are the bytes of a good name.
fn is_good(bytes: &[u8]) -> bool
    ensures { IsTrue result ↔ IsGoodName bytes.now }
{
    if bytes.is_empty() || bytes.len() > MOST_NAME_BYTES || !may_begin(bytes[0]) {
        return false;
    }
    for byte in bytes {
        if !may_stand(*byte) {
            return false;
        }
    }
    true
}

impl Name {
    /// The name with these bytes. None where they are not a good name.
    pub fn new(bytes: &[u8]) -> Option<Name>
        ensures good { IsSome result ↔ IsGoodName bytes.now }
        ensures same { IfSome result (λ name. name.bytes.items ≡ bytes.now) }
    {
        if !is_good(bytes) {
            return None;
        }
        let mut list = ArrayVec::new();
        list.try_extend_from_slice(bytes).ok()?;
        Some(Name { bytes: list })
    }

    /// The bytes of the name.
    pub fn bytes(&self) -> &[u8]
        ensures { result.now ≡ self.now.bytes.items }
    {
        self.bytes.as_slice()
    }
}
