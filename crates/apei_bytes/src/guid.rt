// A GUID as UEFI stores it, and its text.
ghost use Rattle.std.specs.Prelude.{◌≡◌};
ghost use Rattle.apei_bytes.specs.Guid.{guid_text};

use std::marker::Model;
use uuid::Uuid;

/// A GUID in the byte order of UEFI: three fields of 4, 2 and 2 bytes, low byte first, and 8 bytes as they stand
/// (UEFI 2.8 Appendix A).
#[derive(Clone, Copy, Debug, PartialEq, Eq)]
pub struct Guid {
    bytes: [u8; 16],
}

impl Model for Guid {
    ghost use Rattle.std.specs.Prelude.{List, ℕ};

    ghost Value = { List ℕ };

    ghost view = { λ guid. guid.bytes };

    ghost inverse = { λ bytes. record { bytes = bytes } };
}

impl Guid {
    /// The GUID of these bytes.
    pub fn from_bytes(bytes: [u8; 16]) -> Guid
        ensures { result ≡ bytes }
    {
        Guid { bytes }
    }

    /// Its bytes.
    pub fn to_bytes(&self) -> [u8; 16]
        ensures { result ≡ self.now }
    {
        self.bytes
    }

    /// Writes its text, 32 lower-case digits in five groups with hyphens between them.
    pub fn text(&self, out: &mut [u8; 36])
        ensures { out.new ≡ guid_text self.now }
    {
        let mut buffer = [0; 36];
        let uuid = Uuid::from_bytes_le(self.bytes);
        let text = uuid.hyphenated().encode_lower(&mut buffer);
        out.copy_from_slice(text.as_bytes());
    }
}
