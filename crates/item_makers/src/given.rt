// Fields that a caller may leave out.
ghost use Rattle.std.specs.Prelude.{◌≡◌, ◌≤◌};
ghost use Rattle.item_makers.specs.Given.{bytes_given, number_given, bit_if};

use apei_bytes::Guid;

/// A GUID, or zeros.
pub(crate) fn guid_given(guid: Option<Guid>) -> Guid
    ensures { result ≡ bytes_given 16 guid }
{
    match guid {
        Some(guid) => guid,
        None => Guid::from_bytes([0; 16]),
    }
}

/// The text of a part, or zeros.
pub(crate) fn text_given(text: Option<[u8; 20]>) -> [u8; 20]
    ensures { result ≡ bytes_given 20 text }
{
    match text {
        Some(text) => text,
        None => [0; 20],
    }
}

/// A number, or 0.
pub(crate) fn number_given(number: Option<u64>) -> u64
    ensures { result ≡ number_given number }
{
    match number {
        Some(number) => number,
        None => 0,
    }
}

/// The validation bit of a field: set if the field was given.
pub(crate) fn bit_if(given: bool, bit: u8) -> u8
    ensures bit { result ≡ bit_if given bit }
    ensures small { result ≤ bit }
{
    if given { bit } else { 0 }
}
