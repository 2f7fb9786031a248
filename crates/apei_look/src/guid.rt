// A GUID as text.
ghost use Rattle.std.specs.Prelude.{◌≡◌, ◌++◌, OnOk, string_bytes};
ghost use Rattle.apei_bytes.specs.Guid.{guid_text};

use apei_bytes::Guid;
use std::alloc::AllocError;
use std::str::from_utf8;

/// Adds the text of a GUID.
pub fn add_guid(out: &mut String, guid: &Guid) -> Result<(), AllocError>
    ensures { OnOk result (string_bytes out.new ≡ string_bytes out.old ++ guid_text guid.now) }
{
    let mut text = [0; 36];
    guid.text(&mut text);
    match from_utf8(&text) {
        Ok(text) => out.push_str(text),
        // The text of a GUID is ASCII.
        Err(_) => unreachable!(),
    }
}
