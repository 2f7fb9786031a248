// A medium of the library: its header, and the flash behind it.
ghost use Rattle.std.specs.Prelude.{◌≡◌, [], drop, IfOk, OnOk, Some, Ok, false};
ghost use Rattle.image_survey.specs.Headers.{IsMedium};
ghost use Rattle.show_items.specs.Beginnings.{IfStopped};
ghost use Rattle.show_items.specs.Images.{AreMediumItems, AreMediumItemsBy, HasSize, IsBadMedium, error_place};
ghost use Rattle.show_items.specs.Judged.{ShowsAll, ShowsOne, StopsIn};
ghost use Rattle.show_items.specs.Stops.{HasStop};

use crate::headers::{medium_header, show_header};
use crate::images::show_image;
use crate::pages::{Pages, Stop};
use crate::sheet::Sheet;
use flash_model::Geometry;
use image_survey::{MediumError, geometry_of};
use show_findings::Fault;
use std::alloc::AllocError;

// The bytes of the header, with its marks.
const HEADER: usize = 50;

/// Shows a medium of the library: its header, and the records of its flash.
pub(crate) fn show_medium<P: Pages>(
    sheet: &mut Sheet<'_>,
    pages: &mut P,
    bytes: &[u8],
) -> Result<(), Stop>
    ensures shown { OnOk result (ShowsAll (AreMediumItems false bytes.now)
        (P.written pages.old) (P.written pages.new) sheet.old sheet.new) }
    ensures cause { HasStop (P.failures pages.old) (P.failures pages.new) result }
    ensures stopped { IfStopped result (StopsIn (λ early. AreMediumItems early bytes.now)
        (P.written pages.old) (P.written pages.new) sheet.old) }
{
    match geometry_of(bytes) {
        Ok(geometry) => show_whole(sheet, pages, bytes, &geometry),
        Err(error) => {
            show_bad(sheet, bytes, error)?;
            Ok(())
        }
    }
}

// Shows a medium that tells its geometry.
fn show_whole<P: Pages>(
    sheet: &mut Sheet<'_>,
    pages: &mut P,
    bytes: &[u8],
    geometry: &Geometry,
) -> Result<(), Stop>
    requires { IsMedium geometry.now bytes.now }
    ensures shown { OnOk result (ShowsAll (AreMediumItemsBy false (Ok geometry.now) bytes.now)
        (P.written pages.old) (P.written pages.new) sheet.old sheet.new) }
    ensures cause { HasStop (P.failures pages.old) (P.failures pages.new) result }
    ensures stopped { IfStopped result (StopsIn (λ early. AreMediumItemsBy early (Ok geometry.now) bytes.now)
        (P.written pages.old) (P.written pages.new) sheet.old) }
{
    show_header(
        sheet,
        "medium",
        "medium of a record store",
        &medium_header(),
        bytes,
        HEADER,
        &None,
    )?;
    show_image(sheet, pages, geometry, flash_of(bytes, geometry))
}

// What stands behind the first sector.
fn flash_of<'a>(bytes: &'a [u8], geometry: &Geometry) -> &'a [u8]
    requires { IsMedium geometry.now bytes.now }
    ensures flash { result.now ≡ drop geometry.now.sector bytes.now }
    ensures size { HasSize geometry.now result.now }
{
    &bytes[geometry.sector() as usize..]
}

// Shows a medium that can't be read.
fn show_bad(sheet: &mut Sheet<'_>, bytes: &[u8], error: MediumError) -> Result<(), AllocError>
    ensures { OnOk result (ShowsOne (IsBadMedium bytes.now error) (Some []) (Some []) sheet.old sheet.new) }
{
    let fault = fault_of(sheet, error)?;
    show_header(
        sheet,
        "medium",
        "medium of a record store, which can't be read",
        &medium_header(),
        bytes,
        HEADER,
        &Some(fault),
    )
}

// What is wrong, and where it stands.
fn fault_of(sheet: &Sheet<'_>, error: MediumError) -> Result<Fault, AllocError>
    ensures { IfOk result (λ fault. fault.at ≡ error_place error) }
{
    let mut says = String::new(sheet.alloc());
    let at = match error {
        MediumError::Foreign => {
            says.push_str(
                "no format made this header: its checksum, its marks or its numbers are others",
            )?;
            0
        }
        MediumError::Version { found } => {
            write!(says, "the version is {found}, and 1 was expected")?;
            8
        }
        MediumError::Size { found, wanted } => {
            write!(
                says,
                "{found} bytes are there, and a medium of this geometry has {wanted}"
            )?;
            32
        }
    };
    Ok(Fault { at, says })
}
