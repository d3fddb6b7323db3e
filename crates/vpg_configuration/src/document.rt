//! Configurations in FeatureIDE's XML, as they are written.
ghost use Rattle.std.specs.Prelude.{◌≡◌, ◌++◌, OnOk};
ghost use Rattle.vpg_configuration.specs.Documents.{setting_line, followed};

use crate::selection::{Selection, word_of};
use std::alloc::AllocError;

/// Returns what propagation selected, if this is known of a feature and a person selected that.
fn followed(manual: Selection, known: Selection) -> Selection
    ensures { result ≡ followed manual known }
{
    match manual {
        Selection::Undefined => known,
        Selection::Selected | Selection::Unselected => Selection::Undefined,
    }
}

/// Appends the line of a feature with these selections.
fn put_selections(
    automatic: Selection,
    manual: Selection,
    name: &[u8],
    out: &mut Vec<u8>,
) -> Result<(), AllocError>
    ensures { OnOk result (out.new.items ≡ out.old.items
        ++ setting_line (record { name = name.now; automatic = automatic; manual = manual })) }
{
    out.extend_from_slice(b"\t<feature automatic=\"")?;
    out.extend_from_slice(word_of(automatic))?;
    out.extend_from_slice(b"\" manual=\"")?;
    out.extend_from_slice(word_of(manual))?;
    out.extend_from_slice(b"\" name=\"")?;
    out.extend_from_slice(name)?;
    out.extend_from_slice(b"\"/>\n")?;
    Ok(())
}

/// Appends the line of a feature of which this is known and a person selected that.
pub(crate) fn put_setting(
    known: Selection,
    manual: Selection,
    name: &[u8],
    out: &mut Vec<u8>,
) -> Result<(), AllocError>
    ensures { OnOk result (out.new.items ≡ out.old.items
        ++ setting_line (record { name = name.now; automatic = followed manual known; manual = manual })) }
{
    put_selections(followed(manual, known), manual, name, out)
}
