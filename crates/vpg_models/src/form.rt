//! The forms of a diagram's file.
ghost use Rattle.std.specs.Prelude.{◌≡◌};
ghost use Rattle.vpg_models.specs.Forms.{form_of};

/// The form of a diagram's file.
#[derive(Clone, Copy, Debug, PartialEq, Eq)]
pub enum Form {
    /// The lines of a diagram.
    Diagram,
    /// A feature model in the Universal Variability Language.
    Uvl,
    /// A feature model in FeatureIDE's XML.
    FeatureIde,
}

/// Returns the form of a file with this name: UVL if the name ends in `.uvl`, FeatureIDE's XML if in `.xml`, and else a
/// diagram.
pub fn form_of(name: &str) -> Form
    ensures { result ≡ form_of name.now }
{
    let name = name.as_bytes();
    if name.ends_with(b".uvl") {
        Form::Uvl
    } else if name.ends_with(b".xml") {
        Form::FeatureIde
    } else {
        Form::Diagram
    }
}
