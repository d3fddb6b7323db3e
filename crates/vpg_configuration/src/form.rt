//! The forms of a configuration's file.
ghost use Rattle.std.specs.Prelude.{◌≡◌};
ghost use Rattle.vpg_configuration.specs.Forms.{form_of};

/// The form of a configuration's file.
#[derive(Clone, Copy, Debug, PartialEq, Eq)]
pub enum ConfigurationForm {
    /// One selected feature a line.
    Names,
    /// FeatureIDE's XML.
    Xml,
}

/// Returns the form of a file with this name: XML if the name ends in `.xml`, and else names.
pub fn form_of(name: &str) -> ConfigurationForm
    ensures { result ≡ form_of name.now }
{
    if name.as_bytes().ends_with(b".xml") {
        ConfigurationForm::Xml
    } else {
        ConfigurationForm::Names
    }
}
