//! Configurations in files.
use std::alloc::Global;
use vpg_configuration::{ConfigurationFault, ConfigurationForm, deciding, form_of, selecting};
use vpg_family::{Fault, read_script};

/// Returns the lines that decide as a configuration in FeatureIDE's XML does.
fn decisions_in(alloc: Global, text: &[u8]) -> Result<Vec<u8>, Fault> {
    match deciding(alloc, text) {
        Ok(lines) => Ok(lines),
        Err(ConfigurationFault::Memory) => Err(Fault::Memory),
        Err(fault) => Err(Fault::Configuration { fault }),
    }
}

/// Returns the lines that decide as a configuration of this form does.
fn lines_in(alloc: Global, form: ConfigurationForm, text: &[u8]) -> Result<Vec<u8>, Fault> {
    match form {
        ConfigurationForm::Names => Ok(selecting(alloc, text)?),
        ConfigurationForm::Xml => decisions_in(alloc, text),
    }
}

/// Returns the lines that decide as the configuration in a file does, none if there is no file.
pub(crate) fn decisions_of(
    rt: &HostRuntime,
    alloc: Global,
    config: Option<&str>,
) -> Result<Vec<u8>, Fault> {
    let Some(path) = config else {
        return Ok(Vec::new(alloc));
    };
    let text = read_script(rt, path)?;
    lines_in(alloc, form_of(path), &text)
}

/// Returns the form that a configuration is asked for in.
pub(crate) fn configuration_form(xml: bool) -> ConfigurationForm {
    if xml {
        ConfigurationForm::Xml
    } else {
        ConfigurationForm::Names
    }
}
