//! The file of a diagram, which may have a feature model that means one.
ghost use Rattle.std.specs.Prelude.{◌≡◌, ◌≢◌, ◌⊎◌, [], IfOk, IfErr, MatchResult};
ghost use Rattle.vpg_diagram.specs.DiagramText.{IsTextOf};
ghost use Rattle.vpg_models.specs.Forms.{form_of};
ghost use Rattle.vpg_models.specs.declared.form.Form.TheVariants as forms;
ghost use Rattle.vpg_family.specs.Limits.{IsWithin};
ghost use Rattle.vpg_family.specs.Families.{IsDiagramFault, IsUnread, IsOfDiagram};
ghost use Rattle.vpg_family.specs.Sources.{AreOfFile, AreOfFileBy};

use crate::family::read_diagram;
use crate::fault::{Fault, Input};
use crate::files::{Unread, no_diagram, read_file};
use crate::limits::is_within;
use std::alloc::Global;
use std::rt::Files;
use vpg_diagram::Diagram;
use vpg_models::{Form, FormFault, diagram_of, form_of};

/// A diagram that was read from a file, its text, and that of the feature model that means it.
#[derive(Drop)]
pub struct DiagramFile {
    /// It is empty if the file is a diagram.
    pub model: Vec<u8>,
    pub text: Vec<u8>,
    pub diagram: Diagram,
}

/// Returns the fault of a diagram's file, beside its text and that of the feature model in it.
fn no_file(alloc: Global, fault: Fault, model: Vec<u8>, text: Vec<u8>) -> Unread
    requires { IsUnread text.items [] [] [] fault }
    ensures unread { IsUnread result.texts.diagram.items result.texts.game.items result.texts.system.items
        result.texts.requirements.items result.fault }
    ensures fault { result.fault ≡ fault }
    ensures text { result.texts.diagram.items ≡ text.items }
    ensures model { result.texts.model.items ≡ model.items }
{
    let mut unread = no_diagram(alloc, fault, text);
    unread.texts.model = model;
    unread
}

/// Returns the diagram that a text spells, beside that of the feature model that means it.
fn diagram_in(alloc: Global, model: Vec<u8>, text: Vec<u8>) -> Result<DiagramFile, Unread>
    ensures spelled { IfOk result (λ file. IsTextOf file.text.items file.diagram) }
    ensures within { IfOk result (λ file. IsWithin file.text.items) }
    ensures text { MatchResult result (λ file. file.text.items ≡ text.items)
        (λ unread. unread.texts.diagram.items ≡ text.items) }
    ensures model { MatchResult result (λ file. file.model.items ≡ model.items)
        (λ unread. unread.texts.model.items ≡ model.items) }
    ensures refused { IfErr result (λ unread. IsUnread unread.texts.diagram.items unread.texts.game.items
        unread.texts.system.items unread.texts.requirements.items unread.fault) }
    // The text is too large, or spells no diagram.
    ensures of_text { IfErr result (λ unread. (unread.fault ≡ Fault.TooLarge Input.Diagram)
        ⊎ IsDiagramFault text.items unread.fault) }
{
    if !is_within(&text) {
        let input = Input::Diagram;
        return Err(no_file(alloc, Fault::TooLarge { input }, model, text));
    }
    match read_diagram(alloc, &text) {
        Ok(diagram) => Ok(DiagramFile {
            model,
            text,
            diagram,
        }),
        Err(fault) => Err(no_file(alloc, fault, model, text)),
    }
}

/// Returns the diagram that the text of a feature model means.
fn diagram_meant(alloc: Global, form: Form, model: Vec<u8>) -> Result<DiagramFile, Unread>
    requires { form ≢ forms.Diagram }
    ensures meant { IfOk result (λ file. AreOfFile form file.model.items file.text.items) }
    ensures spelled { IfOk result (λ file. IsTextOf file.text.items file.diagram) }
    ensures within { IfOk result (λ file. IsWithin file.text.items) }
    ensures refused { IfErr result (λ unread. IsUnread unread.texts.diagram.items unread.texts.game.items
        unread.texts.system.items unread.texts.requirements.items unread.fault) }
    ensures file { IfErr result (λ unread. AreOfFileBy unread.fault form unread.texts.model.items
        unread.texts.diagram.items) }
    ensures of_diagram { IfErr result (λ unread. IsOfDiagram unread.fault) }
{
    match diagram_of(alloc, form, &model) {
        Ok(text) => diagram_in(alloc, model, text),
        Err(FormFault::Memory) => Err(no_file(alloc, Fault::Memory, model, Vec::new(alloc))),
        Err(fault) => Err(no_file(alloc, Fault::FeatureModel { fault }, model, Vec::new(alloc))),
    }
}

/// Returns the diagram of a file. The end of the file's name says whether it is a diagram or a feature model, which
/// means one. The fault is that of the texts that come back with it.
pub fn read_diagram_file<R: Files + AllocGlobal>(
    rt: &R,
    alloc: Global,
    path: &str,
) -> Result<DiagramFile, Unread>
    // The text of a model means that of the diagram. There is none if the file is a diagram.
    ensures meant { IfOk result (λ file. AreOfFile (form_of path.now) file.model.items file.text.items) }
    ensures spelled { IfOk result (λ file. IsTextOf file.text.items file.diagram) }
    ensures within { IfOk result (λ file. IsWithin file.text.items) }
    ensures refused { IfErr result (λ unread. IsUnread unread.texts.diagram.items unread.texts.game.items
        unread.texts.system.items unread.texts.requirements.items unread.fault) }
    // A fault of a model is that of its text.
    ensures file { IfErr result (λ unread. AreOfFileBy unread.fault (form_of path.now) unread.texts.model.items
        unread.texts.diagram.items) }
    ensures of_diagram { IfErr result (λ unread. IsOfDiagram unread.fault) }
{
    let text = match read_file(rt, path, Fault::DiagramUnreadable) {
        Ok(text) => text,
        Err(fault) => return Err(no_file(alloc, fault, Vec::new(alloc), Vec::new(alloc))),
    };
    if !is_within(&text) {
        let input = Input::Diagram;
        return Err(no_file(alloc, Fault::TooLarge { input }, Vec::new(alloc), text));
    }
    match form_of(path) {
        Form::Diagram => diagram_in(alloc, Vec::new(alloc), text),
        form => diagram_meant(alloc, form, text),
    }
}
