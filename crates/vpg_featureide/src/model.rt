//! Feature models, read from their text.
ghost use Rattle.std.specs.Prelude.{◌≡◌, Ok, IfOk, IfErr};
ghost use Rattle.vpg_xml.specs.Elements.{Document};
ghost use Rattle.vpg_xml.specs.Nesting.{Spells};
ghost use Rattle.vpg_xml.specs.View.{elements_of};
ghost use Rattle.vpg_featureide.specs.Model.{nothing, seen_with};
ghost use Rattle.vpg_featureide.specs.Formulas.{of_xml, model_of, IsModelOf, IsRefusedAs, IsFaultOf};
ghost use Rattle.vpg_featureide.specs.View.{seen_of, model_in, IsRefused};

use crate::builder::{Builder, Member};
use crate::fault::ModelFault;
use crate::formula::rules;
use crate::role::Role;
use std::alloc::Global;
use vpg_features::Names;
use vpg_rules::Rule;
use vpg_xml::{Element, XmlFault, read_document};

/// A feature model. Features are numbered from 0 in the order of their elements; the root is feature 0.
#[derive(Drop)]
pub struct Model {
    /// The names of the features.
    pub names: Names,
    /// The kind of each feature's group of children: `And`, `Or`, `Alternative`, or `Leaf`.
    pub kinds: Vec<Role>,
    /// Where each feature below the root is, in order.
    pub members: Vec<Member>,
    /// The constraints, in order.
    pub rules: Vec<Rule>,
}

/// Returns what all elements are.
fn seen(alloc: Global, elements: &[Element]) -> Result<Builder, ModelFault>
    ensures ok { IfOk result (λ b. seen_with nothing (elements_of elements.now) ≡ Ok (seen_of b)) }
    ensures err { IfErr result (IsRefused (seen_with nothing (elements_of elements.now))) }
{
    let Ok(mut builder) = Builder::new(alloc) else {
        return Err(ModelFault::Memory);
    };
    for e in elements {
        if let Err(fault) = builder.put(alloc, e) {
            return Err(fault);
        }
    }
    Ok(builder)
}

/// Returns the model of a document.
fn model_of(alloc: Global, elements: &[Element]) -> Result<Model, ModelFault>
    ensures ok { IfOk result (λ m. model_of (elements_of elements.now) ≡ Ok (model_in m)) }
    ensures err { IfErr result (IsRefused (model_of (elements_of elements.now))) }
{
    let builder = match seen(alloc, elements) {
        Ok(builder) => builder,
        Err(fault) => return Err(fault),
    };
    if builder.names.is_empty() {
        return Err(ModelFault::NoRoot);
    }
    let rules = match rules(alloc, &builder.names, &builder.roles, elements) {
        Ok(rules) => rules,
        Err(fault) => return Err(fault),
    };
    let Builder {
        names,
        kinds,
        members,
        roles: _,
        numbers: _,
    } = builder;
    Ok(Model {
        names,
        kinds,
        members,
        rules,
    })
}

/// Returns the fault of a text that is no document.
fn of_xml(fault: XmlFault) -> ModelFault
    ensures { result ≡ of_xml fault }
{
    match fault {
        XmlFault::Memory => ModelFault::Memory,
        fault => ModelFault::Xml(fault),
    }
}

/// Returns the feature model that a text spells. An error is that of XML, if the text is no document, or else the first
/// of the features, or else the first of the constraints.
pub fn read_model(alloc: Global, text: &[u8]) -> Result<Model, ModelFault>
    ensures model { IfOk result (λ m. IsModelOf text.now (model_in m)) }
    ensures only { (d : Document) → Spells text.now d → IfOk result (λ m. model_of d ≡ Ok (model_in m)) }
    ensures refused { (d : Document) → Spells text.now d → IfErr result (IsRefusedAs d) }
    ensures fault { IfErr result (IsFaultOf text.now) }
{
    match read_document(alloc, text) {
        Ok(elements) => model_of(alloc, &elements),
        Err(fault) => Err(of_xml(fault)),
    }
}
