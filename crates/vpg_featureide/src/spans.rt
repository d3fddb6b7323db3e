//! Between which indices the children of elements are.
ghost use Rattle.std.specs.Prelude.{◌≡◌, ◌<◌, ◌^◌, length, IfOk};
ghost use Rattle.vpg_xml.specs.View.{elements_of};
ghost use Rattle.vpg_featureide.specs.Spans.{with_child, with_child_of, AreSpans};

use std::alloc::{AllocError, Global};
use vpg_xml::Element;

/// The indices between which the children of an element are. Both are 0 if it has none.
#[derive(Clone, Copy)]
pub(crate) struct Span {
    /// The index of the first child.
    pub(crate) from: usize,
    /// The index after that of the last child.
    pub(crate) to: usize,
}

/// Returns a span with one more child, after the others.
fn with_child(span: Span, child: usize) -> Span
    requires { child < 2 ^ 63 }
    ensures { result ≡ with_child span child }
{
    Span {
        from: if span.to == 0 { child } else { span.from },
        to: child + 1,
    }
}

/// Adds a child to the span of its parent.
fn put_child(spans: &mut Vec<Span>, parent: Option<usize>, child: usize)
    requires { child < 2 ^ 63 }
    ensures { spans.new.items ≡ with_child_of parent child spans.old.items }
{
    let Some(parent) = parent else {
        return;
    };
    if parent < spans.len() {
        spans[parent] = with_child(spans[parent], child);
    }
}

/// Returns for each element the span of its children.
pub(crate) fn spans(alloc: Global, elements: &[Element]) -> Result<Vec<Span>, AllocError>
    ensures { IfOk result (λ v. AreSpans (length elements.now) v.items (elements_of elements.now)) }
{
    let mut spans = vec![in alloc; Span { from: 0, to: 0 }; elements.len()]?;
    for (j, e) in elements.iter().enumerate() {
        put_child(&mut spans, e.parent, j);
    }
    Ok(spans)
}
