//! The texts that show a page.
mod assertions;
mod changes;
mod counts;
mod entries;
mod feature;
mod known;
mod page;
mod pictures;
mod plans;
mod vertices;

pub use assertions::{claims_over, full_over, settled_over};
pub use changes::{put_changed, verdicts_by, verdicts_over};
pub use counts::count;
pub use entries::trail;
pub use feature::put_known;
pub use known::products;
pub use page::show;
pub use pictures::draw_over;
pub use plans::{PlanFault, plan, plan_answer};
pub use vertices::vertices_over;
