//! Programs, graphs and traces, and the definitions that they are held to (in `specs/`).
#![tactic(auto)]

mod evidence;
mod laws;
mod limits;
mod prog;
mod shape;
mod shape_laws;
mod trace;
mod view;

pub use evidence::{Evidence, Phase, Ranked, Why};
pub use frp_expr::Expr;
pub use frp_file::{File, Item, Template};
pub use laws::{
    before_is_strict, births_are_one, born_in_order, earlier_moments_stay, facts_are_found,
    none_unsent, one_occurrence, rings_turn, sends_are_combined, steps_tell_apart,
    streams_have_no_value, transactions_are_due,
};
pub use limits::Limits;
pub use prog::{Body, FunDef, Joint, Line3, LineLam, LineShape, Prog};
pub use shape::{Lam, Shape};
pub use shape_laws::{
    allowed_stays, files_are_whole, firsts_are_typed, instances_are_there, instances_stay,
    lines_are_allowed, links_lead, names_are_given, reads_are_there, rows_agree, rows_are_typed,
};
pub use trace::{Fact, Moment, Node, Sent};
pub use view::View;
