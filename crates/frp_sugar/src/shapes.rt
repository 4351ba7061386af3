//! Which shapes are derived forms.

ghost use Rattle.std.specs.Prelude.{◌≡◌};
ghost use Rattle.frp_sugar.specs.Derived.{is_derived};

use frp_file::ShapeForm;

/// Whether a shape is a derived form.
pub fn is_derived(form: &ShapeForm) -> bool
    ensures { result ≡ is_derived form.now }
{
    match form {
        ShapeForm::Orelse { .. } => true,
        ShapeForm::Gate { .. } => true,
        ShapeForm::Once { .. } => true,
        ShapeForm::Accum { .. } => true,
        ShapeForm::Collect { .. } => true,
        ShapeForm::Lift2 { .. } => true,
        ShapeForm::Defer { .. } => true,
        _ => false,
    }
}
