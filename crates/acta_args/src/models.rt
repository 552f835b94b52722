//! The model that a command line names.

ghost use Rattle.std.specs.Prelude.{◌≡◌, ◌≢◌, IfSome, IfNone};
ghost use Rattle.acta_models.specs.declared.texts.Standard.{Standard as StandardModel};
ghost use Rattle.acta_args.specs.Models.{IsModel, IsUnknown, begins_at, standard_text};

use acta_models::Standard;

/// Where the model comes from.
#[derive(Clone, Copy, Debug, PartialEq, Eq)]
pub enum ModelName<'a> {
    /// A standard model, named after an `@`.
    Standard(Standard),
    /// The file at this path.
    Path(&'a str),
}

// The standard model with this name, after an `@`.
fn standard_named(model: &str) -> Option<Standard>
    ensures some { IfSome result (λ standard. model.now ≡ standard_text standard) }
    ensures none { IfNone result ((standard : StandardModel) → model.now ≢ standard_text standard) }
{
    match model {
        "@atomic" => Some(Standard::Atomic),
        "@nested" => Some(Standard::Nested),
        "@split_join" => Some(Standard::SplitJoin),
        "@recoverable" => Some(Standard::Recoverable),
        "@contingent" => Some(Standard::Contingent),
        _ => None,
    }
}

// Whether the model is named after an `@`.
fn begins_with_at(model: &str) -> bool
    ensures { result ≡ begins_at model.now }
{
    model.starts_with('@')
}

/// The model with this name: a standard one or a file. `None` if no standard model has the name after an `@`.
pub fn model_named(model: &str) -> Option<ModelName<'_>>
    ensures some { IfSome result (IsModel model.now) }
    ensures none { IfNone result (IsUnknown model.now) }
{
    if begins_with_at(model) {
        let standard = standard_named(model)?;
        Some(ModelName::Standard(standard))
    } else {
        Some(ModelName::Path(model))
    }
}
