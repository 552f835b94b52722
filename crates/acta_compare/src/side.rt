//! One of the two models that are compared.

use acta_args::ModelName;
use acta_machine::Handle;
use acta_table::Model;

/// A model, and how the command line names it.
#[derive(Drop)]
pub(crate) struct Side<'a, A: Handle> {
    pub(crate) name: ModelName<'a>,
    pub(crate) model: &'a Model<A>,
}
