//! Laws about the image of a model: it runs as the model's text does, and as its images in other versions do.

ghost use Rattle.std.specs.Prelude.{◌≡◌, ℕ, List, Ok, true, false};
ghost use Rattle.acta_table.specs.declared.event.Event.{Event};
ghost use Rattle.acta_table.specs.declared.model.Parts.{Parts};
ghost use Rattle.acta_image.specs.Reading.{loaded};
ghost use Rattle.acta_image.specs.declared.version.ImageVersion.{ImageVersion};
ghost use Rattle.acta_image.specs.Spelling.{HasImageIn, image, image_in};
ghost use Rattle.acta_lang.specs.Meaning.{meaning};
ghost use Rattle.acta_machine.specs.Table.{run_answers, run_state};
ghost use Rattle.acta_tool.specs.declared.args.Command.{Command};
ghost use Rattle.acta_tool.specs.declared.args.Command.TheVariants.{Upgrade};
ghost use Rattle.acta_tool.specs.Driving.{task_of};
ghost use Rattle.acta_io.specs.Models.{of_either};
ghost use Rattle.acta_tool.specs.Models.{takes_either};
ghost use Rattle.acta_tool.specs.Output.{tool_output};

use acta_table::Model;
use std::alloc::Allocator;

/// A law, for a text and its model. A machine on the model that is loaded from the model's image answers all lists of events
/// as one on the text's model. Each command that takes both texts and images (all but `assemble`, `check-image` and
/// `upgrade`) has the same output for the image as for the text, and `drive` runs the same scripts on the same model.
pub fn images_run_as_their_texts<A: Allocator>(text: &[u8], model: &Model<A>)
    requires { meaning text.now ≡ Ok model.now }
    ensures answers { (m : Parts A) (events : List (Event A)) → loaded (image model.now) ≡ Ok m → run_answers m events ≡ run_answers model.now events }
    ensures state { (m : Parts A) (events : List (Event A)) → loaded (image model.now) ≡ Ok m → run_state m events ≡ run_state model.now events }
    ensures output { (command : Command) (input : List ℕ) → takes_either command ≡ true → tool_output A command (image model.now) input ≡ tool_output A command text.now input }
    ensures driven { (workers turns : ℕ) (input : List ℕ) → task_of {A = A} workers turns (of_either (image model.now)) input ≡ task_of workers turns (of_either text.now) input }
{
    model.lemma_invariant();
}

/// A law, for the image of a model in any version that has one. `upgrade` converts it to the version that is written, and
/// each command that takes both texts and images has the same output for the two images.
pub fn images_are_upgraded<A: Allocator>(model: &Model<A>)
    ensures upgraded { (version : ImageVersion) (input : List ℕ) → HasImageIn version model.now → tool_output A Upgrade (image_in version model.now) input ≡ record { is_refused = false; text = image model.now } }
    ensures output { (version : ImageVersion) (command : Command) (input : List ℕ) → HasImageIn version model.now → takes_either command ≡ true → tool_output A command (image_in version model.now) input ≡ tool_output A command (image model.now) input }
{
    model.lemma_invariant();
}
