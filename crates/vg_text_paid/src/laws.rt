// The law of texts whose costs pay.
ghost use Rattle.vg_text_paid.specs.Paid.{PaidTexts};

use vg_method_sizes::costs_by_size;
use vg_packed_methods::laws::packed_methods_call_methods;
use vg_plain_paid::laws::plain_programs_are_paid;
use vg_text_beside::laws::programs_of_texts_have_ranges;
use vg_text_counted::{methods_of_texts_cost, methods_of_texts_take_in_order};
use vg_text_weights::packed_texts_are_light;

/// Of the typed program of a text that is refused for nothing, whose parameters and locals have the types of the text, a linear program in which no procedure
/// is trimmed can be paid by the costs of the text's methods, where 4,000 words, 64 for each node in the body of a live method and one for each two bytes of
/// tables are no more than 65,536 (`PaidTexts`). The body calls the laws that it follows from.
pub fn texts_are_paid()
    ensures { PaidTexts }
{
    costs_by_size();
    programs_of_texts_have_ranges();
    methods_of_texts_take_in_order();
    methods_of_texts_cost();
    packed_texts_are_light();
    packed_methods_call_methods();
    plain_programs_are_paid();
}
