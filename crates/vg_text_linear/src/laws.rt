// The law of texts that have linear code.
ghost use Rattle.vg_text_linear.specs.Long.{LongTexts};

use vg_text_beside::laws::programs_of_texts_have_ranges;
use vg_text_counted::methods_of_texts_take_in_order;
use vg_text_weights::packed_texts_are_light;

/// What is packed of the typed program of a text that is refused for nothing, whose parameters and locals have the types of the text, and is typed where
/// the code of its methods takes and leaves its values in order, has linear code where 4,000 words, 64 for each node in the body of a live method and one
/// for each two bytes of tables are no more than 65,536: where it has none, they are more (`LongTexts`). The body calls the laws that it follows from.
pub fn short_texts_have_linear_code()
    ensures { LongTexts }
{
    programs_of_texts_have_ranges();
    methods_of_texts_take_in_order();
    packed_texts_are_light();
}
