//! Laws of the definitions. The functions do nothing.
ghost use Rattle.mn_options.specs.Laws.{KindsAreDistinct, KindsAreFound, LawfulBreakNoRule, OptionsAreDistinct, OptionsAreFound, OrdersAreDistinct, OrdersAreFound};

/// No word stands twice in a table, and each word of a table stands for what is on its line.
pub fn tables_are_unambiguous()
    ensures options_distinct { OptionsAreDistinct }
    ensures options_found { OptionsAreFound }
    ensures orders_distinct { OrdersAreDistinct }
    ensures orders_found { OrdersAreFound }
    ensures kinds_distinct { KindsAreDistinct }
    ensures kinds_found { KindsAreFound }
{}

/// The words that break no rule are those of which each fits, with no option and no model twice, and with one model, which is
/// named or is to be generated.
pub fn lawful_words_break_no_rule()
    ensures { LawfulBreakNoRule }
{}
