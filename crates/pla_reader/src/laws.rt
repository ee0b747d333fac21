//! Functions that do nothing. Their contracts are the laws of `specs/Laws.antt`, so a check proves
//! these.
ghost use Rattle.pla_reader.specs.Laws.{OrdersByTest, ArrangedBits, FileOrderKeepsRows};
ghost use Rattle.pla_reader.specs.Laws.{ArrangedNamesArePrinted, NamesAskForTheirOrder};

/// A list is an order exactly where the test says so.
pub fn orders_by_test()
    ensures { OrdersByTest }
{}

/// In an arranged mask each variable has the bit of its input.
pub fn arranged_bits()
    ensures { ArrangedBits }
{}

/// The order of the file changes no row.
pub fn file_order_keeps_rows()
    ensures { FileOrderKeepsRows }
{}

/// The names of an arranged description are printed as they are.
pub fn arranged_names_are_printed()
    ensures { ArrangedNamesArePrinted }
{}

/// A text with the printed names in an order asks for this order.
pub fn names_ask_for_their_order()
    ensures { NamesAskForTheirOrder }
{}
