//! Functions that do nothing. Their contracts are the laws of `specs/Laws.antt`, so a check proves
//! these.
ghost use Rattle.aig_reader.specs.Laws.{OneValue, SomeValue, WrittenIsRead, OneReading, OrderKept};
ghost use Rattle.aig_reader.specs.Laws.{ListedValues};

/// A literal has one value at most at a point.
pub fn one_value()
    ensures { OneValue }
{}

/// Each literal of a circuit has a value at each point.
pub fn some_value()
    ensures { SomeValue }
{}

/// What a writer of the binary form makes of a circuit is read as this circuit.
pub fn written_is_read()
    ensures { WrittenIsRead }
{}

/// A file has one reading at most.
pub fn one_reading()
    ensures { OneReading }
{}

/// Gates whose lines stand in an order in which each stands only on what is before it keep this
/// order.
pub fn order_kept()
    ensures { OrderKept }
{}

/// The outputs of a circuit that was read from the ASCII form have the values that they have by the
/// lines as they are written.
pub fn values_as_listed()
    ensures { ListedValues }
{}
