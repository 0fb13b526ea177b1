// What reports have to do with each other.
ghost use Rattle.shared_tables.specs.Laws.{OrderSaysNothing};

/// The order in which sources stand says nothing, nor does the order in which their rows were told.
pub fn order_says_nothing()
    ensures { OrderSaysNothing }
{}
