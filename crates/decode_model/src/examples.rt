// Worked row products, computed from the definitions.
ghost use Rattle.decode_model.specs.Examples.{OrdersAreWorked};

/// Two matrices that do not commute tell the orders of multiplication apart, on the way down and on the way up.
pub fn orders_are_worked()
    ensures { OrdersAreWorked }
{}
