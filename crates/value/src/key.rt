// The order of keys: by bytes, a beginning before what it begins.
ghost use Rattle.value.specs.Order.{OrderSays};

use std::cmp::Ordering;

// Where the first of two keys stands to the second.
pub fn order(one: &[u8], two: &[u8]) -> Ordering
    ensures { OrderSays one.now two.now result }
{
    one.cmp(&two)
}
