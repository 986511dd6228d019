//! A law over the definitions. It holds for all runs, and no code runs.

ghost use Rattle.recorded_items.specs.Laws.{ItemsAreOfTheStay, ItemsAreSpelled};

/// The items that a run records are those of the stay of its load note, whatever else ran beside it: none where there is no such load
/// note, and else the program as it was loaded, the events of its space, and its calls with what their mappings brought. And they have a
/// text, where no argument of a start line has a zero byte.
pub fn kept_items_law()
    ensures stays { ItemsAreOfTheStay }
    ensures spelled { ItemsAreSpelled }
{}
