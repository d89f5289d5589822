// A law of the places of elements.

ghost use Rattle.global_banks.specs.Elements.{ElementsAreLocated};

/// Where names tell instances and memories apart, an element is located exactly where a bank has it, and at the place of its word:
/// word `j / K` of bank `j mod K`, where there are K banks.
pub fn elements_are_located()
    ensures { ElementsAreLocated }
{}
