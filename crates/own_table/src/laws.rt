//! Laws of the definitions. Each function does nothing; its contract is the law.

ghost use Rattle.own_table.specs.Building.{TablesAreExact};
ghost use Rattle.own_table.specs.Table.{TablesAreWhole};

/// In a table a declared type has the shape of its declaration, and all that it contains is a type of
/// the table.
pub fn tables_are_whole()
    ensures { TablesAreWhole }
{}

/// A text that has a table of types is refused for want of memory alone: a limit or a judgement that is
/// named is passed or false.
pub fn tables_are_exact()
    ensures { TablesAreExact }
{}
