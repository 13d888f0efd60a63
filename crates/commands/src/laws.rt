//! The laws of what commands tell and write of texts, each the contract of a function with nothing in it.

ghost use Rattle.commands.specs.BoundLaws.{BoundIsOne, UnboundedIsOne, BoundedIsNotRefused};
ghost use Rattle.commands.specs.FeedLaws.{FedIsOne, UnfedIsOne, FedIsNotRefused, EachOrderGivesIt};
ghost use Rattle.commands.specs.PrintLaws.{PrintedIsRead};

/// The program of a text has one bound at most.
pub fn bound_is_one()
    ensures { BoundIsOne }
{}

/// A bound is refused for one cause at most, at one place.
pub fn unbounded_is_one()
    ensures { UnboundedIsOne }
{}

/// No bound is refused where there is one.
pub fn bounded_is_not_refused()
    ensures { BoundedIsNotRefused }
{}

/// For a text and for tables one text is written, whatever the order of their events.
pub fn fed_is_one()
    ensures { FedIsOne }
{}

/// Tables are refused for one cause at most, at one place.
pub fn unfed_is_one()
    ensures { UnfedIsOne }
{}

/// No tables are refused that are fed.
pub fn fed_is_not_refused()
    ensures { FedIsNotRefused }
{}

/// What is written is what the program gives on the events of the tables, whatever their order.
pub fn each_order_gives_it()
    ensures { EachOrderGivesIt }
{}

/// What is printed for the text of a program is read, without limits, as that program but for places.
pub fn printed_is_read()
    ensures { PrintedIsRead }
{}
