//! Whether types are those of tables.

ghost use Rattle.std.specs.Prelude.{◌↔◌, ◌≡◌, IsTrue};
ghost use Rattle.stream_type.specs.StreamType.{type_of, int};
ghost use Rattle.table_feed.specs.RowType.{IsRowType, IsItemType, AreTables, HasShape};

use stream_type::Ty;

/// Whether a type is that of a table: `IsRowType` of `specs/RowType.antt`.
#[tactic(auto, using(crate::proofs::Values::shapes))]
pub fn is_row_type(t: &Ty) -> bool
    ensures { IsTrue result ↔ IsRowType (type_of t.now) }
{
    match t {
        Ty::Star(item) => is_item_type(item),
        _ => false,
    }
}

// Whether a type is that of a row.
fn is_item_type(t: &Ty) -> bool
    ensures { IsTrue result ↔ IsItemType (type_of t.now) }
{
    match t {
        Ty::Int => true,
        Ty::Cat(first, rest) => is_number(first) && is_item_type(rest),
        _ => false,
    }
}

// Whether a type is that of one number.
fn is_number(t: &Ty) -> bool
    ensures { IsTrue result ↔ (type_of t.now ≡ int) }
{
    matches!(t, Ty::Int)
}

// Whether a type is that of so many tables side by side.
fn are_tables(t: &Ty, tables: usize) -> bool
    ensures { IsTrue result ↔ AreTables tables (type_of t.now) }
{
    if tables < 2 {
        return tables == 1 && is_row_type(t);
    }
    match t {
        Ty::Par(first, rest) => is_row_type(first) && are_tables(rest, tables - 1),
        _ => false,
    }
}

/// Whether a program of these types takes so many tables and gives one: `HasShape` of `specs/RowType.antt`.
pub fn has_shape(input: &Ty, output: &Ty, tables: usize) -> bool
    ensures { IsTrue result ↔ HasShape (type_of input.now) (type_of output.now) tables }
{
    tables <= 8 && are_tables(input, tables) && is_row_type(output)
}
