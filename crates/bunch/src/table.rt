//! Tables of facts: beside each name a row that says whether it stands before each of the names.

ghost use Rattle.std.specs.Prelude.{◌≡◌, ◌∷◌, [], ◌++◌, length, map, IfOk, IsTrue};
ghost use Rattle.bunch.specs.Names.{numbers_of, holds, place_in};
ghost use Rattle.bunch.specs.BunchTree.{tree_of, stands_before};
ghost use Rattle.bunch.specs.Table.{lists_of, facts_in, IsSquare, rows_by, grown_rows, put_rows};

use crate::bunch::Bunch;
use crate::name::Name;
use crate::reading::before;
use std::alloc::Global;
use stream_type::Memory;

// The index of a name's first place, or the length where the name isn't there.
pub(crate) fn place_of(names: &[Name], x: Name) -> usize
    ensures { result ≡ place_in x.0 (numbers_of names.now) }
{
    for (i, name) in names.iter().enumerate() {
        if x.0 == name.0 {
            return i;
        }
    }
    names.len()
}

// Whether x stands before y.
pub(crate) fn fact(names: &[Name], rows: &[Vec<bool>], x: Name, y: Name) -> bool
    requires { IsSquare (numbers_of names.now) (lists_of rows.now) }
    ensures { result ≡ facts_in (numbers_of names.now) (lists_of rows.now) x.0 y.0 }
{
    let i = place_of(names, x);
    let j = place_of(names, y);
    if i < names.len() && j < names.len() {
        let row = &rows[i];
        row[j]
    } else {
        false
    }
}

// The row of each name of a bunch.
pub(crate) fn rows_of(alloc: Global, b: &Bunch, names: &[Name]) -> Result<Vec<Vec<bool>>, Memory>
    ensures { IfOk result (λ v.
        lists_of v.items ≡ rows_by (stands_before (tree_of b.now)) (numbers_of names.now)) }
{
    let mut rows = Vec::new(alloc);
    for x in names {
        rows.push(row_of(alloc, b, *x, names)?)?;
    }
    Ok(rows)
}

// Whether x stands before each of the names.
fn row_of(alloc: Global, b: &Bunch, x: Name, names: &[Name]) -> Result<Vec<bool>, Memory>
    ensures { IfOk result (λ v.
        v.items ≡ map (stands_before (tree_of b.now) x.0) (numbers_of names.now)) }
{
    let mut row = Vec::new(alloc);
    for y in names {
        row.push(before(b, x, *y))?;
    }
    Ok(row)
}

// The names with one more at their end.
#[tactic(auto, using(crate::proofs::NameLists::name_lists))]
pub(crate) fn with_name(alloc: Global, names: &[Name], x: Name) -> Result<Vec<Name>, Memory>
    ensures { IfOk result (λ v. numbers_of v.items ≡ numbers_of names.now ++ x.0 ∷ []) }
{
    let mut longer = names.to_vec(alloc)?;
    longer.push(x)?;
    Ok(longer)
}

// The rows with one more name: whether each other name stands before it, and whether it stands before
// each of them.
pub(crate) fn grown(
    alloc: Global,
    rows: &[Vec<bool>],
    befores: &[bool],
    afters: &[bool],
) -> Result<Vec<Vec<bool>>, Memory>
    requires { length befores.now ≡ length rows.now }
    ensures { IfOk result (λ v.
        lists_of v.items ≡ grown_rows (lists_of rows.now) befores.now afters.now) }
{
    let mut longer = Vec::new(alloc);
    for (i, row) in rows.iter().enumerate() {
        longer.push(with_last(alloc, row, befores[i])?)?;
    }
    longer.push(with_last(alloc, afters, false)?)?;
    Ok(longer)
}

// The facts with one more at their end.
fn with_last(alloc: Global, facts: &[bool], last: bool) -> Result<Vec<bool>, Memory>
    ensures { IfOk result (λ v. v.items ≡ facts.now ++ last ∷ []) }
{
    let mut longer = facts.to_vec(alloc)?;
    longer.push(last)?;
    Ok(longer)
}

// One more of the rows.
pub(crate) fn copy_rows(alloc: Global, rows: &[Vec<bool>]) -> Result<Vec<Vec<bool>>, Memory>
    ensures { IfOk result (λ v. lists_of v.items ≡ lists_of rows.now) }
{
    let mut copies = Vec::new(alloc);
    for row in rows {
        copies.push(row.to_vec(alloc)?)?;
    }
    Ok(copies)
}

// One more fact, x before y, of two of the names.
pub(crate) fn put_fact(names: &[Name], rows: &mut [Vec<bool>], x: Name, y: Name)
    requires square { IsSquare (numbers_of names.now) (lists_of rows.old) }
    requires first { IsTrue (holds x.0 (numbers_of names.now)) }
    requires second { IsTrue (holds y.0 (numbers_of names.now)) }
    ensures { let ns = numbers_of names.now in
        lists_of rows.new ≡ put_rows (lists_of rows.old) (place_in x.0 ns) (place_in y.0 ns) }
{
    let i = place_of(names, x);
    let j = place_of(names, y);
    let row = &mut rows[i];
    row[j] = true;
}
