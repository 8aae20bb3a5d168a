//! How a parameter takes its argument.

ghost use Rattle.std.specs.Prelude.{◌≡◌, All, IfOk, map};
ghost use Rattle.own_table.specs.Table.{shape_in_table, IsTypeIn};
ghost use Rattle.own_calls.specs.Arguments.{passing_of};

use own_table::TypeTable;
use own_tree::{Mode, ParamInfo, Passing, Row, Ty};
use std::alloc::{AllocError, Global};

/// How a parameter takes its argument. Without a modifier, as at a payload or a property of a
/// construction, what cannot be copied is consumed.
fn passing_of(table: &TypeTable, param: &ParamInfo) -> Passing
    requires { IsTypeIn table.now param.now.ty }
    ensures { result ≡ passing_of (shape_in_table table.now) param.now }
{
    match (param.mode, param.ty) {
        (Mode::Inout, _) => Passing::Inout,
        (_, Ty::Fun(_)) => Passing::Closure,
        (_, ty) if table.copyable(ty) => Passing::ByValue,
        (Mode::Borrowing, _) => Passing::Borrow,
        _ => Passing::Consume,
    }
}

/// How each parameter takes its argument, in order.
pub fn passings(
    alloc: Global,
    table: &TypeTable,
    params: &[ParamInfo],
) -> Result<Row<Passing>, AllocError>
    requires { All (λ p. IsTypeIn table.now p.ty) params.now }
    ensures { IfOk result (λ row. row ≡ map (passing_of (shape_in_table table.now)) params.now) }
{
    let mut row = Row::new(alloc);
    for param in params {
        row.push(passing_of(table, param))?;
    }
    Ok(row)
}
