//! The arguments of a call against the parameters of what it calls.

ghost use Rattle.std.specs.Prelude.{◌≡◌, true, All, IfOk, IfErr, OnOk, map};
ghost use Rattle.own_table.specs.Table.{shape_in_table, IsTypeIn};
ghost use Rattle.own_calls.specs.Arguments.{IsRefusal, arguments_agree, passing_of};

use crate::agreement::arguments_agree;
use crate::error::TypeError;
use crate::passing::passings;
use own_table::TypeTable;
use own_tree::{ArgInfo, ParamInfo, Passing, Row, Span};
use std::alloc::Global;

/// The number of the judgement that arguments agree with the parameters (T13).
pub const ARGUMENTS_DIFFER: u8 = 13;

/// How each argument of a call is passed, in the order of the parameters (SE-0377). `BadType` comes
/// where they differ in number, labels, forms or types, with T13 and the span of the call, whichever
/// argument it is, and `Memory` where there is none for the answer. `Uncovered` never comes.
///
/// `at` is the span of the call, in bytes of the text from 0, and a receiver is none of the arguments.
/// The last argument is a trailing closure where it is a closure without a label that ends where the call
/// ends; it then agrees with any label (SE-0279). Inside the parentheses a closure ends before the `)`.
pub fn check_args(
    alloc: Global,
    table: &TypeTable,
    params: &[ParamInfo],
    args: &[ArgInfo],
    at: Span,
) -> Result<Row<Passing>, TypeError>
    requires params { All (λ p. IsTypeIn table.now p.ty) params.now }
    requires args { All (λ a. IsTypeIn table.now a.ty) args.now }
    ensures agree { OnOk result (arguments_agree at.end params.now args.now ≡ true) }
    ensures passings { IfOk result (λ row. row ≡ map (passing_of (shape_in_table table.now)) params.now) }
    ensures err { IfErr result (IsRefusal params.now args.now at) }
{
    if !arguments_agree(params, args, at.end) {
        return Err(TypeError::BadType {
            code: ARGUMENTS_DIFFER,
            at,
        });
    }
    Ok(passings(alloc, table, params)?)
}
