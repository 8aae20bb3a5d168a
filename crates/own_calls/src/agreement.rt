//! Whether arguments agree with parameters in number, labels, forms and types.

ghost use Rattle.std.specs.Prelude.{◌≡◌};
ghost use Rattle.own_calls.specs.Arguments.{agrees, arguments_agree, is_trailing, same_label, same_type, takes};

use own_tree::{ArgInfo, Bytes, Form, Mode, ParamInfo, Ty};

fn same_label(wanted: &Option<Bytes>, given: &Option<Bytes>) -> bool
    ensures { result ≡ same_label wanted.now given.now }
{
    match (wanted, given) {
        (None, None) => true,
        (Some(wanted), Some(given)) => wanted.as_slice() == given.as_slice(),
        _ => false,
    }
}

fn same_type(wanted: Ty, given: Ty) -> bool
    ensures { result ≡ same_type wanted given }
{
    wanted == given
}

/// Whether a parameter takes an argument that is written so. Only `inout` takes `&path`, and only a
/// function type takes a closure.
fn takes(param: &ParamInfo, form: Form) -> bool
    ensures { result ≡ takes param.now form }
{
    match (param.mode, param.ty) {
        (Mode::Inout, _) => matches!(form, Form::Address),
        (_, Ty::Fun(_)) => matches!(form, Form::Closure | Form::Path),
        _ => matches!(form, Form::Value | Form::Path),
    }
}

/// Whether the first of these arguments is a trailing closure of a call that ends there (SE-0279): the
/// last one, without a label, that ends with the call. One inside the parentheses ends before the `)`.
fn is_trailing(args: &[ArgInfo], end: u32) -> bool
    ensures { result ≡ is_trailing end args.now }
{
    match args {
        [arg] => matches!(arg.form, Form::Closure) && arg.label.is_none() && arg.at.end == end,
        _ => false,
    }
}

/// Whether an argument agrees with its parameter. A trailing closure has no label, and agrees with any.
fn agrees(param: &ParamInfo, arg: &ArgInfo, trailing: bool) -> bool
    ensures { result ≡ agrees trailing param.now arg.now }
{
    (trailing || same_label(&param.label, &arg.label))
        && takes(param, arg.form)
        && same_type(param.ty, arg.ty)
}

/// Whether the arguments of a call that ends there agree with the parameters.
pub fn arguments_agree(params: &[ParamInfo], args: &[ArgInfo], end: u32) -> bool
    ensures { result ≡ arguments_agree end params.now args.now }
{
    if params.len() != args.len() {
        return false;
    }
    for (number, arg) in args.iter().enumerate() {
        let trailing = is_trailing(&args[number..], end);
        if !agrees(&params[number], arg, trailing) {
            return false;
        }
    }
    true
}
