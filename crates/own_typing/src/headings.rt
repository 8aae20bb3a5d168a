//! What the declaration of a body says of it.

use own_scope::signatures::given_result;
use own_scope::types::{copyable, is_type, properties};
use own_scope::{Context, Known, Receiver};
use own_table::TypeTable;
use own_tree::tree::{FunctionDeclaration, Method, MethodMode};
use own_tree::typed::BodyKind;
use own_tree::{Mode, Span, Ty};

/// What is known of a body by its declaration.
#[derive(Clone, Copy)]
pub struct Heading {
    pub kind: BodyKind,
    /// The type whose member it is.
    pub owner: Option<u32>,
    /// How it has its `self`, where it has one.
    pub receiver: Option<Mode>,
    /// Its name, or its word.
    pub span: Span,
    pub result: Ty,
    /// Whether `discard self` may stand in it.
    pub may_discard: bool,
}

/// The first bytes of a span.
fn word_of(length: u32, span: Span) -> Span {
    Span {
        start: span.start,
        end: span.start.saturating_add(length).min(span.end),
    }
}

/// That of an `init`, which stands at that span.
pub fn initializer_heading(owner: u32, span: Span) -> Heading {
    Heading {
        kind: BodyKind::Initializer,
        owner: Some(owner),
        receiver: Some(Mode::SelfInit),
        span: word_of(4, span),
        result: Ty::Unit,
        may_discard: false,
    }
}

/// That of a `deinit` (SE-0390), which stands at that span.
pub fn deinitializer_heading(owner: u32, span: Span) -> Heading {
    Heading {
        kind: BodyKind::Deinitializer,
        owner: Some(owner),
        receiver: Some(Mode::SelfDeinit),
        span: word_of(6, span),
        result: Ty::Unit,
        may_discard: false,
    }
}

/// SE-0390: a method without a modifier borrows a noncopyable `self`; a copyable one it has as a value.
fn method_receiver(is_copyable: bool, mode: Option<MethodMode>) -> Mode {
    match mode {
        None if is_copyable => Mode::Plain,
        None | Some(MethodMode::Borrowing) => Mode::SelfBorrowing,
        Some(MethodMode::Consuming) => Mode::SelfConsuming,
        Some(MethodMode::Mutating) => Mode::SelfMutating,
    }
}

/// Whether a type of the table has a `deinit`.
fn is_tracked(table: &TypeTable, ty: Ty) -> bool {
    is_type(table, ty) && table.tracked(ty)
}

/// SE-0390: `discard self` is of a type with a `deinit`; that all stored properties are copyable is asked
/// besides.
fn may_be_discarded(table: &TypeTable, ty: Ty) -> bool {
    is_tracked(table, ty)
        && properties(table, ty)
            .iter()
            .all(|field| copyable(table, field.ty))
}

/// That of a method.
pub fn method_heading(known: &Known<'_>, owner: u32, method: &Method) -> Heading {
    let ty = Ty::Named(owner);
    let is_consuming = method.mode == Some(MethodMode::Consuming);
    Heading {
        kind: BodyKind::Method,
        owner: Some(owner),
        receiver: Some(method_receiver(copyable(known.table, ty), method.mode)),
        span: method.function.name.span,
        result: given_result(&known.types, &method.function.result),
        may_discard: is_consuming && may_be_discarded(known.table, ty),
    }
}

/// That of a function.
pub fn function_heading(known: &Known<'_>, function: &FunctionDeclaration) -> Heading {
    Heading {
        kind: BodyKind::Function,
        owner: None,
        receiver: None,
        span: function.name.span,
        result: given_result(&known.types, &function.result),
        may_discard: false,
    }
}

/// What is known at the begin of that body.
pub fn context_of(heading: Heading, body: u32, receiver: Option<Receiver>) -> Context {
    Context {
        body,
        receiver,
        owner: heading.owner,
        in_closure: false,
        result: heading.result,
        in_loop: false,
        in_switch: false,
        may_discard: heading.may_discard,
    }
}
